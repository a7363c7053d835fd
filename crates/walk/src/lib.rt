// The walk outward from the members that wait (document 01, "Finding").

#![tactic(auto)]

ghost use Rattle.std.specs.Prelude.{◌≡◌, ◌<◌, ◌≤◌, MatchOption};
ghost use Rattle.model.specs.Graph.{Friends};
ghost use Rattle.model.specs.SchemeBytes.{n};
ghost use Rattle.network.specs.Worlds.{members_in, graph_in};
ghost use Rattle.prepared.specs.Asking.{world_asked};
ghost use Rattle.walk.specs.Walks.{sought, AllSeen, Met, Expanded, Walk, Unmet, Walked};

use network::World;
use next_friend::marks::first_marked;
use prepared::Accessor;
use starts::WAITING;

// Of a member that was expanded.
const EXPANDED: u16 = 2;

// Marks the unseen friends of m as waiting, unless u, if one is named, is met among them. Everyone below a member is seen.
// Returns a member, at most m, below whom no mark changed; none where u is met.
fn expand(
    world: &World<'_>,
    m: usize,
    u: Option<usize>,
    mut from: usize,
    seen: &mut [u16; 256],
) -> Option<usize>
    requires { (m < members_in world.now) × (from ≤ members_in world.now) × AllSeen from seen.old }
    ensures { MatchOption result (Met (graph_in world.now) m (sought (members_in world.now) u)) (λ low. Expanded (graph_in world.now) m (sought (members_in world.now) u) seen.old (members_in world.now) low seen.new) }
{
    let mut low = m;
    while let Some(k) = next_friend::friend(world, m, seen, from) {
        if Some(k) == u {
            return None;
        }
        seen[k] = WAITING;
        low = low.min(k);
        from = k + 1;
    }
    Some(low)
}

// Expands members until u, if one is named, is met or no member is left to expand. Nobody below low waits, everyone below first
// is seen.
pub fn walk(accessor: &Accessor<'_>, u: Option<usize>, seen: &mut [u16; 256]) -> bool
    requires { Walk (world_asked accessor.now) accessor.now.v seen.old × Unmet (world_asked accessor.now) (sought (n accessor.now.scheme) u) seen.old }
    ensures { Walked (world_asked accessor.now) accessor.now.v (sought (n accessor.now.scheme) u) seen.old seen.new result }
{
    let world = accessor.world;
    let members = world.members();
    let mut low = 0;
    let mut first = 0;
    let found = 'walk: loop {
        let Some(m) = first_marked(seen, WAITING, low, members) else {
            break 'walk false;
        };
        seen[m] = EXPANDED;
        low = m + 1;
        first = first_marked(seen, 0, first, members).unwrap_or(members);
        // Where nobody is unseen, m has nobody to lead to.
        if first < members && starts::allows(accessor, m, 1) {
            let Some(least) = expand(world, m, u, first, seen) else {
                break 'walk true;
            };
            low = least;
        }
    };
    found
}
