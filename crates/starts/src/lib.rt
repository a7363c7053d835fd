// Where chains begin (document 01, "Finding"): whom a setting admits, and at which members a walk starts.

#![tactic(auto)]

ghost use Rattle.std.specs.Prelude.{◌≡◌, ℕ, ◌+◌, ◌<◌, get_or, IfSome};
ghost use Rattle.model.specs.Decides.{Decides};
ghost use Rattle.model.specs.Finding.{Allows};
ghost use Rattle.model.specs.SchemeBytes.{n, A, I};
ghost use Rattle.network.specs.Worlds.{members_in, world_in};
ghost use Rattle.prepared.specs.Asking.{world_asked};
ghost use Rattle.starts.specs.Starts.{Begun, SearchAdded};

use network::World;
use prepared::Accessor;

// Of a member that waits to be expanded; 0 of one unseen.
pub const WAITING: u16 = 1;

// Whether u's setting for resource r admits the accessor.
pub fn allows(accessor: &Accessor<'_>, u: usize, r: usize) -> bool
    requires { (u < n accessor.now.scheme) × (r < 2 + A accessor.now.scheme + I accessor.now.scheme) }
    ensures { Decides result (Allows (world_asked accessor.now) u r accessor.now.v) }
{
    policies::admits(accessor, u, accessor.world.setting(u, r))
}

// Marks the viewer and its friends as waiting, where nobody is seen.
pub fn begin(world: &World<'_>, v: usize, seen: &mut [u16; 256])
    requires { (v < members_in world.now) × ((k : ℕ) → k < 256 → get_or seen.old k 0 ≡ 0) }
    ensures { Begun (world_in world.now) v seen.new }
{
    next_friend::marks::spread(world, v, WAITING, 0, seen);
    seen[v] = WAITING;
}

// Marks the unseen members whose search setting admits the viewer as waiting. The setting of u, if one is named, does not admit
// the viewer, and is not asked again.
pub fn search(accessor: &Accessor<'_>, u: Option<usize>, seen: &mut [u16; 256])
    requires { IfSome u (λ x. x < n accessor.now.scheme → Allows (world_asked accessor.now) x 0 accessor.now.v → ⊥) }
    ensures { SearchAdded (world_asked accessor.now) accessor.now.v seen.old (n accessor.now.scheme) seen.new }
{
    for k in 0..accessor.world.members() {
        if seen[k] == 0 && Some(k) != u && allows(accessor, k, 0) {
            seen[k] = WAITING;
        }
    }
}
