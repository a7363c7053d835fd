// Distances over friendships (document 01, "Policies", kind 3; document 02, 2026-01).

#![tactic(auto)]

ghost use Rattle.std.specs.Prelude.{◌<◌, ◌≤◌};
ghost use Rattle.network.specs.Worlds.{members_in, graph_in};
ghost use Rattle.distance.specs.Distances.{Distances};
ghost use Rattle.distance.specs.Marks.{Layered};

use network::World;

// Marks the friends of those with a mark that have none yet; false where nobody had that mark, or everybody has one.
fn layer(world: &World<'_>, mark: u16, distances: &mut [u16; 256]) -> bool
    requires { (0 < mark) × (mark ≤ 255) }
    ensures { Layered (graph_in world.now) mark distances.old (members_in world.now) distances.new result }
{
    let members = world.members();
    let mut from = 0;
    let mut some = false;
    for m in 0..members {
        if distances[m] == mark {
            let Some(first) = next_friend::marks::first_marked(distances, 0, from, members) else {
                return false;
            };
            next_friend::marks::spread(world, m, mark + 1, first, distances);
            from = first;
            some = true;
        }
    }
    some
}

// The walk outward from v: writes the mark of each member's distance to v, up to the limit.
pub fn fill(world: &World<'_>, v: usize, limit: usize, distances: &mut [u16; 256])
    requires { (v < members_in world.now) × (limit ≤ 255) }
    ensures { Distances (graph_in world.now) v limit distances.new }
{
    *distances = [0; 256];
    distances[v] = 1;
    for mark in 1..=limit as u16 {
        if !layer(world, mark, distances) {
            return;
        }
    }
}
