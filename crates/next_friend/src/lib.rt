// Friends of a member, by the pair bytes in their order: the next who is not seen.

#![tactic(auto)]

ghost use Rattle.std.specs.Prelude.{◌≡◌, ◌+◌, ◌<◌, ◌≤◌, length};
ghost use Rattle.network.specs.Worlds.{members_in, graph_in};
ghost use Rattle.next_friend.specs.Next.{NextFriend};
ghost use Rattle.next_friend.specs.Side.{OnSide};

pub mod marks;
pub mod side;

use network::World;
use side::Side;

// The first friend of m who is not seen, of those from one member on before another, on one side of m.
fn on_side<const ABOVE: bool>(
    world: &World<'_>,
    m: usize,
    seen: &[u16],
    from: usize,
    end: usize,
) -> Option<usize>
    requires { (m < members_in world.now) × (members_in world.now ≤ length seen.now) × (from ≤ end) × (end ≤ members_in world.now) × OnSide ABOVE m from end }
    ensures { NextFriend (graph_in world.now) m seen.now from end result }
{
    for (k, friend) in Side::<ABOVE>::new(world, m, from, end) {
        if friend && seen[k] == 0 {
            return Some(k);
        }
    }
    None
}

// The first friend of m from a member on who is not seen.
pub fn friend(world: &World<'_>, m: usize, seen: &[u16], from: usize) -> Option<usize>
    requires { (m < members_in world.now) × (members_in world.now ≤ length seen.now) × (from ≤ members_in world.now) }
    ensures { NextFriend (graph_in world.now) m seen.now from (members_in world.now) result }
{
    let members = world.members();
    if m < from {
        return on_side::<true>(world, m, seen, from, members);
    }
    if let Some(k) = on_side::<false>(world, m, seen, from, m) {
        return Some(k);
    }
    on_side::<true>(world, m, seen, m + 1, members)
}
