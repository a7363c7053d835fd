// Marks for the friends of a member, by the pair bytes in their order.
ghost use Rattle.std.specs.Prelude.{◌≡◌, cond, ◌<◌, ◌≤◌};
ghost use Rattle.network.specs.Worlds.{members_in, graph_in};
ghost use Rattle.next_friend.specs.First.{FirstMarked};
ghost use Rattle.next_friend.specs.Side.{OnSide};
ghost use Rattle.next_friend.specs.Spread.{Marked, Run, Spread};

use super::side::Side;
use network::World;

// The mark for a friend; none for another.
fn for_friend(friend: bool, mark: u16) -> u16
    ensures { result ≡ cond friend mark 0 }
{
    if friend { mark } else { 0 }
}

// Marks the friends of m that have no mark yet, of those from one member on before another, on one side of m. Whether one has a mark
// can be foreseen, since most soon have; whether one is a friend often cannot, and is no branch.
fn on_side<const ABOVE: bool>(
    world: &World<'_>,
    m: usize,
    mark: u16,
    from: usize,
    end: usize,
    marks: &mut [u16; 256],
)
    requires { (m < members_in world.now) × (0 < mark) × (from ≤ end) × (end ≤ members_in world.now) × OnSide ABOVE m from end }
    ensures { Spread (graph_in world.now) (Run m from end) mark marks.old marks.new }
{
    for (k, friend) in Side::<ABOVE>::new(world, m, from, end) {
        if marks[k] == 0 {
            marks[k] = for_friend(friend, mark);
        }
    }
}

// Marks the friends of m that have no mark yet, from a member on before whom all have one.
pub fn spread(world: &World<'_>, m: usize, mark: u16, from: usize, marks: &mut [u16; 256])
    requires { (m < members_in world.now) × (0 < mark) × Marked (members_in world.now) marks.old from }
    ensures { Spread (graph_in world.now) (λ j k. j ≡ m) mark marks.old marks.new }
{
    let members = world.members();
    if m < from {
        on_side::<true>(world, m, mark, from, members, marks);
        return;
    }
    on_side::<false>(world, m, mark, from, m, marks);
    on_side::<true>(world, m, mark, m + 1, members, marks);
}

// The first member with a mark, from one on and before an end.
pub fn first_marked(marks: &[u16; 256], mark: u16, from: usize, end: usize) -> Option<usize>
    requires { (from ≤ end) × (end ≤ 256) }
    ensures { FirstMarked mark marks.now from end result }
{
    (from..end).find(|k| marks[*k] == mark)
}
