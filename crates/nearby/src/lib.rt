// Who may share a friend with a member.

#![tactic(auto)]

ghost use Rattle.std.specs.Prelude.{ℕ};
ghost use Rattle.network.specs.Worlds.{graph_in};
ghost use Rattle.sets.specs.Rows.{FriendRow, PersonRow};
ghost use Rattle.nearby.specs.Near.{FriendsOf, Near};

use network::World;

// A set with every friend of some members.
fn friends_of(world: &World<'_>, some: [u64; 4]) -> [u64; 4]
    ensures { FriendsOf (graph_in world.now) some result }
{
    let mut all = [0; 4];
    for m in sets::members(some) {
        if m >= world.members() {
            break;
        }
        let more = sets::join(all, rows::friend_row(world, m));
        all = more;
    }
    all
}

// A set with every member that shares a friend with the one whose friends are given: the friends of those that are persons, or
// everybody where these are many.
pub fn members(world: &World<'_>, friends: [u64; 4], persons: [u64; 4]) -> [u64; 4]
    requires { PersonRow (graph_in world.now) persons }
    ensures { (v : ℕ) → FriendRow (graph_in world.now) v friends → Near (graph_in world.now) v result }
{
    if sets::shared(friends, friends, persons) as usize > world.members() / 16 + 8 {
        return [!0; 4];
    }
    friends_of(world, sets::meet(friends, persons))
}
