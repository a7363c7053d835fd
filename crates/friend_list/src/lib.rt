// A member's friends, written to an output (document 01, "list").

#![tactic(auto)]

ghost use Rattle.std.specs.Prelude.{◌≡◌, ◌<◌, ◌≤◌, length, take};
ghost use Rattle.model.specs.Requests.{those};
ghost use Rattle.model.specs.Calls.{FrontOnly};
ghost use Rattle.network.specs.Worlds.{members_in, graph_in};

use network::World;

// Writes u's friends in rising order at the front of the output; how many.
pub fn write(world: &World<'_>, u: usize, output: &mut [u16]) -> usize
    requires { (u < members_in world.now) × (members_in world.now ≤ length output.old) }
    ensures { (take result output.new ≡ those ((graph_in world.now).friends u) (members_in world.now)) × FrontOnly result output.old output.new }
{
    let mut count = 0;
    for m in 0..world.members() {
        if world.friends(u, m) {
            output[count] = m as u16;
            count += 1;
        }
    }
    count
}
