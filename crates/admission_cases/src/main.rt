// Reads cases from standard input and prints whom their policies admit. A case is a 2-byte length and a scheme's bytes, a
// 2-byte length and a network's bytes, and a 2-byte count of questions, each an accessor and an owner of 2 bytes each.
// The scheme has to be accepted, the network to be valid, and the members to be below n: the program stops at others.

#![tactic(auto)]

ghost use Rattle.std.specs.Prelude.{◌<◌};
ghost use Rattle.network.specs.Worlds.{members_in};

use cases::Stop;
use network::World;
use prepared::{Accessor, Places};
use std::io;
use std::io::Read;

// A question's line: the case's number, accessor, owner, and the set of policies that admit.
fn print_admitted(
    rt: &impl Print,
    number: u64,
    world: &World<'_>,
    v: usize,
    u: usize,
) -> io::Result<()>
    requires { (v < members_in world.now) × (u < members_in world.now) }
{
    let mut places = Places::new();
    prepared::prepare(world, v, &mut places);
    let accessor = Accessor::new(world, v, &places);
    let set = policies::admitted(&accessor, u, 0, world.scheme.counts.policies);
    println!(rt; "{number} {v} {u} {set}")
}

// Reads a case and prints its lines.
fn run_case<R: Read>(
    rt: &impl Print,
    input: &mut R,
    number: u64,
    scheme: &[u8],
    network: &[u8],
) -> Result<(), Stop> {
    // Every scheme has a member 0.
    let Ok(world) = opening::open(scheme, network, 0, 0) else {
        return Err(Stop::End);
    };
    for _ in 0..cases::read_number(input)? {
        let v = cases::read_number(input)?;
        let u = cases::read_number(input)?;
        if v >= world.members() || u >= world.members() {
            return Err(Stop::End);
        }
        print_admitted(rt, number, &world, v, u)?;
    }
    Ok(())
}

fn main(rt: HostRuntime) -> io::Result<()> {
    cases::run(&mut rt.reader(), |input, number, scheme, network| {
        run_case(&rt, input, number, scheme, network)
    })
}
