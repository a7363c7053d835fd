// Reads cases from standard input and prints what the scheme check, the test of a network and the fresh network answer to
// each. A case is a 2-byte length and a scheme's bytes, then a 2-byte length and a network's bytes.

#![tactic(auto)]

use cases::Stop;
use std::io;

// A case's lines on its scheme, and on its network as it is given.
fn print_check(rt: &impl Print, number: u64, bytes: &[u8], network: &[u8]) -> io::Result<()> {
    let scheme = match scheme::check(bytes) {
        Ok(scheme) => scheme,
        Err(refusal) => return println!(rt; "{number} check {}", u8::from(refusal)),
    };
    let c = scheme.counts;
    println!(rt;
        "{number} check 0 {} {} {} {} {}",
        c.members, c.states, c.primitives, c.items, c.policies
    )?;
    println!(rt;
        "{number} valid {}",
        u8::from(validity::valid(&scheme, network))
    )
}

// A case's line on its network made fresh.
fn print_fresh(rt: &impl Print, number: u64, scheme: &[u8], network: &mut [u8]) -> io::Result<()> {
    let answer = refusals::answer(fresh::fresh(scheme, network));
    println!(rt; "{number} fresh {answer} {}", cases::sum(network))
}

// Prints a case's lines.
fn run_case(rt: &impl Print, number: u64, scheme: &[u8], network: &mut [u8]) -> Result<(), Stop> {
    print_check(rt, number, scheme, network)?;
    print_fresh(rt, number, scheme, network)?;
    Ok(())
}

fn main(rt: HostRuntime) -> io::Result<()> {
    cases::run(&mut rt.reader(), |_, number, scheme, network| {
        run_case(&rt, number, scheme, network)
    })
}
