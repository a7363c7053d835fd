// Reads cases from standard input and prints what degree answers. A case is a 2-byte length and a scheme's bytes, a 2-byte
// length and a network's bytes, and a 2-byte count of questions, each two members of 2 bytes each.

#![tactic(auto)]

use cases::Stop;
use refusals::Refusal;
use std::io;
use std::io::Read;

// A grant's 0 and number of friendships or none, or the refusal's number.
fn print_degree(rt: &impl Print, told: Result<Option<u16>, Refusal>) -> io::Result<()> {
    match told {
        Ok(Some(d)) => println!(rt; " 0 {d}"),
        Ok(None) => println!(rt; " 0 none"),
        Err(refusal) => println!(rt; " {}", u8::from(refusal)),
    }
}

// Reads a case and prints its lines.
fn run_case<R: Read>(
    rt: &impl Print,
    input: &mut R,
    number: u64,
    scheme: &[u8],
    network: &[u8],
) -> Result<(), Stop> {
    let count = cases::read_number(input)?;
    for place in 1..=count {
        let v = cases::read_number(input)?;
        let u = cases::read_number(input)?;
        print!(rt; "{number} {place}")?;
        print_degree(rt, degree::degree(scheme, network, v, u))?;
    }
    Ok(())
}

fn main(rt: HostRuntime) -> io::Result<()> {
    cases::run(&mut rt.reader(), |input, number, scheme, network| {
        run_case(&rt, input, number, scheme, network)
    })
}
