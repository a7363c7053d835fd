// Reads cases from standard input and prints what suggest answers. A case is a 2-byte length and a scheme's bytes, a 2-byte
// length and a network's bytes, and a 2-byte count of questions, each a member and a wanted number of 8 bytes each, and a 2-byte
// number of places.

#![tactic(auto)]

ghost use Rattle.std.specs.Prelude.{◌≤◌, length};

use cases::Stop;
use std::io;
use std::io::Read;

// What suggest answers, where granted the count, and behind a bar every place of the output.
fn print_suggest(
    rt: &impl Print,
    scheme: &[u8],
    network: &[u8],
    v: usize,
    c: usize,
    output: &mut [u16],
) -> io::Result<()>
    requires { length output.old ≤ 1000 }
{
    cases::fill(output);
    match suggestions::suggest(scheme, network, v, c, output) {
        Ok(count) => print!(rt; " 0 {count} |")?,
        Err(refusal) => print!(rt; " {} |", u8::from(refusal))?,
    }
    for place in output.iter() {
        print!(rt; " {place}")?;
    }
    println!(rt; "")
}

// Reads a case and prints its lines, up to a question with more places than the output has.
fn run_case<R: Read>(
    rt: &impl Print,
    input: &mut R,
    number: u64,
    scheme: &[u8],
    network: &[u8],
) -> Result<(), Stop> {
    // More places than a network can have members.
    let mut output = [0u16; 300];
    let count = cases::read_number(input)?;
    for place in 1..=count {
        let v = cases::read_long(input)?;
        let c = cases::read_long(input)?;
        let places = cases::read_number(input)?;
        if places > output.len() {
            return Err(Stop::End);
        }
        print!(rt; "{number} {place}")?;
        print_suggest(rt, scheme, network, v, c, &mut output[..places])?;
    }
    Ok(())
}

fn main(rt: HostRuntime) -> io::Result<()> {
    cases::run(&mut rt.reader(), |input, number, scheme, network| {
        run_case(&rt, input, number, scheme, network)
    })
}
