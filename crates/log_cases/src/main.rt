// Reads cases from standard input and prints what the log program prints of each. A case is a 2-byte length and a scheme's bytes,
// and a 2-byte length and a log's bytes.

#![tactic(auto)]

use cases::Stop;
use std::io;

// Prints a case's lines.
fn run_case(rt: &impl Print, number: u64, scheme: &[u8], log: &[u8]) -> Result<(), Stop> {
    let mut out = io::writer(rt);
    if let Err(cut) = replay::print(&mut out, scheme, log) {
        return Err(Stop::Output(cut.error));
    }
    println!(rt; "end {number}")?;
    Ok(())
}

fn main(rt: HostRuntime) -> io::Result<()> {
    cases::run(&mut rt.reader(), |_, number, scheme, log| {
        run_case(&rt, number, scheme, log)
    })
}
