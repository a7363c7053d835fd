// The log program: runs the files `scheme` and `requests` of its folder (document 01, "Log program").

#![tactic(auto)]

use std::io;
use std::rt::Files;

// The buffers hold more than every scheme and log that is accepted, and so the answer for files of any length.
fn run(rt: &(impl Files + Print + Eprint)) -> io::Result<()> {
    let mut scheme = [0u8; 4096];
    let mut log = [0u8; 65536];
    let scheme_length = files::read(rt, b"scheme", &mut scheme);
    let log_length = files::read(rt, b"requests", &mut log);
    let mut out = io::writer(rt);
    match replay::print(&mut out, &scheme[..scheme_length], &log[..log_length]) {
        Ok(_) => Ok(()),
        Err(cut) => eprintln!(rt; "{cut}"), // a write failed
    }
}

fn main(rt: HostRuntime) -> io::Result<()> {
    run(&rt)
}
