// Compares the files of examples/standard, of which this crate's data/ has copies, with the proved bytes.

#![tactic(auto)]

use std::io;
use std::rt::Files;

// Prints a file's name, and 1 if it holds these bytes, else 0. A file that cannot be read counts as empty.
fn print_same(rt: &(impl Files + Print), name: &str, bytes: &[u8]) -> io::Result<()> {
    let mut buffer = [0u8; 4096];
    let count = files::read(rt, name.as_bytes(), &mut buffer);
    println!(rt; "{name} {}", u8::from(&buffer[..count] == bytes))
}

fn main(rt: HostRuntime) -> io::Result<()> {
    let mut scheme = [0u8; 150];
    let mut session = [0u8; 139];
    standard::scheme(4, &mut scheme);
    standard::session(&mut session);
    print_same(&rt, "scheme", &scheme)?;
    print_same(&rt, "requests", &session)
}
