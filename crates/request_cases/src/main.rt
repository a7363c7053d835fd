// Reads cases from standard input and prints what requests answer. A case is a 2-byte length and a scheme's bytes, a 2-byte
// length and a network's bytes, and a 2-byte count of requests, each four 2-byte numbers: its kind and its arguments.

#![tactic(auto)]

ghost use Rattle.std.specs.Prelude.{◌≤◌, length};

use cases::Stop;
use kinds::Request;
use std::io;
use std::io::Read;

// The request of a kind and its arguments, if there is such a kind.
fn decode(kind: usize, x: usize, y: usize, z: usize) -> Option<Request> {
    match kind {
        16 => Some(Request::Event(x, y, z)),
        17 => Some(Request::Set(x, y, z)),
        18 => Some(Request::Find(x, y)),
        19 => Some(Request::List(x, y)),
        20 => Some(Request::View(x, y, z)),
        _ => None,
    }
}

// A list's answer, where granted the count, and behind a bar every place of the output.
fn print_list(
    rt: &impl Print,
    scheme: &[u8],
    network: &mut [u8],
    request: Request,
    output: &mut [u16],
) -> io::Result<()>
    requires { length output.old ≤ 1000 }
{
    cases::fill(output);
    match calls::call(scheme, network, request, output) {
        Ok(count) => print!(rt; " 0 {count} |")?,
        Err(refusal) => print!(rt; " {} |", u8::from(refusal))?,
    }
    for place in output.iter() {
        print!(rt; " {place}")?;
    }
    Ok(())
}

// A request's answer; a list has as many places as its last argument says, and the output that many at least.
fn print_request(
    rt: &impl Print,
    scheme: &[u8],
    network: &mut [u8],
    request: Request,
    places: usize,
) -> io::Result<()> {
    // One place more than the most that a list needs.
    let mut output = [0u16; 257];
    if let Request::List(_, _) = request {
        if places <= output.len() {
            print_list(rt, scheme, network, request, &mut output[..places])?;
        }
        return Ok(());
    }
    let answer = refusals::answer(calls::call(scheme, network, request, &mut output));
    print!(rt; " {answer}")
}

// Reads a request and prints its line.
fn run_request<R: Read>(
    rt: &impl Print,
    input: &mut R,
    number: u64,
    place: usize,
    scheme: &[u8],
    network: &mut [u8],
) -> Result<(), Stop> {
    let kind = cases::read_number(input)?;
    let x = cases::read_number(input)?;
    let y = cases::read_number(input)?;
    let z = cases::read_number(input)?;
    print!(rt; "{number} {place}")?;
    if let Some(request) = decode(kind, x, y, z) {
        print_request(rt, scheme, network, request, z)?;
    }
    println!(rt; "")?;
    Ok(())
}

// Reads a case and prints its lines; the last is the sum of its network's bytes.
fn run_case<R: Read>(
    rt: &impl Print,
    input: &mut R,
    number: u64,
    scheme: &[u8],
    network: &mut [u8],
) -> Result<(), Stop> {
    let count = cases::read_number(input)?;
    for place in 1..=count {
        run_request(rt, input, number, place, scheme, network)?;
    }
    println!(rt; "{number} sum {}", cases::sum(network))?;
    Ok(())
}

fn main(rt: HostRuntime) -> io::Result<()> {
    cases::run(&mut rt.reader(), |input, number, scheme, network| {
        run_case(&rt, input, number, scheme, network)
    })
}
