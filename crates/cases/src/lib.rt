// What the programs that run stored cases share: reading a case from standard input, an output filled before a call, and a sum of
// bytes.

#![tactic(auto)]

ghost use Rattle.std.specs.Prelude.{◌≡◌, ◌<◌, ◌≤◌, ℕ, length, take, IfOk, IfErr, Err};
ghost use Rattle.std.specs.Int.{w16, w64};
ghost use Rattle.std.specs.declared.io.Error.{Error};
ghost use Rattle.std.specs.Io.KnownBytes.{Consumes};
ghost use Rattle.cases.specs.declared.Stop.TheVariants.{End, Output};
ghost use Rattle.cases.specs.Parts.{NumberRead, Within, Kept};
ghost use Rattle.cases.specs.Places.{Filled};
ghost use Rattle.cases.specs.Runs.{OfCase};
ghost use Rattle.cases.specs.Sums.{adler};

use std::io;
use std::io::Read;

// Why a run of cases stops: the input ends, or has no further case, or the output fails.
#[derive(Debug, Drop)]
pub enum Stop {
    End,
    Output(io::Error),
}

impl From<io::Error> for Stop {
    ghost from_gives = { λ error stop. stop ≡ Output error };

    fn from(error: io::Error) -> Stop {
        Stop::Output(error)
    }
}

// Reads the two parts of a case, each to the front of its buffer, and runs it.
fn run_next<R: Read, F: Fn(&mut R, u64, &mut [u8], &mut [u8]) -> Result<(), Stop>>(
    input: &mut R,
    number: u64,
    first: &mut [u8],
    second: &mut [u8],
    run_case: &F,
) -> Result<(), Stop>
    requires { F.IsAlwaysCallable run_case.now }
    ensures { IfErr result (λ stop. (error : Error) → stop ≡ Output error → OfCase (F.post run_case.now) error) }
{
    let of_first = read_part(input, first)?;
    let of_second = read_part(input, second)?;
    run_case(
        input,
        number,
        &mut first[..of_first],
        &mut second[..of_second],
    )
}

// Runs a case after the other, numbered from 1 on, until one stops. A case begins with two parts. A proved loop has to end, and
// nothing says that the input does: the bound is one that no run reaches.
pub fn run<R: Read, F: Fn(&mut R, u64, &mut [u8], &mut [u8]) -> Result<(), Stop>>(
    input: &mut R,
    run_case: F,
) -> io::Result<()>
    requires { F.IsAlwaysCallable run_case }
    ensures { IfErr result (OfCase (F.post run_case)) }
{
    let mut first = [0u8; 65536];
    let mut second = [0u8; 65536];
    for number in 1..1000000 {
        match run_next(input, number, &mut first, &mut second, &run_case) {
            Ok(()) => {}
            Err(Stop::End) => return Ok(()),
            Err(Stop::Output(error)) => return Err(error),
        }
    }
    Ok(())
}

// Reads until the buffer is full, the input ends or a read fails; how many bytes it put at the front of the buffer.
pub fn read_full<R: Read>(input: &mut R, buffer: &mut [u8]) -> usize
    ensures within { result ≤ length buffer.new }
    ensures bytes { Consumes (R.remaining input.old) (R.remaining input.new) (take result buffer.new) }
{
    let mut done: usize = 0;
    while done < buffer.len() {
        match input.read(&mut buffer[done..]) {
            Ok(count) if count > 0 => done += count,
            _ => return done,
        }
    }
    done
}

// Reads so many bytes.
fn read_bytes<R: Read, const N: usize>(input: &mut R) -> Result<[u8; N], Stop>
    ensures ends { IfErr result (λ stop. stop ≡ End) }
    ensures bytes { IfOk result (λ bytes. Consumes (R.remaining input.old) (R.remaining input.new) bytes) }
{
    let mut bytes = [0u8; N];
    match input.read_exact(&mut bytes) {
        Ok(()) => Ok(bytes),
        Err(_) => Err(Stop::End),
    }
}

// Reads a 2-byte number.
pub fn read_number<R: Read>(input: &mut R) -> Result<usize, Stop>
    ensures ends { IfErr result (λ stop. stop ≡ End) }
    ensures small { IfOk result (λ n. n < 65536) }
    ensures bytes { NumberRead w16 (R.remaining input.old) (R.remaining input.new) result }
{
    Ok(usize::from(u16::from_le_bytes(read_bytes(input)?)))
}

// Reads an 8-byte number.
pub fn read_long<R: Read>(input: &mut R) -> Result<usize, Stop>
    ensures ends { IfErr result (λ stop. stop ≡ End) }
    ensures bytes { NumberRead w64 (R.remaining input.old) (R.remaining input.new) result }
{
    Ok(u64::from_le_bytes(read_bytes(input)?) as usize)
}

// Reads a 2-byte length and that many bytes; how many there were.
pub fn read_part<R: Read>(input: &mut R, buffer: &mut [u8]) -> Result<usize, Stop>
    ensures ends { IfErr result (λ stop. stop ≡ End) }
    ensures within { Within result (length buffer.new) }
    ensures kept { Kept result buffer.old buffer.new }
{
    let size = read_number(input)?;
    if size > buffer.len() {
        return Err(Stop::End);
    }
    Ok(read_full(input, &mut buffer[..size]))
}

// Puts 1000 + i at place i.
pub fn fill(output: &mut [u16])
    requires { length output.old ≤ 1000 }
    ensures { Filled output.new (length output.old) }
{
    for (i, place) in output.iter_mut().enumerate() {
        *place = (1000 + i) as u16;
    }
}

// The Adler-32 sum of the bytes.
pub fn sum(bytes: &[u8]) -> u64
    ensures { result ≡ adler bytes.now }
{
    let mut low: u64 = 1;
    let mut high: u64 = 0;
    for byte in bytes {
        low = (low + u64::from(*byte)) % 65521;
        high = (high + low) % 65521;
    }
    high * 65536 + low
}
