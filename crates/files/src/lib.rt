// Files, read and written whole: a call that a signal interrupts is made again, and no other failure is passed over.

#![tactic(auto)]

ghost use Rattle.std.specs.Prelude.{◌≡◌, ◌-◌, ◌<◌, ◌≤◌, length, take, drop, MatchResult, OnOk, IfOk};
ghost use Rattle.std.specs.Io.KnownBytes.{Appends, Consumes};
ghost use Rattle.files.specs.Transfers.{moved, IsPrefixLen, Given};

use std::fs::File;
use std::io::{Error, ErrorKind, Read, Write};
use std::rt::Files;
use std::{io, str};

// What a read or a write over these bytes answered: it moved so many of them, and where it moved none, it ended.
fn told(got: io::Result<usize>, bytes: &[u8]) -> io::Result<usize>
    ensures within { IfOk result (λ n. n ≤ length bytes.now) }
    ensures tells { MatchResult got (λ n. n ≤ length bytes.now → moved result ≡ n) (λ _. moved result ≡ 0) }
{
    Ok(got?.min(bytes.len()))
}

// One read to the buffer from a place on.
fn read_part<R: Read>(file: &mut R, buffer: &mut [u8], from: usize) -> io::Result<usize>
    requires { from ≤ length buffer.old }
    ensures within { IfOk result (λ n. n ≤ length buffer.old - from) }
    ensures front { take from buffer.new ≡ take from buffer.old }
    ensures bytes { Consumes (R.remaining file.old) (R.remaining file.new) (take (moved result) (drop from buffer.new)) }
{
    let space = &mut buffer[from..];
    let got = file.read(space);
    told(got, space)
}

// Reads to the end, or until the buffer is full; an error where a read fails, or a thousand were interrupted.
fn read_all<R: Read>(file: &mut R, buffer: &mut [u8]) -> io::Result<usize>
    ensures prefix { IfOk result (λ n. IsPrefixLen n buffer.new) }
    ensures bytes { IfOk result (λ n. Consumes (R.remaining file.old) (R.remaining file.new) (take n buffer.new)) }
{
    let mut done: usize = 0;
    let mut interrupted: usize = 0;
    while interrupted < 1000 {
        if done == buffer.len() {
            return Ok(done);
        }
        let part = read_part(file, buffer, done);
        match part {
            Ok(0) => return Ok(done),
            Ok(count) => done += count,
            Err(error) if error.kind() == ErrorKind::Interrupted => interrupted += 1,
            Err(error) => return Err(error),
        }
    }
    Err(Error::from(ErrorKind::Interrupted))
}

// A file's bytes to the front of the buffer, as many as it holds; how many. A file that cannot be opened, also since its name is
// no UTF-8 text, or of which a read fails, is empty.
pub fn read<R: Files>(rt: &R, path: &[u8], buffer: &mut [u8]) -> usize
    ensures { IsPrefixLen result buffer.new }
{
    let Ok(name) = str::from_utf8(path) else {
        return 0;
    };
    let Ok(mut file) = File::open(rt, name) else {
        return 0;
    };
    read_all(&mut file, buffer).unwrap_or(0)
}

// One write of the bytes from a place on.
fn write_part<W: Write>(file: &mut W, bytes: &[u8], from: usize) -> io::Result<usize>
    requires { from ≤ length bytes.now }
    ensures within { IfOk result (λ n. n ≤ length bytes.now - from) }
    ensures bytes { Appends (W.contents file.old) (W.contents file.new) (take (moved result) (drop from bytes.now)) }
{
    let rest = &bytes[from..];
    told(file.write(rest), rest)
}

// All of the bytes, in one write where the system takes them so; an error where a write fails, or a thousand were interrupted:
// none is made after that, and what was given before it is the front of the bytes.
pub fn write<W: Write>(file: &mut W, bytes: &[u8]) -> io::Result<()>
    ensures whole { OnOk result (Appends (W.contents file.old) (W.contents file.new) bytes.now) }
    ensures front { Given (W.contents file.old) (W.contents file.new) bytes.now }
{
    let mut done: usize = 0;
    let mut interrupted: usize = 0;
    while interrupted < 1000 {
        if done == bytes.len() {
            return Ok(());
        }
        let part = write_part(file, bytes, done);
        match part {
            Ok(0) => return Err(Error::from(ErrorKind::WriteZero)),
            Ok(count) => done += count,
            Err(error) if error.kind() == ErrorKind::Interrupted => interrupted += 1,
            Err(error) => return Err(error),
        }
    }
    Err(Error::from(ErrorKind::Interrupted))
}
