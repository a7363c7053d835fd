// The text of two files, a buffer at a time (document 01, "Log program").

#![tactic(auto)]

ghost use Rattle.std.specs.Prelude.{◌≡◌, ◌+◌, ◌≤◌, length};
ghost use Rattle.model.specs.Decides.{Decides};
ghost use Rattle.fresh_start.specs.Stands.{Ready, moment};
ghost use Rattle.replay.specs.Fills.{IsOver, Fills, Adds, Gives, Printed, Handed, Continued};

use fresh_start::Stand;
use lines::Text;
use std::error::Error;
use std::io::Write;
use std::{fmt, io};

// The text was cut: a write failed, after so many bytes were handed over.
#[derive(Debug, Drop)]
pub struct Cut {
    pub written: u64,
    pub error: io::Error,
}

impl fmt::Display for Cut {
    fn fmt<W: fmt::Write>(&self, f: &mut fmt::Formatter<W>) -> fmt::Result {
        write!(f, "the output is cut: {}", self.error)
    }
}

impl Error for Cut {}

// Whether there is a next step, where so many bytes are lent for the network, and so many are free for its line.
fn ready(here: Stand, network: usize, room: usize) -> bool
    ensures { Decides result (Ready here network × (1548 ≤ room)) }
{
    if room < 1548 {
        return false;
    }
    match here {
        Stand::Start => network >= 39296,
        Stand::At(_, position, size) => position < 65535 && size <= network,
        Stand::Over => false,
    }
}

// Puts as many whole lines as surely fit, from where it stands on. Where it stands then.
pub fn fill(
    scheme: &[u8],
    log: &[u8],
    network: &mut [u8],
    text: &mut Text<'_>,
    from: Stand,
) -> Stand
    ensures fills { Fills scheme.now log.now (moment from network.old text.old) (moment result network.new text.new) }
    ensures same_reference { text.new.buffer.ghost_name ≡ text.old.buffer.ghost_name }
{
    let mut here = from;
    while ready(here, network.len(), text.room()) {
        here = steps::step(scheme, log, network, text, here);
    }
    here
}

fn over(here: Stand) -> bool
    ensures { Decides result (IsOver here) }
{
    here == Stand::Over
}

// Hands bytes over to be written, after so many.
fn write<W: Write>(out: &mut W, bytes: &[u8], written: u64) -> Result<u64, Cut>
    requires { written + length bytes.now ≤ 18446744073709551615 }
    ensures adds { Adds written (length bytes.now) result }
    ensures gives { Gives (W.contents out.old) (W.contents out.new) bytes.now result }
{
    match files::write(out, bytes) {
        Ok(()) => Ok(written + bytes.len() as u64),
        Err(error) => Err(Cut { written, error }),
    }
}

// Writes the text by buffers, up to a write that fails.
fn print_by<W: Write>(
    out: &mut W,
    scheme: &[u8],
    log: &[u8],
    network: &mut [u8],
    buffer: &mut [u8],
) -> Result<u64, Cut>
    requires { (39296 ≤ length network.old) × (1548 ≤ length buffer.old) × (length buffer.old ≤ 65536) }
    ensures printed { Printed scheme.now log.now result }
    ensures handed { Handed (W.contents out.old) (W.contents out.new) scheme.now log.now result }
{
    let mut here = Stand::Start;
    let mut written: u64 = 0;
    while !over(here) {
        let mut text = Text::new(buffer);
        here = fill(scheme, log, network, &mut text, here);
        written = write(out, text.as_bytes(), written)?;
    }
    Ok(written)
}

// Writes what the log program prints of these two files' bytes.
pub fn print<W: Write>(out: &mut W, scheme: &[u8], log: &[u8]) -> Result<u64, Cut>
    ensures printed { Printed scheme.now log.now result }
    ensures handed { Handed (W.contents out.old) (W.contents out.new) scheme.now log.now result }
{
    let mut network = [0u8; 65536];
    let mut buffer = [0u8; 65536];
    print_by(out, scheme, log, &mut network, &mut buffer)
}

// What was written and the text from where it stands are the text from where it stood.
pub fn continued()
    ensures { Continued }
{}
