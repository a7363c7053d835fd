// How a run of the log program starts (document 01, "Log program").

#![tactic(auto)]

ghost use Rattle.std.specs.Prelude.{◌≡◌, ◌+◌, ◌≤◌, length};
ghost use Rattle.fresh_start.specs.Started.{Started};
ghost use Rattle.fresh_start.specs.Stands.{moment, Stepped};

use lines::Text;
use refusals::Refusal;

// Where the program stands: before the scheme check; at the place of a record, at its position, with a network of so many bytes; or
// done.
#[derive(Clone, Copy, Debug, PartialEq, Eq)]
pub enum Stand {
    Start,
    At(usize, u16, usize),
    Over,
}

// The scheme check, 15, and a fresh network at the front of the lent bytes; how many bytes it has.
fn begin(scheme: &[u8], log: &[u8], network: &mut [u8]) -> Result<usize, Refusal>
    requires { 39296 ≤ length network.old }
    ensures { Started scheme.now log.now network.old result network.new }
{
    let checked = scheme::check(scheme);
    let Ok(read) = checked else {
        return Err(checked.unwrap_err());
    };
    if log.len() > 16384 {
        return Err(Refusal::LogLength);
    }
    let size = network::size(&read);
    let _ = fresh::fresh(scheme, &mut network[..size]);
    Ok(size)
}

// The first step: a fresh network, or the line of the refusal.
pub fn first(scheme: &[u8], log: &[u8], network: &mut [u8], text: &mut Text<'_>) -> Stand
    requires { (39296 ≤ length network.old) × (text.old.used + 1548 ≤ length text.old.buffer.now) }
    ensures stepped { Stepped scheme.now log.now (moment Stand.Start network.old text.old) (moment result network.new text.new) }
    ensures same_reference { text.new.buffer.ghost_name ≡ text.old.buffer.ghost_name }
{
    match begin(scheme, log, network) {
        Ok(size) => Stand::At(0, 1, size),
        Err(refusal) => {
            text.line(0, u8::from(refusal), &[]);
            Stand::Over
        }
    }
}
