// One step of the log program, its line put into a lent buffer (document 01, "Log program").

#![tactic(auto)]

ghost use Rattle.std.specs.Prelude.{◌≡◌, ◌+◌, ◌<◌, ◌≤◌, length};
ghost use Rattle.fresh_start.specs.Stands.{Ready, moment, Stepped};

use fresh_start::Stand;
use lines::Text;

// The step of the record at a place.
fn run_record(
    scheme: &[u8],
    log: &[u8],
    place: usize,
    position: u16,
    size: usize,
    network: &mut [u8],
    text: &mut Text<'_>,
) -> Stand
    requires { (position < 65535) × (size ≤ length network.old) × (text.old.used + 1548 ≤ length text.old.buffer.now) }
    ensures stepped { Stepped scheme.now log.now (moment (Stand.At place position size) network.old text.old) (moment result network.new text.new) }
    ensures same_reference { text.new.buffer.ghost_name ≡ text.old.buffer.ghost_name }
{
    let mut output = [0u16; 256];
    let Some(line) = record_call::play(scheme, log, place, &mut network[..size], &mut output) else {
        return Stand::Over;
    };
    let count = line.answer.unwrap_or(0);
    text.line(position, refusals::answer(line.answer), &output[..count]);
    match line.next {
        Some(following) => Stand::At(following, position + 1, size),
        None => Stand::Over,
    }
}

// One step, where there is room for every line.
pub fn step(
    scheme: &[u8],
    log: &[u8],
    network: &mut [u8],
    text: &mut Text<'_>,
    from: Stand,
) -> Stand
    requires { Ready from (length network.old) × (text.old.used + 1548 ≤ length text.old.buffer.now) }
    ensures stepped { Stepped scheme.now log.now (moment from network.old text.old) (moment result network.new text.new) }
    ensures same_reference { text.new.buffer.ghost_name ≡ text.old.buffer.ghost_name }
{
    match from {
        Stand::Start => fresh_start::first(scheme, log, network, text),
        Stand::At(place, position, size) => {
            run_record(scheme, log, place, position, size, network, text)
        }
        Stand::Over => from,
    }
}
