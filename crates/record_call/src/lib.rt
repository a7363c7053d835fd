// The call of a log's record (document 01, "Log program").

#![tactic(auto)]

ghost use Rattle.record_call.specs.Lined.{Lined};

use refusals::Refusal;

// The line of a record: its answer, with how many friends were listed, and the next record's place; none after a 14.
#[derive(Clone, Copy, Debug, PartialEq, Eq)]
pub struct Line {
    pub answer: Result<usize, Refusal>,
    pub next: Option<usize>,
}

// Calls the request of the record at a place of the log; there is no line at its end.
pub fn play(
    scheme: &[u8],
    log: &[u8],
    place: usize,
    network: &mut [u8],
    output: &mut [u16],
) -> Option<Line>
    ensures { Lined scheme.now log.now place network.old output.old result network.new output.new }
{
    let step = log_reader::next_at(log, place);
    let answer = step.answer?;
    match answer {
        Ok(request) => Some(Line {
            answer: calls::call(scheme, network, request, output),
            next: Some(step.place),
        }),
        Err(refusal) => Some(Line {
            answer: Err(refusal),
            next: None,
        }),
    }
}
