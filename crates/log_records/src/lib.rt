// The records of a log (document 01, "Next log record").

#![tactic(auto)]

ghost use Rattle.log_records.specs.Read.{SaidAt, Read};

use kinds::Request;
use refusals::Refusal;

// The request of the next record, or the refusal of one that is none; nothing at the log's end. And the place afterwards.
#[derive(Clone, Copy, Debug, PartialEq, Eq)]
pub struct Step {
    pub answer: Option<Result<Request, Refusal>>,
    pub place: usize,
}

// What stands at a place of the log.
fn answer_at(log: &[u8], place: usize) -> Option<Result<Request, Refusal>>
    ensures { SaidAt log.now place result }
{
    if log.len() <= place {
        return None;
    }
    if records::record_at(log, place, 16, 5) {
        let v = records::two(log, place + 4);
        let u = records::two(log, place + 6);
        let a = usize::from(log[place + 8]);
        return Some(Ok(Request::Event(v, u, a)));
    }
    if records::record_at(log, place, 17, 4) {
        let u = records::two(log, place + 4);
        let r = usize::from(log[place + 6]);
        let p = usize::from(log[place + 7]);
        return Some(Ok(Request::Set(u, r, p)));
    }
    if records::record_at(log, place, 18, 4) {
        let v = records::two(log, place + 4);
        let u = records::two(log, place + 6);
        return Some(Ok(Request::Find(v, u)));
    }
    if records::record_at(log, place, 19, 4) {
        let v = records::two(log, place + 4);
        let u = records::two(log, place + 6);
        return Some(Ok(Request::List(v, u)));
    }
    if records::record_at(log, place, 20, 5) {
        let v = records::two(log, place + 4);
        let u = records::two(log, place + 6);
        let o = usize::from(log[place + 8]);
        return Some(Ok(Request::View(v, u, o)));
    }
    Some(Err(Refusal::LogRecord))
}

// The next record at a place of the log, and the place afterwards.
pub fn read(log: &[u8], place: usize) -> Step
    ensures { Read log.now place result.answer result.place }
{
    match answer_at(log, place) {
        Some(Ok(request)) => Step {
            answer: Some(Ok(request)),
            place: place + 4 + records::two(log, place),
        },
        answer => Step { answer, place },
    }
}
