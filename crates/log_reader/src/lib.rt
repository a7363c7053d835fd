// The log reader (document 01, "Next log record").

#![tactic(auto)]

ghost use Rattle.std.specs.Prelude.{◌≡◌};
ghost use Rattle.log_records.specs.Read.{Read};

use kinds::Request;
use log_records::Step;
use refusals::Refusal;

// The log reader: it stands over the lent log, at a place.
#[derive(Drop)]
pub struct Reader<'a> {
    pub log: &'a [u8],
    pub place: usize,
}

impl<'a> Reader<'a> {
    // A reader over the log, at a place.
    pub fn new(log: &'a [u8], place: usize) -> Reader<'a>
        ensures { (result.log ≡ log.entry) × (result.place ≡ place) }
    {
        Reader { log, place }
    }

    // The next answer. The reader moves past the record of a request; at the end, and after a 14, it stays.
    pub fn next(&mut self) -> Option<Result<Request, Refusal>>
        ensures { (self.new.log ≡ self.old.log) × Read self.old.log.now self.old.place result self.new.place }
    {
        let step = log_records::read(self.log, self.place);
        self.place = step.place;
        step.answer
    }
}

// The next answer of a reader that is opened at a place of the log, and the reader's place afterwards.
pub fn next_at(log: &[u8], from: usize) -> Step
    ensures { Read log.now from result.answer result.place }
{
    let mut reader = Reader::new(log, from);
    let answer = reader.next();
    Step {
        answer,
        place: reader.place,
    }
}
