// Why a call is refused (document 01, "Answers").

#![tactic(auto)]

ghost use Rattle.std.specs.Prelude.{◌≡◌};
ghost use Rattle.refusals.specs.Numbers.{answer_of};

// The refusals in the order of their numbers.
#[derive(Clone, Copy, Debug, PartialEq, Eq)]
pub enum Refusal {
    // a record of the scheme is missing, cut, of another kind or length, or bytes follow the last
    Records,
    // a count of the scheme is outside its range
    Counts,
    // a byte inside a record of the scheme is off
    Bytes,
    // strangers are friends or find each other under a fresh network
    Strangers,
    // the length or a byte of the network is off
    Network,
    // no such member
    Member,
    // no such primitive, resource or item
    Resource,
    // a primitive towards oneself
    Oneself,
    // the member is not found
    NotFound,
    // no next state is defined
    Undefined,
    // the setting does not admit
    NotAdmitted,
    // the policy may not be chosen for the resource
    NotOffered,
    // the output is too short
    Output,
    // a log's record is cut, of another kind or length
    LogRecord,
    // the log is too long
    LogLength,
}

// The number that a call answers.
impl From<Refusal> for u8 {
    ghost use Rattle.std.specs.Prelude.{◌≡◌};
    ghost use Rattle.refusals.specs.Numbers.{number};

    ghost from_gives = { λ refusal n. n ≡ number refusal };

    fn from(refusal: Refusal) -> u8 {
        match refusal {
            Refusal::Records => 1,
            Refusal::Counts => 2,
            Refusal::Bytes => 3,
            Refusal::Strangers => 4,
            Refusal::Network => 5,
            Refusal::Member => 6,
            Refusal::Resource => 7,
            Refusal::Oneself => 8,
            Refusal::NotFound => 9,
            Refusal::Undefined => 10,
            Refusal::NotAdmitted => 11,
            Refusal::NotOffered => 12,
            Refusal::Output => 13,
            Refusal::LogRecord => 14,
            Refusal::LogLength => 15,
        }
    }
}

// The number of an answer: 0 for a grant.
pub fn answer<T: Drop>(answered: Result<T, Refusal>) -> u8
    ensures { result ≡ answer_of answered }
{
    match answered {
        Ok(_) => 0,
        Err(refusal) => u8::from(refusal),
    }
}
