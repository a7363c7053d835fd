// Reads cases from standard input and prints what views answers. A case is a 2-byte length and a scheme's bytes, a 2-byte length
// and a network's bytes, and a 2-byte count of questions, each a viewer, an owner and an item of 8 bytes each, and the byte that
// its answer place holds before the call.

#![tactic(auto)]

use cases::Stop;
use std::io;
use std::io::Read;
use views::Question;

// How many questions a case can have.
const MOST_QUESTIONS: usize = 300;

// Reads a question.
fn read_question<R: Read>(input: &mut R) -> Result<Question, Stop> {
    let viewer = cases::read_long(input)?;
    let owner = cases::read_long(input)?;
    let item = cases::read_long(input)?;
    let mut held = [0u8; 1];
    if cases::read_full(input, &mut held) < held.len() {
        return Err(Stop::End);
    }
    Ok(Question {
        viewer,
        owner,
        item,
        answer: held[0],
    })
}

// The answer of the list, and behind a bar each, the fields of every question afterwards.
fn print_views(
    rt: &impl Print,
    scheme: &[u8],
    network: &[u8],
    questions: &mut [Question],
) -> io::Result<()> {
    let answer = refusals::answer(views::views(scheme, network, questions));
    print!(rt; " {answer}")?;
    for question in questions.iter() {
        print!(rt; " | {} {}", question.viewer, question.owner)?;
        print!(rt; " {} {}", question.item, question.answer)?;
    }
    println!(rt; "")
}

// Reads a case and prints its line, unless it has more questions than fit.
fn run_case<R: Read>(
    rt: &impl Print,
    input: &mut R,
    number: u64,
    scheme: &[u8],
    network: &[u8],
) -> Result<(), Stop> {
    let mut questions = [Question {
        viewer: 0,
        owner: 0,
        item: 0,
        answer: 0,
    }; MOST_QUESTIONS];
    let count = cases::read_number(input)?;
    if count > questions.len() {
        return Err(Stop::End);
    }
    for question in questions[..count].iter_mut() {
        *question = read_question(input)?;
    }
    print!(rt; "{number}")?;
    print_views(rt, scheme, network, &mut questions[..count])?;
    Ok(())
}

fn main(rt: HostRuntime) -> io::Result<()> {
    cases::run(&mut rt.reader(), |input, number, scheme, network| {
        run_case(&rt, input, number, scheme, network)
    })
}
