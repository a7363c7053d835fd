// A run of a list of calls.

#![tactic(auto)]

ghost use Rattle.std.specs.Prelude.{◌≡◌};
ghost use Rattle.traces.specs.Ran.{fitting, Ran, Kept};

// How many requests there is room for: an answer, a count and 256 places for each.
fn room(encoded: &[u16], answers: &[u8], counts: &[usize], lists: &[u16]) -> usize
    ensures { result ≡ fitting encoded.now answers.now counts.now lists.now }
{
    (encoded.len() / 4)
        .min(answers.len())
        .min(counts.len())
        .min(lists.len() / 256)
}

// Calls as many of the requests as there is room for; how many.
pub fn run(
    scheme: &[u8],
    network: &mut [u8],
    encoded: &[u16],
    answers: &mut [u8],
    counts: &mut [usize],
    lists: &mut [u16],
) -> usize
    ensures many { result ≡ fitting encoded.now answers.old counts.old lists.old }
    ensures ran { Ran scheme.now network.old encoded.now result answers.new counts.new lists.new network.new }
    ensures kept { Kept result answers.old counts.old lists.old answers.new counts.new lists.new }
{
    let total = room(encoded, answers, counts, lists);
    for n in 0..total {
        let reply = encoded::call(scheme, network, encoded, n, lists);
        answers[n] = refusals::answer(reply);
        counts[n] = reply.unwrap_or(0);
    }
    total
}
