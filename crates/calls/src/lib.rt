// The call of a request (document 01, "The calls").

#![tactic(auto)]

ghost use Rattle.std.specs.Prelude.{◌≡◌, length};
ghost use Rattle.model.specs.Calls.{Left};
ghost use Rattle.kinds.specs.Kinds.{request_of};
ghost use Rattle.refusals.specs.Numbers.{answer_of, count_of};

use kinds::Request;
use refusals::Refusal;

// The answer of a request that writes no list.
fn unlisted(answered: Result<(), Refusal>) -> Result<usize, Refusal>
    ensures { (answer_of result ≡ answer_of answered) × (count_of result ≡ 0) }
{
    answered.map(|()| 0)
}

// Calls the request, and lends the output to a list. A grant says how many it wrote.
pub fn call(
    scheme: &[u8],
    network: &mut [u8],
    request: Request,
    output: &mut [u16],
) -> Result<usize, Refusal>
    ensures { Left scheme.now network.old (request_of request (length output.old)) output.old (answer_of result) (count_of result) output.new network.new }
{
    match request {
        Request::Event(v, u, a) => unlisted(changes::event(scheme, network, v, u, a)),
        Request::Set(u, r, p) => unlisted(changes::set(scheme, network, u, r, p)),
        Request::Find(v, u) => unlisted(requests::find(scheme, network, v, u)),
        Request::List(v, u) => requests::list(scheme, network, v, u, output),
        Request::View(v, u, o) => unlisted(requests::view(scheme, network, v, u, o)),
    }
}
