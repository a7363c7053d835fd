// Requests of four numbers each: the kind and three more.

#![tactic(auto)]

ghost use Rattle.std.specs.Prelude.{◌≡◌, min, ◌+◌, ◌*◌, ◌≤◌, length};
ghost use Rattle.kinds.specs.Kinds.{request_of};
ghost use Rattle.encoded.specs.Encoded.{decoded, Turned};
ghost use Rattle.refusals.specs.Numbers.{answer_of, count_of};

use kinds::Request;
use refusals::Refusal;

// The request of a kind and three more numbers.
fn decode(kind: u16, first: u16, second: u16, third: u16) -> Request
    ensures { request_of result (min third 256) ≡ decoded kind first second third }
{
    let x = usize::from(first);
    let y = usize::from(second);
    let z = usize::from(third);
    match kind {
        0 => Request::Event(x, y, z),
        1 => Request::Set(x, y, z),
        2 => Request::Find(x, y),
        3 => Request::List(x, y),
        _ => Request::View(x, y, z),
    }
}

// Calls request n of the encoded ones and lends a list the nth 256 places.
pub fn call(
    scheme: &[u8],
    network: &mut [u8],
    encoded: &[u16],
    n: usize,
    lists: &mut [u16],
) -> Result<usize, Refusal>
    requires { (4 * n + 4 ≤ length encoded.now) × (256 * n + 256 ≤ length lists.old) }
    ensures { Turned scheme.now network.old encoded.now n lists.old (answer_of result) (count_of result) lists.new network.new }
{
    let at = 4 * n;
    let third = encoded[at + 3];
    let asked = decode(encoded[at], encoded[at + 1], encoded[at + 2], third);
    let start = 256 * n;
    let lent = usize::from(third).min(256);
    calls::call(scheme, network, asked, &mut lists[start..start + lent])
}
