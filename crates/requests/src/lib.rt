// The requests that change nothing: find, view and list (document 01, "The calls").

#![tactic(auto)]

ghost use Rattle.model.specs.Requests.{find as find_request, view as view_request, answered};
ghost use Rattle.model.specs.Calls.{Called};
ghost use Rattle.refusals.specs.Numbers.{answer_of};
ghost use Rattle.requests.specs.Answered.{ListCalled};

use refusals::Refusal;

// Find: whether v finds u.
pub fn find(scheme: &[u8], network: &[u8], v: usize, u: usize) -> Result<(), Refusal>
    ensures { Called scheme.now network.now (answered (find_request v u) (answer_of result)) network.now }
{
    let world = opening::open(scheme, network, v, u)?;
    if !checks::found(&world, v, u) {
        return Err(Refusal::NotFound);
    }
    Ok(())
}

// View: v asks for item o of u.
pub fn view(scheme: &[u8], network: &[u8], v: usize, u: usize, o: usize) -> Result<(), Refusal>
    ensures { Called scheme.now network.now (answered (view_request v u o) (answer_of result)) network.now }
{
    let world = opening::open(scheme, network, v, u)?;
    let counts = world.scheme.counts;
    if o >= counts.items {
        return Err(Refusal::Resource);
    }
    checks::judge(&world, v, u, 2 + counts.primitives + o, Some(()))
}

// List: v asks for u's friends. A grant says how many it wrote.
pub fn list(
    scheme: &[u8],
    network: &[u8],
    v: usize,
    u: usize,
    output: &mut [u16],
) -> Result<usize, Refusal>
    ensures { ListCalled scheme.now network.now v u output.old result output.new }
{
    let world = opening::open(scheme, network, v, u)?;
    if output.len() < world.members() {
        return Err(Refusal::Output);
    }
    checks::judge(&world, v, u, 1, Some(()))?;
    Ok(friend_list::write(&world, u, output))
}
