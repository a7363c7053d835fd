// The requests that change the network: set and event (document 01, "The calls").

#![tactic(auto)]

ghost use Rattle.model.specs.Requests.{event as event_request, set_policy, answered};
ghost use Rattle.model.specs.Calls.{Called};
ghost use Rattle.refusals.specs.Numbers.{answer_of};

use refusals::Refusal;

// Set: u chooses policy p for resource r.
pub fn set(scheme: &[u8], network: &mut [u8], u: usize, r: usize, p: usize) -> Result<(), Refusal>
    ensures { Called scheme.now network.old (answered (set_policy u r p) (answer_of result)) network.new }
{
    let world = opening::open(scheme, network, u, u)?;
    if !resources::is_resource(world.scheme.counts, r) {
        return Err(Refusal::Resource);
    }
    if !tables::offered(world.scheme.mask(r), p) {
        return Err(Refusal::NotOffered);
    }
    let place = world.setting_place(u, r);
    network[place] = p as u8;
    Ok(())
}

// Event: v uses primitive a towards u.
pub fn event(scheme: &[u8], network: &mut [u8], v: usize, u: usize, a: usize) -> Result<(), Refusal>
    ensures { Called scheme.now network.old (answered (event_request v u a) (answer_of result)) network.new }
{
    let world = opening::open(scheme, network, v, u)?;
    if a >= world.scheme.counts.primitives {
        return Err(Refusal::Resource);
    }
    if v == u {
        return Err(Refusal::Oneself);
    }
    let next = moves::next_state(&world, v, u, a);
    let state = checks::judge(&world, v, u, 2 + a, next)?;
    let place = world.pair_place(v, u);
    network[place] = state;
    Ok(())
}
