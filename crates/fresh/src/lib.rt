// The fresh network (document 01, "Network", "Fresh").

#![tactic(auto)]

ghost use Rattle.std.specs.Prelude.{◌≡◌, ◌+◌, ◌*◌, ◌≤◌, length};
ghost use Rattle.model.specs.Calls.{Freshened};
ghost use Rattle.refusals.specs.Numbers.{answer_of};
ghost use Rattle.tables.specs.Schemes.{scheme_in};
ghost use Rattle.fresh.specs.Fill.{MemberFresh, AllFilled};

use refusals::Refusal;
use tables::Scheme;

// Writes one member's fresh settings.
fn fill_member(scheme: &Scheme<'_>, settings: &mut [u8])
    requires { length settings.old ≡ 2 + scheme.now.counts.primitives + scheme.now.counts.items }
    ensures { MemberFresh (scheme_in scheme.now) settings.new × (length settings.new ≡ 2 + scheme.now.counts.primitives + scheme.now.counts.items) }
{
    for (r, setting) in settings.iter_mut().enumerate() {
        *setting = tables::lowest(scheme.mask(r)) as u8;
    }
}

// Writes every member's fresh settings from a place on.
fn fill(scheme: &Scheme<'_>, network: &mut [u8], from: usize)
    requires { from + scheme.now.counts.members * (2 + scheme.now.counts.primitives + scheme.now.counts.items) ≤ length network.old }
    ensures { AllFilled (scheme_in scheme.now) network.old from scheme.now.counts.members (2 + scheme.now.counts.primitives + scheme.now.counts.items) network.new }
{
    let resources = scheme.counts.resources();
    for m in 0..scheme.counts.members {
        let at = from + m * resources;
        fill_member(scheme, &mut network[at..at + resources]);
    }
}

// Makes a lent network fresh. Its old bytes are not read.
pub fn fresh(scheme: &[u8], network: &mut [u8]) -> Result<(), Refusal>
    ensures { Freshened scheme.now network.old (answer_of result) network.new }
{
    let checked = scheme::check(scheme);
    let Ok(scheme) = checked else {
        return Err(checked.unwrap_err());
    };
    if network.len() != network::size(&scheme) {
        return Err(Refusal::Network);
    }
    let pairs = network::pairs(scheme.counts.members);
    network[..pairs].fill(0);
    fill(&scheme, network, pairs);
    Ok(())
}
