// What every call checks first: the scheme, the network and the members (1 to 6).

#![tactic(auto)]

ghost use Rattle.opening.specs.Opened.{Begun, Members, Opened};

use network::World;
use refusals::Refusal;

// The scheme check; 5 if the network does not pass.
pub fn begin<'a>(scheme: &'a [u8], network: &'a [u8]) -> Result<World<'a>, Refusal>
    ensures { Begun scheme.entry.now network.entry.now result }
{
    let checked = scheme::check(scheme);
    let Ok(scheme) = checked else {
        return Err(checked.unwrap_err());
    };
    if !validity::valid(&scheme, network) {
        return Err(Refusal::Network);
    }
    Ok(World { scheme, network })
}

// 6 if v or u is no member.
pub fn members(world: &World<'_>, v: usize, u: usize) -> Result<(), Refusal>
    ensures { Members world.now v u result }
{
    if v >= world.members() || u >= world.members() {
        return Err(Refusal::Member);
    }
    Ok(())
}

// The scheme check; 5 if the network does not pass; 6 if v or u is no member.
pub fn open<'a>(
    scheme: &'a [u8],
    network: &'a [u8],
    v: usize,
    u: usize,
) -> Result<World<'a>, Refusal>
    ensures { Opened scheme.entry.now network.entry.now v u result }
{
    let world = begin(scheme, network)?;
    members(&world, v, u)?;
    Ok(world)
}
