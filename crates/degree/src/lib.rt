// Degree: how far off another member is (document 02, 2026-01).

#![tactic(auto)]

ghost use Rattle.degree.specs.Told.{DegreeCalled};

use refusals::Refusal;

// Degree: find's checks, and then the least number of friendships between v and u, if a walk joins them.
pub fn degree(scheme: &[u8], network: &[u8], v: usize, u: usize) -> Result<Option<u16>, Refusal>
    ensures { DegreeCalled scheme.now network.now v u result }
{
    let world = opening::open(scheme, network, v, u)?;
    if !checks::found(&world, v, u) {
        return Err(Refusal::NotFound);
    }
    // Two of 256 members whom any walk joins, one of 255 friendships does.
    let mut distances = [0u16; 256];
    distance::fill(&world, v, 255, &mut distances);
    Ok(distance_mark::read(distances[u]))
}
