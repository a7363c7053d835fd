// Whether a network passes 5.

#![tactic(auto)]

ghost use Rattle.std.specs.Prelude.{◌≡◌, true, ◌↔◌, ℕ, ◌+◌, ◌*◌, ◌<◌, ◌≤◌, length};
ghost use Rattle.model.specs.Bytes.{bit, byte};
ghost use Rattle.model.specs.Decides.{Decides};
ghost use Rattle.model.specs.Network.{Valid};
ghost use Rattle.tables.specs.Schemes.{scheme_in};
ghost use Rattle.validity.specs.Chosen.{Chosen, Offered};

use tables::Scheme;

// All policies up to a number, as a set.
fn up_to(most: u8) -> u32
    requires { most < 32 }
    ensures { (p : ℕ) → (bit result p ≡ true) ↔ (p ≤ most) }
{
    u32::MAX >> (31 - most)
}

// Whether each policy of a set is in the mask.
fn subset(set: u32, mask: u32) -> bool
    ensures { Decides result ((p : ℕ) → bit set p ≡ true → bit mask p ≡ true) }
{
    set & mask == set
}

// The policies that the settings of one resource choose, as a set: the first member's setting is at a place, each next a stride further.
fn chosen(settings: &[u8], first: usize, stride: usize, members: usize) -> u32
    requires stride_bound { (m : ℕ) → m < members → first + m * stride < length settings.now }
    requires by_index { (m : ℕ) → m < members → byte settings.now (first + m * stride) < 32 }
    ensures { Chosen settings.now first stride members result }
{
    let mut set = 0u32;
    for m in 0..members {
        set |= 1 << settings[first + m * stride];
    }
    set
}

// Whether every setting is in its resource's mask; all are in a wider set, and where a mask has all of that its settings are not read.
fn settings_offered(scheme: &Scheme<'_>, settings: &[u8], wider: u32) -> bool
    requires sized { length settings.now ≡ scheme.now.counts.members * (2 + scheme.now.counts.primitives + scheme.now.counts.items) }
    requires by_index { (k : ℕ) → k < length settings.now → bit wider (byte settings.now k) ≡ true }
    ensures { Decides result (Offered scheme.now settings.now) }
{
    let members = scheme.counts.members;
    let resources = scheme.counts.resources();
    for r in 0..resources {
        let mask = scheme.mask(r);
        if !subset(wider, mask) && !subset(chosen(settings, r, resources, members), mask) {
            return false;
        }
    }
    true
}

// Whether neither length nor any byte of a network is off.
pub fn valid(scheme: &Scheme<'_>, network: &[u8]) -> bool
    ensures { Decides result (Valid (scheme_in scheme.now) network.now) }
{
    if network.len() != network::size(scheme) {
        return false;
    }
    let (states, settings) = network.split_at(network::pairs(scheme.counts.members));
    if usize::from(records::greatest(states, 0)) >= scheme.counts.states {
        return false;
    }
    let most = records::greatest(settings, 0);
    if most >= 32 {
        return false;
    }
    settings_offered(scheme, settings, up_to(most))
}
