// The network: reads of its bytes (document 01, "Network").

#![tactic(auto)]

ghost use Rattle.std.specs.Prelude.{◌≡◌, ◌%◌, ◌≤◌};
ghost use Rattle.model.specs.Bytes.{bit};
ghost use Rattle.model.specs.Network.{pairs as pair_count, size as size_of};
ghost use Rattle.tables.specs.Schemes.{scheme_in};

mod world;

use tables::Scheme;
pub use world::World;

// How many pairs members have.
pub fn pairs(members: usize) -> usize
    requires { members ≤ 256 }
    ensures { (result ≡ pair_count members) × (result ≤ 32640) }
{
    if members == 0 {
        return 0;
    }
    members * (members - 1) / 2
}

// How many bytes a network has.
pub fn size(scheme: &Scheme<'_>) -> usize
    ensures { (result ≡ size_of (scheme_in scheme.now)) × (pair_count scheme.now.counts.members ≤ result) × (result ≤ 39296) }
{
    let counts = scheme.counts;
    pairs(counts.members) + counts.members * counts.resources()
}

// Whether a state is among the marked ones: a bit of 32, as the machine tests it, so that no remainder is computed.
pub fn marked(marks: u16, q: u8) -> bool
    ensures { result ≡ bit marks (q % 32) }
{
    (u32::from(marks) >> (q % 32)) & 1 == 1
}
