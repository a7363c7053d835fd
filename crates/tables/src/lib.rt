// Reads of a scheme's tables (document 01, "Scheme").

#![tactic(auto)]

ghost use Rattle.std.specs.Prelude.{◌≡◌, ◌<◌, ◌≤◌};
ghost use Rattle.model.specs.Bytes.{bit};
ghost use Rattle.model.specs.Scheme.{lowest as lowest_of};

mod counts;
mod reading;

pub use counts::Summary;
pub use reading::Scheme;

// Whether policy p is in a mask.
pub fn offered(mask: u32, p: usize) -> bool
    ensures { result ≡ bit mask p }
{
    if p < 32 { (mask >> p) & 1 == 1 } else { false }
}

// The lowest policy number in a mask.
pub fn lowest(mask: u32) -> usize
    requires { 1 ≤ mask }
    ensures { (result ≡ lowest_of mask) × (result < 32) }
{
    u32::trailing_zeros(mask) as usize
}
