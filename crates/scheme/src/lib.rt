// The scheme check (document 01, "Scheme", "Scheme check").

#![tactic(auto)]

ghost use Rattle.scheme.specs.Checked.{Checked};

use refusals::Refusal;
use tables::Scheme;

// The scheme check.
pub fn check<'a>(bytes: &'a [u8]) -> Result<Scheme<'a>, Refusal>
    ensures { Checked bytes.entry.now result }
{
    if !records::record_at(bytes, 0, 1, 6) {
        return Err(Refusal::Records);
    }
    let counts = layout::summary(bytes).ok_or(Refusal::Counts)?;
    if !layout::records(bytes, counts) {
        return Err(Refusal::Records);
    }
    if !fit::bytes_fit(bytes, counts) {
        return Err(Refusal::Bytes);
    }
    let mut scheme = Scheme { bytes, counts };
    if !strangers::apart(&scheme) {
        return Err(Refusal::Strangers);
    }
    scheme.counts.marks = friend_marks::marks(&scheme);
    Ok(scheme)
}
