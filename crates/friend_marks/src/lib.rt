// The states that make friends (document 01, "Scheme", kind 3).

#![tactic(auto)]

ghost use Rattle.tables.specs.Read.{MarksOf};

use tables::Scheme;

// The states that make friends, as a set.
pub fn marks(scheme: &Scheme<'_>) -> u16
    ensures { MarksOf scheme.now.bytes.now scheme.now.counts.states result }
{
    let at = scheme.counts.marks_at();
    let mut set: u16 = 0;
    for q in 0..scheme.counts.states {
        if scheme.bytes[at + q] == 1 {
            set |= 1 << q;
        }
    }
    set
}
