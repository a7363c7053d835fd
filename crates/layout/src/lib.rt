// The counts and the records of a scheme (document 01, "Scheme"; refusals 1 and 2 of the scheme check).

#![tactic(auto)]

ghost use Rattle.std.specs.Prelude.{◌≡◌, ◌≤◌, ◌+◌, ◌⊎◌, [], ◌∷◌, length, MatchOption};
ghost use Rattle.model.specs.Decides.{Decides};
ghost use Rattle.model.specs.Bytes.{RecordAt};
ghost use Rattle.model.specs.SchemeBytes.{n, S, A, I, P, at6, Records};
ghost use Rattle.tables.specs.Read.{CountsOf};
ghost use Rattle.layout.specs.Counted.{Counted};

use tables::Summary;

// A count, if it is neither 0 nor above the most.
fn count(x: usize, most: usize) -> Option<usize>
    ensures { MatchOption result ((1 ≤ x) × (x ≤ most) → ⊥) (λ n. (n ≡ x) × (1 ≤ n) × (n ≤ most)) }
{
    (1..=most).contains(&x).then_some(x)
}

// The five counts of the head record, in its order.
pub fn counts(s: &[u8]) -> [usize; 5]
    requires { 10 ≤ length s.now }
    ensures { result ≡ n s.now ∷ S s.now ∷ A s.now ∷ I s.now ∷ P s.now ∷ [] }
{
    [
        records::two(s, 4),
        usize::from(s[6]),
        usize::from(s[7]),
        usize::from(s[8]),
        usize::from(s[9]),
    ]
}

// The five counts, if each is in its range; the marks are read when the scheme is accepted.
pub fn summary(s: &[u8]) -> Option<Summary>
    requires { 10 ≤ length s.now }
    ensures { Counted s.now result }
{
    let [members, states, primitives, items, policies] = counts(s);
    Some(Summary {
        members: count(members, 256)?,
        states: count(states, 16)?,
        primitives: count(primitives, 8)?,
        items: count(items, 16)?,
        policies: count(policies, 32)?,
        marks: 0,
    })
}

// Whether nothing follows the fifth record, or one whole record of kind 6.
fn ends(s: &[u8], c: Summary) -> bool
    requires { CountsOf s.now c }
    ensures { Decides result ((length s.now ≡ at6 s.now) ⊎ (RecordAt s.now (at6 s.now) 6 (n s.now) × (length s.now ≡ at6 s.now + 4 + n s.now))) }
{
    let groups = c.groups_at();
    s.len() == groups - 4
        || s.len() == groups + c.members && records::record_at(s, groups - 4, 6, c.members)
}

// Whether the records of kinds 2 to 5 are whole, and nothing follows them but a sixth.
pub fn records(s: &[u8], c: Summary) -> bool
    requires { CountsOf s.now c }
    ensures { Decides result (Records s.now) }
{
    let marks = c.marks_at();
    let policies = c.policies_at();
    let masks = c.masks_at();
    let resources = c.resources();
    records::record_at(s, 10, 2, marks - 18)
        && records::record_at(s, marks - 4, 3, c.states)
        && records::record_at(s, policies - 4, 4, 4 * c.policies)
        && records::record_at(s, masks - 4, 5, 4 * resources)
        && ends(s, c)
}
