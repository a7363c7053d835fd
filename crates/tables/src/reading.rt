// A scheme that was read.
ghost use Rattle.tables.specs.Once.{read_once};
ghost use Rattle.tables.specs.Read.{ReadAs};

use super::Summary;

// The bytes of a scheme that passes the scheme check up to 3, and what is read once of them.
#[derive(Clone, Copy)]
pub struct Scheme<'a> {
    pub bytes: &'a [u8],
    pub counts: Summary,
    pub ghost read: { ReadAs bytes.now counts } by { read_once bytes.now counts },
}

impl Scheme<'_> {
    ghost use Rattle.std.specs.Prelude.{◌≡◌, ◌+◌, ◌<◌, ◌≤◌};
    ghost use Rattle.tables.specs.Schemes.{scheme_in, StateOf, GroupBytes};

    // The next state for a state, a side and a primitive, where one is defined.
    pub fn next_state(&self, state: usize, side: usize, primitive: usize) -> Option<u8>
        requires { (state < self.now.counts.states) × (side < 2) × (primitive < self.now.counts.primitives) }
        ensures { StateOf ((scheme_in self.now).move state side primitive) result }
    {
        match self.bytes[14 + ((state * 2 + side) * self.counts.primitives + primitive)] {
            255 => None,
            q => Some(q),
        }
    }

    // The policies that may be chosen for a resource.
    pub fn mask(&self, r: usize) -> u32
        requires { r < 2 + self.now.counts.primitives + self.now.counts.items }
        ensures { (result ≡ (scheme_in self.now).mask r) × (1 ≤ result) }
    {
        records::four(self.bytes, self.counts.masks_at() + r * 4)
    }

    // A byte for each member, 1 for a group; none where there is no sixth record.
    pub fn groups(&self) -> &[u8]
        ensures { GroupBytes self.now result.now }
    {
        &self.bytes[self.counts.groups_at().min(self.bytes.len())..]
    }
}
