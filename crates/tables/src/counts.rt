// What is read once of a scheme.
ghost use Rattle.std.specs.Prelude.{◌≤◌};

// The five counts of a scheme's head record, each in its range, and the states that make friends, as a set.
#[derive(Clone, Copy)]
pub struct Summary {
    pub members: usize,
    pub states: usize,
    pub primitives: usize,
    pub items: usize,
    pub policies: usize,
    pub marks: u16,
    pub ghost few_members: { (1 ≤ members) × (members ≤ 256) },
    pub ghost few_states: { (1 ≤ states) × (states ≤ 16) },
    pub ghost few_primitives: { (1 ≤ primitives) × (primitives ≤ 8) },
    pub ghost few_items: { (1 ≤ items) × (items ≤ 16) },
    pub ghost few_policies: { (1 ≤ policies) × (policies ≤ 32) },
}

impl Summary {
    ghost use Rattle.std.specs.Prelude.{◌≡◌, List, ℕ, ◌+◌, ◌≤◌};
    ghost use Rattle.model.specs.SchemeBytes.{at3, at4, at5, at6};
    ghost use Rattle.tables.specs.Read.{CountsOf};

    // Where the body of kind 3 begins.
    pub fn marks_at(self) -> usize
        ensures { (18 ≤ result) × (result ≤ 274) × ((b : List ℕ) → CountsOf b self → result ≡ at3 b + 4) }
    {
        18 + self.states * 2 * self.primitives
    }

    // Where the body of kind 4 begins.
    pub fn policies_at(self) -> usize
        ensures { (result ≤ 294) × ((b : List ℕ) → CountsOf b self → result ≡ at4 b + 4) }
    {
        self.marks_at() + self.states + 4
    }

    // Where the body of kind 5 begins.
    pub fn masks_at(self) -> usize
        ensures { (result ≤ 426) × ((b : List ℕ) → CountsOf b self → result ≡ at5 b + 4) }
    {
        self.policies_at() + 4 * self.policies + 4
    }

    // Where the body of kind 6 begins, if there is one.
    pub fn groups_at(self) -> usize
        ensures { (result ≤ 534) × ((b : List ℕ) → CountsOf b self → result ≡ at6 b + 4) }
    {
        self.masks_at() + 4 * self.resources() + 4
    }

    // How many resources there are.
    pub fn resources(self) -> usize
        ensures { (result ≡ 2 + self.primitives + self.items) × (result ≤ 26) }
    {
        2 + self.primitives + self.items
    }
}
