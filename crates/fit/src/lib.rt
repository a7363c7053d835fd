// The bytes inside a scheme's records (document 01, "Scheme", "Policies"; refusal 3 of the scheme check).

#![tactic(auto)]

ghost use Rattle.std.specs.Prelude.{◌≡◌, ℕ, ◌+◌, ◌*◌, ◌/◌, ◌<◌, ◌≤◌, length};
ghost use Rattle.model.specs.Decides.{Decides};
ghost use Rattle.model.specs.Bytes.{byte, four as four_at, NoBitFrom};
ghost use Rattle.model.specs.SchemeBytes.{Records, BytesFit, MoveFits, PolicyFits, MaskFits};
ghost use Rattle.tables.specs.Read.{CountsOf};

use tables::Summary;

// Whether each next state is undefined or one of the states.
fn moves_fit(moves: &[u8], states: usize) -> bool
    requires { states ≤ 16 }
    ensures { Decides result ((k : ℕ) → k < length moves.now → MoveFits states (byte moves.now k)) }
{
    // undefined, 255, is 0 when raised by 1
    usize::from(records::greatest(moves, 1)) <= states
}

// Whether each byte is 0 or 1.
fn flags_fit(flags: &[u8]) -> bool
    ensures { Decides result ((k : ℕ) → k < length flags.now → byte flags.now k ≤ 1) }
{
    records::greatest(flags, 0) <= 1
}

// Whether a policy that names no other and no state has k in its range.
fn alone_fits(k: u8, low: u8, high: u8, left: u8, right: u8) -> bool
    ensures { Decides result ((low ≤ k) × (k ≤ high) × (left ≡ 0) × (right ≡ 0)) }
{
    (low..=high).contains(&k) && left == 0 && right == 0
}

// Whether a state policy has a side and a set of states.
fn state_fits(states: usize, k: u8, left: u8, right: u8) -> bool
    requires { states ≤ 16 }
    ensures { Decides result ((k ≤ 2) × NoBitFrom states (left + 256 * right)) }
{
    k <= 2 && u32::from(u16::from_le_bytes([left, right])) >> states == 0
}

// Whether a combination has operands below its own number.
fn operands_fit(p: usize, k: u8, left: u8, right: u8) -> bool
    ensures { Decides result ((k ≡ 0) × (left < p) × (right < p)) }
{
    k == 0 && usize::from(left) < p && usize::from(right) < p
}

// Whether the four bytes of policy p are what its kind allows.
fn policy_fits(states: usize, p: usize, kind: u8, k: u8, left: u8, right: u8) -> bool
    requires { states ≤ 16 }
    ensures { Decides result (PolicyFits states p kind k left right) }
{
    match kind {
        0..=2 => alone_fits(k, 0, 0, left, right),
        3..=4 => alone_fits(k, 1, 255, left, right),
        5 => alone_fits(k, 2, 5, left, right),
        6 => state_fits(states, k, left, right),
        7..=8 => operands_fit(p, k, left, right),
        _ => false,
    }
}

// Whether each policy's four bytes are what its kind allows.
fn policies_fit(policies: &[u8], states: usize) -> bool
    requires { states ≤ 16 }
    ensures { Decides result ((p : ℕ) → p < length policies.now / 4 → PolicyFits states p (byte policies.now (p * 4)) (byte policies.now (p * 4 + 1)) (byte policies.now (p * 4 + 2)) (byte policies.now (p * 4 + 3))) }
{
    let (chunks, _) = policies.as_chunks::<4>();
    for (p, &[kind, k, left, right]) in chunks.iter().enumerate() {
        if !policy_fits(states, p, kind, k, left, right) {
            return false;
        }
    }
    true
}

// Whether a mask is not zero and has no bit at or above the number of policies.
fn mask_fits(policies: usize, mask: u32) -> bool
    requires { policies ≤ 32 }
    ensures { Decides result (MaskFits policies mask) }
{
    mask != 0 && u64::from(mask) >> policies == 0
}

// Whether each resource's mask is of the policies.
fn masks_fit(masks: &[u8], policies: usize) -> bool
    requires { policies ≤ 32 }
    ensures { Decides result ((r : ℕ) → r < length masks.now / 4 → MaskFits policies (four_at masks.now (r * 4))) }
{
    let (chunks, _) = masks.as_chunks::<4>();
    for &bytes in chunks {
        if !mask_fits(policies, u32::from_le_bytes(bytes)) {
            return false;
        }
    }
    true
}

// Whether each byte of kinds 2 to 6 is what is said of it.
pub fn bytes_fit(s: &[u8], c: Summary) -> bool
    requires { CountsOf s.now c × Records s.now }
    ensures { Decides result (BytesFit s.now) }
{
    let marks = c.marks_at();
    let policies = c.policies_at();
    let masks = c.masks_at();
    let groups = c.groups_at();
    moves_fit(&s[14..marks - 4], c.states)
        && flags_fit(&s[marks..policies - 4])
        && policies_fit(&s[policies..masks - 4], c.states)
        && masks_fit(&s[masks..groups - 4], c.policies)
        && flags_fit(&s[groups.min(s.len())..])
}
