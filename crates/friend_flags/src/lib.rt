// Whether pairs are friends, a byte for each: read off pair bytes that stand side by side, and packed as bits.

#![tactic(auto)]

ghost use Rattle.std.specs.Prelude.{◌≡◌, ℕ, ◌+◌, ◌<◌, ◌≤◌, length, get_or};
ghost use Rattle.friend_flags.specs.Flags.{Flagged, Packed, Told};

// Flags the states that pass a test. No early exit: it becomes vector code.
fn tell<F: Fn(u8) -> bool>(states: &[u8], flags: &mut [u8], test: F)
    requires { F.IsAlwaysCallable test × (length states.now ≤ length flags.old) }
    ensures { Told (F.post test) states.now (length states.now) flags.old flags.new }
{
    for (k, state) in states.iter().enumerate() {
        flags[k] = u8::from(test(*state));
    }
}

// Flags the pairs that have a marked state, by their states: where one state is marked, by comparing bytes.
pub fn mark(marks: u16, states: &[u8], flags: &mut [u8])
    requires { (length states.now ≤ length flags.old) × ((k : ℕ) → get_or states.now k 0 < 32) }
    ensures { Flagged states.now marks 0 (length states.now) flags.old flags.new }
{
    if marks.is_power_of_two() {
        let q = marks.trailing_zeros() as u8;
        tell(states, flags, |b| b == q);
    } else {
        tell(states, flags, |b| network::marked(marks, b));
    }
}

// Eight flags as a byte, the first in the lowest bit: the product has each in a place of its own, and the eight side by side from bit 21 on.
fn eight(flags: &[u8], at: usize) -> u64
    requires { (at + 8 ≤ length flags.now) × ((k : ℕ) → get_or flags.now k 0 ≤ 1) }
    ensures { Packed flags.now at 8 result }
{
    let high = u64::from(records::four(flags, at + 4));
    let apart = u64::from(records::four(flags, at)) + high * 16;
    (apart * 2113665 >> 21) % 256
}

// 64 flags as the bits of a word.
pub fn word(flags: &[u8], at: usize) -> u64
    requires { (at + 64 ≤ length flags.now) × ((k : ℕ) → get_or flags.now k 0 ≤ 1) }
    ensures { Packed flags.now at 64 result }
{
    let mut bits: u64 = 0;
    for m in 0..8 {
        bits |= eight(flags, at + 8 * m) << (8 * m);
    }
    bits
}
