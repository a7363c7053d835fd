// Numbers and records in bytes (document 01, "Scheme").

#![tactic(auto)]

ghost use Rattle.std.specs.Prelude.{◌≡◌, ℕ, ◌+◌, ◌%◌, ◌^◌, ◌<◌, ◌≤◌, ◌↔◌, length};
ghost use Rattle.model.specs.Decides.{Decides};
ghost use Rattle.model.specs.Bytes.{byte, two as two_at, four as four_at, RecordAt};

// The greatest of the bytes, each raised by a number modulo 256; 0 where there is none. No early exit: it becomes vector code.
pub fn greatest(s: &[u8], raise: u8) -> u8
    ensures { (limit : ℕ) → (result ≤ limit) ↔ ((k : ℕ) → k < length s.now → (byte s.now k + raise) % 256 ≤ limit) }
{
    let mut most: u8 = 0;
    for b in s {
        most = most.max(b.wrapping_add(raise));
    }
    most
}

// The 2-byte number at a place.
pub fn two(s: &[u8], at: usize) -> usize
    requires { at + 1 < length s.now }
    ensures { (result ≡ two_at s.now at) × (result < 65536) }
{
    usize::from(u16::from_le_bytes([s[at], s[at + 1]]))
}

// The 4-byte number at a place.
pub fn four(s: &[u8], at: usize) -> u32
    requires { at + 3 < length s.now }
    ensures { result ≡ four_at s.now at }
{
    u32::from_le_bytes([s[at], s[at + 1], s[at + 2], s[at + 3]])
}

// Whether a whole record of this kind, with a body of this size, stands at a place.
pub fn record_at(s: &[u8], at: usize, kind: usize, size: usize) -> bool
    requires { (at ≤ 2 ^ 63) × (size ≤ 65536) }
    ensures { Decides result (RecordAt s.now at kind size) }
{
    s.len() >= at + 4 + size && two(s, at) == size && two(s, at + 2) == kind
}
