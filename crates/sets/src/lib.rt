// Sets of members as 256 bits in four words.

#![tactic(auto)]

ghost use Rattle.std.specs.Prelude.{◌≡◌, ◌&&◌, ◌<◌, ◌≤◌};
ghost use Rattle.model.specs.Bytes.{bit};
ghost use Rattle.model.specs.Graph.{count};
ghost use Rattle.sets.specs.Rows.{row_bit};
ghost use Rattle.sets.specs.Sets.{Meet, Join, Rest, FirstMember, NotEmpty, CommonBits};

use std::array;

mod iteration;

pub use iteration::{MemberIter, members, members_from};

// The members of both sets.
pub fn meet(a: [u64; 4], b: [u64; 4]) -> [u64; 4]
    ensures { Meet a b result }
{
    array::from_fn(|w| a[w] & b[w])
}

// The members of either set.
pub fn join(a: [u64; 4], b: [u64; 4]) -> [u64; 4]
    ensures { Join a b result }
{
    array::from_fn(|w| a[w] | b[w])
}

// The members from m to the end of its word, m itself at bit 0.
pub fn rest(set: [u64; 4], m: usize) -> u64
    requires { m < 256 }
    ensures { Rest set m result }
{
    set[m / 64] >> (m % 64)
}

// Whether a set has member m.
pub fn has(set: [u64; 4], m: usize) -> bool
    requires { m < 256 }
    ensures { result ≡ row_bit set m }
{
    rest(set, m) & 1 == 1
}

// The first member at or above a number.
pub fn first_from(set: [u64; 4], from: usize) -> Option<usize>
    ensures { FirstMember set from result }
{
    members_from(set, from).next()
}

// Whether a set has a member.
pub fn not_empty(set: [u64; 4]) -> bool
    ensures { NotEmpty set result }
{
    set != [0; 4]
}

// How many bits three words have in common.
fn common(x: u64, y: u64, z: u64) -> u32
    ensures { (result ≡ count (λ m. bit x m && bit y m && bit z m) 64) × (result ≤ 64) }
{
    (x & y & z).count_ones()
}

// How many bits three rows have in common: for the friends of two members and the persons, how many friends they share.
pub fn shared(a: [u64; 4], b: [u64; 4], c: [u64; 4]) -> u32
    ensures { CommonBits a b c result }
{
    a.iter()
        .zip(&b)
        .zip(&c)
        .map(|((x, y), z)| common(*x, *y, *z))
        .sum()
}
