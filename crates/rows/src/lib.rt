// Rows of members: a member's friends, and the persons.

#![tactic(auto)]

ghost use Rattle.std.specs.Prelude.{ℕ, ◌+◌, ◌<◌, ◌≤◌, ◌≡◌, eqb, get_or};
ghost use Rattle.network.specs.Worlds.{members_in, graph_in};
ghost use Rattle.sets.specs.Rows.{row_bit, FriendRow, PersonRow};
ghost use Rattle.rows.specs.Words.{FirstBits};

use network::World;
use next_friend::side::Side;
use std::array;

// The first bits of u's row from a member on, all of members below u: their states stand side by side.
fn lesser(world: &World<'_>, u: usize, from: usize, end: usize) -> u64
    requires { (u < members_in world.now) × (from + end ≤ u) × (end ≤ 64) }
    ensures { FirstBits (graph_in world.now) u from end result }
{
    let at = network::pairs(u) + from;
    let mut flags = [0u8; 64];
    friend_flags::mark(
        world.scheme.counts.marks,
        &world.network[at..at + end],
        &mut flags,
    );
    friend_flags::word(&flags, 0)
}

// The 64 bits of u's row from a member on, the first of them given, the others all of members above u.
fn greater(world: &World<'_>, u: usize, from: usize, start: usize, below: u64) -> u64
    requires { (u < from + start) × (from ≤ 192) × (start ≤ 64) × FirstBits (graph_in world.now) u from start below }
    ensures { FirstBits (graph_in world.now) u from 64 result }
{
    let first = from + start;
    let end = world.members().min(from + 64);
    if first >= end {
        return below;
    }
    let mut bits = below;
    for (m, friend) in Side::<true>::new(world, u, first, end) {
        if friend {
            bits |= 1u64 << (m - from);
        }
    }
    bits
}

// The 64 bits of u's row from a member on.
fn word(world: &World<'_>, u: usize, from: usize) -> u64
    requires { (u < members_in world.now) × (from ≤ 192) }
    ensures { FirstBits (graph_in world.now) u from 64 result }
{
    if u < from {
        return greater(world, u, from, 0, 0);
    }
    let count = (u - from).min(64);
    let bits = lesser(world, u, from, count);
    if count == 64 {
        return bits;
    }
    greater(world, u, from, count + 1, bits)
}

// u's friends.
pub fn friend_row(world: &World<'_>, u: usize) -> [u64; 4]
    requires { u < members_in world.now }
    ensures { FriendRow (graph_in world.now) u result }
{
    array::from_fn(|w| word(world, u, 64 * w))
}

// A row of the members that have a flag.
fn packed(flags: &[u8; 256]) -> [u64; 4]
    requires { (m : ℕ) → get_or flags.now m 0 ≤ 1 }
    ensures { (m : ℕ) → m < 256 → row_bit result m ≡ eqb (get_or flags.now m 0) 1 }
{
    array::from_fn(|w| friend_flags::word(flags, 64 * w))
}

// Everybody but the groups; the bits at and above the number of members are set too.
pub fn persons(world: &World<'_>) -> [u64; 4]
    ensures { PersonRow (graph_in world.now) result }
{
    let groups = world.scheme.groups();
    if groups.is_empty() {
        return [!0; 4];
    }
    let mut flags = [1; 256];
    friend_flags::mark(1 << 0, groups, &mut flags); // 0 is a person
    packed(&flags)
}
