// Rows as far as the members below go: the states with these stand side by side.

#![tactic(auto)]

ghost use Rattle.std.specs.Prelude.{◌≡◌, ℕ, ◌+◌, ◌≤◌, ◌<◌, get_or};
ghost use Rattle.model.specs.Bytes.{digit};
ghost use Rattle.network.specs.Worlds.{members_in, graph_in};
ghost use Rattle.columns.specs.Columns.{Columns};
ghost use Rattle.lower_rows.specs.Lower.{FlagsBelow, RowOfFlags, column_of, LowerRows};

use network::World;
use std::array;

// The word of a row from a member on, by the flags of the members below m.
fn word(flags: &[u8; 256], from: usize, m: usize) -> u64
    requires { (from ≤ 192) × FlagsBelow m flags.now }
    ensures { (k : ℕ) → k < 64 → digit result k ≡ get_or flags.now (from + k) 0 }
{
    if from < m {
        friend_flags::word(flags, from)
    } else {
        0
    }
}

// The row by the flags of the members below m.
fn row(flags: &[u8; 256], m: usize) -> [u64; 4]
    requires { FlagsBelow m flags.now }
    ensures { RowOfFlags flags.now result }
{
    array::from_fn(|w| word(flags, 64 * w, m))
}

// Writes the rows from a member on, as far as the members below each go, and adds each to the columns of these. Each pair byte is
// read once.
pub fn fill(
    world: &World<'_>,
    from: usize,
    end: usize,
    flags: &mut [u8; 256],
    columns: &mut [u8; 256],
    rows: &mut [[u64; 4]; 256],
)
    requires { (from ≤ end) × (end ≤ from + 8) × (end ≤ members_in world.now) × FlagsBelow from flags.old × Columns (column_of (graph_in world.now) from) 0 columns.old }
    ensures { LowerRows (graph_in world.now) from end rows.old flags.new columns.new rows.new }
{
    for m in from..end {
        let at = network::pairs(m);
        friend_flags::mark(world.scheme.counts.marks, &world.network[at..at + m], flags);
        rows[m] = row(flags, m);
        columns::add(flags, m - from, m, columns);
    }
}
