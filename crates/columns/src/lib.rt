// Columns: for each member a byte that tells which of eight members it is a friend of, to be put into its row at once.

#![tactic(auto)]

ghost use Rattle.std.specs.Prelude.{◌≡◌, ℕ, ◌+◌, ◌%◌, ◌≤◌, ◌<◌, get_or};
ghost use Rattle.columns.specs.Columns.{FlagsAdded, ByteAdded, ColumnsPut};

// Adds the flags of 64 members as bit t. No branch: it becomes vector code.
fn add_some(flags: &[u8; 256], t: usize, from: usize, columns: &mut [u8; 256])
    requires { (t < 8) × (from ≤ 192) }
    ensures { FlagsAdded flags.now t from (from + 64) columns.old columns.new }
{
    for m in from..from + 64 {
        columns[m] |= flags[m] << t;
    }
}

// Adds flags, one for each member, as bit t; there is none from a count on.
pub fn add(flags: &[u8; 256], t: usize, count: usize, columns: &mut [u8; 256])
    requires { (t < 8) × (count ≤ 256) × ((m : ℕ) → count ≤ m → get_or flags.now m 0 ≡ 0) }
    ensures { FlagsAdded flags.now t 0 256 columns.old columns.new }
{
    for part in 0..count.div_ceil(64) {
        add_some(flags, t, 64 * part, columns);
    }
}

// Adds eight bits to a row, from a member on.
fn add_byte(row: &mut [u64; 4], from: usize, byte: u8)
    requires { (from < 256) × (from % 8 ≡ 0) }
    ensures { ByteAdded row.old from byte row.new }
{
    row[from / 64] |= u64::from(byte) << (from % 64);
}

// Puts the columns of the members below end into their rows, at the bits from a member on, and empties them.
pub fn put(columns: &mut [u8; 256], from: usize, end: usize, rows: &mut [[u64; 4]; 256])
    requires { (from < 256) × (from % 8 ≡ 0) × (end ≤ 256) }
    ensures { ColumnsPut columns.old from end rows.old columns.new rows.new }
{
    for m in 0..end {
        add_byte(&mut rows[m], from, columns[m]);
        columns[m] = 0;
    }
}
