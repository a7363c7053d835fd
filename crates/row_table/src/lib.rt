// The friend rows of all members, and one of them off the table or without it.

#![tactic(auto)]

ghost use Rattle.std.specs.Prelude.{◌<◌, IfSome};
ghost use Rattle.network.specs.Worlds.{members_in, graph_in};
ghost use Rattle.sets.specs.Rows.{FriendRow, AllRows};
ghost use Rattle.row_table.specs.Filled.{RowsFilled};

use network::World;

// Writes the friend rows of all members, four words each, in one pass over the pair bytes.
pub fn fill_rows(world: &World<'_>, rows: &mut [[u64; 4]; 256])
    ensures { RowsFilled (graph_in world.now) rows.old rows.new }
{
    let mut flags = [0u8; 256];
    let mut columns = [0u8; 256];
    for part in 0..world.members().div_ceil(8) {
        let from = 8 * part;
        let end = world.members().min(from + 8);
        lower_rows::fill(world, from, end, &mut flags, &mut columns, rows);
        columns::put(&mut columns, from, end, rows);
    }
}

// m's friends: off the table, where one is lent, else off the pair bytes.
pub fn row(world: &World<'_>, rows: Option<&[[u64; 4]; 256]>, m: usize) -> [u64; 4]
    requires { (m < members_in world.now) × IfSome rows (λ r. AllRows (graph_in world.now) r.now) }
    ensures { FriendRow (graph_in world.now) m result }
{
    match rows {
        Some(rows) => rows[m],
        None => rows::friend_row(world, m),
    }
}
