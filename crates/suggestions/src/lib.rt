// Suggested contacts: whom a member might know (document 02, 2026-02).

#![tactic(auto)]

ghost use Rattle.std.specs.Prelude.{◌<◌};
ghost use Rattle.finding.specs.Everyone.{Everyone};
ghost use Rattle.network.specs.Worlds.{members_in, world_in};
ghost use Rattle.suggestions.specs.Ranks.{Sound, Ranked, RanksBelow};
ghost use Rattle.suggestions.specs.Answered.{SuggestCalled};

use network::World;
use prepared::Places;
use refusals::Refusal;

// What v's ranks are read from, beside whom v finds: who is near, v's friends, the persons, and a table of all rows, if there is one.
#[derive(Clone, Copy)]
struct Sources<'a> {
    world: World<'a>,
    v: usize,
    near: [u64; 4],
    friends: [u64; 4],
    persons: [u64; 4],
    rows: Option<&'a [[u64; 4]; 256]>,
}

impl Sources<'_> {
    // How many friends m shares with v; 0 where m may not be suggested: v does not find it, or it is v, a friend, or not near.
    fn rank(&self, found: &[u16; 256], m: usize) -> u32
        requires sound { Sound self.now found.now }
        requires member { m < members_in self.now.world }
        ensures { Ranked (world_in self.now.world) self.now.v m result }
    {
        if found[m] == 0 {
            return 0;
        }
        if m == self.v {
            return 0;
        }
        if sets::has(self.friends, m) {
            return 0;
        }
        if !sets::has(self.near, m) {
            return 0;
        }
        sets::shared(
            self.friends,
            row_table::row(&self.world, self.rows, m),
            self.persons,
        )
    }

    // Writes the ranks of all members.
    fn write_ranks(&self, found: &[u16; 256], ranks: &mut [u32; 256])
        requires { Sound self.now found.now × RanksBelow (world_in self.now.world) self.now.v 0 ranks.old }
        ensures { RanksBelow (world_in self.now.world) self.now.v (members_in self.now.world) ranks.new }
    {
        for m in 0..self.world.members() {
            ranks[m] = self.rank(found, m);
        }
    }

    // Writes the ranks of all members, by a table of all rows.
    fn write_ranks_by_table(&self, found: &[u16; 256], ranks: &mut [u32; 256])
        requires { Sound self.now found.now × RanksBelow (world_in self.now.world) self.now.v 0 ranks.old }
        ensures { RanksBelow (world_in self.now.world) self.now.v (members_in self.now.world) ranks.new }
    {
        let mut rows = [[0u64; 4]; 256];
        row_table::fill_rows(&self.world, &mut rows);
        Sources {
            rows: Some(&rows),
            ..*self
        }
        .write_ranks(found, ranks);
    }
}

// Marks everyone whom v finds.
fn mark_found(world: &World<'_>, v: usize, found: &mut [u16; 256])
    requires { v < members_in world.now }
    ensures { Everyone (world_in world.now) v found.new }
{
    checks::everyone(world, v, &mut Places::new(), found);
}

// Writes the ranks of all members for v, by the table of all rows where many are near. They are lent: an array handed back would be
// copied. What is prepared for v and the table, 8 kilobytes each, stand in functions of their own, one after the other.
fn write_ranks_for(world: &World<'_>, v: usize, ranks: &mut [u32; 256])
    requires { (v < members_in world.now) × RanksBelow (world_in world.now) v 0 ranks.old }
    ensures { RanksBelow (world_in world.now) v (members_in world.now) ranks.new }
{
    let mut found = [0u16; 256];
    mark_found(world, v, &mut found);
    let friends = rows::friend_row(world, v);
    let persons = rows::persons(world);
    let near = nearby::members(world, friends, persons);
    let sources = Sources {
        world: *world,
        v,
        near,
        friends,
        persons,
        rows: None,
    };
    if sets::shared(near, near, near) <= 32 {
        sources.write_ranks(&found, ranks);
    } else {
        sources.write_ranks_by_table(&found, ranks);
    }
}

// Suggest: the first c of the members that v might know. A grant says how many it wrote.
pub fn suggest(
    scheme: &[u8],
    network: &[u8],
    v: usize,
    c: usize,
    output: &mut [u16],
) -> Result<usize, Refusal>
    ensures { SuggestCalled scheme.now network.now v c output.old result output.new }
{
    let world = opening::open(scheme, network, v, v)?;
    if output.len() < c {
        return Err(Refusal::Output);
    }
    let mut ranks = [0u32; 256];
    write_ranks_for(&world, v, &mut ranks);
    Ok(page::fill(output, c, &ranks))
}
