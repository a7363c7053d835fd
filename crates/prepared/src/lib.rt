// What policies read of an accessor, computed once for all owners.

#![tactic(auto)]

ghost use Rattle.std.specs.Prelude.{◌<◌, ◌≤◌, ◌≡◌, true, false};
ghost use Rattle.model.specs.Decides.{Decides};
ghost use Rattle.network.specs.Worlds.{members_in, graph_in};
ghost use Rattle.sets.specs.Rows.{PersonRow};
ghost use Rattle.prepared.specs.Reading.{Farthest, SomeOfKind};
ghost use Rattle.prepared.specs.Prepared.{Measured, Prepared, Written};

mod accessor;
mod places;

pub use accessor::Accessor;
use network::World;
pub use places::Places;
use rules::Rule;
use tables::Scheme;

// The greatest k of a policy of kind within; 0 where there is none.
fn farthest(scheme: &Scheme<'_>) -> u8
    ensures { Farthest scheme.now.bytes.now scheme.now.counts.policies result }
{
    let mut most: u8 = 0;
    for p in 0..scheme.counts.policies {
        if let Rule::Within(k) = rules::policy(scheme, p) {
            most = most.max(k);
        }
    }
    most
}

// Whether one of some policies is of kind known, and whether one is of kind clique.
#[derive(Clone, Copy, Debug, PartialEq, Eq)]
pub struct Kinds {
    pub known: bool,
    pub clique: bool,
}

// The kinds of the policies from a number on, below the count.
pub fn kinds_of(scheme: &Scheme<'_>, from: usize, count: usize) -> Kinds
    requires { (from ≤ count) × (count ≤ scheme.now.counts.policies) }
    ensures known { Decides result.known (SomeOfKind 4 scheme.now.bytes.now from count) }
    ensures clique { Decides result.clique (SomeOfKind 5 scheme.now.bytes.now from count) }
{
    let mut known = false;
    let mut clique = false;
    for p in from..count {
        match rules::policy(scheme, p) {
            Rule::Known(_) => known = true,
            Rule::Clique(_) => clique = true,
            _ => {}
        }
    }
    Kinds { known, clique }
}

// Writes the distances from v that policies read.
fn measure(world: &World<'_>, v: usize, distances: &mut [u16; 256])
    requires { v < members_in world.now }
    ensures { Measured world.now.scheme.bytes.now world.now.network.now v distances.old distances.new }
{
    let limit = farthest(&world.scheme);
    if limit != 0 {
        distance::fill(world, v, usize::from(limit), distances);
    }
}

// Writes the row of persons, where it is read.
fn write_persons(world: &World<'_>, read: bool, persons: &mut [u64; 4])
    ensures read { read ≡ true → PersonRow (graph_in world.now) persons.new }
    ensures unread { read ≡ false → persons.new ≡ persons.old }
{
    if read {
        *persons = rows::persons(world);
    }
}

// Computes what depends on accessor v alone, as far as a policy of the scheme reads it.
pub fn prepare(world: &World<'_>, v: usize, places: &mut Places)
    requires { v < members_in world.now }
    ensures prepared { Prepared world.now.scheme.bytes.now world.now.network.now v places.new.distances places.new.rows places.new.persons }
    ensures written { Written world.now.scheme.bytes.now world.now.network.now v places.old.distances places.old.rows places.old.persons places.new.distances places.new.rows places.new.persons }
{
    measure(world, v, &mut places.distances);
    let some = kinds_of(&world.scheme, 0, world.scheme.counts.policies);
    write_persons(world, some.known, &mut places.persons);
    if some.clique {
        row_table::fill_rows(world, &mut places.rows);
    } else if some.known {
        places.rows[v] = rows::friend_row(world, v);
    }
}
