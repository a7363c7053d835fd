// What policies read of an owner and an accessor (document 01, "Policies", kinds 3 to 5).

#![tactic(auto)]

ghost use Rattle.std.specs.Prelude.{◌≡◌, true, ◌⊎◌, ◌<◌, ◌≤◌};
ghost use Rattle.model.specs.Graph.{Friends};
ghost use Rattle.model.specs.SchemeBytes.{n, P};
ghost use Rattle.network.specs.Worlds.{members_in, graph_in};
ghost use Rattle.prepared.specs.Asking.{graph_asked};
ghost use Rattle.prepared.specs.Reading.{SomeOfKind};
ghost use Rattle.clique.specs.Cliques.{LargestClique};
ghost use Rattle.relation.specs.Related.{Related, SomeWithin};

use known::Acquaintance;
use network::World;
use prepared::{Accessor, Kinds};

// The distance, none above the limit; the acquaintance; and the members, at most 5, of the largest clique, where owner and
// accessor are two.
#[derive(Clone, Copy, Debug, PartialEq, Eq)]
pub struct Relation {
    pub distance: Option<u16>,
    pub acquaintance: Acquaintance,
    pub clique: usize,
}

// The relation of u with an accessor, as far as it is asked, from what is prepared.
pub fn of_prepared(accessor: &Accessor<'_>, u: usize, asked: Kinds) -> Relation
    requires { (u < n accessor.now.scheme) × (asked.known ≡ true → SomeOfKind 4 accessor.now.scheme 0 (P accessor.now.scheme)) × (asked.clique ≡ true → SomeOfKind 5 accessor.now.scheme 0 (P accessor.now.scheme)) }
    ensures { Related (graph_asked accessor.now) u accessor.now.v (SomeWithin accessor.now.scheme 0 (P accessor.now.scheme)) (asked.known ≡ true) (asked.clique ≡ true) result }
{
    let acquaintance = if asked.known {
        known::between(
            accessor.world,
            &accessor.places.rows,
            &accessor.places.persons,
            u,
            accessor.v,
        )
    } else {
        Acquaintance::Close
    };
    let clique = if asked.clique {
        clique::largest(&accessor.places.rows, u, accessor.v)
    } else {
        0
    };
    Relation {
        distance: distance_mark::read(accessor.places.distances[u]),
        acquaintance,
        clique,
    }
}

// Whether the first common friends of u and v, one chosen after the other, make a clique of five with them.
fn five_at_once(world: &World<'_>, u: usize, v: usize) -> bool
    requires { (u < members_in world.now) × (v < members_in world.now) × Friends (graph_in world.now) u v }
    ensures { result ≡ true → (u ≡ v → ⊥) → LargestClique (graph_in world.now) u v 5 }
{
    let common = sets::meet(rows::friend_row(world, u), rows::friend_row(world, v));
    let Some(a) = sets::first_from(common, 0) else {
        return false;
    };
    let with_a = sets::meet(rows::friend_row(world, a), common);
    let Some(b) = sets::first_from(with_a, 0) else {
        return false;
    };
    sets::not_empty(sets::meet(rows::friend_row(world, b), with_a))
}

// The size of the largest clique with two friends: five at once, or as the rows of all members tell.
fn clique_of_friends(world: &World<'_>, u: usize, v: usize) -> usize
    requires { (u < members_in world.now) × (v < members_in world.now) × Friends (graph_in world.now) u v }
    ensures { (u ≡ v → ⊥) → LargestClique (graph_in world.now) u v result }
{
    if five_at_once(world, u, v) {
        return 5;
    }
    let mut rows = [[0; 4]; 256];
    row_table::fill_rows(world, &mut rows);
    clique::largest(&rows, u, v)
}

// The relation of members that are one or friends, the clique as far as it is asked: nothing is prepared for it.
pub fn of_friends(world: &World<'_>, u: usize, v: usize, clique: bool) -> Relation
    requires { (u < members_in world.now) × (v < members_in world.now) × ((u ≡ v) ⊎ Friends (graph_in world.now) u v) }
    ensures { Related (graph_in world.now) u v (λ k. 1 ≤ k) Unit (clique ≡ true) result }
{
    if u == v {
        return Relation {
            distance: Some(0),
            acquaintance: Acquaintance::Close,
            clique: 0,
        };
    }
    let size = if clique {
        clique_of_friends(world, u, v)
    } else {
        0
    };
    Relation {
        distance: Some(1),
        acquaintance: Acquaintance::Close,
        clique: size,
    }
}
