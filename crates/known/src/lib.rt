// How well two members are acquainted (document 01, "Policies", kind 4; document 02, 2026-04).

#![tactic(auto)]

ghost use Rattle.std.specs.Prelude.{ℕ, ◌<◌, [], get_or};
ghost use Rattle.model.specs.Decides.{Decides};
ghost use Rattle.model.specs.Graph.{Graph};
ghost use Rattle.model.specs.Policies.{Admits, known};
ghost use Rattle.network.specs.Worlds.{members_in, graph_in};
ghost use Rattle.sets.specs.Rows.{FriendRow, PersonRow};
ghost use Rattle.known.specs.Acquainted.{Acquainted};

use network::World;

// Two members are one or friends; or else they share so many friends that are persons.
#[derive(Clone, Copy, Debug, PartialEq, Eq)]
pub enum Acquaintance {
    Close,
    Sharing(usize),
}

// The acquaintance of u with v, whose row is in the table, by the row of persons.
pub fn between(
    world: &World<'_>,
    rows: &[[u64; 4]; 256],
    persons: &[u64; 4],
    u: usize,
    v: usize,
) -> Acquaintance
    requires { (u < members_in world.now) × (v < members_in world.now) × FriendRow (graph_in world.now) v (get_or rows.now v []) × PersonRow (graph_in world.now) persons.now }
    ensures { Acquainted (graph_in world.now) u v result }
{
    let of_v = rows[v];
    if u == v || sets::has(of_v, u) {
        return Acquaintance::Close;
    }
    let of_u = rows::friend_row(world, u);
    Acquaintance::Sharing(sets::shared(of_u, of_v, *persons) as usize)
}

// Whether policy known k admits those so acquainted.
pub fn admits(acquaintance: Acquaintance, k: usize) -> bool
    ensures { (g : Graph) (u v : ℕ) → Acquainted g u v acquaintance → Decides result (Admits g (known k) u v) }
{
    match acquaintance {
        Acquaintance::Close => true,
        Acquaintance::Sharing(count) => k <= count,
    }
}
