// An accessor with what is prepared for it.
use crate::Places;
use network::World;
use std::marker::Model;

// Clauses see the world's bytes and the accessor's number.
#[derive(Drop)]
pub struct Accessor<'a> {
    pub world: &'a World<'a>,
    pub v: usize,
    pub places: &'a Places,
}

impl<'a> Model for Accessor<'a> {
    ghost use Rattle.prepared.specs.Asking.{Asking};

    ghost Value = { Asking };

    ghost use Rattle.std.specs.Prelude.{◌<◌};
    ghost use Rattle.prepared.specs.Prepared.{Prepared};

    ghost view = { λ a. record { scheme = a.world.now.scheme.bytes.now; network = a.world.now.network.now; v = a.v } };

    ghost invariant = { λ a. (a.v < a.world.now.scheme.counts.members) × Prepared a.world.now.scheme.bytes.now a.world.now.network.now a.v a.places.now.distances a.places.now.rows a.places.now.persons };
}

impl<'a> Accessor<'a> {
    ghost use Rattle.std.specs.Prelude.{◌≡◌, ◌<◌};
    ghost use Rattle.prepared.specs.Prepared.{Prepared};

    // What was prepared for member v.
    pub fn new(world: &'a World<'a>, v: usize, places: &'a Places) -> Accessor<'a>
        requires { (v < world.now.scheme.counts.members) × Prepared world.now.scheme.bytes.now world.now.network.now v places.now.distances places.now.rows places.now.persons }
        ensures { (result.scheme ≡ world.entry.now.scheme.bytes.now) × (result.network ≡ world.entry.now.network.now) × (result.v ≡ v) }
    {
        Accessor { world, v, places }
    }
}
