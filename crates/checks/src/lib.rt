// What several calls check: finding and admission (9, 10 and 11).

#![tactic(auto)]

ghost use Rattle.std.specs.Prelude.{◌≡◌, ◌+◌, ◌⊎◌, ◌<◌, true};
ghost use Rattle.std.specs.Fn.{FnOnceTakesAt, FnOnceReturnsAt};
ghost use Rattle.model.specs.Decides.{Decides};
ghost use Rattle.model.specs.Finding.{Finds};
ghost use Rattle.model.specs.Graph.{Friends};
ghost use Rattle.model.specs.SchemeBytes.{n, A, I};
ghost use Rattle.network.specs.Worlds.{members_in, resources_in, world_in, graph_in};
ghost use Rattle.prepared.specs.Asking.{world_asked};
ghost use Rattle.prepared.specs.Prepared.{Prepared, Written};
ghost use Rattle.finding.specs.Everyone.{Everyone};
ghost use Rattle.checks.specs.Asked.{asking_in};
ghost use Rattle.checks.specs.Judged.{Judged};

use network::World;
use prepared::{Accessor, Places};
use refusals::Refusal;

// Whether v and u are one or friends: then v finds u, and nothing has to be prepared.
fn near(world: &World<'_>, v: usize, u: usize) -> bool
    requires { (v < members_in world.now) × (u < members_in world.now) }
    ensures near { Decides result ((u ≡ v) ⊎ Friends (graph_in world.now) u v) }
    ensures found { result ≡ true → Finds (world_in world.now) v u }
{
    u == v || world.friends(u, v)
}

// What is asked of an accessor, which is prepared for it.
fn ask<R, F: FnOnce(&Accessor<'_>) -> R>(world: &World<'_>, v: usize, asked: F) -> R
    requires { (v < members_in world.now) × FnOnceTakesAt F.FnOnce asked (asking_in world.now v) }
    ensures { FnOnceReturnsAt F.FnOnce asked (asking_in world.now v) result }
{
    let mut places = Places::new();
    prepared::prepare(world, v, &mut places);
    asked(&Accessor::new(world, v, &places))
}

// Whether v finds u.
pub fn found(world: &World<'_>, v: usize, u: usize) -> bool
    requires { (v < members_in world.now) × (u < members_in world.now) }
    ensures { Decides result (Finds (world_in world.now) v u) }
{
    near(world, v, u)
        || ask(
            world,
            v,
            |accessor|
                requires { u < n accessor.now.scheme }
                ensures { Decides result (Finds (world_asked accessor.now) accessor.now.v u) }
            { finding::finds(accessor, u) },
        )
}

// Marks everyone whom v finds, and leaves what was prepared for v. No closure can say what it leaves in a lent place, so the
// accessor is prepared here too.
pub fn everyone(world: &World<'_>, v: usize, places: &mut Places, found: &mut [u16; 256])
    requires { v < members_in world.now }
    ensures prepared { Prepared world.now.scheme.bytes.now world.now.network.now v places.new.distances places.new.rows places.new.persons }
    ensures written { Written world.now.scheme.bytes.now world.now.network.now v places.old.distances places.old.rows places.old.persons places.new.distances places.new.rows places.new.persons }
    ensures found { Everyone (world_in world.now) v found.new }
{
    prepared::prepare(world, v, places);
    finding::everyone(&Accessor::new(world, v, places), found);
}

// What is granted to a member that is u or its friend, and so finds it.
fn judge_near<T: Copy>(
    world: &World<'_>,
    v: usize,
    u: usize,
    r: usize,
    granted: Option<T>,
) -> Result<T, Refusal>
    requires { (v < members_in world.now) × (u < members_in world.now) × (r < resources_in world.now) × ((u ≡ v) ⊎ Friends (graph_in world.now) u v) × Finds (world_in world.now) v u }
    ensures { Judged (world_in world.now) v u r granted result }
{
    let granted = granted.ok_or(Refusal::Undefined)?;
    if !policies::admits_friend(world, u, v, world.setting(u, r)) {
        return Err(Refusal::NotAdmitted);
    }
    Ok(granted)
}

// What is granted to an accessor of whom it is known whether it finds u.
pub fn judge_found<T: Copy>(
    accessor: &Accessor<'_>,
    found: bool,
    u: usize,
    r: usize,
    granted: Option<T>,
) -> Result<T, Refusal>
    requires { (u < n accessor.now.scheme) × (r < 2 + A accessor.now.scheme + I accessor.now.scheme) × Decides found (Finds (world_asked accessor.now) accessor.now.v u) }
    ensures { Judged (world_asked accessor.now) accessor.now.v u r granted result }
{
    if !found {
        return Err(Refusal::NotFound);
    }
    let granted = granted.ok_or(Refusal::Undefined)?;
    if !starts::allows(accessor, u, r) {
        return Err(Refusal::NotAdmitted);
    }
    Ok(granted)
}

// What is granted, if anything is defined: 9 if v does not find u; 10 if nothing is defined; 11 if u's setting for resource r
// does not admit v.
pub fn judge<T: Copy>(
    world: &World<'_>,
    v: usize,
    u: usize,
    r: usize,
    granted: Option<T>,
) -> Result<T, Refusal>
    requires { (v < members_in world.now) × (u < members_in world.now) × (r < resources_in world.now) }
    ensures { Judged (world_in world.now) v u r granted result }
{
    if near(world, v, u) {
        return judge_near(world, v, u, r, granted);
    }
    ask(
        world,
        v,
        |accessor|
            requires { (u < n accessor.now.scheme) × (r < 2 + A accessor.now.scheme + I accessor.now.scheme) }
            ensures { Judged (world_asked accessor.now) accessor.now.v u r granted result }
        { judge_found(accessor, finding::finds(accessor, u), u, r, granted) },
    )
}
