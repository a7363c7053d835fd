// Whom a setting admits (document 01, "Policies").

#![tactic(auto)]

ghost use Rattle.std.specs.Prelude.{◌≡◌, ◌⊎◌, ◌+◌, ◌<◌, ◌≤◌};
ghost use Rattle.model.specs.Decides.{Decides};
ghost use Rattle.model.specs.Graph.{Friends};
ghost use Rattle.model.specs.Policies.{Admits};
ghost use Rattle.model.specs.SchemeBytes.{n, P, scheme_of};
ghost use Rattle.network.specs.Worlds.{members_in, scheme_of_world, graph_in};
ghost use Rattle.prepared.specs.Asking.{graph_asked};
ghost use Rattle.rule_admission.specs.Admission.{Reads, Admitted};
ghost use Rattle.policies.specs.Alone.{Alone};

use network::World;
use prepared::Accessor;
use relation::Relation;
use rules::Rule;
use tables::Scheme;

// The policies from a number on, below the count, that admit those so related, as a set.
fn judged(
    world: &World<'_>,
    relation: Relation,
    u: usize,
    v: usize,
    from: usize,
    count: usize,
) -> u32
    requires { Reads world.now.scheme.bytes.now world.now.network.now u v from count relation × Alone world.now.scheme.bytes.now from count × (u < members_in world.now) × (v < members_in world.now) × (from ≤ count) × (count ≤ world.now.scheme.counts.policies) }
    ensures { Admitted world.now.scheme.bytes.now world.now.network.now u v from count result }
{
    let mut set: u32 = 0;
    for p in from..count {
        let rule = rules::policy(&world.scheme, p);
        if rule_admission::admits(world, relation, rule, set, u, v) {
            set |= 1 << p;
        }
    }
    set
}

// The policies from a number on, below the count, that admit the accessor to what owner u has, as a set.
pub fn admitted(accessor: &Accessor<'_>, u: usize, from: usize, count: usize) -> u32
    requires { Alone accessor.now.scheme from count × (u < n accessor.now.scheme) × (from ≤ count) × (count ≤ P accessor.now.scheme) }
    ensures { Admitted accessor.now.scheme accessor.now.network u accessor.now.v from count result }
{
    let asked = prepared::kinds_of(&accessor.world.scheme, from, count);
    let relation = relation::of_prepared(accessor, u, asked);
    judged(accessor.world, relation, u, accessor.v, from, count)
}

// The lowest of the policies on which policy p rests: itself, or the first of all where it combines others.
fn lowest(scheme: &Scheme<'_>, p: usize) -> usize
    requires { p < scheme.now.counts.policies }
    ensures { (result ≤ p) × Alone scheme.now.bytes.now result (p + 1) }
{
    match rules::policy(scheme, p) {
        Rule::Both { .. } | Rule::Either { .. } => 0,
        _ => p,
    }
}

// Whether policy p admits the accessor to what owner u has.
pub fn admits(accessor: &Accessor<'_>, u: usize, p: usize) -> bool
    requires { (u < n accessor.now.scheme) × (p < P accessor.now.scheme) }
    ensures { Decides result (Admits (graph_asked accessor.now) ((scheme_of accessor.now.scheme).policy p) u accessor.now.v) }
{
    let from = lowest(&accessor.world.scheme, p);
    tables::offered(admitted(accessor, u, from, p + 1), p)
}

// Whether policy p admits accessor v to what owner u has, where they are one or friends: nothing is prepared for it.
pub fn admits_friend(world: &World<'_>, u: usize, v: usize, p: usize) -> bool
    requires { (u < members_in world.now) × (v < members_in world.now) × ((u ≡ v) ⊎ Friends (graph_in world.now) u v) × (p < world.now.scheme.counts.policies) }
    ensures { Decides result (Admits (graph_in world.now) ((scheme_of_world world.now).policy p) u v) }
{
    let from = lowest(&world.scheme, p);
    let asked = prepared::kinds_of(&world.scheme, from, p + 1);
    let relation = relation::of_friends(world, u, v, asked.clique);
    tables::offered(judged(world, relation, u, v, from, p + 1), p)
}
