// Whether one rule admits (document 01, "Policies").

#![tactic(auto)]

ghost use Rattle.std.specs.Prelude.{◌<◌};
ghost use Rattle.model.specs.Decides.{Decides};
ghost use Rattle.model.specs.Policies.{Admits, state as state_of};
ghost use Rattle.rules.specs.Rules.{policy_of_rule, side_named};
ghost use Rattle.network.specs.Worlds.{members_in, scheme_of_world, graph_in};
ghost use Rattle.rule_admission.specs.Admission.{NextRule};

use network::World;
use relation::Relation;
use rules::{Rule, Side};

// Kind 6: whether the state of u and v is in the set, and u on that side.
fn in_state(world: &World<'_>, states: u16, side: Side, u: usize, v: usize) -> bool
    requires { (u < members_in world.now) × (v < members_in world.now) }
    ensures { Decides result (Admits (graph_in world.now) (state_of states (side_named side)) u v) }
{
    let state = world.state(u, v);
    if !tables::offered(u32::from(states), usize::from(state)) {
        return false;
    }
    match side {
        Side::Any => true,
        Side::OwnerLesser => u < v,
        Side::OwnerGreater => u > v,
    }
}

// Whether a rule admits accessor v to what owner u has. Set has the policies of lower number that do, if the rule combines.
pub fn admits(
    world: &World<'_>,
    relation: Relation,
    rule: Rule,
    set: u32,
    u: usize,
    v: usize,
) -> bool
    requires { NextRule world.now.scheme.bytes.now world.now.network.now u v relation set rule × (u < members_in world.now) × (v < members_in world.now) }
    ensures { Decides result (Admits (graph_in world.now) (policy_of_rule (scheme_of_world world.now).policy rule) u v) }
{
    match rule {
        Rule::NoOne => false,
        Rule::Everyone => true,
        Rule::Owner => u == v,
        Rule::Within(k) => distance_mark::within(relation.distance, usize::from(k)),
        Rule::Known(k) => known::admits(relation.acquaintance, usize::from(k)),
        Rule::Clique(k) => u == v || usize::from(k) <= relation.clique,
        Rule::State { set: states, side } => in_state(world, states, side, u, v),
        Rule::Both { left, right } => {
            tables::offered(set, usize::from(left)) & tables::offered(set, usize::from(right))
        }
        Rule::Either { left, right } => {
            tables::offered(set, usize::from(left)) | tables::offered(set, usize::from(right))
        }
    }
}
