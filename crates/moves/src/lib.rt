// How a primitive moves the state of a pair (document 01, "Scheme", kind 2).

#![tactic(auto)]

ghost use Rattle.std.specs.Prelude.{◌≡◌, ◌<◌};
ghost use Rattle.model.specs.Requests.{next};
ghost use Rattle.network.specs.Worlds.{members_in, scheme_of_world, held_in};
ghost use Rattle.tables.specs.Schemes.{StateOf};

use network::World;

// The next state for the pair of v and u, v using primitive a, where one is defined.
pub fn next_state(world: &World<'_>, v: usize, u: usize, a: usize) -> Option<u8>
    requires { (v < members_in world.now) × (u < members_in world.now) × (a < world.now.scheme.counts.primitives) × (v ≡ u → ⊥) }
    ensures { StateOf (next (scheme_of_world world.now) (held_in world.now) v u a) result }
{
    let state = usize::from(world.state(v, u));
    world.scheme.next_state(state, usize::from(u < v), a)
}
