// An accepted scheme with a network that passes 5.
ghost use Rattle.network.specs.Once.{ready_once};
ghost use Rattle.network.specs.Ready.{Ready};

use super::{marked, pairs};
use tables::Scheme;

// What requests are judged on.
#[derive(Clone, Copy)]
pub struct World<'a> {
    pub scheme: Scheme<'a>,
    pub network: &'a [u8],
    pub ghost ready: { Ready scheme.bytes.now scheme.counts network.now } by { ready_once scheme.bytes.now scheme.counts network.now },
}

impl World<'_> {
    ghost use Rattle.std.specs.Prelude.{◌≡◌, ◌+◌, ◌<◌, ◌≤◌, min, max, length};
    ghost use Rattle.model.specs.Network.{state_of, pair_place, setting_place};
    ghost use Rattle.network.specs.Worlds.{members_in, resources_in, scheme_of_world, held_in, graph_in};

    // How many members there are.
    pub fn members(&self) -> usize
        ensures { (result ≡ members_in self.now) × (result ≤ 256) }
    {
        self.scheme.counts.members
    }

    // Where the state of two members stands.
    pub fn pair_place(&self, v: usize, u: usize) -> usize
        requires { (v < members_in self.now) × (u < members_in self.now) × (v ≡ u → ⊥) }
        ensures { (result ≡ pair_place (min v u) (max v u)) × (result < length self.now.network.now) }
    {
        if v < u { pairs(u) + v } else { pairs(v) + u }
    }

    // Where member m's setting for resource r stands.
    pub fn setting_place(&self, m: usize, r: usize) -> usize
        requires { (m < members_in self.now) × (r < resources_in self.now) }
        ensures { (result ≡ setting_place (scheme_of_world self.now) m r) × (result < length self.now.network.now) }
    {
        pairs(self.members()) + (m * self.scheme.counts.resources() + r)
    }

    // The state of two members; 0 where they are one.
    pub fn state(&self, u: usize, v: usize) -> u8
        requires { (u < members_in self.now) × (v < members_in self.now) }
        ensures { (result ≡ state_of (held_in self.now) u v) × (result < self.now.scheme.counts.states) }
    {
        if u == v {
            return 0;
        }
        self.network[self.pair_place(u, v)]
    }

    // The policy number that member m has chosen for resource r.
    pub fn setting(&self, m: usize, r: usize) -> usize
        requires { (m < members_in self.now) × (r < resources_in self.now) }
        ensures { (result ≡ (held_in self.now).setting m r) × (result < self.now.scheme.counts.policies) }
    {
        usize::from(self.network[self.setting_place(m, r)])
    }

    // Whether two members are friends.
    pub fn friends(&self, u: usize, v: usize) -> bool
        requires { (u < members_in self.now) × (v < members_in self.now) }
        ensures { result ≡ (graph_in self.now).friends u v }
    {
        u != v && marked(self.scheme.counts.marks, self.state(u, v))
    }
}
