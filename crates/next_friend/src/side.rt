// The members on one side of a member, by the pair bytes in their order, so that no place is computed anew for each.
ghost use Rattle.std.specs.Prelude.{ℕ, ◌≡◌, ◌+◌, ◌-◌, ◌<◌, ◌≤◌, MatchOption};
ghost use Rattle.std.specs.Iterator.{at_most};
ghost use Rattle.network.specs.Worlds.{members_in, graph_in};
ghost use Rattle.next_friend.specs.Side.{Apart, OnSide, place_on};

use network::{World, marked, pairs};

// The members from k on before the end, all above m or all below it, each with whether it is a friend of m.
#[derive(Drop)]
pub struct Side<'a, const ABOVE: bool> {
    world: World<'a>,
    m: usize,
    k: usize,
    end: usize,
    // Where the state of m and k stands.
    at: usize,
}

// Where the state of m and k stands, k above m or below it.
fn place<const ABOVE: bool>(m: usize, k: usize) -> usize
    requires { (m ≤ 256) × (k ≤ 256) }
    ensures { (result ≡ place_on ABOVE m k) × (result ≤ 32896) }
{
    if ABOVE { pairs(k) + m } else { pairs(m) + k }
}

// How much further that of m and the next stands.
fn step<const ABOVE: bool>(k: usize) -> usize
    requires { k ≤ 256 }
    ensures { Apart ABOVE k result × (result ≤ 256) }
{
    if ABOVE { k } else { 1 }
}

impl<'a, const ABOVE: bool> Side<'a, ABOVE> {
    // Those from one member on before another.
    pub fn new(world: &World<'a>, m: usize, from: usize, end: usize) -> Self
        requires { (m < members_in world.now) × (from ≤ end) × (end ≤ members_in world.now) × OnSide ABOVE m from end }
        ensures { (result.world ≡ world.now) × (result.m ≡ m) × (result.k ≡ from) × (result.end ≡ end) × (result.at ≡ place_on ABOVE m from) }
    {
        Side {
            world: *world,
            m,
            k: from,
            end,
            at: place::<ABOVE>(m, from),
        }
    }
}

impl<'a, const ABOVE: bool> Iterator for Side<'a, ABOVE> {
    type Item = (usize, bool);

    ghost can_next = { λ s. (s.m < members_in s.world) × (s.k ≤ s.end) × (s.end ≤ members_in s.world) × OnSide ABOVE s.m s.k s.end × (s.at ≡ place_on ABOVE s.m s.k) };

    ghost next_gives = { λ s r t. MatchOption r (s.k ≡ s.end) (λ x. (s.k ≡ x.0) × (x.0 < s.end) × (x.1 ≡ (graph_in s.world).friends s.m x.0) × (t.world ≡ s.world) × (t.m ≡ s.m) × (t.k ≡ x.0 + 1) × (t.end ≡ s.end)) };

    ghost remaining = { λ s. at_most (s.end - s.k) };

    fn next(&mut self) -> Option<(usize, bool)> {
        let k = self.k;
        if k >= self.end {
            return None;
        }
        let friend = marked(self.world.scheme.counts.marks, self.world.network[self.at]);
        self.at += step::<ABOVE>(k);
        self.k += 1;
        Some((k, friend))
    }
}
