// The members of a set one after the other.

ghost use Rattle.sets.specs.Members.{MembersFrom};

use std::marker::Model;

// The members that are left, by rising number: the set's from a number on, with the bits of its word that are left.
#[derive(Drop)]
pub struct MemberIter {
    set: [u64; 4],
    base: usize,
    word: u64,
}

impl Model for MemberIter {
    ghost use Rattle.sets.specs.Members.{Members, WordLeft};

    ghost Value = { Members };

    ghost view = { λ s. record { set = s.set; base = s.base; word = s.word } };

    ghost invariant = { λ s. WordLeft s.base s.word };
}

impl Iterator for MemberIter {
    ghost use Rattle.std.specs.Iterator.{at_most};
    ghost use Rattle.model.specs.Graph.{count};
    ghost use Rattle.sets.specs.Members.{GivesMember, is_left};

    type Item = usize;

    ghost next_gives = { GivesMember };

    ghost remaining = { λ left. at_most (count (is_left left) 256) };

    #[inline]
    fn next(&mut self) -> Option<usize> {
        while self.word == 0 {
            let w = self.base / 64 + 1;
            self.word = *self.set.get(w)?;
            self.base = w * 64;
        }
        let m = self.base + self.word.trailing_zeros() as usize;
        self.word &= self.word - 1;
        Some(m)
    }
}

// The members of a set at or above a number.
pub fn members_from(set: [u64; 4], from: usize) -> MemberIter
    ensures { MembersFrom set from result }
{
    let word = if from < 256 {
        crate::rest(set, from)
    } else {
        0
    };
    MemberIter {
        set,
        base: from,
        word,
    }
}

// The members of a set.
pub fn members(set: [u64; 4]) -> MemberIter
    ensures { MembersFrom set 0 result }
{
    members_from(set, 0)
}
