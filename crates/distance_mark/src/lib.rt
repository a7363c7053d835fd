// How far off a member is: what its mark says (document 01, "Policies", kind 3; document 02, 2026-01).

#![tactic(auto)]

ghost use Rattle.std.specs.Prelude.{◌≡◌};
ghost use Rattle.model.specs.Decides.{Decides};
ghost use Rattle.distance_mark.specs.Mark.{distance_at, AtMost};

// The distance that a mark says, the least number of friendships: one less; a mark of 0 says none up to the limit.
pub fn read(mark: u16) -> Option<u16>
    ensures { result ≡ distance_at mark }
{
    mark.checked_sub(1)
}

// Whether a distance is at most k.
pub fn within(distance: Option<u16>, k: usize) -> bool
    ensures { Decides result (AtMost distance k) }
{
    distance.is_some_and(|d| usize::from(d) <= k)
}
