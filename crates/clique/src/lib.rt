// Cliques (document 01, "Policies", kind 5).

#![tactic(auto)]

ghost use Rattle.std.specs.Prelude.{◌≡◌, true, ℕ, ◌+◌, ◌<◌};
ghost use Rattle.clique.specs.Mutual.{TellsEach, CliqueSize, FriendsOf};

// All friends of the members of a set that are not below from.
fn all_friends(rows: &[[u64; 4]; 256], set: [u64; 4], from: usize) -> [u64; 4]
    ensures { FriendsOf rows.now set from 256 result }
{
    let mut all = [0; 4];
    for m in sets::members_from(set, from) {
        let more = sets::join(all, rows[m]);
        all = more;
    }
    all
}

// Whether a set has two friends; the first is not looked for below from. One member is tried by itself, all others at once.
fn has_pair(rows: &[[u64; 4]; 256], set: [u64; 4], from: usize) -> bool
    ensures { TellsEach rows.now set from 2 result }
{
    let Some(m) = sets::first_from(set, from) else {
        return false;
    };
    if sets::not_empty(sets::meet(rows[m], set)) {
        return true;
    }
    sets::not_empty(sets::meet(all_friends(rows, set, m + 1), set))
}

// Whether a set has three friends of each other. Those already tried are not looked for again.
fn has_triangle(rows: &[[u64; 4]; 256], set: [u64; 4]) -> bool
    ensures { TellsEach rows.now set 0 3 result }
{
    for m in sets::members(set) {
        if has_pair(rows, sets::meet(rows[m], set), m + 1) {
            return true;
        }
    }
    false
}

// The number of members, at most 5, of the largest clique with u and v among them; 1 where they are one.
pub fn largest(rows: &[[u64; 4]; 256], u: usize, v: usize) -> usize
    requires { (u < 256) × (v < 256) }
    ensures { CliqueSize rows.now u v result }
{
    let of_u = rows[u];
    if !sets::has(of_u, v) {
        return 1;
    }
    let common = sets::meet(of_u, rows[v]);
    if !sets::not_empty(common) {
        return 2;
    }
    if !has_pair(rows, common, 0) {
        return 3;
    }
    if !has_triangle(rows, common) {
        return 4;
    }
    5
}
