// Pages of members: those of greatest rank first (document 02, 2026-02).

#![tactic(auto)]

ghost use Rattle.std.specs.Prelude.{◌≡◌, ◌<◌, ◌≤◌, length, take};
ghost use Rattle.model.proofs.Suggesting.{earlier};
ghost use Rattle.page.specs.Pages.{rank_of, InOrder, Inserted, Entered, LastRank, Filled};

use std::mem;

// Whether x stands before y: by the greater rank, among equals by the lower number.
#[tactic(auto, unfolding(model::proofs::Suggesting::earlier))]
fn before(ranks: &[u32], x: u16, y: u16) -> bool
    requires { (x < length ranks.now) × (y < length ranks.now) }
    ensures { result ≡ earlier (rank_of ranks.now) x y }
{
    let a = ranks[usize::from(x)];
    let b = ranks[usize::from(y)];
    b < a || a == b && x < y
}

// Puts m into its place on the page; who then stands behind it.
fn insert(page: &mut [u16], ranks: &[u32], m: u16) -> u16
    requires ranked { m < length ranks.now }
    requires in_order { InOrder ranks.now page.old }
    ensures { Inserted ranks.now page.old m page.new result }
{
    let mut carried = m;
    for x in page.iter_mut() {
        if !before(ranks, *x, carried) {
            carried = mem::replace(x, carried);
        }
    }
    carried
}

// The page in the first used of the places.
#[derive(Drop)]
struct Page<'a> {
    places: &'a mut [u16],
    used: usize,
    ranks: &'a [u32],
}

impl Page<'_> {
    // Puts m into its place; who would stand behind the places is dropped.
    fn enter(&mut self, m: u16)
        requires free { self.old.used ≤ length self.old.places.now }
        requires ranked { m < length self.old.ranks.now }
        requires in_order { InOrder self.old.ranks.now (take self.old.used self.old.places.now) }
        ensures entered { Entered self.old.ranks.now self.old.places.now self.old.used m self.new.used self.new.places.now }
        ensures same_places { self.new.places.ghost_name ≡ self.old.places.ghost_name }
        ensures same_ranks { self.new.ranks ≡ self.old.ranks }
    {
        let used = self.used;
        let carried = insert(&mut self.places[..used], self.ranks, m);
        if used < self.places.len() {
            self.places[used] = carried;
            self.used += 1;
        }
    }

    // The rank that the next must exceed: that of the last on a full page, 0 while a place is free.
    fn last_rank(&self) -> u32
        requires fits { self.now.used ≤ length self.now.places.now }
        requires in_order { InOrder self.now.ranks.now (take self.now.used self.now.places.now) }
        ensures { LastRank self.now.ranks.now self.now.places.now self.now.used result }
    {
        if 0 < self.used && self.used == self.places.len() {
            return self.ranks[usize::from(self.places[self.used - 1])];
        }
        0
    }
}

// Writes the page of the members with a rank above 0 into the places. How many it wrote.
fn fill_places(places: &mut [u16], ranks: &[u32]) -> usize
    requires { length ranks.now ≤ 65536 }
    ensures { Filled ranks.now places.old (length places.old) (length ranks.now) result places.new }
{
    let mut page = Page {
        places,
        used: 0,
        ranks,
    };
    // Members come by rising number: with a rank no greater than the last one's, m stands behind a full page.
    let mut least = 0;
    for (m, &rank) in ranks.iter().enumerate() {
        if rank > least {
            page.enter(m as u16);
            least = page.last_rank();
        }
    }
    page.used
}

// Writes the page of the members with a rank above 0, as many as wanted. How many it wrote.
pub fn fill(page: &mut [u16], wanted: usize, ranks: &[u32]) -> usize
    requires { (wanted ≤ length page.old) × (length ranks.now ≤ 65536) }
    ensures { Filled ranks.now page.old wanted (length ranks.now) result page.new }
{
    fill_places(&mut page[..wanted], ranks)
}
