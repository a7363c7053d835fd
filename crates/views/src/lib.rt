// Many views in one call (document 02, 2026-05).

#![tactic(auto)]

ghost use Rattle.std.specs.Prelude.{◌≡◌, ◌<◌, Some};
ghost use Rattle.network.specs.Worlds.{members_in, resources_in, world_in};
ghost use Rattle.checks.specs.Judged.{Judged};
ghost use Rattle.views.specs.Marked.{Marked, MarkedFor};
ghost use Rattle.views.specs.Answered.{ViewAnswered, ViewsCalled};

use network::World;
use prepared::{Accessor, Places};
use refusals::Refusal;

// The viewer asks for an item of the owner. In C the struct is `gatekeeper_question`.
#[repr(C)]
#[derive(Clone, Copy, Debug, PartialEq, Eq)]
pub struct Question {
    pub viewer: usize,
    pub owner: usize,
    pub item: usize,
    pub answer: u8,
}

// The viewer of the last question that was judged, if there is one: what is prepared for it, and the marks of everyone whom it
// finds. The next question reads them where its viewer is the same.
#[derive(Drop)]
struct Viewer<'a> {
    world: World<'a>,
    v: Option<usize>,
    places: Places,
    found: [u16; 256],
}

impl Viewer<'_> {
    // Marks everyone whom v finds, unless that is done.
    fn mark(&mut self, v: usize)
        requires { Marked self.now × (v < members_in self.now.world) }
        ensures { (self.new.world ≡ self.old.world) × MarkedFor self.new v × (self.new.v ≡ Some v) }
    {
        if self.v == Some(v) {
            return;
        }
        checks::everyone(&self.world, v, &mut self.places, &mut self.found);
        self.v = Some(v);
    }

    // What is granted to v, for whom everyone is marked, of u's resource r.
    fn judge(&self, v: usize, u: usize, r: usize) -> Result<(), Refusal>
        requires { MarkedFor self.now v × (u < members_in self.now.world) × (r < resources_in self.now.world) }
        ensures { Judged (world_in self.now.world) v u r (Some tt) result }
    {
        let accessor = Accessor::new(&self.world, v, &self.places);
        checks::judge_found(&accessor, self.found[u] != 0, u, r, Some(()))
    }

    // The answer to one question, from the members marked for its viewer.
    fn view(&mut self, v: usize, u: usize, o: usize) -> Result<(), Refusal>
        requires { Marked self.old }
        ensures marked { (self.new.world ≡ self.old.world) × Marked self.new }
        ensures answer { ViewAnswered self.old.world v u o result }
    {
        let world = self.world;
        opening::members(&world, v, u)?;
        let counts = world.scheme.counts;
        if o >= counts.items {
            return Err(Refusal::Resource);
        }
        self.mark(v);
        self.judge(v, u, 2 + counts.primitives + o)
    }
}

// Views: fills in the answer of each question. Neighbours of one viewer share what is computed for it.
pub fn views(scheme: &[u8], network: &[u8], questions: &mut [Question]) -> Result<(), Refusal>
    ensures { ViewsCalled scheme.now network.now questions.old result questions.new }
{
    let world = opening::begin(scheme, network)?;
    let mut viewer = Viewer {
        world,
        v: None,
        places: Places::new(),
        found: [0; 256],
    };
    for question in questions.iter_mut() {
        question.answer = refusals::answer(viewer.view(
            question.viewer,
            question.owner,
            question.item,
        ));
    }
    Ok(())
}
