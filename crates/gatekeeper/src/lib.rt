// The calls for other languages, on numbers and lent slices. A slice stands in C as a pointer and a count of elements.

#![tactic(auto)]

ghost use Rattle.std.specs.Prelude.{◌≡◌};
ghost use Rattle.model.specs.Answers.{Answers};
ghost use Rattle.model.specs.Calls.{Called, Freshened, ListAnswered, DegreeAnswered, SuggestAnswered, LengthOf};
ghost use Rattle.model.specs.Questions.{ViewsLeft};
ghost use Rattle.model.specs.Requests.{event, set_policy, find, view, answered};
ghost use Rattle.model.specs.SchemeBytes.{scheme_needs};
ghost use Rattle.refusals.specs.Numbers.{answer_of};
ghost use Rattle.views.specs.Answered.{questions_of};
ghost use Rattle.gatekeeper.specs.Told.{told_or, degree_told};

use refusals::Refusal;
use views::Question;

// A call's number. Only a grant writes what it tells.
fn tell<T: Copy>(told: Result<T, Refusal>, place: &mut T) -> u8
    ensures { (result ≡ answer_of told) × (place.new ≡ told_or told place.old) }
{
    match told {
        Ok(x) => {
            *place = x;
            0
        }
        Err(refusal) => u8::from(refusal),
    }
}

// A degree as a number, 65535 for none.
fn numbered(told: Result<Option<u16>, Refusal>) -> Result<u16, Refusal>
    ensures { result ≡ degree_told told }
{
    told.map(|degree| degree.unwrap_or(65535))
}

// The scheme check.
pub fn gatekeeper_check(scheme: &[u8]) -> u8
    ensures { Answers (scheme_needs scheme.now) result }
{
    refusals::answer(scheme::check(scheme))
}

// How many bytes a network has under an accepted scheme; 0 under any other.
pub fn gatekeeper_network_length(scheme: &[u8]) -> usize
    ensures { LengthOf scheme.now result }
{
    let Ok(scheme) = scheme::check(scheme) else {
        return 0;
    };
    network::size(&scheme)
}

// Fresh: makes a lent network fresh.
pub fn gatekeeper_fresh(scheme: &[u8], network: &mut [u8]) -> u8
    ensures { Freshened scheme.now network.old result network.new }
{
    refusals::answer(fresh::fresh(scheme, network))
}

// Event: v uses primitive a towards u.
pub fn gatekeeper_event(scheme: &[u8], network: &mut [u8], v: usize, u: usize, a: usize) -> u8
    ensures { Called scheme.now network.old (answered (event v u a) result) network.new }
{
    refusals::answer(changes::event(scheme, network, v, u, a))
}

// Set: u chooses policy p for resource r.
pub fn gatekeeper_set(scheme: &[u8], network: &mut [u8], u: usize, r: usize, p: usize) -> u8
    ensures { Called scheme.now network.old (answered (set_policy u r p) result) network.new }
{
    refusals::answer(changes::set(scheme, network, u, r, p))
}

// Find: whether v finds u.
pub fn gatekeeper_find(scheme: &[u8], network: &[u8], v: usize, u: usize) -> u8
    ensures { Called scheme.now network.now (answered (find v u) result) network.now }
{
    refusals::answer(requests::find(scheme, network, v, u))
}

// List: v asks for u's friends. Only a grant writes the count.
pub fn gatekeeper_list(
    scheme: &[u8],
    network: &[u8],
    v: usize,
    u: usize,
    output: &mut [u16],
    count: &mut usize,
) -> u8
    ensures { ListAnswered scheme.now network.now v u output.old count.old result output.new count.new }
{
    tell(requests::list(scheme, network, v, u, output), count)
}

// Degree: the least number of friendships between v and u, 65535 for none. Only a grant writes it.
pub fn gatekeeper_degree(scheme: &[u8], network: &[u8], v: usize, u: usize, degree: &mut u16) -> u8
    ensures { DegreeAnswered scheme.now network.now v u degree.old result degree.new }
{
    tell(numbered(degree::degree(scheme, network, v, u)), degree)
}

// Suggest: the first c of the members that v might know. Only a grant writes the count.
pub fn gatekeeper_suggest(
    scheme: &[u8],
    network: &[u8],
    v: usize,
    c: usize,
    output: &mut [u16],
    count: &mut usize,
) -> u8
    ensures { SuggestAnswered scheme.now network.now v c output.old count.old result output.new count.new }
{
    tell(suggestions::suggest(scheme, network, v, c, output), count)
}

// View: v asks for item o of u.
pub fn gatekeeper_view(scheme: &[u8], network: &[u8], v: usize, u: usize, o: usize) -> u8
    ensures { Called scheme.now network.now (answered (view v u o) result) network.now }
{
    refusals::answer(requests::view(scheme, network, v, u, o))
}

// Views: fills in the answers of a list of questions. A refusal is of the whole list and fills in none.
pub fn gatekeeper_views(scheme: &[u8], network: &[u8], questions: &mut [Question]) -> u8
    ensures { ViewsLeft scheme.now network.now (questions_of questions.old) result (questions_of questions.new) }
{
    refusals::answer(views::views(scheme, network, questions))
}
