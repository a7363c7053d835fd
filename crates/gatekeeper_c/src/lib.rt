// The library for C: each call of `gatekeeper` under its own name, with the same clauses.

#![tactic(auto)]

ghost use Rattle.model.specs.Answers.{Answers};
ghost use Rattle.model.specs.Calls.{Called, Freshened, ListAnswered, DegreeAnswered, SuggestAnswered, LengthOf};
ghost use Rattle.model.specs.Questions.{ViewsLeft};
ghost use Rattle.model.specs.Requests.{event, set_policy, find, view, answered};
ghost use Rattle.model.specs.SchemeBytes.{scheme_needs};
ghost use Rattle.views.specs.Answered.{questions_of};

use views::Question;

// The scheme check.
#[unsafe(no_mangle)]
pub extern "C" fn gatekeeper_check(scheme: &[u8]) -> u8
    ensures { Answers (scheme_needs scheme.now) result }
{
    gatekeeper::gatekeeper_check(scheme)
}

// How many bytes a network has under an accepted scheme; 0 under any other.
#[unsafe(no_mangle)]
pub extern "C" fn gatekeeper_network_length(scheme: &[u8]) -> usize
    ensures { LengthOf scheme.now result }
{
    gatekeeper::gatekeeper_network_length(scheme)
}

// Fresh: makes a lent network fresh.
#[unsafe(no_mangle)]
pub extern "C" fn gatekeeper_fresh(scheme: &[u8], network: &mut [u8]) -> u8
    ensures { Freshened scheme.now network.old result network.new }
{
    gatekeeper::gatekeeper_fresh(scheme, network)
}

// Event: v uses primitive a towards u.
#[unsafe(no_mangle)]
pub extern "C" fn gatekeeper_event(
    scheme: &[u8],
    network: &mut [u8],
    v: usize,
    u: usize,
    a: usize,
) -> u8
    ensures { Called scheme.now network.old (answered (event v u a) result) network.new }
{
    gatekeeper::gatekeeper_event(scheme, network, v, u, a)
}

// Set: u chooses policy p for resource r.
#[unsafe(no_mangle)]
pub extern "C" fn gatekeeper_set(
    scheme: &[u8],
    network: &mut [u8],
    u: usize,
    r: usize,
    p: usize,
) -> u8
    ensures { Called scheme.now network.old (answered (set_policy u r p) result) network.new }
{
    gatekeeper::gatekeeper_set(scheme, network, u, r, p)
}

// Find: whether v finds u.
#[unsafe(no_mangle)]
pub extern "C" fn gatekeeper_find(scheme: &[u8], network: &[u8], v: usize, u: usize) -> u8
    ensures { Called scheme.now network.now (answered (find v u) result) network.now }
{
    gatekeeper::gatekeeper_find(scheme, network, v, u)
}

// List: v asks for u's friends. Only a grant writes the count.
#[unsafe(no_mangle)]
pub extern "C" fn gatekeeper_list(
    scheme: &[u8],
    network: &[u8],
    v: usize,
    u: usize,
    output: &mut [u16],
    count: &mut usize,
) -> u8
    ensures { ListAnswered scheme.now network.now v u output.old count.old result output.new count.new }
{
    gatekeeper::gatekeeper_list(scheme, network, v, u, output, count)
}

// Degree: the least number of friendships between v and u, 65535 for none. Only a grant writes it.
#[unsafe(no_mangle)]
pub extern "C" fn gatekeeper_degree(
    scheme: &[u8],
    network: &[u8],
    v: usize,
    u: usize,
    degree: &mut u16,
) -> u8
    ensures { DegreeAnswered scheme.now network.now v u degree.old result degree.new }
{
    gatekeeper::gatekeeper_degree(scheme, network, v, u, degree)
}

// Suggest: the first c of the members that v might know. Only a grant writes the count.
#[unsafe(no_mangle)]
pub extern "C" fn gatekeeper_suggest(
    scheme: &[u8],
    network: &[u8],
    v: usize,
    c: usize,
    output: &mut [u16],
    count: &mut usize,
) -> u8
    ensures { SuggestAnswered scheme.now network.now v c output.old count.old result output.new count.new }
{
    gatekeeper::gatekeeper_suggest(scheme, network, v, c, output, count)
}

// View: v asks for item o of u.
#[unsafe(no_mangle)]
pub extern "C" fn gatekeeper_view(scheme: &[u8], network: &[u8], v: usize, u: usize, o: usize) -> u8
    ensures { Called scheme.now network.now (answered (view v u o) result) network.now }
{
    gatekeeper::gatekeeper_view(scheme, network, v, u, o)
}

// Views: fills in the answers of a list of questions. A refusal is of the whole list and fills in none.
#[unsafe(no_mangle)]
pub extern "C" fn gatekeeper_views(scheme: &[u8], network: &[u8], questions: &mut [Question]) -> u8
    ensures { ViewsLeft scheme.now network.now (questions_of questions.old) result (questions_of questions.new) }
{
    gatekeeper::gatekeeper_views(scheme, network, questions)
}
