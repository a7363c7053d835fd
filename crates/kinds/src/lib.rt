// The five kinds of request, with their members, resources and policies (document 01, "The calls").

#![tactic(auto)]

#[derive(Clone, Copy, Debug, PartialEq, Eq)]
pub enum Request {
    // v uses primitive a towards u
    Event(usize, usize, usize),
    // u chooses policy p for resource r
    Set(usize, usize, usize),
    // whether v finds u
    Find(usize, usize),
    // v asks for u's friends
    List(usize, usize),
    // v asks for item o of u
    View(usize, usize, usize),
}
