// Policies as a scheme's tables hold them (document 01, "Policies").

#![tactic(auto)]

ghost use Rattle.std.specs.Prelude.{◌≡◌, ◌<◌};
ghost use Rattle.model.specs.SchemeBytes.{side_of};
ghost use Rattle.rules.specs.Rules.{side_named, RuleOf, RuleAt};

use tables::Scheme;

// On which side of the owner the accessor is.
#[derive(Clone, Copy, Debug, PartialEq, Eq)]
pub enum Side {
    Any,
    OwnerLesser,
    OwnerGreater,
}

// A policy, by its kind.
#[derive(Clone, Copy, Debug, PartialEq, Eq)]
pub enum Rule {
    NoOne,
    Everyone,
    Owner,
    Within(u8),
    Known(u8),
    Clique(u8),
    State { set: u16, side: Side },
    Both { left: u8, right: u8 },
    Either { left: u8, right: u8 },
}

// The side that a state policy's k names.
fn wanted_side(k: u8) -> Side
    ensures { side_named result ≡ side_of k }
{
    match k {
        1 => Side::OwnerLesser,
        2 => Side::OwnerGreater,
        _ => Side::Any,
    }
}

// The rule of a policy's four bytes. No scheme that passes the check has a kind above 8, and no state policy a k above 2.
fn decode(kind: u8, k: u8, left: u8, right: u8) -> Rule
    ensures { RuleOf kind k left right result }
{
    match kind {
        1 => Rule::Everyone,
        2 => Rule::Owner,
        3 => Rule::Within(k),
        4 => Rule::Known(k),
        5 => Rule::Clique(k),
        6 => Rule::State {
            set: u16::from_le_bytes([left, right]),
            side: wanted_side(k),
        },
        7 => Rule::Both { left, right },
        8 => Rule::Either { left, right },
        _ => Rule::NoOne,
    }
}

// Policy p.
pub fn policy(scheme: &Scheme<'_>, p: usize) -> Rule
    requires { p < scheme.now.counts.policies }
    ensures { RuleAt scheme.now.bytes.now p result }
{
    let at = scheme.counts.policies_at() + p * 4;
    let bytes = scheme.bytes;
    decode(bytes[at], bytes[at + 1], bytes[at + 2], bytes[at + 3])
}
