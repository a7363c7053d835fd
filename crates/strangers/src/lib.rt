// What strangers may do under a fresh network (document 01, "Scheme check", refusal 4).

#![tactic(auto)]

ghost use Rattle.std.specs.Prelude.{◌≡◌, ◌<◌, ◌≤◌, length};
ghost use Rattle.model.specs.Decides.{Decides};
ghost use Rattle.model.specs.SchemeBytes.{scheme_of, StrangersApart};
ghost use Rattle.strangers.specs.Strangers.{SidesOf, SidesBelow};
ghost use Rattle.rules.specs.Rules.{policy_of_rule, RuleFits};
ghost use Rattle.tables.specs.Schemes.{scheme_in};

use rules::{Rule, Side};
use tables::Scheme;

// On which sides of the owner a rule admits an accessor, among strangers: bit 1 where the owner's number is the lesser, bit 2
// where it is the greater. sides has those of the policies below p.
fn rule_sides(scheme: &Scheme<'_>, rule: Rule, p: usize, sides: &[u8; 32]) -> u8
    requires { RuleFits p rule × (p ≤ 32) × SidesBelow scheme.now.bytes.now sides.now p }
    ensures { SidesOf result (policy_of_rule (scheme_in scheme.now).policy rule) }
{
    match rule {
        Rule::NoOne | Rule::Owner | Rule::Within(_) | Rule::Known(_) | Rule::Clique(_) => 0,
        Rule::Everyone => 6,
        Rule::State { set, side } => {
            if !tables::offered(u32::from(set), 0) {
                return 0;
            }
            match side {
                Side::Any => 6,
                Side::OwnerLesser => 2,
                Side::OwnerGreater => 4,
            }
        }
        Rule::Both { left, right } => sides[usize::from(left)] & sides[usize::from(right)],
        Rule::Either { left, right } => sides[usize::from(left)] | sides[usize::from(right)],
    }
}

// On which sides of the owner policy p admits an accessor, among strangers.
fn admitting(scheme: &Scheme<'_>, p: usize) -> u8
    requires { p < scheme.now.counts.policies }
    ensures { SidesOf result ((scheme_in scheme.now).policy p) }
{
    let mut sides = [0u8; 32];
    for q in 0..p {
        sides[q] = rule_sides(scheme, rules::policy(scheme, q), q, &sides);
    }
    rule_sides(scheme, rules::policy(scheme, p), p, &sides)
}

// Whether state 0 makes no friends and the lowest search policy admits no stranger.
pub fn apart(scheme: &Scheme<'_>) -> bool
    ensures { Decides result (StrangersApart scheme.now.bytes.now) }
{
    if scheme.bytes[scheme.counts.marks_at()] != 0 {
        return false;
    }
    let search = tables::lowest(scheme.mask(0));
    let sides = u32::from(admitting(scheme, search));
    !tables::offered(sides, 1) && !tables::offered(sides, 2)
}
