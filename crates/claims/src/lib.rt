// The claims about every list of calls (document 01, "Demand 3's plain machine"; document 02, 2026-06).

#![tactic(auto)]

ghost use Rattle.model.specs.Claims.{FromFresh, FromValid, EveryTrace, RunsReplayed, ViewGranted, ItemsUnseen, OneAnswer};
ghost use Rattle.model.specs.Consent.{ConsentOnRecord};
ghost use Rattle.model.specs.Session.{SixteenLines};
ghost use Rattle.claims.specs.Cite.{CallMade};

// Each claim is a contract of a function that does nothing, so that none can go missing: four from a fresh network, the same
// from every network that passes 5, and what makes friends under the standard scheme.
pub fn claims()
    ensures every_trace { EveryTrace CallMade FromFresh }
    ensures runs_replayed { RunsReplayed CallMade FromFresh }
    ensures view_granted { ViewGranted CallMade FromFresh }
    ensures items_unseen { ItemsUnseen CallMade FromFresh }
    ensures every_trace_from { EveryTrace CallMade FromValid }
    ensures runs_replayed_from { RunsReplayed CallMade FromValid }
    ensures view_granted_from { ViewGranted CallMade FromValid }
    ensures items_unseen_from { ItemsUnseen CallMade FromValid }
    ensures consent_on_record { ConsentOnRecord CallMade }
    ensures one_answer { OneAnswer }
    ensures sixteen_lines { SixteenLines }
{}
