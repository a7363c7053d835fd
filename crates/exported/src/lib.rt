// The claims about every list of exported calls (document 01, "Demand 3's plain machine"; document 02, 2026-06).

#![tactic(auto)]

ghost use Rattle.model.specs.Claims.{FromFresh, FromValid, EveryTrace, RunsReplayed, ViewGranted, ItemsUnseen};
ghost use Rattle.model.specs.Consent.{ConsentOnRecord};
ghost use Rattle.exported.specs.Cite.{ExportedCall};

// As `claims::claims`, for the calls of `gatekeeper`.
pub fn claims()
    ensures every_trace { EveryTrace ExportedCall FromFresh }
    ensures runs_replayed { RunsReplayed ExportedCall FromFresh }
    ensures view_granted { ViewGranted ExportedCall FromFresh }
    ensures items_unseen { ItemsUnseen ExportedCall FromFresh }
    ensures every_trace_from { EveryTrace ExportedCall FromValid }
    ensures runs_replayed_from { RunsReplayed ExportedCall FromValid }
    ensures view_granted_from { ViewGranted ExportedCall FromValid }
    ensures items_unseen_from { ItemsUnseen ExportedCall FromValid }
    ensures consent_on_record { ConsentOnRecord ExportedCall }
{}
