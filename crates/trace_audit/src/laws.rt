//! What an audit's Yes says, and how printed traces are read. Each law is the contract of a function that does nothing.

ghost use Rattle.std.specs.Prelude.{◌≡◌, ◌+◌, ℕ, List, option_map};
ghost use Rattle.scj_model.specs.Choice.{chosen};
ghost use Rattle.scj_model.specs.Plan.{Plan};
ghost use Rattle.scj_model.specs.State.{State};
ghost use Rattle.scj_tree.specs.declared.nodes.Node.{Node};
ghost use Rattle.scj_model.specs.declared.events.Event.{Event};
ghost use Rattle.scj_model.specs.TraceText.{text};
ghost use Rattle.trace_audit.specs.Audits.{audit_of};
ghost use Rattle.trace_audit.specs.PickedNames.{AllNamePick};
ghost use Rattle.trace_audit.specs.Printed.{HaveForms, audit_reported};
ghost use Rattle.trace_audit.specs.Replay.{Releases, nothing_reported, picked_index};
ghost use Rattle.trace_audit.specs.StandsFor.{StandsFor};
ghost use Rattle.trace_audit.specs.declared.answers.Audit.TheVariants.{Yes};

/// Where the answer is Yes, each `run` and each `idle` line names the release that Chosen picks of those that the lines
/// before it tell of, or nobody where it picks none.
pub fn yes_names_the_chosen()
    ensures { (plan : Plan) (trace : List ℕ) → audit_of plan trace ≡ Yes → AllNamePick plan trace }
{}

/// The text of a trace whose events have the forms of lines is audited as its events are, one by one: each line is read
/// as what its event tells.
pub fn printed_traces_are_read()
    ensures { (nodes : List Node) (files : List (List ℕ)) (plan : Plan) (events : List Event) → HaveForms nodes files events → audit_of plan (text nodes files events) ≡ audit_reported plan nothing_reported 1 events }
{}

/// Where the releases of a replay stand for those of a state of a run, Pick is the release that the machine chooses: its
/// place among those of the mission is the machine's place less the number of the releases of earlier missions.
pub fn pick_is_the_machines_choice()
    ensures { (s : State) (all : Releases) → StandsFor s all → chosen s ≡ option_map (λ (n : ℕ). s.earlier_releases + n) (picked_index all) }
{}
