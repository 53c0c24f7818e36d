//! What the mission sequencer asks of a program holds of each accepted one. The law is the contract of a function that
//! does nothing, and is proved by the lemma in proofs/ that says the same.

ghost use Rattle.scj_tree.specs.Forest.{Forest};
ghost use Rattle.accepted_laws.specs.Programs.{IsAcceptedProgram};
ghost use Rattle.scj_model.specs.Code.{code_of};
ghost use Rattle.mission_sound.specs.SequencerFacts.{SequencerFacts};

/// Each accepted program has what the mission sequencer asks.
pub fn sequencers_have_facts()
    ensures { (forest : Forest) → IsAcceptedProgram forest → SequencerFacts (code_of forest) }
{}
