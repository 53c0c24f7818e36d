//! How the memory of a run goes on: arrivals change nothing in it, an operation opens at most one area or makes at most
//! one object, and what follows an operation at most closes areas. Each law is the contract of a function that does
//! nothing.
#![tactic(auto)]

ghost use Rattle.std.specs.Prelude.{◌≡◌, List, Some};
ghost use Rattle.scj_model.specs.declared.plans.ReadingRow.{ReadingRow as Reading};
ghost use Rattle.scj_model.specs.Arrivals.{arrivals};
ghost use Rattle.scj_model.specs.Choice.{Policy};
ghost use Rattle.scj_model.specs.Code.{Code};
ghost use Rattle.scj_model.specs.Plan.{Plan};
ghost use Rattle.scj_model.specs.Run.{acts};
ghost use Rattle.scj_model.specs.Sequencer.{phase_after};
ghost use Rattle.scj_model.specs.State.{State};
ghost use Rattle.scj_model.specs.Steps.{Step};
ghost use Rattle.area_growth.specs.Growth.{GoesOn, AreSituated, StaysSame, StaysStill};

/// The arrivals of a unit change nothing in the memory, its operation goes on in it, and what follows closes areas at
/// most.
pub fn memory_goes_on()
    ensures arrivals { (code : Code) (plan : Plan) (s : State) → StaysSame s (arrivals code plan s).state }
    ensures operation { (code : Code) (rows : List Reading) (policy : Policy) (s : State) (step : Step) →
        AreSituated code rows s → acts code rows policy s ≡ Some step → GoesOn s step.state }
    ensures phase { (code : Code) (s : State) (step : Step) → phase_after code s ≡ Some step →
        StaysStill s step.state }
{}
