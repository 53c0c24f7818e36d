//! Where a run stands in the life of its missions.

ghost use Rattle.std.specs.Prelude.{◌≡◌};
ghost use Rattle.scj_model.specs.State.{is_exec, is_init};

use scj_model::Phase;

/// Whether a mission is initialised.
#[tactic(auto, unfolding(scj_model::specs::State::is_init))]
pub(crate) fn is_init(phase: Phase) -> bool
    ensures { result ≡ is_init phase }
{
    match phase {
        Phase::Init => true,
        Phase::Boot | Phase::Next | Phase::Exec | Phase::Cleanup | Phase::Over => false,
    }
}

/// Whether the handlers of a mission are released.
#[tactic(auto, unfolding(scj_model::specs::State::is_exec))]
pub fn is_exec(phase: Phase) -> bool
    ensures { result ≡ is_exec phase }
{
    match phase {
        Phase::Exec => true,
        Phase::Boot | Phase::Next | Phase::Init | Phase::Cleanup | Phase::Over => false,
    }
}
