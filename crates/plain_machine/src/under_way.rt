//! A run under way.

ghost use Rattle.std.specs.Prelude.{◌≡◌, IfOk};
ghost use Rattle.scj_model.specs.Code.{code_of};
ghost use Rattle.scj_model.specs.Run.{empty_state};
ghost use Rattle.run_state.specs.Seen.{state_of};
ghost use Rattle.plain_machine.specs.Lawful.{IsLawful};
ghost use Rattle.plain_machine.specs.UnderWay.{HasSpent, IsBetween, IsNeverStuck};

use crate::statics::first_statics;
use job_frames::Activity;
use op_list::OpList;
use region_heap::RegionHeap;
use run_plan::Plan;
use run_releases::Releases;
use run_state::RunState;
use scj_base::Memory;
use scj_model::{Event, Phase, SeqOp};
use std::alloc::Global;
use unit_steps::{Setting, one_unit};

/// Where a run stands.
#[derive(Drop)]
pub struct UnderWay {
    /// Its state.
    pub(crate) state: RunState,
    /// How many of the plan's fires from the start are past.
    pub(crate) past: usize,
    /// What the last unit told.
    pub(crate) reported: Vec<Event>,
}

/// The state before the first unit.
#[tactic(auto, unfolding(scj_model::specs::Run::empty_state, run_state::specs::Seen::state_of))]
fn empty_state(alloc: Global, code: &OpList<'_>, plan: &Plan) -> Result<RunState, Memory>
    ensures state { IfOk result (λ state. state_of code.now state ≡ empty_state (code_of code.now.program) plan.now) }
    ensures unit { IfOk result (λ state. state.unit ≡ 0) }
{
    let statics = first_statics(alloc, code)?;
    Ok(RunState {
        memory: RegionHeap::make(alloc, plan.store(), statics)?,
        releases: Releases::new(alloc),
        registry: Vec::new(alloc),
        activity: Activity::empty(alloc),
        unit: 0,
        phase: Phase::Boot,
        operation: SeqOp::OpenImmortal,
        outcome: None,
        safelet: None,
        mission_sequencer: None,
        mission: None,
        is_end_asked: false,
        origin: 0,
        last_choice: None,
    })
}

/// A run before its first unit.
pub(crate) fn begin(alloc: Global, code: &OpList<'_>, plan: &Plan) -> Result<UnderWay, Memory>
    ensures between { IfOk result (λ at. IsBetween code.now plan.now at) }
    ensures unit { IfOk result (λ at. at.state.unit ≡ 0) }
{
    let state = empty_state(alloc, code, plan)?;
    Ok(UnderWay {
        state,
        past: 0,
        reported: Vec::new(alloc),
    })
}

/// Spends one unit of a run that is never stuck.
pub(crate) fn spend(alloc: Global, setting: Setting<'_>, at: &mut UnderWay) -> Result<(), Memory>
    requires same { setting.classes.now ≡ setting.code.now.program }
    requires never { IsNeverStuck setting.code.now.program setting.plan.now }
    requires lawful { IsLawful setting.code.now setting.plan.now }
    requires between { IsBetween setting.code.now setting.plan.now at.old }
    ensures { IfOk result (λ _. HasSpent setting.entry.code.now setting.entry.plan.now at.old.state.unit at.new) }
{
    at.reported.clear();
    if one_unit(
        alloc,
        setting,
        &mut at.past,
        &mut at.state,
        &mut at.reported,
    )? {
        Ok(())
    } else {
        unreachable!()
    }
}
