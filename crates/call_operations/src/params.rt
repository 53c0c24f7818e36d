//! The parameters with which handlers and sequencers are constructed.

ghost use Rattle.std.specs.Prelude.{◌≡◌, IfOk};
ghost use Rattle.scj_model.specs.Effects.{pop_all};
ghost use Rattle.scj_model.specs.Operations.{periodic_parameters};
ghost use Rattle.op_list.specs.Listed.{Listing};
ghost use Rattle.op_list.specs.Meanings.{params};
ghost use Rattle.job_frames.specs.EffectsSeen.{Does};
ghost use Rattle.job_frames.specs.Frames.{frame_of};
ghost use Rattle.call_operations.specs.Continued.{keeping, passing};

use crate::parameters::{aperiodic_parameters, periodic_parameters, sequencer_parameters};
use job_frames::{Effect, Frame};
use scj_base::ids::{MISSION_SEQUENCER, PERIODIC_EVENT_HANDLER};
use scj_base::{ClassId, Memory, Ref};
use std::alloc::Global;

/// The last operands are the parameters of a periodic handler.
fn periodic(alloc: Global, frame: &mut Frame, r: Ref, count: usize) -> Result<Effect, Memory>
    ensures does { (code : Listing) → IfOk result (λ effect. Does code
        (pop_all count (frame_of code frame.old) (λ values f. periodic_parameters f r values))
        effect frame.new) }
    ensures opened { frame.new.opened ≡ frame.old.opened }
{
    let Some(values) = frame.pop_all(alloc, count)? else {
        return Ok(Effect::Stuck);
    };
    periodic_parameters(alloc, r, &values)
}

/// The last operands are the parameters of an aperiodic handler.
fn aperiodic(alloc: Global, frame: &mut Frame, r: Ref, count: usize) -> Result<Effect, Memory>
    ensures does { (code : Listing) → IfOk result (λ effect. Does code
        (pop_all count (frame_of code frame.old) (keeping r))
        effect frame.new) }
    ensures opened { frame.new.opened ≡ frame.old.opened }
{
    let Some(values) = frame.pop_all(alloc, count)? else {
        return Ok(Effect::Stuck);
    };
    aperiodic_parameters(alloc, r, &values)
}

/// The last operands are the parameters of a sequencer.
fn sequencer(alloc: Global, frame: &mut Frame, count: usize) -> Result<Effect, Memory>
    ensures does { (code : Listing) → IfOk result (λ effect. Does code
        (pop_all count (frame_of code frame.old) passing)
        effect frame.new) }
    ensures opened { frame.new.opened ≡ frame.old.opened }
{
    let Some(values) = frame.pop_all(alloc, count)? else {
        return Ok(Effect::Stuck);
    };
    Ok(sequencer_parameters(&values))
}

/// The parameters that a constructor hands to the constructor of the framework's class above.
pub fn params(alloc: Global, frame: &mut Frame, superclass: ClassId) -> Result<Effect, Memory>
    ensures does { (code : Listing) → IfOk result (λ effect.
        Does code (params (frame_of code frame.old) superclass) effect frame.new) }
    ensures opened { frame.new.opened ≡ frame.old.opened }
{
    let Some(r) = frame.this else {
        return Ok(Effect::Stuck);
    };
    if superclass == PERIODIC_EVENT_HANDLER {
        periodic(alloc, frame, r, 6)
    } else if superclass == MISSION_SEQUENCER {
        sequencer(alloc, frame, 2)
    } else {
        aperiodic(alloc, frame, r, 2)
    }
}
