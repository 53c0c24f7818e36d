//! Operations that decide what comes next: `&&`, `||`, `if` and loops (JLS 15.23, 15.24, 14.9, 14.12, 14.14).

ghost use Rattle.std.specs.Prelude.{◌≡◌, ℕ, Bool, IfNone, IfOk, IfSome};
ghost use Rattle.scj_model.specs.declared.operations.Op.{Op as OpOfRun};
ghost use Rattle.scj_model.specs.declared.operations.Op.TheVariants.{And as AND, Or as OR, If as IF, Loop as LOOP};
ghost use Rattle.scj_model.specs.Code.{code_of};
ghost use Rattle.scj_model.specs.Effects.{Effect as Effected, Stuck, branch};
ghost use Rattle.scj_model.specs.State.{Frame as Running};
ghost use Rattle.scj_model.specs.Operations.{and_op, if_op, loop_op, or_op};
ghost use Rattle.op_list.specs.Listed.{Listing};
ghost use Rattle.job_frames.specs.Frames.{frame_of};
ghost use Rattle.job_frames.specs.EffectsSeen.{Does};
ghost use Rattle.value_operations.specs.Choosing.{Chooses};

use job_frames::{Effect, Frame};
use op_list::Row;
use scj_base::{Memory, Value};

/// Takes the condition of AND, OR, IF or LOOP, and goes on where it decides.
#[inline]
fn decided(frame: &mut Frame, row: &Row) -> Option<bool>
    ensures some { IfSome result (λ b. (code : Listing) (op : OpOfRun) (next : Bool → Running → Effected) →
        Chooses code row.now op frame.old.index →
        branch (code_of code.program) op (frame_of code frame.old) next ≡ next b (frame_of code frame.new)) }
    ensures none { IfNone result ((code : Listing) (op : OpOfRun) (next : Bool → Running → Effected) →
        branch (code_of code.program) op (frame_of code frame.old) next ≡ Stuck) }
    ensures opened { frame.new.opened ≡ frame.old.opened }
{
    let Some(Value::Bool(condition)) = frame.pop() else {
        return None;
    };
    frame.branch(row, condition);
    Some(condition)
}

/// AND: the right operand comes next where the left one is true (JLS 15.23).
pub fn and(frame: &mut Frame, row: &Row) -> Result<Effect, Memory>
    ensures does { (code : Listing) (id : ℕ) → Chooses code row.now (AND id) frame.old.index →
        IfOk result (λ effect.
        Does code (and_op (code_of code.program) (frame_of code frame.old) id) effect frame.new) }
    ensures opened { frame.new.opened ≡ frame.old.opened }
{
    let Some(is_true) = decided(frame, row) else {
        return Ok(Effect::Stuck);
    };
    if !is_true {
        frame.push(Value::Bool(false))?;
    }
    Ok(Effect::Goes)
}

/// OR: the right operand comes next where the left one is false (JLS 15.24).
pub fn or(frame: &mut Frame, row: &Row) -> Result<Effect, Memory>
    ensures does { (code : Listing) (id : ℕ) → Chooses code row.now (OR id) frame.old.index →
        IfOk result (λ effect.
        Does code (or_op (code_of code.program) (frame_of code frame.old) id) effect frame.new) }
    ensures opened { frame.new.opened ≡ frame.old.opened }
{
    let Some(is_true) = decided(frame, row) else {
        return Ok(Effect::Stuck);
    };
    if is_true {
        frame.push(Value::Bool(true))?;
    }
    Ok(Effect::Goes)
}

/// IF: one of its parts comes next (JLS 14.9).
pub fn choose(frame: &mut Frame, row: &Row) -> Effect
    ensures does { (code : Listing) (id : ℕ) → Chooses code row.now (IF id) frame.old.index →
        Does code (if_op (code_of code.program) (frame_of code frame.old) id) result frame.new }
    ensures opened { frame.new.opened ≡ frame.old.opened }
{
    match decided(frame, row) {
        Some(_) => Effect::Goes,
        None => Effect::Stuck,
    }
}

/// LOOP: one more turn comes next, or none (JLS 14.12, 14.14).
pub fn iterate(frame: &mut Frame, row: &Row) -> Effect
    ensures does { (code : Listing) (id : ℕ) → Chooses code row.now (LOOP id) frame.old.index →
        Does code (loop_op (code_of code.program) (frame_of code frame.old) id) result frame.new }
    ensures opened { frame.new.opened ≡ frame.old.opened }
{
    match decided(frame, row) {
        Some(_) => Effect::Goes,
        None => Effect::Stuck,
    }
}
