//! All operations.

ghost use Rattle.std.specs.Prelude.{◌≡◌, IfOk};
ghost use Rattle.scj_model.specs.Code.{code_of};
ghost use Rattle.scj_model.specs.Operations.{effect_of};
ghost use Rattle.op_list.specs.Instructions.{instruction_of};
ghost use Rattle.op_list.specs.Meanings.{effect_by, node_number};
ghost use Rattle.op_list.specs.Rows.{GoesBy};
ghost use Rattle.job_frames.specs.EffectsSeen.{Does, world as environment};
ghost use Rattle.job_frames.specs.Frames.{frame_of};
ghost use Rattle.call_operations.specs.Choosing.{ChoosesIfAny};

use crate::nodes::node_number;
use crate::{areas, calls, constructors, objects, params, services};
use job_frames::{Effect, Frame};
use op_list::laws::instructions_mean_operations;
use op_list::{Instruction, OpList, Row};
use region_heap::RegionHeap;
use run_plan::Plan;
use scj_base::{Memory, NodeId};
use std::alloc::Global;

/// What an operation sees besides its frame: the objects and static fields, and what the ports read in this unit.
#[derive(Clone, Copy)]
pub struct World<'a> {
    /// The objects and the static fields.
    pub memory: &'a RegionHeap,
    /// What the ports read.
    pub plan: &'a Plan,
    /// The unit.
    pub unit: u64,
}

/// Does the instruction of a row, which is of this node, to a frame, and tells its effect.
#[tactic(auto, unfolding(op_list::specs::Meanings::effect_by, crate::specs::Choosing::ChoosesIfAny))]
fn follow(
    alloc: Global,
    code: &OpList<'_>,
    world: World<'_>,
    frame: &mut Frame,
    row: &Row,
    id: NodeId,
) -> Result<Effect, Memory>
    requires { ChoosesIfAny code.now row.now id frame.old.index }
    ensures does { IfOk result (λ effect. Does code.now
        (effect_by (code_of code.now.program)
        (environment world.entry.memory.now world.entry.plan.now.readings world.entry.unit)
        (frame_of code.now frame.old) id row.now.instruction) effect frame.new) }
    ensures opened { frame.new.opened ≡ frame.old.opened }
{
    let memory = world.memory;
    match &row.instruction {
        Instruction::Stuck => Ok(Effect::Stuck),
        Instruction::Push(literal) => value_operations::push(frame, literal.value),
        Instruction::This => value_operations::this(frame),
        Instruction::Load(k) => value_operations::load(frame, *k),
        Instruction::Get(field) => value_operations::get(code, memory, frame, *field),
        Instruction::GetStatic(index) => value_operations::get_static(memory, frame, *index),
        Instruction::Length => value_operations::length(memory, frame),
        Instruction::Elem => value_operations::elem(memory, frame),
        Instruction::Unary(operator) => value_operations::unary(frame, *operator),
        Instruction::Bin(operator) => value_operations::bin(frame, *operator),
        Instruction::And => value_operations::and(frame, row),
        Instruction::Or => value_operations::or(frame, row),
        Instruction::Alloc(class) => objects::alloc(alloc, code, *class),
        Instruction::Construct(callee) => {
            constructors::construct(alloc, frame, id, callee.body, callee.count, true)
        }
        Instruction::AllocArray(array) => Ok(objects::alloc_array(frame, array.class, array.kind)),
        Instruction::Call(selector) => calls::call(alloc, code, memory, frame, id, selector),
        Instruction::CallStatic(callee) => calls::call_static(alloc, frame, id, callee),
        Instruction::Cast(class) => value_operations::cast(code, memory, frame, *class),
        Instruction::Enter => Ok(areas::enter(code, memory, frame, id)),
        Instruction::ExecuteIn => Ok(areas::execute_in(alloc, code, memory, frame, id)),
        Instruction::Same => areas::same(memory, frame),
        Instruction::SetCeiling => Ok(services::set_ceiling(frame)),
        Instruction::Print(label) => Ok(services::print(frame, *label)),
        Instruction::Read => services::read(world.plan, world.unit, frame),
        Instruction::Register => Ok(services::register(frame)),
        Instruction::Release => Ok(services::release(frame)),
        Instruction::Terminate => Ok(services::terminate(frame)),
        Instruction::Zero(variable) => Ok(value_operations::zero(
            frame,
            variable.local,
            variable.kind,
        )),
        Instruction::Store(k) => Ok(value_operations::store(frame, *k)),
        Instruction::Put(field) => Ok(value_operations::put(code, memory, frame, *field)),
        Instruction::PutStatic(index) => Ok(value_operations::put_static(frame, *index)),
        Instruction::PutElem => Ok(value_operations::put_elem(memory, frame)),
        Instruction::If => Ok(value_operations::choose(frame, row)),
        Instruction::Loop => Ok(value_operations::iterate(frame, row)),
        Instruction::LeaveWith => Ok(value_operations::leave_with(frame)),
        Instruction::Leave => Ok(value_operations::leave(frame)),
        Instruction::Drop => Ok(value_operations::drop(frame)),
        Instruction::Init(literal) => {
            Ok(value_operations::init(code, memory, frame, literal.value, literal.field))
        }
        Instruction::Super(callee) => {
            constructors::construct(alloc, frame, id, callee.body, callee.count, false)
        }
        Instruction::Params(superclass) => params::params(alloc, frame, *superclass),
    }
}

/// Does the operation of a row to a frame that stands behind it, and tells its effect.
#[tactic(auto, using(crate::proofs::Choosing::chooses))]
pub fn operate(
    alloc: Global,
    code: &OpList<'_>,
    world: World<'_>,
    frame: &mut Frame,
    row: &Row,
) -> Result<Effect, Memory>
    requires asks { row.now.instruction ≡ instruction_of (code_of code.now.program) row.now.op }
    requires goes { GoesBy (code_of code.now.program) code.now.rows row.now frame.old.index }
    ensures does { IfOk result (λ effect. Does code.now
        (effect_of (code_of code.now.program)
        (environment world.entry.memory.now world.entry.plan.now.readings world.entry.unit)
        (frame_of code.now frame.old) row.now.op) effect frame.new) }
    ensures opened { frame.new.opened ≡ frame.old.opened }
{
    instructions_mean_operations();
    let id = node_number(row.op);
    follow(alloc, code, world, frame, row, id)
}
