//! What each operation asks of the program.

ghost use Rattle.std.specs.Prelude.{◌≡◌};
ghost use Rattle.scj_model.specs.Code.{code_of};
ghost use Rattle.op_list.specs.Instructions.{instruction_of};

use crate::code::Code;
use crate::instructions::Instruction;
use crate::{call_instructions as calls, value_instructions as values};
use scj_model::Op;

/// What an operation asks.
#[tactic(auto, unfolding(crate::specs::Instructions::instruction_of))]
pub fn instruction_of(code: &Code<'_>, op: &Op) -> Instruction
    ensures { result ≡ instruction_of (code_of code.now) op.now }
{
    match op {
        Op::Push(id) => values::push(code, *id),
        Op::This(_) => Instruction::This,
        Op::Load(id) => values::load(code, *id),
        Op::Get(id) => values::get(code, *id),
        Op::GetStatic(id) => values::get_static(code, *id),
        Op::Length(_) => Instruction::Length,
        Op::Elem(_) => Instruction::Elem,
        Op::Unary(id) => values::unary(code, *id),
        Op::Bin(id) => values::bin(code, *id),
        Op::And(id) => values::and(code, *id),
        Op::Or(id) => values::or(code, *id),
        Op::Alloc(id) => calls::alloc(code, *id),
        Op::Construct(id) => calls::construct(code, *id),
        Op::AllocArray(id) => calls::alloc_array(code, *id),
        Op::Call(id) => calls::call(code, *id),
        Op::CallStatic(id) => calls::call_static(code, *id),
        Op::Cast(id) => values::cast(code, *id),
        Op::Enter(_) => Instruction::Enter,
        Op::ExecuteIn(_) => Instruction::ExecuteIn,
        Op::Same(_) => Instruction::Same,
        Op::SetCeiling(_) => Instruction::SetCeiling,
        Op::Print(id) => calls::print(code, *id),
        Op::Read(_) => Instruction::Read,
        Op::Register(_) => Instruction::Register,
        Op::Release(_) => Instruction::Release,
        Op::Terminate(_) => Instruction::Terminate,
        Op::Zero(id) => values::zero(code, *id),
        Op::Store(id) => values::store(code, *id),
        Op::Put(id) => values::put(code, *id),
        Op::PutStatic(id) => values::put_static(code, *id),
        Op::PutElem(_) => Instruction::PutElem,
        Op::If(id) => values::choose(code, *id),
        Op::Loop(id) => values::turn(code, *id),
        Op::LeaveWith(_) => Instruction::LeaveWith,
        Op::Leave => Instruction::Leave,
        Op::Drop(_) => Instruction::Drop,
        Op::Init(id) => values::init(code, *id),
        Op::Super(id) => calls::super_(code, *id),
        Op::Params(id) => calls::params(code, *id),
    }
}
