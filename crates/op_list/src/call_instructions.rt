//! What calls and new objects ask of the program.

ghost use Rattle.std.specs.Prelude.{◌≡◌, ℕ, option_and_then};
ghost use Rattle.scj_rules.specs.Bodies.{body_of, constructor_body};
ghost use Rattle.scj_model.specs.declared.operations.Op.TheVariants as op;
ghost use Rattle.scj_model.specs.Code.{binding, code_of};
ghost use Rattle.scj_model.specs.Operations.{bound_class, bound_static_method};
ghost use Rattle.op_list.specs.Instructions.{instruction_of};

use crate::code::Code;
use crate::instructions::{ArrayClass, Callee, Instruction, Selector};
use crate::readings::{
    argument_count_at, bound_class, bound_method, bound_static_method, first_argument_at,
};
use scj_base::NodeId;
use scj_rules::Body;

/// A new object.
#[tactic(auto, using(crate::proofs::CodeLemmas::nodes_are, crate::proofs::CodeLemmas::program_is), unfolding(crate::specs::Instructions::instruction_of))]
pub fn alloc(code: &Code<'_>, id: NodeId) -> Instruction
    ensures { result ≡ instruction_of (code_of code.now) (op.Alloc id) }
{
    match bound_class(code.binding(id)) {
        Some(class) => Instruction::Alloc(class),
        None => Instruction::Stuck,
    }
}

/// The parameters of a handler or a sequencer.
#[tactic(auto, using(crate::proofs::CodeLemmas::nodes_are, crate::proofs::CodeLemmas::program_is), unfolding(crate::specs::Instructions::instruction_of))]
pub fn params(code: &Code<'_>, id: NodeId) -> Instruction
    ensures { result ≡ instruction_of (code_of code.now) (op.Params id) }
{
    match bound_class(code.binding(id)) {
        Some(class) => Instruction::Params(class),
        None => Instruction::Stuck,
    }
}

/// A text that is printed.
#[tactic(auto, using(crate::proofs::CodeLemmas::nodes_are, crate::proofs::CodeLemmas::program_is), unfolding(crate::specs::Instructions::instruction_of))]
pub fn print(code: &Code<'_>, id: NodeId) -> Instruction
    ensures { result ≡ instruction_of (code_of code.now) (op.Print id) }
{
    match first_argument_at(code, id) {
        Some(label) => Instruction::Print(label),
        None => Instruction::Stuck,
    }
}

/// A new array.
#[tactic(auto, using(crate::proofs::CodeLemmas::nodes_are, crate::proofs::CodeLemmas::program_is), unfolding(crate::specs::Instructions::instruction_of))]
pub fn alloc_array(code: &Code<'_>, id: NodeId) -> Instruction
    ensures { result ≡ instruction_of (code_of code.now) (op.AllocArray id) }
{
    match bound_class(code.binding(id)) {
        Some(class) => match code.layout().element_kind(class) {
            Some(kind) => Instruction::AllocArray(ArrayClass { class, kind }),
            None => Instruction::Stuck,
        },
        None => Instruction::Stuck,
    }
}

/// The constructor that a node names by its class.
#[tactic(auto, using(crate::proofs::CodeLemmas::program_is))]
fn constructor_at(code: &Code<'_>, id: NodeId) -> Option<Body>
    ensures { result ≡ option_and_then (constructor_body (code_of code.now).program)
        (bound_class (binding (code_of code.now) id)) }
{
    code.layout().constructor(bound_class(code.binding(id))?)
}

/// The static method that a node calls.
#[tactic(auto, using(crate::proofs::CodeLemmas::program_is))]
fn static_method_at(code: &Code<'_>, id: NodeId) -> Option<Body>
    ensures { result ≡ option_and_then (λ (method : ℕ × ℕ). body_of (code_of code.now).program method.0 method.1)
        (bound_static_method (binding (code_of code.now) id)) }
{
    let (class, method) = bound_static_method(code.binding(id))?;
    code.layout().body_of(class, method)
}

/// The call of a constructor.
#[tactic(auto, using(crate::proofs::CodeLemmas::nodes_are, crate::proofs::CodeLemmas::program_is), unfolding(crate::specs::Instructions::instruction_of))]
pub fn construct(code: &Code<'_>, id: NodeId) -> Instruction
    ensures { result ≡ instruction_of (code_of code.now) (op.Construct id) }
{
    let count = argument_count_at(code, id);
    match constructor_at(code, id) {
        Some(body) => match count {
            Some(count) => Instruction::Construct(Callee { body, count }),
            None => Instruction::Stuck,
        },
        None => Instruction::Stuck,
    }
}

/// The call of the superclass's constructor. One that isn't written has no arguments.
#[tactic(auto, using(crate::proofs::CodeLemmas::nodes_are, crate::proofs::CodeLemmas::program_is), unfolding(crate::specs::Instructions::instruction_of))]
pub fn super_(code: &Code<'_>, id: NodeId) -> Instruction
    ensures { result ≡ instruction_of (code_of code.now) (op.Super id) }
{
    let written = argument_count_at(code, id);
    let count = match written {
        Some(count) => count,
        None => 0,
    };
    match constructor_at(code, id) {
        Some(body) => Instruction::Super(Callee { body, count }),
        None => Instruction::Stuck,
    }
}

/// The call of a static method.
#[tactic(auto, using(crate::proofs::CodeLemmas::nodes_are, crate::proofs::CodeLemmas::program_is), unfolding(crate::specs::Instructions::instruction_of))]
pub fn call_static(code: &Code<'_>, id: NodeId) -> Instruction
    ensures { result ≡ instruction_of (code_of code.now) (op.CallStatic id) }
{
    let count = argument_count_at(code, id);
    match static_method_at(code, id) {
        Some(body) => match count {
            Some(count) => Instruction::CallStatic(Callee { body, count }),
            None => Instruction::Stuck,
        },
        None => Instruction::Stuck,
    }
}

/// The call of a method on an object.
#[tactic(auto, using(crate::proofs::CodeLemmas::nodes_are, crate::proofs::CodeLemmas::program_is), unfolding(crate::specs::Instructions::instruction_of))]
pub fn call(code: &Code<'_>, id: NodeId) -> Instruction
    ensures { result ≡ instruction_of (code_of code.now) (op.Call id) }
{
    let count = argument_count_at(code, id);
    match bound_method(code.binding(id)) {
        Some(method) => match count {
            Some(count) => Instruction::Call(Selector { method, count }),
            None => Instruction::Stuck,
        },
        None => Instruction::Stuck,
    }
}
