//! What operations on values ask of the program.

ghost use Rattle.std.specs.Prelude.{◌≡◌, option_and_then};
ghost use Rattle.scj_rules.specs.Layout.{static_index};
ghost use Rattle.scj_model.specs.declared.operations.Op.TheVariants as op;
ghost use Rattle.scj_model.specs.Code.{code_of};
ghost use Rattle.scj_model.specs.Operations.{assigned, bound_field, bound_local, bound_static};
ghost use Rattle.op_list.specs.Instructions.{instruction_of};

use crate::code::Code;
use crate::instructions::{FieldLiteral, Instruction, Literal, LocalVariable};
use crate::readings::{
    assigned, bound_class, bound_field, bound_local, bound_static, literal_at, operator_at,
    value_of_field,
};
use node_views::variable_at;
use object_layout::kind_of_type;
use scj_base::{FieldId, NodeId};
use scj_tree::Node;

// ---- values and variables

/// A literal.
#[tactic(auto, using(crate::proofs::CodeLemmas::nodes_are, crate::proofs::CodeLemmas::program_is), unfolding(crate::specs::Instructions::instruction_of))]
pub fn push(code: &Code<'_>, id: NodeId) -> Instruction
    ensures { result ≡ instruction_of (code_of code.now) (op.Push id) }
{
    match literal_at(code, id) {
        Some(value) => Instruction::Push(Literal { value }),
        None => Instruction::Stuck,
    }
}

/// A local that is read.
#[tactic(auto, using(crate::proofs::CodeLemmas::nodes_are, crate::proofs::CodeLemmas::program_is), unfolding(crate::specs::Instructions::instruction_of))]
pub fn load(code: &Code<'_>, id: NodeId) -> Instruction
    ensures { result ≡ instruction_of (code_of code.now) (op.Load id) }
{
    match bound_local(code.binding(id)) {
        Some(local) => Instruction::Load(local),
        None => Instruction::Stuck,
    }
}

/// An instance field that is read.
#[tactic(auto, using(crate::proofs::CodeLemmas::nodes_are, crate::proofs::CodeLemmas::program_is), unfolding(crate::specs::Instructions::instruction_of))]
pub fn get(code: &Code<'_>, id: NodeId) -> Instruction
    ensures { result ≡ instruction_of (code_of code.now) (op.Get id) }
{
    match bound_field(code.binding(id)) {
        Some(field) => Instruction::Get(field),
        None => Instruction::Stuck,
    }
}

/// The place of a static field among all statics, if it is one.
#[tactic(auto, using(crate::proofs::CodeLemmas::program_is))]
fn place_of(code: &Code<'_>, field: Option<FieldId>) -> Option<u32>
    ensures { result ≡ option_and_then (static_index (code_of code.now).program) field }
{
    code.layout().static_index(field?)
}

/// A static field that is read.
#[tactic(auto, using(crate::proofs::CodeLemmas::nodes_are, crate::proofs::CodeLemmas::program_is), unfolding(crate::specs::Instructions::instruction_of))]
pub fn get_static(code: &Code<'_>, id: NodeId) -> Instruction
    ensures { result ≡ instruction_of (code_of code.now) (op.GetStatic id) }
{
    match place_of(code, bound_static(code.binding(id))) {
        Some(index) => Instruction::GetStatic(index),
        None => Instruction::Stuck,
    }
}

/// A local that is declared without a value.
#[tactic(auto, using(crate::proofs::CodeLemmas::nodes_are, crate::proofs::CodeLemmas::program_is), unfolding(crate::specs::Instructions::instruction_of))]
pub fn zero(code: &Code<'_>, id: NodeId) -> Instruction
    ensures { result ≡ instruction_of (code_of code.now) (op.Zero id) }
{
    match bound_local(code.binding(id)) {
        Some(local) => match variable_at(code.program(), id) {
            Some(variable) => Instruction::Zero(LocalVariable {
                local,
                kind: kind_of_type(&variable.declared_type),
            }),
            None => Instruction::Stuck,
        },
        None => Instruction::Stuck,
    }
}

/// The local that a node assigns.
fn assigned_local(code: &Code<'_>, id: NodeId) -> Option<u8>
    ensures { result ≡ option_and_then bound_local (assigned (code_of code.now) id) }
{
    bound_local(assigned(code, id)?)
}

/// The instance field that a node assigns.
fn assigned_field(code: &Code<'_>, id: NodeId) -> Option<FieldId>
    ensures { result ≡ option_and_then bound_field (assigned (code_of code.now) id) }
{
    bound_field(assigned(code, id)?)
}

/// The static field that a node assigns.
fn assigned_static(code: &Code<'_>, id: NodeId) -> Option<FieldId>
    ensures { result ≡ option_and_then bound_static (assigned (code_of code.now) id) }
{
    bound_static(assigned(code, id)?)
}

/// A local that is assigned.
#[tactic(auto, using(crate::proofs::CodeLemmas::nodes_are, crate::proofs::CodeLemmas::program_is), unfolding(crate::specs::Instructions::instruction_of))]
pub fn store(code: &Code<'_>, id: NodeId) -> Instruction
    ensures { result ≡ instruction_of (code_of code.now) (op.Store id) }
{
    match assigned_local(code, id) {
        Some(local) => Instruction::Store(local),
        None => Instruction::Stuck,
    }
}

/// An instance field that is assigned.
#[tactic(auto, using(crate::proofs::CodeLemmas::nodes_are, crate::proofs::CodeLemmas::program_is), unfolding(crate::specs::Instructions::instruction_of))]
pub fn put(code: &Code<'_>, id: NodeId) -> Instruction
    ensures { result ≡ instruction_of (code_of code.now) (op.Put id) }
{
    match assigned_field(code, id) {
        Some(field) => Instruction::Put(field),
        None => Instruction::Stuck,
    }
}

/// A static field that is assigned.
#[tactic(auto, using(crate::proofs::CodeLemmas::nodes_are, crate::proofs::CodeLemmas::program_is), unfolding(crate::specs::Instructions::instruction_of))]
pub fn put_static(code: &Code<'_>, id: NodeId) -> Instruction
    ensures { result ≡ instruction_of (code_of code.now) (op.PutStatic id) }
{
    match place_of(code, assigned_static(code, id)) {
        Some(index) => Instruction::PutStatic(index),
        None => Instruction::Stuck,
    }
}

/// The literal of a field.
#[tactic(auto, using(crate::proofs::CodeLemmas::nodes_are, crate::proofs::CodeLemmas::program_is), unfolding(crate::specs::Instructions::instruction_of))]
pub fn init(code: &Code<'_>, id: NodeId) -> Instruction
    ensures { result ≡ instruction_of (code_of code.now) (op.Init id) }
{
    match value_of_field(code, id) {
        Some(value) => match bound_field(code.binding(id)) {
            Some(field) => Instruction::Init(FieldLiteral { value, field }),
            None => Instruction::Stuck,
        },
        None => Instruction::Stuck,
    }
}

// ---- operators and choices

/// An operator on one operand.
#[tactic(auto, using(crate::proofs::CodeLemmas::nodes_are, crate::proofs::CodeLemmas::program_is), unfolding(crate::specs::Instructions::instruction_of))]
pub fn unary(code: &Code<'_>, id: NodeId) -> Instruction
    ensures { result ≡ instruction_of (code_of code.now) (op.Unary id) }
{
    match operator_at(code, id) {
        Some(operator) => Instruction::Unary(operator),
        None => Instruction::Stuck,
    }
}

/// An operator on two operands.
#[tactic(auto, using(crate::proofs::CodeLemmas::nodes_are, crate::proofs::CodeLemmas::program_is), unfolding(crate::specs::Instructions::instruction_of))]
pub fn bin(code: &Code<'_>, id: NodeId) -> Instruction
    ensures { result ≡ instruction_of (code_of code.now) (op.Bin id) }
{
    match operator_at(code, id) {
        Some(operator) => Instruction::Bin(operator),
        None => Instruction::Stuck,
    }
}

/// `&&`.
#[tactic(auto, using(crate::proofs::CodeLemmas::nodes_are, crate::proofs::CodeLemmas::program_is), unfolding(crate::specs::Instructions::instruction_of, scj_model::specs::Ops::right_operand))]
pub fn and(code: &Code<'_>, id: NodeId) -> Instruction
    ensures { result ≡ instruction_of (code_of code.now) (op.And id) }
{
    match code.node(id) {
        Some(Node::Binary { .. }) => Instruction::And,
        _ => Instruction::Stuck,
    }
}

/// `||`.
#[tactic(auto, using(crate::proofs::CodeLemmas::nodes_are, crate::proofs::CodeLemmas::program_is), unfolding(crate::specs::Instructions::instruction_of, scj_model::specs::Ops::right_operand))]
pub fn or(code: &Code<'_>, id: NodeId) -> Instruction
    ensures { result ≡ instruction_of (code_of code.now) (op.Or id) }
{
    match code.node(id) {
        Some(Node::Binary { .. }) => Instruction::Or,
        _ => Instruction::Stuck,
    }
}

/// An `if`.
#[tactic(auto, using(crate::proofs::CodeLemmas::nodes_are, crate::proofs::CodeLemmas::program_is), unfolding(crate::specs::Instructions::instruction_of, scj_model::specs::Ops::if_parts))]
pub fn choose(code: &Code<'_>, id: NodeId) -> Instruction
    ensures { result ≡ instruction_of (code_of code.now) (op.If id) }
{
    match code.node(id) {
        Some(Node::If { .. }) => Instruction::If,
        _ => Instruction::Stuck,
    }
}

/// A loop.
#[tactic(auto, using(crate::proofs::CodeLemmas::nodes_are, crate::proofs::CodeLemmas::program_is), unfolding(crate::specs::Instructions::instruction_of, scj_model::specs::Ops::iteration_ops))]
pub fn turn(code: &Code<'_>, id: NodeId) -> Instruction
    ensures { result ≡ instruction_of (code_of code.now) (op.Loop id) }
{
    match code.node(id) {
        Some(Node::While { .. }) => Instruction::Loop,
        Some(Node::For { .. }) => Instruction::Loop,
        _ => Instruction::Stuck,
    }
}

/// A cast.
#[tactic(auto, using(crate::proofs::CodeLemmas::nodes_are, crate::proofs::CodeLemmas::program_is), unfolding(crate::specs::Instructions::instruction_of))]
pub fn cast(code: &Code<'_>, id: NodeId) -> Instruction
    ensures { result ≡ instruction_of (code_of code.now) (op.Cast id) }
{
    match bound_class(code.binding(id)) {
        Some(class) => Instruction::Cast(class),
        None => Instruction::Stuck,
    }
}
