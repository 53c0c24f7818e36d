//! The faults that constants make certain, by what is known of the operands.

ghost use Rattle.std.specs.Prelude.{◌≡◌};
ghost use Rattle.scj_tree.specs.Recursion.{lookup};
ghost use Rattle.scj_model.specs.Code.{code_of};
ghost use Rattle.certain_faults.specs.declared.known.Left.TheVariants.{Forgets as forgets};
ghost use Rattle.certain_faults.specs.Known.{left_by};
ghost use Rattle.certain_faults.specs.Faults.{division_fault, length_fault, port_fault, size_fault, ceiling_fault, call_fault, fault_at_node, certain_fault};

use crate::facts::binding;
use crate::forms::super_fault;
use crate::known::{Known, Left};
use crate::nodes::left_at;
use crate::numbers::{is_negative, is_no_port, is_no_priority};
use scj_base::ids::{DEVICE_READ, MANAGED_MEMORY_ENTER_PRIVATE_MEMORY, SERVICES_SET_CEILING};
use scj_base::{NodeId, RunFault, Value};
use scj_rules::{Binding, Checked};
use scj_tree::Node;
use value_operators::divides_by_zero;

/// The fault of a division.
#[tactic(auto, unfolding(crate::specs::Faults::division_fault))]
fn division_fault(operator: u8, right: Left) -> Option<RunFault>
    ensures { result ≡ division_fault operator right }
{
    match right {
        Left::One(Known::Exactly(value)) if divides_by_zero(operator, value) => {
            Some(RunFault::DivideByZero)
        }
        _ => None,
    }
}

/// The fault of an array's length.
#[tactic(auto, unfolding(crate::specs::Faults::length_fault))]
fn length_fault(length: Left) -> Option<RunFault>
    ensures { result ≡ length_fault length }
{
    match length {
        Left::One(length) if is_negative(length) => Some(RunFault::NegativeSize),
        _ => None,
    }
}

/// The fault of a port.
#[tactic(auto, unfolding(crate::specs::Faults::port_fault))]
fn port_fault(port: Left) -> Option<RunFault>
    ensures { result ≡ port_fault port }
{
    match port {
        Left::One(port) if is_no_port(port) => Some(RunFault::BadPort),
        _ => None,
    }
}

/// The fault of a size, where the Runnable isn't null.
#[tactic(auto, unfolding(crate::specs::Faults::size_fault))]
fn size_fault(size: Left, runnable: Left) -> Option<RunFault>
    ensures { result ≡ size_fault size runnable }
{
    match (size, runnable) {
        (Left::One(size), Left::One(Known::Object)) if is_negative(size) => {
            Some(RunFault::NegativeSize)
        }
        _ => None,
    }
}

/// The fault of an object and its ceiling.
#[tactic(auto, unfolding(crate::specs::Faults::ceiling_fault))]
fn ceiling_fault(object: Left, ceiling: Left) -> Option<RunFault>
    ensures { result ≡ ceiling_fault object ceiling }
{
    match (object, ceiling) {
        (Left::One(Known::Exactly(Value::Null)), Left::One(_)) => Some(RunFault::NullPointer),
        (Left::One(Known::Object), Left::One(ceiling)) if is_no_priority(ceiling) => {
            Some(RunFault::BadPriority)
        }
        _ => None,
    }
}

/// The fault of a call of the framework.
#[tactic(auto, unfolding(crate::specs::Faults::call_fault))]
fn call_fault(rows: &[Left], arguments: &[NodeId], binding: Binding) -> Option<RunFault>
    ensures { result ≡ call_fault (lookup forgets rows.now) arguments.now binding }
{
    let Binding::Builtin(target) = binding else {
        return None;
    };
    let method = target.id;
    match arguments {
        [x] => {
            if method == DEVICE_READ {
                port_fault(left_at(rows, *x))
            } else {
                None
            }
        }
        [x, y] => {
            if method == MANAGED_MEMORY_ENTER_PRIVATE_MEMORY {
                size_fault(left_at(rows, *x), left_at(rows, *y))
            } else if method == SERVICES_SET_CEILING {
                ceiling_fault(left_at(rows, *x), left_at(rows, *y))
            } else {
                None
            }
        }
        _ => None,
    }
}

/// The certain fault of a node.
#[tactic(auto, using(crate::proofs::PassLemmas::division_reported, crate::proofs::PassLemmas::length_reported, crate::proofs::PassLemmas::call_reported, crate::proofs::PassLemmas::super_reported), unfolding(crate::specs::Faults::fault_at_node))]
fn fault_at_node(checked: &Checked, rows: &[Left], id: NodeId, node: &Node) -> Option<RunFault>
    requires { lookup forgets rows.now ≡ left_by (code_of checked.now.program) }
    ensures { result ≡ fault_at_node (code_of checked.now.program) id node.now }
{
    match node {
        Node::Binary {
            operator,
            right,
            ..
        } => division_fault(*operator, left_at(rows, *right)),
        Node::NewArray { length, .. } => length_fault(left_at(rows, *length)),
        Node::Call { arguments, .. } => call_fault(rows, arguments.items(), binding(checked, id)),
        Node::SuperCall { arguments, .. } => {
            super_fault(rows, arguments.items(), binding(checked, id))
        }
        _ => None,
    }
}

/// The certain fault of the node of a number, by what the operations of each node leave.
#[tactic(auto, unfolding(crate::specs::Faults::certain_fault, scj_model::specs::Code::code_of, scj_rules::specs::Contexts::declarations_of))]
pub fn fault_at(checked: &Checked, rows: &[Left], id: NodeId) -> Option<RunFault>
    requires { lookup forgets rows.now ≡ left_by (code_of checked.now.program) }
    ensures { result ≡ certain_fault (code_of checked.now.program) id }
{
    match checked.program().get(id) {
        Some(node) => fault_at_node(checked, rows, id, node),
        None => None,
    }
}
