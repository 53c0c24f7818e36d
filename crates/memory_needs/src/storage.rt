//! The storage of a handler's class.

ghost use Rattle.std.specs.Prelude.{◌≡◌, option_copied};
ghost use Rattle.scj_rules.specs.Definitions.{read};
ghost use Rattle.scj_rules.specs.Types.{super_call_in};
ghost use Rattle.scj_model.specs.Code.{code_of};
ghost use Rattle.memory_needs.specs.Causes.{class_with_form, only_argument, storage_node};
ghost use Rattle.memory_needs.specs.Formed.{IsFormed, begins_with_form, storage_argument};

use crate::code::Code;
use scj_base::ids::{APERIODIC_EVENT_HANDLER, MISSION_SEQUENCER, PERIODIC_EVENT_HANDLER};
use scj_base::{ClassId, NodeId};
use scj_tree::Node;

/// Whether the constructor of a class begins with the form.
#[tactic(auto, unfolding(scj_model::specs::Code::code_of, crate::specs::Formed::begins_with_form))]
fn begins_with_form(code: &Code<'_>, class: ClassId) -> bool
    ensures { result ≡ begins_with_form (code_of code.now).program class }
{
    match code.classes().superclass(class) {
        Some(superclass) => {
            superclass == PERIODIC_EVENT_HANDLER
                || superclass == APERIODIC_EVENT_HANDLER
                || superclass == MISSION_SEQUENCER
        }
        None => false,
    }
}

/// The class of a chain whose constructor begins with the form.
#[tactic(auto, unfolding(scj_model::specs::Code::code_of, crate::specs::Causes::class_with_form))]
fn class_with_form(code: &Code<'_>, class: ClassId) -> Option<ClassId>
    ensures { result ≡ class_with_form (code_of code.now).program class }
{
    let mut chain = code.classes().superclasses(class);
    while let Some(at) = chain.next() {
        if begins_with_form(code, at) {
            return Some(at);
        }
    }
    None
}

/// The arguments of the super call of a class's constructor.
#[tactic(auto, unfolding(scj_model::specs::Code::code_of))]
fn super_arguments<'a>(code: &Code<'a>, class: ClassId) -> Option<&'a [NodeId]>
    ensures { option_copied result ≡ super_call_in (code_of code.now).program class }
{
    node_views::super_call_arguments(code.program(), code.classes().constructor_in(class)?)
}

/// The argument of a part of a form.
#[tactic(auto, using(op_list::proofs::CodeLemmas::nodes_are), unfolding(crate::specs::Causes::only_argument))]
fn only_argument(code: &Code<'_>, part: NodeId) -> Option<NodeId>
    ensures { result ≡ read (code_of code.now).program.nodes only_argument part }
{
    match code.program().get(part)? {
        Node::New { arguments, .. } => match arguments.items() {
            [argument] => Some(*argument),
            _ => None,
        },
        _ => None,
    }
}

/// The storage among the arguments of a form.
#[tactic(auto, unfolding(crate::specs::Formed::storage_argument))]
fn storage_argument(arguments: &[NodeId]) -> Option<NodeId>
    ensures { result ≡ storage_argument arguments.now }
{
    match arguments {
        [_, storage] => Some(*storage),
        [_, _, storage] => Some(*storage),
        _ => None,
    }
}

/// The node of the storage in the form with which a handler's constructor begins.
#[tactic(auto, using(crate::proofs::Forms::storage_is))]
pub fn storage_node(code: &Code<'_>, class: ClassId) -> Option<NodeId>
    ensures { IsFormed (code_of code.now).program class → result ≡ storage_node (code_of code.now).program class }
{
    let at = class_with_form(code, class)?;
    let arguments = super_arguments(code, at)?;
    only_argument(code, storage_argument(arguments)?)
}
