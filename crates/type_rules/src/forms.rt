//! The form with which the constructor of a handler or a sequencer begins.

ghost use Rattle.std.specs.Prelude.{◌≡◌, option_copied, option_map};
ghost use Rattle.scj_rules.specs.Definitions.{read};
ghost use Rattle.scj_rules.specs.Words.{is_among};
ghost use Rattle.scj_rules.specs.Contexts.{declarations_of};
ghost use Rattle.scj_rules.specs.Types.{new_of, is_new, release_part, have_priority_and_storage, form_parts, has_form, super_call_in, form_in, is_form_part};

use crate::names::when;
use program_facts::ProgramFacts;
use scj_base::ids::{
    APERIODIC_PARAMETERS, MISSION_SEQUENCER, PERIODIC_EVENT_HANDLER, PERIODIC_PARAMETERS,
    PRIORITY_PARAMETERS, RELATIVE_TIME, STORAGE_PARAMETERS,
};
use scj_base::{ClassId, NodeId};
use scj_rules::has_form;
use scj_tree::Node;

/// The arguments of `new class(..)` at this node, where they are so many.
#[tactic(auto, unfolding(scj_rules::specs::Types::new_of, scj_rules::specs::Contexts::declarations_of))]
fn new_of<'a>(
    facts: &ProgramFacts<'a>,
    class: ClassId,
    count: usize,
    id: NodeId,
) -> Option<&'a [NodeId]>
    ensures { option_copied result ≡ read (declarations_of facts.now).nodes
        (new_of (declarations_of facts.now) class count) id }
{
    match facts.program().get(id)? {
        Node::New {
            name,
            arguments,
            ..
        } => {
            let is_right = arguments.items().len() == count && facts.class_of(name.get())? == class;
            when(is_right, arguments.items())
        }
        _ => None,
    }
}

/// Whether `new class(..)` with so many arguments stands at this node.
fn is_new(facts: &ProgramFacts<'_>, class: ClassId, count: usize, id: NodeId) -> bool
    ensures { result ≡ is_new (declarations_of facts.now) class count id }
{
    new_of(facts, class, count, id).is_some()
}

/// Of the release parameters of a handler's form, where this is them: whether a node is among their parts.
#[tactic(auto, unfolding(scj_rules::specs::Types::release_part, scj_rules::specs::Types::periodic_part))]
fn release_part(
    facts: &ProgramFacts<'_>,
    superclass: ClassId,
    id: NodeId,
    asked: NodeId,
) -> Option<bool>
    ensures { result ≡ option_map (is_among asked) (release_part (declarations_of facts.now) superclass id) }
{
    if superclass != PERIODIC_EVENT_HANDLER {
        return when(is_new(facts, APERIODIC_PARAMETERS, 0, id), asked == id);
    }
    match new_of(facts, PERIODIC_PARAMETERS, 2, id)? {
        [start, period] => {
            let are_times = is_new(facts, RELATIVE_TIME, 2, *start)
                && is_new(facts, RELATIVE_TIME, 2, *period);
            let is_part = asked == id || asked == *start || asked == *period;
            when(are_times, is_part)
        }
        _ => None,
    }
}

/// Whether the first and the last argument are those of a form.
fn have_priority_and_storage(facts: &ProgramFacts<'_>, priority: NodeId, storage: NodeId) -> bool
    ensures { result ≡ have_priority_and_storage (declarations_of facts.now) priority storage }
{
    is_new(facts, PRIORITY_PARAMETERS, 1, priority) && is_new(facts, STORAGE_PARAMETERS, 1, storage)
}

/// Of the `new` parts of a super call's arguments, where they are the form of this superclass: whether a node is one.
#[tactic(auto, unfolding(scj_rules::specs::Types::form_parts))]
fn form_parts(
    facts: &ProgramFacts<'_>,
    superclass: ClassId,
    arguments: &[NodeId],
    asked: NodeId,
) -> Option<bool>
    ensures { result ≡ option_map (is_among asked) (form_parts (declarations_of facts.now) superclass arguments.now) }
{
    match arguments {
        [priority, storage] => {
            let is_form = superclass == MISSION_SEQUENCER
                && have_priority_and_storage(facts, *priority, *storage);
            when(is_form, asked == *priority || asked == *storage)
        }
        [priority, release, storage] => {
            let is_released = release_part(facts, superclass, *release, asked)?;
            let is_form = superclass != MISSION_SEQUENCER
                && have_priority_and_storage(facts, *priority, *storage);
            when(
                is_form,
                asked == *priority || asked == *storage || is_released,
            )
        }
        _ => None,
    }
}

/// The arguments of the super call of a class's constructor.
pub fn super_arguments<'a>(facts: &ProgramFacts<'a>, class: ClassId) -> Option<&'a [NodeId]>
    ensures { option_copied result ≡ super_call_in (declarations_of facts.now) class }
{
    node_views::super_call_arguments(facts.program(), facts.classes().constructor_in(class)?)
}

/// Of the parts of the form in a class's constructor, if it has one: whether a node is among them.
#[tactic(auto, unfolding(scj_rules::specs::Types::form_in))]
pub fn form_in(facts: &ProgramFacts<'_>, class: ClassId, asked: NodeId) -> Option<bool>
    ensures { result ≡ option_map (is_among asked) (form_in (declarations_of facts.now) class) }
{
    let superclass = facts.classes().superclass(class)?;
    if !has_form(superclass) {
        return None;
    }
    form_parts(facts, superclass, super_arguments(facts, class)?, asked)
}

/// Whether the node is one of the parts of its class's form.
#[tactic(auto, unfolding(scj_rules::specs::Types::is_form_part))]
pub fn is_form_part(facts: &ProgramFacts<'_>, id: NodeId) -> bool
    ensures { result ≡ is_form_part (declarations_of facts.now) id }
{
    let context = facts.context(id);
    let Some(class) = context.class else {
        return false;
    };
    context.in_super_call && form_in(facts, class, id).unwrap_or(false)
}
