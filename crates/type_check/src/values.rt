//! The types of what is made, where it breaks no rule.

ghost use Rattle.std.specs.Prelude.{◌≡◌, None, option_and_then, if◌then◌else◌};
ghost use Rattle.scj_rules.specs.Contexts.{declarations_of};
ghost use Rattle.scj_rules.specs.Types.{all_types, array_of, is_form_part};
ghost use Rattle.scj_rules.specs.TypeRules.{class_type_named, written_type};
ghost use Rattle.program_facts.specs.Reported.{declared, types};

use program_facts::{At, ProgramFacts};
use scj_base::{Name, NodeId};
use scj_rules::Ty;
use type_rules::arguments::are_typed;
use type_rules::forms::is_form_part;
use type_rules::names::array_written;

/// The type of a class where it is named.
pub fn class_named(facts: &ProgramFacts<'_>, name: &Name) -> Option<Ty>
    ensures { result ≡ class_type_named (declarations_of facts.now) name.now }
{
    Some(Ty::Class(facts.class_of(name)?))
}

/// The type of a `new`; the parts of a form have none.
#[tactic(auto, using(type_rules::proofs::CallLemmas::typed_then))]
pub fn type_of_new(at: &At<'_>, name: &Name, arguments: &[NodeId]) -> Option<Ty>
    ensures { result ≡ (if is_form_part (declared at.now) at.now.id then None else option_and_then
        (λ ts. class_type_named (declared at.now) name.now) (all_types (types at.now) arguments.now)) }
{
    if is_form_part(at.facts, at.id) || !are_typed(at, arguments) {
        return None;
    }
    class_named(at.facts, name)
}

/// The type of a new array of such elements and such a length.
pub fn type_of_new_array(at: &At<'_>, element: NodeId, length: NodeId) -> Option<Ty>
    ensures { result ≡ option_and_then
        (λ n. option_and_then array_of (written_type (declared at.now) element)) (types at.now length) }
{
    let _length = at.type_of(length)?;
    array_written(at.facts, element)
}
