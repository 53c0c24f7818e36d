//! The static scopes of expressions, kind by kind, and scopes beside each other, where some may be missing.

ghost use Rattle.std.specs.Prelude.{◌≡◌, Some, not, option_and_then};
ghost use Rattle.scj_rules.specs.Definitions.{read};
ghost use Rattle.scj_rules.specs.Words.{holds};
ghost use Rattle.scj_rules.specs.Contexts.{declarations_of};
ghost use Rattle.scj_rules.specs.Types.{meaning, receiver, accessed_field};
ghost use Rattle.scj_rules.specs.StaticScopes.{are_same_scope};
ghost use Rattle.scj_rules.specs.UseRules.{current_at, misfit_scope, receiver_scope, scope_of_field, scope_of_meaning, scope_of_new, scope_in_class, scope_of_call, scope_of_element};
ghost use Rattle.class_rows.specs.Fields.{found_field};
ghost use Rattle.method_rows.specs.Methods.{found_method};
ghost use Rattle.program_facts.specs.Meanings.{simply_named};
ghost use Rattle.program_facts.specs.Reported.{declared, types, scopes};

use class_rows::FieldRef;
use method_rows::MethodRef;
use program_facts::{At, NameMeaning, ProgramFacts};
use scj_base::{ClassId, Name, NodeId};
use scj_rules::{Scope, Ty};
use scope_tree::scopes::class_scope;
use static_scopes::{
    are_same_scope, beside, current_at, field_scope, fits, result_scope, scope_or, substitute,
    this_at, variable_scope,
};
use type_rules::names;

/// Whether a value's scope doesn't fit the one that is asked.
pub fn misfit_scope(value: &Option<Scope>, target: &Option<Scope>) -> bool
    ensures { result ≡ misfit_scope value.now target.now }
{
    match (value, target) {
        (Some(s), Some(t)) => !fits(s, t),
        _ => false,
    }
}

/// Whether there is a scope, and it is another than this one.
pub fn is_other(scope: &Option<Scope>, other: &Scope) -> bool
    ensures { result ≡ holds scope.now (λ s. not (are_same_scope s other.now)) }
{
    scope.is_some_and(|s| !are_same_scope(&s, other))
}

/// The scope of a receiver: of the value, or of `this`.
#[tactic(auto, unfolding(scj_rules::specs::UseRules::receiver_scope))]
pub fn receiver_scope(at: &At<'_>, object: &Option<NodeId>) -> Option<Scope>
    ensures { result ≡ receiver_scope (declared at.now) (scopes at.now) at.now.id object.now }
{
    match object {
        Some(object) => at.scope_of(*object),
        None => this_at(at.facts, at.id),
    }
}

/// A field's scope, with that of its object for THIS.
#[tactic(auto, unfolding(scj_rules::specs::UseRules::scope_of_field))]
fn scope_of_field(
    facts: &ProgramFacts<'_>,
    object: &Option<Scope>,
    field: &FieldRef,
) -> Option<Scope>
    ensures { result ≡ scope_of_field (declarations_of facts.now) object.now (found_field facts.now.nodes field.now) }
{
    let scope = field_scope(facts, field)?;
    substitute(object, &None, &scope)
}

/// The scope of a class's values, or this one where the class is unannotated.
#[tactic(auto, unfolding(scj_rules::specs::UseRules::scope_in_class))]
pub fn scope_in_class(
    facts: &ProgramFacts<'_>,
    class: ClassId,
    other: &Option<Scope>,
) -> Option<Scope>
    ensures { result ≡ scope_in_class (declarations_of facts.now) class other.now }
{
    scope_or(&class_scope(facts, class), other)
}

/// The scope in which a new object of a class lies.
#[tactic(auto, unfolding(scj_rules::specs::UseRules::scope_of_new, scj_rules::specs::UseRules::scope_in_class))]
pub fn scope_of_new(facts: &ProgramFacts<'_>, id: NodeId, class: ClassId) -> Option<Scope>
    ensures { result ≡ scope_of_new (declarations_of facts.now) id class }
{
    scope_in_class(facts, class, &current_at(facts, id))
}

/// The scope of a simple name.
#[tactic(auto, unfolding(scj_rules::specs::UseRules::scope_of_meaning, program_facts::specs::Meanings::meant))]
pub fn scope_of_name(at: &At<'_>, name: &Name) -> Option<Scope>
    requires { read at.now.facts.now.nodes simply_named at.now.id ≡ Some name.now }
    ensures { let p = declared at.now in result ≡ scope_of_meaning p at.now.id (meaning p at.now.id name.now) }
{
    let facts = at.facts;
    match &names::meaning_there(facts, at.id, name) {
        NameMeaning::Variable(variable) => variable_scope(facts, *variable),
        NameMeaning::Field(field) => scope_of_field(facts, &this_at(facts, at.id), field),
        NameMeaning::Class(_) | NameMeaning::Nothing => None,
    }
}

/// The scope of the field that an access names.
pub fn scope_of_access(at: &At<'_>, name: &Name, object: NodeId) -> Option<Scope>
    ensures { let p = declared at.now in result ≡ option_and_then (λ r. option_and_then
        (scope_of_field p (scopes at.now object)) (accessed_field p r name.now)) (receiver p (types at.now) object) }
{
    // The proof wants the type named that a receiver may hold.
    let _types: &[Option<Ty>] = at.types;
    let receiver = names::receiver(at, object)?;
    let field = names::field_accessed(at, &receiver, name)?;
    scope_of_field(at.facts, &at.scope_of(object), &field)
}

/// The scope of what a method gives that is called here.
#[tactic(auto, unfolding(scj_rules::specs::UseRules::scope_of_call))]
pub fn scope_of_call(at: &At<'_>, object: &Option<NodeId>, method: &MethodRef) -> Option<Scope>
    ensures { let p = declared at.now in result ≡ scope_of_call p (receiver_scope p (scopes at.now)
        at.now.id object.now) (current_at p at.now.id) (found_method at.now.facts.now.nodes method.now) }
{
    let facts = at.facts;
    let scope = result_scope(facts, method)?;
    let object = receiver_scope(at, object);
    substitute(&object, &current_at(facts, at.id), &scope)
}

/// The scope of an array's element.
#[tactic(auto, unfolding(scj_rules::specs::UseRules::scope_of_element))]
pub fn scope_of_element(at: &At<'_>, array: NodeId) -> Option<Scope>
    ensures { result ≡ option_and_then (scope_of_element (declared at.now) (scopes at.now array)) (types at.now array) }
{
    match &at.type_of(array) {
        Some(Ty::ClassArray(class)) => scope_in_class(
            at.facts,
            *class,
            &beside(&at.scope_of(array)),
        ),
        _ => None,
    }
}
