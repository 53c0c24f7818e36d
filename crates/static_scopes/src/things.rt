//! The static scopes of variables, fields and results.

ghost use Rattle.std.specs.Prelude.{◌≡◌, not};
ghost use Rattle.scj_rules.specs.Words.{holds};
ghost use Rattle.scj_rules.specs.Contexts.{declarations_of};
ghost use Rattle.scj_rules.specs.StaticScopes.{class_scope, has_no_scope, type_scope, resolve_at, is_unknown_scope, contradicts, declaration_scope, scoped_in_member, scoped_field, suits_field, field_scope};

use crate::scopes::{
    are_same_scope, is_other_scope, resolve_name, resolved_scope, scope_or, this_in,
};
use program_facts::ProgramFacts;
use scj_base::{ClassId, Name, ScopeId};
use scj_rules::{ClassScope, Declared, Resolution, Scope, ScopedDeclaration, Written, WrittenType};
use scope_tree::scopes::{class_scope, is_outer};

/// Whether the values of a type are no references.
#[tactic(auto, unfolding(scj_rules::specs::StaticScopes::has_no_scope))]
pub fn has_no_scope(declared_type: &WrittenType) -> bool
    ensures { result ≡ has_no_scope declared_type.now }
{
    matches!(
        declared_type,
        WrittenType::Int
            | WrittenType::Boolean
            | WrittenType::Void
            | WrittenType::Long
            | WrittenType::Text
    )
}

/// Where all values of a type lie.
#[tactic(auto, unfolding(scj_rules::specs::StaticScopes::type_scope, scj_rules::specs::ClassRules::class_written))]
fn type_scope(facts: &ProgramFacts, declared_type: &WrittenType) -> ClassScope
    ensures { result ≡ type_scope (declarations_of facts.now) declared_type.now }
{
    match declared_type {
        WrittenType::Class(name) => match facts.class_of(name) {
            Some(class) => class_scope(facts, class),
            None => ClassScope::Unannotated,
        },
        _ => ClassScope::Unannotated,
    }
}

/// What a name denotes in the annotation of a declaration. Some names denote nothing here, though they do elsewhere:
/// `UNKNOWN` off a local or parameter, `THIS` in a static member of an unannotated class, and `CALLER` on a field.
#[tactic(auto, unfolding(scj_rules::specs::StaticScopes::resolve_at, scj_rules::specs::StaticScopes::denotes_nothing, scj_rules::specs::StaticScopes::is_unannotated))]
fn resolve_at(facts: &ProgramFacts, thing: &ScopedDeclaration, name: &Name) -> Resolution
    ensures { result ≡ resolve_at (declarations_of facts.now) thing.now name.now }
{
    if name.bytes() == b"UNKNOWN".as_slice() {
        return if thing.is_variable {
            Resolution::Resolved(Scope::Unknown)
        } else {
            Resolution::Unresolved
        };
    }
    let denotes_nothing = if name.bytes() == b"THIS".as_slice() {
        thing.is_static && matches!(&class_scope(facts, thing.class), ClassScope::Unannotated)
    } else {
        name.bytes() == b"CALLER".as_slice() && thing.is_field
    };
    if denotes_nothing {
        return Resolution::Unresolved;
    }
    resolve_name(facts, thing.class, &thing.current, name)
}

/// Whether the name in the annotation of a declaration denotes nothing.
#[tactic(auto, unfolding(scj_rules::specs::StaticScopes::is_unknown_scope))]
pub fn is_unknown_scope(facts: &ProgramFacts, thing: &ScopedDeclaration, written: &Written) -> bool
    ensures { result ≡ is_unknown_scope (declarations_of facts.now) thing.now written.now }
{
    matches!(
        &resolve_at(facts, thing, &written.name),
        Resolution::Unresolved
    )
}

/// Whether a written scope contradicts the type of a thing.
#[tactic(auto, unfolding(scj_rules::specs::StaticScopes::contradicts))]
pub fn contradicts(facts: &ProgramFacts, thing: &ScopedDeclaration, written: &Written) -> bool
    ensures { result ≡ contradicts (declarations_of facts.now) thing.now written.now }
{
    if has_no_scope(&thing.declared_type) {
        return true;
    }
    match &type_scope(facts, &thing.declared_type) {
        ClassScope::Annotated(scope) => {
            let resolution = resolve_at(facts, thing, &written.name);
            is_other_scope(&resolution, &Scope::In(*scope))
        }
        _ => false,
    }
}

/// The scope of a thing.
#[tactic(auto, unfolding(scj_rules::specs::StaticScopes::declaration_scope, scj_rules::specs::StaticScopes::scope_as_written))]
pub fn declaration_scope(facts: &ProgramFacts, thing: &ScopedDeclaration) -> Option<Scope>
    ensures { result ≡ declaration_scope (declarations_of facts.now) thing.now }
{
    if has_no_scope(&thing.declared_type) {
        return None;
    }
    let scope = type_scope(facts, &thing.declared_type);
    let Some(written) = &thing.scope else {
        return scope_or(&scope, &thing.default);
    };
    if is_unknown_scope(facts, thing, written) {
        return None;
    }
    if contradicts(facts, thing, written) {
        return None;
    }
    let other = resolved_scope(&resolve_at(facts, thing, &written.name));
    scope_or(&scope, &other)
}

/// A parameter or a local as a thing, or else a result.
pub fn scoped_in_member(
    is_variable: bool,
    class: ClassId,
    current: &Option<Scope>,
    is_static: bool,
    declared: &Declared,
) -> ScopedDeclaration
    ensures { result ≡ scoped_in_member is_variable class current.now is_static declared.now }
{
    let modifiers = declared.modifiers;
    ScopedDeclaration {
        class,
        current: *current,
        default: *current,
        is_field: false,
        is_variable,
        is_static,
        declared_type: declared.declared_type,
        scope: modifiers.scope,
    }
}

/// A field as a thing.
pub fn scoped_field(facts: &ProgramFacts, class: ClassId, field: &Declared) -> ScopedDeclaration
    ensures { result ≡ scoped_field (declarations_of facts.now) class field.now }
{
    let modifiers = field.modifiers;
    let default = if modifiers.is_static {
        Some(Scope::In(ScopeId::IMMORTAL))
    } else {
        this_in(facts, class)
    };
    ScopedDeclaration {
        class,
        current: None,
        default,
        is_field: true,
        is_variable: false,
        is_static: modifiers.is_static,
        declared_type: field.declared_type,
        scope: modifiers.scope,
    }
}

/// Whether a field may have a scope.
#[tactic(auto, unfolding(scj_rules::specs::StaticScopes::suits_field, scj_rules::specs::StaticScopes::is_outer_of))]
fn suits_field(facts: &ProgramFacts, class: &ClassScope, is_static: bool, scope: &Scope) -> bool
    ensures { result ≡ suits_field (declarations_of facts.now) class.now is_static scope.now }
{
    let in_immortal = are_same_scope(scope, &Scope::In(ScopeId::IMMORTAL));
    if is_static {
        return in_immortal;
    }
    match class {
        ClassScope::Unannotated => are_same_scope(scope, &Scope::This) || in_immortal,
        ClassScope::Annotated(inner) => match scope {
            Scope::In(outer) => is_outer(facts, *outer, *inner),
            _ => false,
        },
        ClassScope::Missing => true,
    }
}

/// Whether a field of a class that lies in a scope, if in any, may not lie there.
pub fn misfits(facts: &ProgramFacts, class: ClassId, is_static: bool, scope: &Option<Scope>) -> bool
    ensures { let p = declarations_of facts.now in
        result ≡ holds scope.now (λ s. not (suits_field p (class_scope p class) is_static s)) }
{
    match scope {
        Some(scope) => !suits_field(facts, &class_scope(facts, class), is_static, scope),
        None => false,
    }
}

/// The scope of a field, found anew.
#[tactic(auto, unfolding(scj_rules::specs::StaticScopes::field_scope, scj_rules::specs::StaticScopes::misfits_field))]
pub fn find_field_scope(facts: &ProgramFacts, class: ClassId, field: &Declared) -> Option<Scope>
    ensures { result ≡ field_scope (declarations_of facts.now) class field.now }
{
    let thing = scoped_field(facts, class, field);
    let scope = declaration_scope(facts, &thing);
    if misfits(facts, class, thing.is_static, &scope) {
        return None;
    }
    scope
}
