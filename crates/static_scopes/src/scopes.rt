//! Static scopes in normal form, one beside another, and those that are written by name.

ghost use Rattle.std.specs.Prelude.{◌≡◌, option_map};
ghost use Rattle.scj_rules.specs.Contexts.{declarations_of};
ghost use Rattle.scj_rules.specs.StaticScopes.{are_same_scope, beside, fits, substitute, scope_or, this_in, resolve_name, is_other_scope, resolved_scope, written_scope};

use program_facts::ProgramFacts;
use scj_base::{ClassId, Name};
use scj_rules::{ClassScope, Resolution, Scope};
use scope_tree::scopes::class_scope;

/// Whether two scopes are the same.
#[tactic(auto, unfolding(scj_rules::specs::StaticScopes::are_same_scope))]
pub fn are_same_scope(s: &Scope, t: &Scope) -> bool
    ensures { result ≡ are_same_scope s.now t.now }
{
    match (s, t) {
        (Scope::Any, Scope::Any) => true,
        (Scope::This, Scope::This) => true,
        (Scope::Caller, Scope::Caller) => true,
        (Scope::In(a), Scope::In(b)) => a == b,
        (Scope::Unknown, Scope::Unknown) => true,
        (Scope::Lost, Scope::Lost) => true,
        _ => false,
    }
}

/// Whether a reference of the first scope may go where the second is asked.
#[tactic(auto, unfolding(scj_rules::specs::StaticScopes::fits))]
pub fn fits(s: &Scope, t: &Scope) -> bool
    ensures { result ≡ fits s.now t.now }
{
    match (s, t) {
        (Scope::Any, _) => true,
        (_, Scope::Any) => true,
        (_, Scope::Unknown) => true,
        (_, Scope::Lost) => false,
        _ => are_same_scope(s, t),
    }
}

/// The scope of what lies where an object of this scope does: it is lost where nothing is known of the object.
#[tactic(auto, unfolding(scj_rules::specs::StaticScopes::beside))]
pub fn beside(scope: &Option<Scope>) -> Option<Scope>
    ensures { result ≡ option_map beside scope.now }
{
    match scope {
        Some(Scope::Unknown) => Some(Scope::Lost),
        _ => *scope,
    }
}

/// A callee's scope as its caller sees it, who calls it on an object of one scope and where another is current.
#[tactic(auto, unfolding(scj_rules::specs::StaticScopes::substitute))]
pub fn substitute(receiver: &Option<Scope>, current: &Option<Scope>, scope: &Scope) -> Option<Scope>
    ensures { result ≡ substitute receiver.now current.now scope.now }
{
    match scope {
        Scope::This => beside(receiver),
        Scope::Caller => *current,
        _ => Some(*scope),
    }
}

/// Where an object of a class lies: in the class's scope, or in this one where the class is unannotated.
pub fn scope_or(scope: &ClassScope, other: &Option<Scope>) -> Option<Scope>
    ensures { result ≡ scope_or scope.now other.now }
{
    match scope {
        ClassScope::Unannotated => *other,
        ClassScope::Annotated(scope) => Some(Scope::In(*scope)),
        ClassScope::Missing => None,
    }
}

/// Where the objects of a class lie, as their own methods say it.
#[tactic(auto, unfolding(scj_rules::specs::StaticScopes::this_in))]
pub fn this_in(facts: &ProgramFacts, class: ClassId) -> Option<Scope>
    ensures { result ≡ this_in (declarations_of facts.now) class }
{
    scope_or(&class_scope(facts, class), &Some(Scope::This))
}

/// What a name in an annotation denotes, in a class and where a scope is current.
#[tactic(auto, unfolding(scj_rules::specs::StaticScopes::resolve_name))]
pub fn resolve_name(
    facts: &ProgramFacts,
    class: ClassId,
    current: &Option<Scope>,
    name: &Name,
) -> Resolution
    ensures { result ≡ resolve_name (declarations_of facts.now) class current.now name.now }
{
    let scope = if name.bytes() == b"THIS".as_slice() {
        this_in(facts, class)
    } else if name.bytes() == b"CALLER".as_slice() {
        *current
    } else {
        return match facts.scope_number(name) {
            Some(scope) => Resolution::Resolved(Scope::In(scope)),
            None => Resolution::Unresolved,
        };
    };
    match &scope {
        Some(scope) => Resolution::Resolved(*scope),
        None => Resolution::Missing,
    }
}

/// The scope that is denoted, if one is and it isn't missing.
pub fn resolved_scope(resolution: &Resolution) -> Option<Scope>
    ensures { result ≡ resolved_scope resolution.now }
{
    match resolution {
        Resolution::Resolved(scope) => Some(*scope),
        Resolution::Missing | Resolution::Unresolved => None,
    }
}

/// The scope that a name denotes, in a class and where a scope is current.
#[tactic(auto, unfolding(scj_rules::specs::StaticScopes::written_scope))]
pub fn written_scope(
    facts: &ProgramFacts,
    class: ClassId,
    current: &Option<Scope>,
    name: &Name,
) -> Option<Scope>
    ensures { result ≡ written_scope (declarations_of facts.now) class current.now name.now }
{
    resolved_scope(&resolve_name(facts, class, current, name))
}

/// Whether a name denotes another scope than this one, or nothing; a missing scope differs from none.
pub fn is_other_scope(resolution: &Resolution, scope: &Scope) -> bool
    ensures { result ≡ is_other_scope resolution.now scope.now }
{
    match resolution {
        Resolution::Resolved(resolved) => !are_same_scope(resolved, scope),
        Resolution::Missing => false,
        Resolution::Unresolved => true,
    }
}
