//! What is asked of the scopes of a program. Where a table has no row of a class, what is asked is found anew: so the
//! tables themselves are made.

ghost use Rattle.std.specs.Prelude.{◌≡◌, ◌==◌, not, length};
ghost use Rattle.std.specs.List.{list_any};
ghost use Rattle.scj_rules.specs.Words.{is_among};
ghost use Rattle.scj_rules.specs.Contexts.{declarations_of};
ghost use Rattle.scj_rules.specs.ScopeRules.{defined_by, defined_by_chain, is_cyclic_scope, is_outer, parent_scope, scope_written_in};
ghost use Rattle.scj_rules.specs.StaticScopes.{class_scope, is_implied_immortal, has_unknown_scope, is_not_scope, implied_scopes, differs_from_above, scope_of_right_class, class_scope_under, class_scope_on};
ghost use Rattle.class_rows.specs.Walks.{chain_from};

use crate::names::{definition_in, modifiers_in};
use class_rows::chains::Chain;
use program_facts::ProgramFacts;
use scj_base::ids::{MISSION, MISSION_SEQUENCER, SAFELET};
use scj_base::{ClassId, ScopeId};
use scj_builtins::FRAMEWORK_CLASS_COUNT;
use scj_rules::{ClassScope, Written};

/// Whether a scope isn't the implied one, if one is.
fn is_other_than_implied(scope: ScopeId, implied: bool) -> bool
    ensures { result ≡ list_any (λ s. not (scope == s)) (implied_scopes implied) }
{
    implied && scope != ScopeId::IMMORTAL
}

/// The scope that a class defines.
#[tactic(auto, unfolding(scj_rules::specs::ScopeRules::defined_by))]
fn defined_by(facts: &ProgramFacts, class: ClassId) -> Option<ScopeId>
    ensures { result ≡ defined_by (declarations_of facts.now) class }
{
    let definition = definition_in(facts.classes(), class)?;
    facts.scope_number(&definition.scope.name)
}

/// The scope that the chain of a class defines, the first class that does; found anew.
#[tactic(auto, using(class_rows::proofs::WalkLemmas::along_front, class_rows::proofs::WalkLemmas::along_end), unfolding(scj_rules::specs::ScopeRules::defined_by_chain))]
pub(crate) fn find_chained(facts: &ProgramFacts, class: ClassId) -> Option<ScopeId>
    ensures { result ≡ defined_by_chain (declarations_of facts.now) class }
{
    let mut chain = facts.classes().superclasses(class);
    while let Some(at) = chain.next() {
        if let Some(scope) = defined_by(facts, at) {
            return Some(scope);
        }
    }
    None
}

/// The parent of the scope that a class is the first to define; found anew.
#[tactic(auto, unfolding(scj_rules::specs::ScopeRules::parent_scope))]
pub(crate) fn find_parent(facts: &ProgramFacts, class: ClassId) -> Option<ScopeId>
    ensures { result ≡ parent_scope (declarations_of facts.now) class }
{
    let definition = definition_in(facts.classes(), class)?;
    facts.scope_number(&definition.parent.name)
}

/// The scope that the chain of a class defines.
#[tactic(auto, unfolding(program_facts::specs::Tables::row_of))]
pub fn defined_by_chain(facts: &ProgramFacts, class: ClassId) -> Option<ScopeId>
    ensures { result ≡ defined_by_chain (declarations_of facts.now) class }
{
    match facts.class_reported(class.number()) {
        Some(row) => row.chained,
        None => find_chained(facts, class),
    }
}

/// The parent of a scope.
#[tactic(auto, unfolding(program_facts::specs::Tables::row_of))]
pub fn parent_scope(facts: &ProgramFacts, scope: ScopeId) -> Option<ScopeId>
    ensures { result ≡ parent_scope (declarations_of facts.now) scope }
{
    match facts.class_reported(scope.number()) {
        Some(row) => row.parent,
        None => find_parent(facts, ClassId::at(scope.number())),
    }
}

/// Where the instances of a class lie.
#[tactic(auto, unfolding(program_facts::specs::Tables::row_of))]
pub fn class_scope(facts: &ProgramFacts, class: ClassId) -> ClassScope
    ensures { result ≡ class_scope (declarations_of facts.now) class }
{
    match facts.class_reported(class.number()) {
        Some(row) => row.scope,
        None => find_class_scope(facts, class),
    }
}

/// Whether the instances of a class lie in `IMMORTAL` although it doesn't write so.
#[tactic(auto, unfolding(scj_rules::specs::StaticScopes::is_implied_immortal))]
pub fn is_implied_immortal(facts: &ProgramFacts, class: ClassId) -> bool
    ensures { result ≡ is_implied_immortal (declarations_of facts.now) class }
{
    if let Some(mark) = facts.implied_reported(class) {
        return mark;
    }
    let classes = facts.classes();
    class.number() >= FRAMEWORK_CLASS_COUNT
        && (classes.is_under(class, MISSION)
            || classes.is_under(class, MISSION_SEQUENCER)
            || classes.implements(class, SAFELET))
}

/// Whether a scope stands on a chain of parents.
#[tactic(auto, using(class_rows::proofs::WalkLemmas::chain_here, crate::proofs::TreeLemmas::passed_here, class_rows::proofs::WalkLemmas::chain_ended))]
fn is_reached(facts: &ProgramFacts, a: ScopeId, from: Option<ScopeId>) -> bool
    ensures { let p = declarations_of facts.now in
        result ≡ is_among a (chain_from (parent_scope p) (length p.classes) from) }
{
    let mut here = from;
    let mut left = facts.class_count();
    while left > 0 {
        let Some(scope) = here else {
            return false;
        };
        if a == scope {
            return true;
        }
        here = parent_scope(facts, scope);
        left -= 1;
    }
    false
}

/// Whether the first scope is the second one, or lies outside it.
#[tactic(auto, unfolding(scj_rules::specs::ScopeRules::is_outer))]
pub fn is_outer(facts: &ProgramFacts, a: ScopeId, b: ScopeId) -> bool
    ensures { result ≡ is_outer (declarations_of facts.now) a b }
{
    a == ScopeId::IMMORTAL || is_reached(facts, a, Some(b))
}

/// Whether the parents of the scope that a class is the first to define lead back to it.
#[tactic(auto, unfolding(scj_rules::specs::Words::chain_behind))]
pub(crate) fn is_cyclic(facts: &ProgramFacts, class: ClassId) -> bool
    ensures { result ≡ is_cyclic_scope (declarations_of facts.now) class }
{
    let scope = ScopeId::at(class.number());
    is_reached(facts, scope, parent_scope(facts, scope))
}

/// The scope that a class writes for its instances.
#[tactic(auto, unfolding(scj_rules::specs::ScopeRules::scope_written_in))]
pub fn scope_written_in(facts: &ProgramFacts, class: ClassId) -> Option<Written>
    ensures { result ≡ scope_written_in (declarations_of facts.now) class }
{
    modifiers_in(facts.classes(), class)?.scope
}

/// Whether a value is written that names no scope.
pub fn has_unknown_scope(facts: &ProgramFacts, written: &Option<Written>) -> bool
    ensures { result ≡ has_unknown_scope (declarations_of facts.now) written.now }
{
    match written {
        Some(written) => facts.scope_number(&written.name).is_none(),
        None => false,
    }
}

/// Whether an annotation names another scope than this one, or none.
fn is_not_scope(facts: &ProgramFacts, written: &Written, scope: ScopeId) -> bool
    ensures { result ≡ is_not_scope (declarations_of facts.now) written.now scope }
{
    match facts.scope_number(&written.name) {
        Some(named) => named != scope,
        None => true,
    }
}

/// Whether an annotation names another scope than the implied one, if one is.
fn isnt_implied(facts: &ProgramFacts, written: &Written, implied: bool) -> bool
    ensures { result ≡ list_any (is_not_scope (declarations_of facts.now) written.now) (implied_scopes implied) }
{
    implied && is_not_scope(facts, written, ScopeId::IMMORTAL)
}

/// Whether the scope that a class names, or else inherits, differs from its superclass's or from the implied one.
#[tactic(auto, unfolding(scj_rules::specs::StaticScopes::differs_from_above))]
pub fn differs_from_above(
    facts: &ProgramFacts,
    written: &Option<Written>,
    above: &ClassScope,
    implied: bool,
) -> bool
    ensures { result ≡ differs_from_above (declarations_of facts.now) written.now above.now implied }
{
    match (written, above) {
        (None, ClassScope::Annotated(above)) => is_other_than_implied(*above, implied),
        (None, _) => false,
        (Some(written), ClassScope::Annotated(above)) => {
            is_not_scope(facts, written, *above) || isnt_implied(facts, written, implied)
        }
        (Some(written), _) => isnt_implied(facts, written, implied),
    }
}

/// The scope of a class whose annotation is right: as written, else as the superclass's, else as implied.
#[tactic(auto, unfolding(scj_rules::specs::StaticScopes::scope_of_right_class))]
fn scope_of_right_class(
    facts: &ProgramFacts,
    written: &Option<Written>,
    above: &ClassScope,
    implied: bool,
) -> ClassScope
    ensures { result ≡ scope_of_right_class (declarations_of facts.now) written.now above.now implied }
{
    match (written, above) {
        (Some(written), _) => match facts.scope_number(&written.name) {
            Some(scope) => ClassScope::Annotated(scope),
            None => ClassScope::Missing,
        },
        (None, ClassScope::Unannotated) => {
            if implied {
                ClassScope::Annotated(ScopeId::IMMORTAL)
            } else {
                ClassScope::Unannotated
            }
        }
        (None, _) => *above,
    }
}

/// The scope of a class, from that of its superclass.
#[tactic(auto, unfolding(scj_rules::specs::StaticScopes::class_scope_under))]
fn class_scope_under(facts: &ProgramFacts, above: &ClassScope, class: ClassId) -> ClassScope
    ensures { result ≡ class_scope_under (declarations_of facts.now) above.now class }
{
    let written = scope_written_in(facts, class);
    let implied = is_implied_immortal(facts, class);
    if has_unknown_scope(facts, &written) {
        return ClassScope::Missing;
    }
    if differs_from_above(facts, &written, above, implied) {
        return ClassScope::Missing;
    }
    scope_of_right_class(facts, &written, above, implied)
}

/// The scope of the first class of a chain.
#[tactic(auto, unfolding(scj_rules::specs::StaticScopes::class_scope_on))]
fn class_scope_on(facts: &ProgramFacts, chain: Chain<'_>) -> ClassScope
    ensures { result ≡ class_scope_on (declarations_of facts.now) chain.entry }
{
    let mut rest = chain;
    match rest.next() {
        Some(class) => {
            let above = class_scope_on(facts, rest);
            class_scope_under(facts, &above, class)
        }
        None => ClassScope::Unannotated,
    }
}

/// Where the instances of a class lie; found anew.
#[tactic(auto, unfolding(scj_rules::specs::StaticScopes::class_scope))]
pub(crate) fn find_class_scope(facts: &ProgramFacts, class: ClassId) -> ClassScope
    ensures { result ≡ class_scope (declarations_of facts.now) class }
{
    class_scope_on(facts, facts.classes().superclasses(class))
}
