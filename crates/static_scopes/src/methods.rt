//! Where methods run, and the scopes that the framework fixes for its methods.

ghost use Rattle.std.specs.Prelude.{◌≡◌, true, Some, None, option_map, IfSome};
ghost use Rattle.scj_rules.specs.Views.{method_at, no_modifiers};
ghost use Rattle.scj_rules.specs.Contexts.{declarations_of};
ghost use Rattle.scj_rules.specs.StaticScopes.{fixed_for, has_unknown_runs_in, has_other_runs_in, free_runs_in, runs_in};
ghost use Rattle.method_rows.specs.declared.refs.MethodRef.{MethodRef as Row};
ghost use Rattle.method_rows.specs.Methods.{found_method};

use crate::scopes::{is_other_scope, resolve_name, scope_or, written_scope};
use method_rows::{MethodRef, MethodSource, builtin, declared};
use node_views::is_method;
use program_facts::ProgramFacts;
use scj_base::{ClassId, Name, NodeId, ScopeId};
use scj_builtins::{RunsInKind, framework_method};
use scj_rules::{Scope, Written};
use scj_tree::{Node, Program};
use scope_tree::scopes::{class_scope, defined_by_chain};

/// Where a method of the name runs in a class, if the framework fixes that.
#[tactic(auto, unfolding(scj_rules::specs::StaticScopes::fixed_for, scj_rules::specs::StaticScopes::fixed_runs_in, scj_rules::specs::StaticScopes::fixed_scope))]
fn fixed_for(facts: &ProgramFacts, class: ClassId, name: &Name) -> Option<Scope>
    ensures { result ≡ fixed_for (declarations_of facts.now) class name.now }
{
    let number = match &facts.classes().framework_row_named(class, name) {
        Some(method) => builtin(method)?,
        None => return None,
    };
    let kind = match &framework_method(number) {
        Some(row) => row.runs_in,
        None => return None,
    };
    match kind {
        RunsInKind::Immortal => Some(Scope::In(ScopeId::IMMORTAL)),
        RunsInKind::DefinedOrCaller => match defined_by_chain(facts, class) {
            Some(scope) => Some(Scope::In(scope)),
            None => Some(Scope::Caller),
        },
        RunsInKind::DefinedOrDeclared => Some(Scope::In(defined_by_chain(facts, class)?)),
        RunsInKind::Caller => Some(Scope::Caller),
    }
}

/// The row of the method that a node declares, if it declares one, in a class.
#[tactic(auto, unfolding(method_rows::specs::Methods::found_method, method_rows::specs::Methods::method_from))]
pub fn method_at(program: &Program, class: ClassId, id: NodeId) -> Option<MethodRef>
    ensures method { method_at program.now.nodes id ≡ option_map
        (λ (m : Row). (found_method program.now.nodes m).method) result }
    ensures class { IfSome result (λ m. (found_method program.now.nodes m).on ≡ class) }
{
    if !is_method(program, id) {
        return None;
    }
    Some(MethodRef {
        on: class,
        source: MethodSource::Declared(id),
    })
}

/// Whether `@RunsIn` of a method names no scope; of a static method, another than `CALLER`.
#[tactic(auto, unfolding(scj_rules::specs::StaticScopes::has_unknown_runs_in))]
pub fn has_unknown_runs_in(facts: &ProgramFacts, method: &MethodRef, written: &Written) -> bool
    ensures { result ≡ has_unknown_runs_in (declarations_of facts.now)
        (found_method facts.now.nodes method.now).method written.now }
{
    let name = written.name.bytes();
    if method_rows::is_static(facts.program(), method) {
        return name != b"CALLER".as_slice();
    }
    !(facts.scope_number(&written.name).is_some()
        || (name == b"THIS".as_slice() || name == b"CALLER".as_slice()))
}

/// Whether `@RunsIn` of a method contradicts what the framework fixes.
#[tactic(auto, unfolding(scj_rules::specs::StaticScopes::has_other_runs_in, scj_rules::specs::StaticScopes::differs_from, scj_rules::specs::StaticScopes::is_inherited_by_safelet))]
pub fn has_other_runs_in(
    facts: &ProgramFacts,
    class: ClassId,
    method: &MethodRef,
    written: &Written,
) -> bool
    ensures { result ≡ has_other_runs_in (declarations_of facts.now) class
        (found_method facts.now.nodes method.now).method written.now }
{
    let method_name = method_rows::name(facts.program(), method);
    if let Some(fixed) = &fixed_for(facts, class, &method_name) {
        let resolution = resolve_name(facts, class, &Some(Scope::Caller), &written.name);
        if is_other_scope(&resolution, fixed) {
            return true;
        }
    }
    let node = method_rows::node(facts.program(), method);
    let classes = facts.classes();
    match facts.scope_number(&written.name) {
        Some(scope) => {
            scope != ScopeId::IMMORTAL && classes.is_inherited_of_safelet(node, &method_name)
        }
        None => false,
    }
}

/// Whether nothing is written before the method that a node of a program declares, as before most.
#[tactic(auto, unfolding(method_rows::specs::Methods::found_method, method_rows::specs::Methods::method_from, scj_rules::specs::Views::method_of))]
pub fn is_plain(program: &Program, method: &MethodRef) -> bool
    ensures { result ≡ true → (found_method program.now.nodes method.now).method.declared.modifiers ≡ no_modifiers }
{
    match &method.source {
        MethodSource::Declared(node) => {
            matches!(program.get(*node), Some(Node::Method { flags: None, .. }))
        }
        MethodSource::Framework(_) => false,
    }
}

/// Where a method of the name runs in a class that isn't static, where this is written of it.
#[tactic(auto, unfolding(scj_rules::specs::StaticScopes::free_runs_in, scj_rules::specs::StaticScopes::default_runs_in))]
fn instance_runs_in(
    facts: &ProgramFacts,
    class: ClassId,
    name: &Name,
    written: &Option<Written>,
) -> Option<Scope>
    ensures { result ≡ elim (fixed_for (declarations_of facts.now) class name.now)
        [ Some s ↦ Some s | None ↦ free_runs_in (declarations_of facts.now) class written.now ] }
{
    match fixed_for(facts, class, name) {
        Some(fixed) => Some(fixed),
        None => match written {
            Some(written) => written_scope(facts, class, &Some(Scope::Caller), &written.name),
            None => scope_or(&class_scope(facts, class), &Some(Scope::Caller)),
        },
    }
}

/// Where a method runs before which something may be written, found anew.
#[tactic(auto, unfolding(scj_rules::specs::StaticScopes::runs_in))]
fn written_runs_in(facts: &ProgramFacts, class: ClassId, method: &MethodRef) -> Option<Scope>
    ensures { result ≡ runs_in (declarations_of facts.now) class (found_method facts.now.nodes method.now).method }
{
    let declared = declared(facts.program(), method);
    let modifiers = declared.modifiers;
    if let Some(written) = &modifiers.runs_in {
        if has_unknown_runs_in(facts, method, written) {
            return None;
        }
        if has_other_runs_in(facts, class, method, written) {
            return None;
        }
    }
    if modifiers.is_static {
        return Some(Scope::Caller);
    }
    instance_runs_in(facts, class, &declared.name, &modifiers.runs_in)
}

/// Where a method runs, found anew.
#[tactic(auto, unfolding(scj_rules::specs::StaticScopes::runs_in))]
pub fn find_runs_in(facts: &ProgramFacts, class: ClassId, method: &MethodRef) -> Option<Scope>
    ensures { result ≡ runs_in (declarations_of facts.now) class (found_method facts.now.nodes method.now).method }
{
    let program = facts.program();
    if is_plain(program, method) {
        return instance_runs_in(facts, class, &method_rows::name(program, method), &None);
    }
    written_runs_in(facts, class, method)
}
