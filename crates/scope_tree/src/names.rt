//! What single classes write of scopes, and the scopes by their names.

ghost use Rattle.std.specs.Prelude.{◌≡◌, List, ℕ, option_and_then, option_map, IfOk, OnOk};
ghost use Rattle.scj_rules.specs.Contexts.{declarations_of};
ghost use Rattle.scj_rules.specs.Definitions.{definition_of, define_scope_of, flags_of, is_reserved, read, values_of};
ghost use Rattle.scj_rules.specs.ScopeRules.{definition_in, user_class_in};
ghost use Rattle.scj_rules.specs.Views.{WrittenClass};
ghost use Rattle.scj_tree.specs.Forest.{IsForest};
ghost use Rattle.program_facts.specs.Tables.{IsNaming, entered, scope_named};

use class_rows::ClassTable;
use node_views::{class_modifiers, class_position, scope_written};
use program_facts::ScopeNames;
use scj_base::{ClassId, Memory, Name, NodeId, Position, ScopeId};
use scj_rules::{Definition, Modifiers};
use scj_tree::{Node, Program};
use std::alloc::Global;
use std::collections::BTreeMap;

/// The program of the classes is a forest.
fn is_whole(classes: &ClassTable)
    ensures { IsForest classes.now }
{
    let _count = classes.program().len();
}

/// The two values of the `@DefineScope` before a class, if there is one: the scope's and the parent's.
#[tactic(auto, unfolding(scj_rules::specs::Definitions::flags_of, scj_rules::specs::Definitions::define_scope_of, scj_rules::specs::Definitions::values_of))]
fn values(program: &Program, class: NodeId) -> Option<(NodeId, NodeId)>
    ensures { let nodes = program.now.nodes in result ≡ option_and_then
        (read nodes values_of) (option_and_then (read nodes define_scope_of) (read nodes flags_of class)) }
{
    let Node::Class { flags, .. } = program.get(class)? else {
        return None;
    };
    let Node::Flags { define_scope, .. } = program.get((*flags)?)? else {
        return None;
    };
    match program.get((*define_scope)?)? {
        Node::DefineScope {
            position: _,
            first,
            second,
            parent_first,
        } => {
            if *parent_first {
                Some((*second, *first))
            } else {
                Some((*first, *second))
            }
        }
        _ => None,
    }
}

/// The definition that the class at a node writes, if it writes one.
#[tactic(auto, unfolding(scj_rules::specs::Definitions::definition_of, scj_rules::specs::Definitions::definition_with))]
fn definition(program: &Program, class: Option<NodeId>) -> Option<Definition>
    ensures { result ≡ option_and_then (definition_of program.now.nodes) class }
{
    let class = class?;
    let (scope, parent) = values(program, class)?;
    let scope = scope_written(program, scope)?;
    let parent = scope_written(program, parent)?;
    Some(Definition {
        class,
        scope,
        parent,
    })
}

/// The definition that a class writes.
#[tactic(auto, using(crate::proofs::DefinitionLemmas::definition_of_class))]
pub fn definition_in(classes: &ClassTable, class: ClassId) -> Option<Definition>
    ensures { result ≡ definition_in (declarations_of classes.now) class }
{
    is_whole(classes);
    let node = classes.class_node(class);
    definition(classes.program(), node)
}

/// The annotations and modifiers of a user class.
#[tactic(auto, using(class_rows::proofs::UserLemmas::written_stays))]
pub fn modifiers_in(classes: &ClassTable, class: ClassId) -> Option<Modifiers>
    ensures { result ≡ option_map (λ (c : WrittenClass). c.modifiers)
        (user_class_in (declarations_of classes.now).classes class) }
{
    let program = classes.program();
    class_modifiers(program, classes.class_node(class)?)
}

/// Where a user class is named.
#[tactic(auto, using(class_rows::proofs::UserLemmas::written_stays))]
pub fn position_in(classes: &ClassTable, class: ClassId) -> Option<Position>
    ensures { result ≡ option_map (λ (c : WrittenClass). c.position)
        (user_class_in (declarations_of classes.now).classes class) }
{
    let program = classes.program();
    class_position(program, classes.class_node(class)?)
}

/// Whether no class can define a scope of this name.
#[tactic(auto, unfolding(scj_rules::specs::Definitions::is_reserved))]
pub fn is_reserved(name: &Name) -> bool
    ensures { result ≡ is_reserved name.now }
{
    let bytes = name.bytes();
    bytes == b"IMMORTAL".as_slice()
        || bytes == b"CALLER".as_slice()
        || bytes == b"THIS".as_slice()
        || bytes == b"UNKNOWN".as_slice()
}

/// Enters the scope that a class defines, unless its name is reserved, in place of one of that name.
fn enter(names: &mut ScopeNames, classes: &ClassTable, class: ClassId) -> Result<(), Memory>
    ensures { OnOk result ((name : List ℕ) → scope_named names.new name
        ≡ entered (definition_in (declarations_of classes.now) class) class name (scope_named names.old name)) }
{
    let Some(definition) = definition_in(classes, class) else {
        return Ok(());
    };
    if is_reserved(&definition.scope.name) {
        return Ok(());
    }
    let scope = ScopeId::at(class.number());
    names.scopes.insert(definition.scope.name, scope)?;
    Ok(())
}

/// The scopes by their names. The last class is entered first, so that the first one of a name stays.
pub fn names_of(alloc: Global, classes: &ClassTable) -> Result<ScopeNames, Memory>
    ensures { IfOk result (λ names. IsNaming (declarations_of classes.now) names) }
{
    is_whole(classes);
    let count = classes.class_count();
    let mut names = ScopeNames {
        scopes: BTreeMap::new(alloc),
    };
    let mut left = count;
    while left > 0 {
        left -= 1;
        enter(&mut names, classes, ClassId::at(left))?;
    }
    Ok(names)
}
