//! Methods that classes inherit as those of an interface.

ghost use Rattle.std.specs.Prelude.{◌≡◌, ◌==◌, true, [], ◌∷◌, ℕ, option_map};
ghost use Rattle.scj_builtins.specs.Framework.{runnable, safelet};
ghost use Rattle.scj_rules.specs.Words.{holds, is_among};
ghost use Rattle.scj_rules.specs.Classes.{all_interfaces, method_named};
ghost use Rattle.scj_rules.specs.ClassRules.{inherits_as};
ghost use Rattle.scj_rules.specs.Contexts.{Declarations, declarations_of};
ghost use Rattle.method_rows.specs.Methods.{found_method};
ghost use Rattle.class_rows.specs.Inherited.{is_inherited_as, AreInherited, AreInheritedMethods};

use crate::tables::ClassTable;
use method_rows::{MethodRef, builtin};
use scj_base::ids::{RUNNABLE, SAFELET};
use scj_base::{ClassId, Name, NodeId};
use std::collections::BTreeSet;

/// The nodes of the methods of a name that classes inherit as those of an interface.
#[derive(Drop)]
pub struct Inherited {
    /// The interface.
    pub interface: ClassId,
    /// The name.
    pub name: Name,
    /// The nodes.
    pub nodes: BTreeSet<usize>,
}

/// Those of each name of `Safelet` and `Runnable`.
#[derive(Drop)]
pub struct InheritedMethods {
    /// Those of the names of `Safelet`.
    pub get_sequencer: Inherited,
    pub immortal_memory_size: Inherited,
    pub initialize_application: Inherited,
    /// Those of the name of `Runnable`.
    pub run: Inherited,
}

/// The node of the method of a name that a class has, if it inherits it as one of the interface, which it implements.
#[tactic(auto, using(crate::proofs::InheritedLemmas::inherits_is))]
pub fn inherited_node(
    classes: &ClassTable<'_>,
    interface: ClassId,
    name: &Name,
    class: ClassId,
    method: &Option<MethodRef>,
) -> Option<NodeId>
    requires implemented { is_among interface (all_interfaces (declarations_of classes.now).classes class) ≡ true }
    requires method { option_map (found_method classes.now.nodes) method.now
        ≡ method_named (declarations_of classes.now).classes class name.now }
    ensures { (node : ℕ) → inherits_as (declarations_of classes.now) (interface ∷ []) node name.now class
        ≡ holds result (λ n. n == node) }
{
    if classes.own_method(interface, name).is_none() {
        return None;
    }
    match method {
        Some(method) if builtin(method).is_none() => Some(method_rows::node(
            classes.program(),
            method,
        )),
        _ => None,
    }
}

/// Whether some class inherits the method of a name at a node as one of the interface: class after class is asked, if
/// the interface has a method of the name.
#[tactic(auto, using(crate::proofs::InheritedLemmas::inherits_is, crate::proofs::InheritedLemmas::none_inherits, scj_rules::proofs::NumberLemmas::numbers_next, scj_rules::proofs::NumberLemmas::numbers_end))]
fn is_inherited_as(classes: &ClassTable<'_>, interface: ClassId, node: NodeId, name: &Name) -> bool
    ensures { result ≡ is_inherited_as (declarations_of classes.now) interface node name.now }
{
    if classes.own_method(interface, name).is_none() {
        return false;
    }
    for number in 0..classes.class_count() {
        let class = ClassId::at(number);
        if classes.implements(class, interface) {
            let method = classes.method_named(class, name);
            let other = inherited_node(classes, interface, name, class, &method);
            if other.is_some_and(|other| other == node) {
                return true;
            }
        }
    }
    false
}

/// What is told of the methods of the name; where nothing is, what is told of `run`.
fn inherited_under<'t>(reported: &'t InheritedMethods, name: &Name) -> &'t Inherited
    ensures { (p : Declarations) → AreInheritedMethods p [] reported.now → AreInherited p [] result.now }
{
    if reported.get_sequencer.name == *name {
        return &reported.get_sequencer;
    }
    if reported.immortal_memory_size.name == *name {
        return &reported.immortal_memory_size;
    }
    if reported.initialize_application.name == *name {
        return &reported.initialize_application;
    }
    &reported.run
}

impl<'a> ClassTable<'a> {
    /// Whether some class inherits the method of a name at a node as one of the interface: by what is told, if it is.
    #[tactic(auto, using(crate::proofs::InheritedLemmas::reported_by_nodes))]
    fn is_inherited(&self, interface: ClassId, node: NodeId, name: &Name) -> bool
        ensures { result ≡ is_inherited_as (declarations_of self.now) interface node name.now }
    {
        if let Some(reported) = &self.inherited {
            let inherited = inherited_under(reported, name);
            if inherited.interface == interface && inherited.name == *name {
                let number = node.number();
                return inherited.nodes.contains(&number);
            }
        }
        is_inherited_as(self, interface, node, name)
    }

    /// Whether some class inherits the method of a name at a node as one of `Safelet`.
    pub fn is_inherited_of_safelet(&self, node: NodeId, name: &Name) -> bool
        ensures { result ≡ is_inherited_as (declarations_of self.now) safelet node name.now }
    {
        self.is_inherited(SAFELET, node, name)
    }

    /// Whether some class inherits the method of a name at a node as one of `Runnable`.
    pub fn is_inherited_of_runnable(&self, node: NodeId, name: &Name) -> bool
        ensures { result ≡ is_inherited_as (declarations_of self.now) runnable node name.now }
    {
        self.is_inherited(RUNNABLE, node, name)
    }
}
