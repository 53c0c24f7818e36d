//! What a tour of the classes tells of the methods that they inherit as those of `Safelet` and of `Runnable`.

ghost use Rattle.std.specs.Prelude.{ℕ, ◌∷◌, List, OnOk};
ghost use Rattle.scj_tree.specs.Forest.{Forest};
ghost use Rattle.scj_rules.specs.Contexts.{declarations_of};
ghost use Rattle.class_rows.specs.Inherited.{AreInherited, AreInheritedMethods};
ghost use Rattle.symbol_table.specs.Symbols.{AreClasses};
ghost use Rattle.class_table.specs.Noted.{HasEach};

use class_rows::inherited::inherited_node;
use class_rows::{Inherited, InheritedMethods};
use scj_base::ids::{RUNNABLE, SAFELET};
use scj_base::{ClassId, Memory, Name};
use std::alloc::Global;
use std::collections::BTreeSet;
use symbol_table::SymbolTable;

/// No methods of a name, before the classes tell what they inherit.
#[tactic(auto, using(crate::proofs::NotedLemmas::all_asked))]
fn none_inherited(alloc: Global, interface: ClassId, name: Name) -> Inherited
    ensures { (forest : Forest) (order : List ℕ) → HasEach forest order → AreClasses forest order →
        AreInherited (declarations_of forest) order result }
{
    Inherited {
        interface,
        name,
        nodes: BTreeSet::new(alloc),
    }
}

/// No methods of any of the names, before the classes tell.
pub fn no_methods_inherited(alloc: Global) -> InheritedMethods
    ensures { (forest : Forest) (order : List ℕ) → HasEach forest order → AreClasses forest order →
        AreInheritedMethods (declarations_of forest) order result }
{
    InheritedMethods {
        get_sequencer: none_inherited(alloc, SAFELET, Name::new(b"getSequencer")),
        immortal_memory_size: none_inherited(alloc, SAFELET, Name::new(b"immortalMemorySize")),
        initialize_application: none_inherited(alloc, SAFELET, Name::new(b"initializeApplication")),
        run: none_inherited(alloc, RUNNABLE, Name::new(b"run")),
    }
}

/// Notes the method of the name, if the class at which the table stands inherits it.
#[tactic(auto, using(class_rows::proofs::InheritedLemmas::inherits_is))]
fn note_inherited(inherited: &mut Inherited, table: &SymbolTable<'_>) -> Result<(), Memory>
    ensures { OnOk result ((others : List ℕ) →
        AreInherited (declarations_of table.now.forest) (table.now.class ∷ others) inherited.old →
        AreInherited (declarations_of table.now.forest) others inherited.new) }
{
    let classes = table.classes();
    let class = table.class();
    let interface = inherited.interface;
    if classes.implements(class, interface) {
        let method = table.method_named(&inherited.name);
        if let Some(node) = inherited_node(classes, interface, &inherited.name, class, &method) {
            inherited.nodes.insert(node.number())?;
        }
    }
    Ok(())
}

/// Notes which methods the class at which the table stands inherits.
pub fn note_inherited_methods(
    reported: &mut InheritedMethods,
    table: &SymbolTable<'_>,
) -> Result<(), Memory>
    ensures { OnOk result ((others : List ℕ) → AreInheritedMethods (declarations_of table.now.forest)
        (table.now.class ∷ others) reported.old → AreInheritedMethods (declarations_of table.now.forest) others reported.new) }
{
    note_inherited(&mut reported.get_sequencer, table)?;
    note_inherited(&mut reported.immortal_memory_size, table)?;
    note_inherited(&mut reported.initialize_application, table)?;
    note_inherited(&mut reported.run, table)?;
    Ok(())
}
