//! Names that name no class where they have to.

ghost use Rattle.std.specs.Prelude.{◌≡◌, ◌++◌, ◌||◌, OnOk};
ghost use Rattle.scj_rules.specs.Words.{holds};
ghost use Rattle.scj_rules.specs.Classes.{is_extended, is_implemented};
ghost use Rattle.scj_rules.specs.ClassRules.{names_no_class, names_no_type, names_no_mission, at_node, c9_type, c9_element};
ghost use Rattle.scj_rules.specs.Contexts.{declarations_of};

use class_rows::ClassTable;
use scj_base::ids::MISSION;
use scj_base::{Found, Memory, Name, NodeId, Rule};
use scj_builtins::ClassKind;
use scj_rules::report_if;
use scj_tree::Node;

/// Whether a type may name classes of the kind, where there is one.
#[tactic(auto, unfolding(scj_rules::specs::Classes::is_extended, scj_rules::specs::Classes::is_implemented))]
fn is_type_kind(kind: &Option<ClassKind>) -> bool
    ensures { result ≡ holds kind.now (λ k. is_extended k || is_implemented k) }
{
    matches!(
        kind,
        Some(ClassKind::Concrete | ClassKind::Abstract | ClassKind::Interface)
    )
}

/// Whether the name is that of no class that a type may name.
#[tactic(auto, using(crate::proofs::NameLemmas::type_kind))]
fn names_no_type(classes: &ClassTable, name: &Name) -> bool
    ensures { result ≡ names_no_type (declarations_of classes.now) name.now }
{
    match classes.class_of(name) {
        Some(class) => !is_type_kind(&classes.kind(class)),
        None => true,
    }
}

/// Whether the name is that of no class.
pub fn names_no_class(classes: &ClassTable, name: &Name) -> bool
    ensures { result ≡ names_no_class (declarations_of classes.now) name.now }
{
    classes.class_of(name).is_none()
}

/// Whether the name is that of no mission class.
pub fn names_no_mission(classes: &ClassTable, name: &Name) -> bool
    ensures { result ≡ names_no_mission (declarations_of classes.now) name.now }
{
    match classes.class_of(name) {
        Some(class) => !classes.written().is_under(class, MISSION),
        None => true,
    }
}

/// Notes a type of a class that no type may name.
#[tactic(auto, unfolding(scj_rules::specs::ClassRules::c9_type, scj_rules::specs::Contexts::declarations_of))]
pub fn note_type(found: &mut Vec<Found>, classes: &ClassTable, id: NodeId) -> Result<(), Memory>
    ensures { OnOk result (found.new.items ≡ found.old.items
        ++ at_node (declarations_of classes.now) (c9_type (declarations_of classes.now)) id) }
{
    match classes.program().get(id) {
        Some(Node::ClassType { position, name, .. }) => {
            report_if(
                found,
                names_no_type(classes, name.get()),
                Rule::C9,
                *position,
            )
        }
        _ => Ok(()),
    }
}

/// Notes an element type that names no class.
#[tactic(auto, unfolding(scj_rules::specs::ClassRules::c9_element, scj_rules::specs::Contexts::declarations_of))]
pub fn note_element(found: &mut Vec<Found>, classes: &ClassTable, id: NodeId) -> Result<(), Memory>
    ensures { OnOk result (found.new.items ≡ found.old.items
        ++ at_node (declarations_of classes.now) (c9_element (declarations_of classes.now)) id) }
{
    match classes.program().get(id) {
        Some(Node::ClassType { position, name, .. }) => {
            report_if(
                found,
                names_no_class(classes, name.get()),
                Rule::C9,
                *position,
            )
        }
        _ => Ok(()),
    }
}
