//! A class as it is written.

ghost use Rattle.std.specs.Prelude.{◌≡◌, Some, option_map, IfSome};
ghost use Rattle.scj_rules.specs.Contexts.{declarations_of};
ghost use Rattle.scj_rules.specs.Views.{class_at};
ghost use Rattle.class_rows.specs.Tables.{class_written};
ghost use Rattle.class_rules.specs.Parts.{written_class};

use class_rows::ClassTable;
use node_views::{class_extends, interface_nodes, modifiers_at};
use scj_base::{ClassId, Name, NodeId, Position};
use scj_rules::{Modifiers, Written};
use scj_tree::Node;

/// A class as it is written.
#[derive(Clone, Copy)]
pub struct ClassParts<'a> {
    /// Its node.
    pub node: NodeId,
    /// Where it is named.
    pub position: Position,
    /// Its name.
    pub name: Name,
    /// The annotations and modifiers before it.
    pub modifiers: Modifiers,
    /// What it names after `extends`.
    pub extends: Option<Written>,
    /// The nodes after `implements`.
    pub interfaces: &'a [NodeId],
    /// Its members.
    pub members: &'a [NodeId],
}

/// A user class, by its number.
#[tactic(auto, unfolding(scj_rules::specs::Views::class_of))]
pub fn parts_of<'a>(classes: &ClassTable<'a>, class: ClassId) -> Option<ClassParts<'a>>
    ensures parts { option_map (written_class classes.now.nodes) result
        ≡ class_written (declarations_of classes.now) class }
    ensures there { IfSome result (λ c. class_at classes.now.nodes c.node ≡ Some (written_class classes.now.nodes c)) }
{
    let node = classes.class_node(class)?;
    let program = classes.program();
    match program.get(node)? {
        Node::Class {
            position,
            name,
            flags,
            header: _,
            members,
        } => Some(ClassParts {
            node,
            position: *position,
            name: *name.get(),
            modifiers: modifiers_at(program, *flags),
            extends: class_extends(program, node),
            interfaces: interface_nodes(program, node),
            members: members.items(),
        }),
        _ => None,
    }
}
