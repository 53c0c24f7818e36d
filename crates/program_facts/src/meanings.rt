//! What simple names, accesses and calls stand for, as rows that are copied.

ghost use Rattle.std.specs.Prelude.{◌≡◌, List};
ghost use Rattle.scj_tree.specs.declared.nodes.Node.{Node as Row};
ghost use Rattle.scj_rules.specs.TypeRules.{denotes_no_declaration, is_instance_field};
ghost use Rattle.program_facts.specs.Meanings.{meant};

use class_rows::FieldRef;
use class_rows::fields::is_static_field;
use method_rows::MethodRef;
use scj_base::{ClassId, NodeId};
use scj_tree::Program;

/// What a name stands for where it stands alone (JLS 6.5).
#[derive(Clone, Copy, Debug)]
pub enum NameMeaning {
    /// The local or parameter that this node declares.
    Variable(NodeId),
    /// A field.
    Field(FieldRef),
    /// A class, directly before a dot.
    Class(ClassId),
    /// Nothing.
    Nothing,
}

/// What is looked up at a node: of an access or a call what a class has, whatever class is asked later.
#[derive(Clone, Copy, Debug)]
pub enum NodeMeaning {
    /// What a simple name stands for.
    Name(NameMeaning),
    /// The field of an access's name that the class has.
    Field(ClassId, FieldRef),
    /// The method of a call's name that the class has.
    Method(ClassId, MethodRef),
    /// Nothing is looked up, or nothing is found.
    Nothing,
}

/// Whether a name stands for nothing.
#[tactic(auto, unfolding(crate::specs::Meanings::meant, scj_rules::specs::TypeRules::denotes_no_declaration))]
pub fn denotes_no_declaration(meaning: &NameMeaning) -> bool
    ensures { (nodes : List Row) → result ≡ denotes_no_declaration (meant nodes meaning.now) }
{
    matches!(meaning, NameMeaning::Nothing)
}

/// Whether a name stands for an instance field.
#[tactic(auto, unfolding(crate::specs::Meanings::meant, scj_rules::specs::TypeRules::is_instance_field))]
pub fn is_instance_field(program: &Program, meaning: &NameMeaning) -> bool
    ensures { result ≡ is_instance_field (meant program.now.nodes meaning.now) }
{
    matches!(meaning, NameMeaning::Field(field) if !is_static_field(program, field))
}
