//! Methods that override one of the framework.

ghost use Rattle.std.specs.Prelude.{◌≡◌, is_some};
ghost use Rattle.scj_rules.specs.Words.{holds};
ghost use Rattle.scj_rules.specs.Classes.{framework_row_named};
ghost use Rattle.scj_rules.specs.ClassRules.{is_framework_method};
ghost use Rattle.scj_rules.specs.Contexts.{declarations_of};

use class_rows::ClassTable;
use scj_base::{ClassId, Name, NodeId};

/// Whether the framework has a method of this name for a class.
fn has_framework_row(classes: &ClassTable<'_>, class: Option<ClassId>, name: &Name) -> bool
    ensures { result ≡ holds class
        (λ number. is_some (framework_row_named (declarations_of classes.now).classes number name.now)) }
{
    match class {
        Some(class) => classes.framework_row_named(class, name).is_some(),
        None => false,
    }
}

/// Whether a method overrides one of the framework.
#[tactic(auto, using(crate::proofs::InheritingLemmas::either_inherited), unfolding(scj_rules::specs::ClassRules::is_framework_method))]
pub fn is_framework_method(
    classes: &ClassTable<'_>,
    class: Option<ClassId>,
    node: NodeId,
    name: &Name,
) -> bool
    ensures { result ≡ is_framework_method (declarations_of classes.now) class node name.now }
{
    has_framework_row(classes, class, name)
        || (classes.is_inherited_of_safelet(node, name)
            || classes.is_inherited_of_runnable(node, name))
}
