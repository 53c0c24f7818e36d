//! Words that stand where they can't, and constructors with another name than their class.

ghost use Rattle.std.specs.Prelude.{◌≡◌, slice_get};
ghost use Rattle.scj_base.specs.Bytes.{is_same};
ghost use Rattle.scj_rules.specs.Words.{holds};
ghost use Rattle.scj_rules.specs.Views.{modifiers_at};
ghost use Rattle.scj_rules.specs.Classes.{ClassRow};
ghost use Rattle.scj_rules.specs.ClassRules.{has_method_words, is_misplaced_on_class, is_misplaced_on_field, is_misplaced_on_variable, is_misplaced_on_method, is_misplaced_on_constructor};
ghost use Rattle.scj_rules.specs.Contexts.{contexts_in, declarations_of};

use crate::framework_methods::is_framework_method;
use class_rows::ClassTable;
use node_contexts::Contexts;
use node_views::modifiers_at;
use scj_base::{ClassId, Name, NodeId};
use scj_rules::Modifiers;

/// Whether words stand there that a method alone can have.
fn has_method_words(m: &Modifiers) -> bool
    ensures { result ≡ has_method_words m.now }
{
    m.runs_in.is_some() || m.is_synchronized
}

/// Whether a word stands before a class that it can't have.
pub fn is_misplaced_on_class(m: &Modifiers) -> bool
    ensures { result ≡ is_misplaced_on_class m.now }
{
    has_method_words(m) || m.is_static
}

/// Whether a word stands before a field that it can't have.
pub fn is_misplaced_on_field(m: &Modifiers) -> bool
    ensures { result ≡ is_misplaced_on_field m.now }
{
    m.defines_scope || has_method_words(m) || m.is_abstract
}

/// Whether a word stands before a parameter or a local that it can't have.
pub fn is_misplaced_on_variable(m: &Modifiers) -> bool
    ensures { result ≡ is_misplaced_on_variable m.now }
{
    m.defines_scope || has_method_words(m) || m.is_static || m.is_abstract
}

/// Whether a word stands before a method that it can't have.
#[tactic(auto, unfolding(scj_rules::specs::Contexts::declarations_of))]
pub fn is_misplaced_on_method(
    classes: &ClassTable<'_>,
    contexts: &Contexts,
    id: NodeId,
    name: &Name,
    flags: Option<NodeId>,
) -> bool
    requires { contexts.now ≡ contexts_in classes.now }
    ensures { result ≡ is_misplaced_on_method (declarations_of classes.now) id name.now
        (modifiers_at classes.now.nodes flags) }
{
    if flags.is_none() {
        return false;
    }
    let m = modifiers_at(classes.program(), flags);
    if m.defines_scope || (m.is_static && m.is_abstract) {
        return true;
    }
    if !m.is_synchronized {
        return false;
    }
    if m.is_static || m.is_abstract {
        return true;
    }
    is_framework_method(classes, contexts.get(id).class, id, name)
}

/// Whether a class has this name.
#[tactic(auto, using(class_rows::proofs::NameLemmas::name_is, crate::proofs::NameLemmas::name_held))]
fn has_name(classes: &ClassTable<'_>, class: ClassId, name: &Name) -> bool
    ensures { result ≡ holds (slice_get (declarations_of classes.now).classes class)
        (λ (row : ClassRow). is_same row.name name.now) }
{
    classes.name(class).is_some_and(|own| own == *name)
}

/// Whether a word stands before a constructor that it can't have, or its name is another than the class's.
#[tactic(auto, unfolding(scj_rules::specs::Contexts::declarations_of))]
pub fn is_misplaced_on_constructor(
    classes: &ClassTable<'_>,
    contexts: &Contexts,
    id: NodeId,
    name: &Name,
    flags: Option<NodeId>,
) -> bool
    requires { contexts.now ≡ contexts_in classes.now }
    ensures { result ≡ is_misplaced_on_constructor (declarations_of classes.now) id name.now
        (modifiers_at classes.now.nodes flags) }
{
    let m = modifiers_at(classes.program(), flags);
    if is_misplaced_on_variable(&m) || m.scope.is_some() {
        return true;
    }
    match contexts.get(id).class {
        Some(class) => !has_name(classes, class, name),
        None => true,
    }
}
