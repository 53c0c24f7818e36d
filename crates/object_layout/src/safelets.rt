//! The safelet's class.

ghost use Rattle.std.specs.Prelude.{◌≡◌};
ghost use Rattle.scj_rules.specs.Contexts.{declarations_of};
ghost use Rattle.scj_rules.specs.TypeRules.{is_concrete_safelet};
ghost use Rattle.scj_rules.specs.Bodies.{safelet_class};

use class_rows::ClassTable;
use scj_base::ClassId;
use scj_base::ids::SAFELET;
use scj_builtins::ClassKind;

/// Whether the class is a safelet that has objects.
#[tactic(auto, unfolding(scj_rules::specs::Types::is_concrete))]
fn is_concrete_safelet(classes: &ClassTable, class: ClassId) -> bool
    ensures { result ≡ is_concrete_safelet (declarations_of classes.now) class }
{
    match classes.kind(class) {
        Some(ClassKind::Concrete) => classes.implements(class, SAFELET),
        _ => false,
    }
}

/// The first class that is a safelet.
#[tactic(auto, using(crate::proofs::SafeletLemmas::none_first, crate::proofs::SafeletLemmas::none_more, crate::proofs::SafeletLemmas::safelet_found, crate::proofs::SafeletLemmas::safelet_missing))]
pub fn safelet_class(classes: &ClassTable) -> Option<ClassId>
    ensures { result ≡ safelet_class (declarations_of classes.now) }
{
    for number in 0..classes.class_count() {
        let class = ClassId::at(number);
        if is_concrete_safelet(classes, class) {
            return Some(class);
        }
    }
    None
}
