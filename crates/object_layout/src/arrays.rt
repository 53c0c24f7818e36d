//! The classes of arrays, which have the numbers behind all classes.

ghost use Rattle.std.specs.Prelude.{◌≡◌, ◌<◌, ◌^◌, length};
ghost use Rattle.scj_rules.specs.Contexts.{declarations_of};
ghost use Rattle.scj_rules.specs.Layout.{element_kind};
ghost use Rattle.object_layout.specs.Arrays.{kind_behind};

use class_rows::ClassTable;
use scj_base::ClassId;
use scj_rules::SlotKind;

/// What the elements of the array class at a place behind so many classes hold.
#[tactic(auto, unfolding(crate::specs::Arrays::kind_behind))]
fn kind_behind(index: usize, count: usize) -> Option<SlotKind>
    ensures { result ≡ kind_behind index count }
{
    if index == 0 {
        return Some(SlotKind::Number);
    }
    if index == 1 {
        return Some(SlotKind::Truth);
    }
    if index - 2 < count {
        return Some(SlotKind::Reference);
    }
    None
}

/// What the elements of an array of this class hold.
#[tactic(auto, using(crate::proofs::ArrayLemmas::no_array, crate::proofs::ArrayLemmas::kind_of_array))]
pub fn element_kind(classes: &ClassTable, class: ClassId) -> Option<SlotKind>
    ensures { result ≡ element_kind (declarations_of classes.now) class }
{
    let count = classes.name_count();
    let number = class.number() as usize;
    if number < count {
        return None;
    }
    kind_behind(number - count, count)
}
