//! What is asked of the classes of the objects that operations find.

ghost use Rattle.std.specs.Prelude.{◌≡◌};
ghost use Rattle.scj_rules.specs.Classes.{is_sub};
ghost use Rattle.scj_rules.specs.Layout.{slot_of};
ghost use Rattle.scj_model.specs.Code.{code_of};

use op_list::OpList;
use scj_base::{ClassId, FieldId};

/// The slot of a field in the objects of a class.
#[tactic(auto, unfolding(scj_model::specs::Code::code_of))]
pub fn slot_of(code: &OpList<'_>, class: ClassId, field: FieldId) -> Option<u32>
    ensures { result ≡ slot_of (code_of code.now.program).program class field }
{
    code.code().layout().slot_of(class, field)
}

/// Whether a class is the other one or a subtype of it.
#[tactic(auto, unfolding(scj_model::specs::Code::code_of))]
pub fn is_sub(code: &OpList<'_>, class: ClassId, above: ClassId) -> bool
    ensures { result ≡ is_sub (code_of code.now.program).program.classes class above }
{
    code.code().layout().is_sub(class, above)
}
