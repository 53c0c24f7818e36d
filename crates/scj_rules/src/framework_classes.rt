//! What the number of a class says.

ghost use Rattle.std.specs.Prelude.{◌≡◌};
ghost use Rattle.scj_rules.specs.Classes.{is_user_class};
ghost use Rattle.scj_rules.specs.Types.{has_form};

use scj_base::ClassId;
use scj_base::ids::{APERIODIC_EVENT_HANDLER, MISSION_SEQUENCER, PERIODIC_EVENT_HANDLER};
use scj_builtins::FRAMEWORK_CLASS_COUNT;

/// Whether a class is none of the framework's.
pub fn is_user_class(class: ClassId) -> bool
    ensures { result ≡ is_user_class class }
{
    class.number() >= FRAMEWORK_CLASS_COUNT
}

/// Whether the constructor of a class is called in one of the framework's forms.
pub fn has_form(class: ClassId) -> bool
    ensures { result ≡ has_form class }
{
    class == PERIODIC_EVENT_HANDLER
        || class == APERIODIC_EVENT_HANDLER
        || class == MISSION_SEQUENCER
}
