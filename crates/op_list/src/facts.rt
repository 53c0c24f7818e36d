//! What is asked of bindings, types and classes.

ghost use Rattle.std.specs.Prelude.{◌≡◌};
ghost use Rattle.scj_rules.specs.declared.views.WrittenType.TheVariants.{Void as void_type};
ghost use Rattle.scj_rules.specs.Classes.{is_user_class};
ghost use Rattle.scj_rules.specs.ClassRules.{is_same_type};
ghost use Rattle.scj_rules.specs.Types.{has_form};
ghost use Rattle.scj_rules.specs.Views.{type_at};
ghost use Rattle.scj_model.specs.Ops.{leaves_value};

use node_views::type_at;
use scj_base::ids::{APERIODIC_EVENT_HANDLER, MISSION_SEQUENCER, PERIODIC_EVENT_HANDLER};
use scj_base::{ClassId, NodeId};
use scj_builtins::FRAMEWORK_CLASS_COUNT;
use scj_rules::{Binding, WrittenType};
use scj_tree::Program;

/// Whether a call or a `new` leaves a value.
#[tactic(auto, unfolding(scj_model::specs::Ops::leaves_value))]
pub fn leaves_value(binding: &Binding) -> bool
    ensures { result ≡ leaves_value binding.now }
{
    match binding {
        Binding::Method(target) => target.gives,
        Binding::StaticMethod(target) => target.gives,
        Binding::Builtin(target) => target.gives,
        Binding::Class(_) => true,
        _ => false,
    }
}

/// Whether a method's result type is `void`.
#[tactic(auto, unfolding(scj_rules::specs::ClassRules::is_same_type))]
pub fn is_void(program: &Program, result_type: NodeId) -> bool
    ensures { result ≡ is_same_type (type_at program.now.nodes result_type) void_type }
{
    match type_at(program, result_type) {
        WrittenType::Void => true,
        _ => false,
    }
}

/// Whether a class is none of the framework's.
pub fn is_user_class(class: ClassId) -> bool
    ensures { result ≡ is_user_class class }
{
    class.number() >= FRAMEWORK_CLASS_COUNT
}

/// Whether the constructor of a class is called in one of the framework's forms.
pub fn has_form(class: ClassId) -> bool
    ensures { result ≡ has_form class }
{
    class == PERIODIC_EVENT_HANDLER
        || class == APERIODIC_EVENT_HANDLER
        || class == MISSION_SEQUENCER
}
