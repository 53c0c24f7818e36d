//! The framework's methods.

ghost use Rattle.std.specs.Prelude.{◌≡◌, ◌≤◌, length, slice_get, option_map};
ghost use Rattle.std.specs.Prelude.{true, false};
ghost use Rattle.scj_builtins.specs.declared.kinds.GivesKind.TheVariants.{Nothing};
ghost use Rattle.scj_builtins.specs.declared.kinds.Parameters.TheVariants.{Empty};
ghost use Rattle.scj_builtins.specs.declared.kinds.RunsInKind.TheVariants.{Caller};
ghost use Rattle.scj_builtins.specs.Framework.{framework_methods, method_named, declared_below, empty_unless_declared, called_on_object, called_on_class};

use crate::kinds::{GivesKind, ParameterKind, Parameters, RunsInKind};
use scj_base::ids::{
    APERIODIC_EVENT_HANDLER, APERIODIC_EVENT_HANDLER_HANDLE_ASYNC_EVENT,
    APERIODIC_EVENT_HANDLER_REGISTER, APERIODIC_EVENT_HANDLER_RELEASE, DEVICE, DEVICE_READ,
    MANAGED_MEMORY, MANAGED_MEMORY_ALLOC_IN_SAME, MANAGED_MEMORY_ENTER_PRIVATE_MEMORY,
    MANAGED_MEMORY_EXECUTE_IN_AREA_OF, MISSION, MISSION_CLEAN_UP, MISSION_INITIALIZE,
    MISSION_MISSION_MEMORY_SIZE, MISSION_REQUEST_TERMINATION, MISSION_SEQUENCER,
    MISSION_SEQUENCER_GET_NEXT_MISSION, PERIODIC_EVENT_HANDLER,
    PERIODIC_EVENT_HANDLER_HANDLE_ASYNC_EVENT, PERIODIC_EVENT_HANDLER_REGISTER, RUNNABLE,
    RUNNABLE_RUN, SAFELET, SAFELET_GET_SEQUENCER, SAFELET_IMMORTAL_MEMORY_SIZE,
    SAFELET_INITIALIZE_APPLICATION, SERVICES, SERVICES_SET_CEILING, TRACE, TRACE_PRINT,
};
use scj_base::{ClassId, MethodId, Name};

/// How many methods the framework has. The first declared method has this number.
pub const FRAMEWORK_METHOD_COUNT: u32 = 20;

/// A method of a framework class.
#[derive(Clone, Copy, Debug)]
pub struct FrameworkMethod {
    /// Its number.
    pub number: MethodId,
    /// The class that has it.
    pub on: ClassId,
    /// Its name.
    pub name: Name,
    /// Its parameters.
    pub parameters: Parameters,
    /// What it leaves.
    pub gives: GivesKind,
    /// Whether it is called on the class and not on an object.
    pub is_static: bool,
    /// Whether a program may call the framework's own method.
    pub callable: bool,
    /// Whether a user class may declare it.
    pub overridable: bool,
    /// Whether a concrete class has to declare it.
    pub is_abstract: bool,
    /// Where each declaration of it runs.
    pub runs_in: RunsInKind,
}

/// A method that each concrete class below declares.
fn declared_below(
    number: MethodId,
    on: ClassId,
    name: &[u8],
    gives: GivesKind,
    runs_in: RunsInKind,
) -> FrameworkMethod
    requires { length name.now ≤ 64 }
    ensures { result ≡ declared_below number on name.now gives runs_in }
{
    FrameworkMethod {
        number,
        on,
        name: Name::new(name),
        parameters: Parameters::Empty,
        gives,
        is_static: false,
        callable: false,
        overridable: true,
        is_abstract: true,
        runs_in,
    }
}

/// A method that has an empty body where no class declares it.
fn empty_unless_declared(
    number: MethodId,
    on: ClassId,
    name: &[u8],
    runs_in: RunsInKind,
) -> FrameworkMethod
    requires { length name.now ≤ 64 }
    ensures { result ≡ empty_unless_declared number on name.now runs_in }
{
    FrameworkMethod {
        number,
        on,
        name: Name::new(name),
        parameters: Parameters::Empty,
        gives: GivesKind::Nothing,
        is_static: false,
        callable: false,
        overridable: true,
        is_abstract: false,
        runs_in,
    }
}

/// A method that a program calls on an object.
fn called_on_object(number: MethodId, on: ClassId, name: &[u8]) -> FrameworkMethod
    requires { length name.now ≤ 64 }
    ensures { result ≡ called_on_object number on name.now }
{
    FrameworkMethod {
        number,
        on,
        name: Name::new(name),
        parameters: Parameters::Empty,
        gives: GivesKind::Nothing,
        is_static: false,
        callable: true,
        overridable: false,
        is_abstract: false,
        runs_in: RunsInKind::Caller,
    }
}

/// A method that a program calls on the class.
fn called_on_class(
    number: MethodId,
    on: ClassId,
    name: &[u8],
    parameters: Parameters,
    gives: GivesKind,
) -> FrameworkMethod
    requires { length name.now ≤ 64 }
    ensures { result ≡ called_on_class number on name.now parameters gives }
{
    FrameworkMethod {
        number,
        on,
        name: Name::new(name),
        parameters,
        gives,
        is_static: true,
        callable: true,
        overridable: false,
        is_abstract: false,
        runs_in: RunsInKind::Caller,
    }
}

/// The framework's method of a number.
#[tactic(auto, unfolding(crate::specs::Framework::framework_methods))]
pub fn framework_method(number: MethodId) -> Option<FrameworkMethod>
    ensures { result ≡ slice_get framework_methods number }
{
    Some(match number.number() {
        0 => declared_below(
            RUNNABLE_RUN,
            RUNNABLE,
            b"run",
            GivesKind::Nothing,
            RunsInKind::DefinedOrDeclared,
        ),
        1 => declared_below(
            SAFELET_GET_SEQUENCER,
            SAFELET,
            b"getSequencer",
            GivesKind::Sequencer,
            RunsInKind::Immortal,
        ),
        2 => declared_below(
            SAFELET_IMMORTAL_MEMORY_SIZE,
            SAFELET,
            b"immortalMemorySize",
            GivesKind::Long,
            RunsInKind::Immortal,
        ),
        3 => declared_below(
            SAFELET_INITIALIZE_APPLICATION,
            SAFELET,
            b"initializeApplication",
            GivesKind::Nothing,
            RunsInKind::Immortal,
        ),
        4 => declared_below(
            MISSION_INITIALIZE,
            MISSION,
            b"initialize",
            GivesKind::Nothing,
            RunsInKind::DefinedOrCaller,
        ),
        5 => declared_below(
            MISSION_MISSION_MEMORY_SIZE,
            MISSION,
            b"missionMemorySize",
            GivesKind::Long,
            RunsInKind::Immortal,
        ),
        6 => empty_unless_declared(
            MISSION_CLEAN_UP,
            MISSION,
            b"cleanUp",
            RunsInKind::DefinedOrCaller,
        ),
        7 => called_on_object(MISSION_REQUEST_TERMINATION, MISSION, b"requestTermination"),
        8 => declared_below(
            MISSION_SEQUENCER_GET_NEXT_MISSION,
            MISSION_SEQUENCER,
            b"getNextMission",
            GivesKind::Mission,
            RunsInKind::Immortal,
        ),
        9 => declared_below(
            PERIODIC_EVENT_HANDLER_HANDLE_ASYNC_EVENT,
            PERIODIC_EVENT_HANDLER,
            b"handleAsyncEvent",
            GivesKind::Nothing,
            RunsInKind::DefinedOrCaller,
        ),
        10 => called_on_object(
            PERIODIC_EVENT_HANDLER_REGISTER,
            PERIODIC_EVENT_HANDLER,
            b"register",
        ),
        11 => declared_below(
            APERIODIC_EVENT_HANDLER_HANDLE_ASYNC_EVENT,
            APERIODIC_EVENT_HANDLER,
            b"handleAsyncEvent",
            GivesKind::Nothing,
            RunsInKind::DefinedOrCaller,
        ),
        12 => called_on_object(
            APERIODIC_EVENT_HANDLER_REGISTER,
            APERIODIC_EVENT_HANDLER,
            b"register",
        ),
        13 => called_on_object(
            APERIODIC_EVENT_HANDLER_RELEASE,
            APERIODIC_EVENT_HANDLER,
            b"release",
        ),
        14 => called_on_class(
            MANAGED_MEMORY_ENTER_PRIVATE_MEMORY,
            MANAGED_MEMORY,
            b"enterPrivateMemory",
            Parameters::Two(ParameterKind::Int, ParameterKind::Runnable),
            GivesKind::Nothing,
        ),
        15 => called_on_class(
            MANAGED_MEMORY_EXECUTE_IN_AREA_OF,
            MANAGED_MEMORY,
            b"executeInAreaOf",
            Parameters::Two(ParameterKind::Object, ParameterKind::Runnable),
            GivesKind::Nothing,
        ),
        16 => called_on_class(
            SERVICES_SET_CEILING,
            SERVICES,
            b"setCeiling",
            Parameters::Two(ParameterKind::Object, ParameterKind::Int),
            GivesKind::Nothing,
        ),
        17 => called_on_class(
            TRACE_PRINT,
            TRACE,
            b"print",
            Parameters::Two(ParameterKind::Text, ParameterKind::Int),
            GivesKind::Nothing,
        ),
        18 => called_on_class(
            DEVICE_READ,
            DEVICE,
            b"read",
            Parameters::One(ParameterKind::Int),
            GivesKind::Number,
        ),
        19 => called_on_class(
            MANAGED_MEMORY_ALLOC_IN_SAME,
            MANAGED_MEMORY,
            b"allocInSame",
            Parameters::Two(ParameterKind::Object, ParameterKind::Object),
            GivesKind::Truth,
        ),
        _ => return None,
    })
}
