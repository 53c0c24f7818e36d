//! The framework's methods by the class and the name.

ghost use Rattle.std.specs.Prelude.{◌≡◌};
ghost use Rattle.scj_builtins.specs.Framework.{number_named, runnable, safelet, mission, mission_sequencer, periodic_handler, aperiodic_handler, managed_memory, services, trace, device};

use scj_base::ids::{
    APERIODIC_EVENT_HANDLER_HANDLE_ASYNC_EVENT, APERIODIC_EVENT_HANDLER_REGISTER,
    APERIODIC_EVENT_HANDLER_RELEASE, DEVICE_READ, MANAGED_MEMORY_ALLOC_IN_SAME,
    MANAGED_MEMORY_ENTER_PRIVATE_MEMORY, MANAGED_MEMORY_EXECUTE_IN_AREA_OF, MISSION_CLEAN_UP,
    MISSION_INITIALIZE, MISSION_MISSION_MEMORY_SIZE, MISSION_REQUEST_TERMINATION,
    MISSION_SEQUENCER_GET_NEXT_MISSION, PERIODIC_EVENT_HANDLER_HANDLE_ASYNC_EVENT,
    PERIODIC_EVENT_HANDLER_REGISTER, RUNNABLE_RUN, SAFELET_GET_SEQUENCER,
    SAFELET_IMMORTAL_MEMORY_SIZE, SAFELET_INITIALIZE_APPLICATION, SERVICES_SET_CEILING,
    TRACE_PRINT,
};
use scj_base::{ClassId, MethodId};

/// The method of a name of `Runnable`.
#[tactic(auto, unfolding(crate::specs::Framework::number_named, crate::specs::Framework::method_named, crate::specs::Framework::framework_methods))]
fn of_runnable(name: &[u8]) -> Option<MethodId>
    ensures { result ≡ number_named runnable name.now }
{
    if name == b"run".as_slice() {
        return Some(RUNNABLE_RUN);
    }
    None
}

/// The method of a name of `Safelet`.
#[tactic(auto, unfolding(crate::specs::Framework::number_named, crate::specs::Framework::method_named, crate::specs::Framework::framework_methods))]
fn of_safelet(name: &[u8]) -> Option<MethodId>
    ensures { result ≡ number_named safelet name.now }
{
    if name == b"getSequencer".as_slice() {
        return Some(SAFELET_GET_SEQUENCER);
    }
    if name == b"immortalMemorySize".as_slice() {
        return Some(SAFELET_IMMORTAL_MEMORY_SIZE);
    }
    if name == b"initializeApplication".as_slice() {
        return Some(SAFELET_INITIALIZE_APPLICATION);
    }
    None
}

/// The method of a name of `Mission`.
#[tactic(auto, unfolding(crate::specs::Framework::number_named, crate::specs::Framework::method_named, crate::specs::Framework::framework_methods))]
fn of_mission(name: &[u8]) -> Option<MethodId>
    ensures { result ≡ number_named mission name.now }
{
    if name == b"initialize".as_slice() {
        return Some(MISSION_INITIALIZE);
    }
    if name == b"missionMemorySize".as_slice() {
        return Some(MISSION_MISSION_MEMORY_SIZE);
    }
    if name == b"cleanUp".as_slice() {
        return Some(MISSION_CLEAN_UP);
    }
    if name == b"requestTermination".as_slice() {
        return Some(MISSION_REQUEST_TERMINATION);
    }
    None
}

/// The method of a name of `MissionSequencer`.
#[tactic(auto, unfolding(crate::specs::Framework::number_named, crate::specs::Framework::method_named, crate::specs::Framework::framework_methods))]
fn of_sequencer(name: &[u8]) -> Option<MethodId>
    ensures { result ≡ number_named mission_sequencer name.now }
{
    if name == b"getNextMission".as_slice() {
        return Some(MISSION_SEQUENCER_GET_NEXT_MISSION);
    }
    None
}

/// The method of a name of `PeriodicEventHandler`.
#[tactic(auto, unfolding(crate::specs::Framework::number_named, crate::specs::Framework::method_named, crate::specs::Framework::framework_methods))]
fn of_periodic(name: &[u8]) -> Option<MethodId>
    ensures { result ≡ number_named periodic_handler name.now }
{
    if name == b"handleAsyncEvent".as_slice() {
        return Some(PERIODIC_EVENT_HANDLER_HANDLE_ASYNC_EVENT);
    }
    if name == b"register".as_slice() {
        return Some(PERIODIC_EVENT_HANDLER_REGISTER);
    }
    None
}

/// The method of a name of `AperiodicEventHandler`.
#[tactic(auto, unfolding(crate::specs::Framework::number_named, crate::specs::Framework::method_named, crate::specs::Framework::framework_methods))]
fn of_aperiodic(name: &[u8]) -> Option<MethodId>
    ensures { result ≡ number_named aperiodic_handler name.now }
{
    if name == b"handleAsyncEvent".as_slice() {
        return Some(APERIODIC_EVENT_HANDLER_HANDLE_ASYNC_EVENT);
    }
    if name == b"register".as_slice() {
        return Some(APERIODIC_EVENT_HANDLER_REGISTER);
    }
    if name == b"release".as_slice() {
        return Some(APERIODIC_EVENT_HANDLER_RELEASE);
    }
    None
}

/// The method of a name of `ManagedMemory`.
#[tactic(auto, unfolding(crate::specs::Framework::number_named, crate::specs::Framework::method_named, crate::specs::Framework::framework_methods))]
fn of_memory(name: &[u8]) -> Option<MethodId>
    ensures { result ≡ number_named managed_memory name.now }
{
    if name == b"enterPrivateMemory".as_slice() {
        return Some(MANAGED_MEMORY_ENTER_PRIVATE_MEMORY);
    }
    if name == b"executeInAreaOf".as_slice() {
        return Some(MANAGED_MEMORY_EXECUTE_IN_AREA_OF);
    }
    if name == b"allocInSame".as_slice() {
        return Some(MANAGED_MEMORY_ALLOC_IN_SAME);
    }
    None
}

/// The method of a name of `Services`.
#[tactic(auto, unfolding(crate::specs::Framework::number_named, crate::specs::Framework::method_named, crate::specs::Framework::framework_methods))]
fn of_services(name: &[u8]) -> Option<MethodId>
    ensures { result ≡ number_named services name.now }
{
    if name == b"setCeiling".as_slice() {
        return Some(SERVICES_SET_CEILING);
    }
    None
}

/// The method of a name of `Trace`.
#[tactic(auto, unfolding(crate::specs::Framework::number_named, crate::specs::Framework::method_named, crate::specs::Framework::framework_methods))]
fn of_trace(name: &[u8]) -> Option<MethodId>
    ensures { result ≡ number_named trace name.now }
{
    if name == b"print".as_slice() {
        return Some(TRACE_PRINT);
    }
    None
}

/// The method of a name of `Device`.
#[tactic(auto, unfolding(crate::specs::Framework::number_named, crate::specs::Framework::method_named, crate::specs::Framework::framework_methods))]
fn of_device(name: &[u8]) -> Option<MethodId>
    ensures { result ≡ number_named device name.now }
{
    if name == b"read".as_slice() {
        return Some(DEVICE_READ);
    }
    None
}

/// The number of the method of a name that a framework class has itself.
#[tactic(auto, unfolding(crate::specs::Framework::number_named, crate::specs::Framework::method_named, crate::specs::Framework::framework_methods))]
pub fn method_named(class: ClassId, name: &[u8]) -> Option<MethodId>
    ensures { result ≡ number_named class name.now }
{
    match class.number() {
        1 => of_runnable(name),
        2 => of_safelet(name),
        3 => of_mission(name),
        4 => of_sequencer(name),
        5 => of_periodic(name),
        6 => of_aperiodic(name),
        7 => of_memory(name),
        8 => of_services(name),
        9 => of_trace(name),
        10 => of_device(name),
        _ => None,
    }
}
