//! The framework's classes.

ghost use Rattle.std.specs.Prelude.{◌≡◌, ◌≤◌, length};
ghost use Rattle.scj_builtins.specs.Framework.{class_row, framework_classes};

use crate::kinds::ClassKind;
use scj_base::ids::{
    APERIODIC_EVENT_HANDLER, APERIODIC_PARAMETERS, DEVICE, MANAGED_MEMORY, MISSION,
    MISSION_SEQUENCER, OBJECT, PERIODIC_EVENT_HANDLER, PERIODIC_PARAMETERS, PRIORITY_PARAMETERS,
    RELATIVE_TIME, RUNNABLE, SAFELET, SERVICES, STORAGE_PARAMETERS, TRACE,
};
use scj_base::{ClassId, Name};

/// How many classes the framework has. The first user class has this number.
pub const FRAMEWORK_CLASS_COUNT: u32 = 16;

/// A class of the framework.
#[derive(Clone, Copy, Debug)]
pub struct FrameworkClass {
    /// Its number.
    pub number: ClassId,
    /// Its name.
    pub name: Name,
    /// What it may be used for.
    pub kind: ClassKind,
}

/// The row of a class.
fn row(number: ClassId, name: &[u8], kind: ClassKind) -> FrameworkClass
    requires { length name.now ≤ 64 }
    ensures { result ≡ class_row number name.now kind }
{
    FrameworkClass {
        number,
        name: Name::new(name),
        kind,
    }
}

/// The classes of the framework, each at its number.
#[tactic(auto, unfolding(crate::specs::Framework::framework_classes))]
pub fn framework_classes() -> [FrameworkClass; FRAMEWORK_CLASS_COUNT as usize]
    ensures { result ≡ framework_classes }
{
    [
        row(OBJECT, b"Object", ClassKind::Concrete),
        row(RUNNABLE, b"Runnable", ClassKind::Interface),
        row(SAFELET, b"Safelet", ClassKind::Interface),
        row(MISSION, b"Mission", ClassKind::Abstract),
        row(MISSION_SEQUENCER, b"MissionSequencer", ClassKind::Abstract),
        row(
            PERIODIC_EVENT_HANDLER,
            b"PeriodicEventHandler",
            ClassKind::Abstract,
        ),
        row(
            APERIODIC_EVENT_HANDLER,
            b"AperiodicEventHandler",
            ClassKind::Abstract,
        ),
        row(MANAGED_MEMORY, b"ManagedMemory", ClassKind::Static),
        row(SERVICES, b"Services", ClassKind::Static),
        row(TRACE, b"Trace", ClassKind::Static),
        row(DEVICE, b"Device", ClassKind::Static),
        row(PRIORITY_PARAMETERS, b"PriorityParameters", ClassKind::Form),
        row(PERIODIC_PARAMETERS, b"PeriodicParameters", ClassKind::Form),
        row(
            APERIODIC_PARAMETERS,
            b"AperiodicParameters",
            ClassKind::Form,
        ),
        row(STORAGE_PARAMETERS, b"StorageParameters", ClassKind::Form),
        row(RELATIVE_TIME, b"RelativeTime", ClassKind::Form),
    ]
}
