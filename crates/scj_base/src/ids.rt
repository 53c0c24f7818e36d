//! Numbers of classes, fields, methods, scopes, objects and areas.

ghost use Rattle.std.specs.Prelude.{◌≡◌};

use std::marker::Model;

/// The number of a class: the framework's classes in their order, then the user classes in the order of the sources,
/// then the arrays of `int`, of `boolean` and of each of these classes.
#[derive(Clone, Copy, Debug, PartialEq, Eq, PartialOrd, Ord)]
pub struct ClassId {
    number: u32,
}

impl Model for ClassId {
    ghost use Rattle.std.specs.Prelude.{ℕ};

    ghost Value = { ℕ };

    ghost view = { λ a. a.number };

    ghost inverse = { λ n. record { number = n } };
}

impl ClassId {
    /// The class of a number.
    pub fn at(number: u32) -> ClassId
        ensures { result ≡ number }
    {
        ClassId { number }
    }

    /// The number of the class.
    pub fn number(self) -> u32
        ensures { result ≡ self }
    {
        self.number
    }
}

/// The number of a declared field, in the order of the sources.
#[derive(Clone, Copy, Debug, PartialEq, Eq, PartialOrd, Ord)]
pub struct FieldId {
    number: u32,
}

impl Model for FieldId {
    ghost use Rattle.std.specs.Prelude.{ℕ};

    ghost Value = { ℕ };

    ghost view = { λ a. a.number };

    ghost inverse = { λ n. record { number = n } };
}

impl FieldId {
    /// The field of a number.
    pub fn at(number: u32) -> FieldId
        ensures { result ≡ number }
    {
        FieldId { number }
    }

    /// The number of the field.
    pub fn number(self) -> u32
        ensures { result ≡ self }
    {
        self.number
    }
}

/// The number of a method: the framework's methods in their order, then the declared methods and constructors in the
/// order of the sources.
#[derive(Clone, Copy, Debug, PartialEq, Eq, PartialOrd, Ord)]
pub struct MethodId {
    number: u32,
}

impl Model for MethodId {
    ghost use Rattle.std.specs.Prelude.{ℕ};

    ghost Value = { ℕ };

    ghost view = { λ a. a.number };

    ghost inverse = { λ n. record { number = n } };
}

impl MethodId {
    /// The method of a number.
    pub fn at(number: u32) -> MethodId
        ensures { result ≡ number }
    {
        MethodId { number }
    }

    /// The number of the method.
    pub fn number(self) -> u32
        ensures { result ≡ self }
    {
        self.number
    }
}

/// The number of a scope: that of the first class that defines it. `IMMORTAL` has a number that no user class has.
#[derive(Clone, Copy, Debug, PartialEq, Eq, PartialOrd, Ord)]
pub struct ScopeId {
    number: u32,
}

impl Model for ScopeId {
    ghost use Rattle.std.specs.Prelude.{ℕ};

    ghost Value = { ℕ };

    ghost view = { λ a. a.number };

    ghost inverse = { λ n. record { number = n } };
}

impl ScopeId {
    /// The root of all scopes.
    pub const IMMORTAL: ScopeId = ScopeId { number: 0 };

    /// The scope that the class of a number is the first to define.
    pub fn at(number: u32) -> ScopeId
        ensures { result ≡ number }
    {
        ScopeId { number }
    }

    /// The number of the class that defines the scope, 0 for the root.
    pub fn number(self) -> u32
        ensures { result ≡ self }
    {
        self.number
    }
}

/// A reference to an object of a run.
#[derive(Clone, Copy, Debug, PartialEq, Eq, PartialOrd, Ord)]
pub struct Ref {
    number: u32,
}

impl Model for Ref {
    ghost use Rattle.std.specs.Prelude.{ℕ};

    ghost Value = { ℕ };

    ghost view = { λ a. a.number };

    ghost inverse = { λ n. record { number = n } };
}

impl Ref {
    /// The reference of a number.
    pub fn at(number: u32) -> Ref
        ensures { result ≡ number }
    {
        Ref { number }
    }

    /// The number of the reference.
    pub fn number(self) -> u32
        ensures { result ≡ self }
    {
        self.number
    }
}

/// The number of a memory area of a run.
#[derive(Clone, Copy, Debug, PartialEq, Eq, PartialOrd, Ord)]
pub struct AreaId {
    number: u32,
}

impl Model for AreaId {
    ghost use Rattle.std.specs.Prelude.{ℕ};

    ghost Value = { ℕ };

    ghost view = { λ a. a.number };

    ghost inverse = { λ n. record { number = n } };
}

impl AreaId {
    /// The area of a number.
    pub fn at(number: u32) -> AreaId
        ensures { result ≡ number }
    {
        AreaId { number }
    }

    /// The number of the area.
    pub fn number(self) -> u32
        ensures { result ≡ self }
    {
        self.number
    }
}

/// The class `Object`.
pub const OBJECT: ClassId = ClassId { number: 0 };

/// The class `Runnable`.
pub const RUNNABLE: ClassId = ClassId { number: 1 };

/// The class `Safelet`.
pub const SAFELET: ClassId = ClassId { number: 2 };

/// The class `Mission`.
pub const MISSION: ClassId = ClassId { number: 3 };

/// The class `MissionSequencer`.
pub const MISSION_SEQUENCER: ClassId = ClassId { number: 4 };

/// The class `PeriodicEventHandler`.
pub const PERIODIC_EVENT_HANDLER: ClassId = ClassId { number: 5 };

/// The class `AperiodicEventHandler`.
pub const APERIODIC_EVENT_HANDLER: ClassId = ClassId { number: 6 };

/// The class `ManagedMemory`.
pub const MANAGED_MEMORY: ClassId = ClassId { number: 7 };

/// The class `Services`.
pub const SERVICES: ClassId = ClassId { number: 8 };

/// The class `Trace`.
pub const TRACE: ClassId = ClassId { number: 9 };

/// The class `Device`.
pub const DEVICE: ClassId = ClassId { number: 10 };

/// The class `PriorityParameters`.
pub const PRIORITY_PARAMETERS: ClassId = ClassId { number: 11 };

/// The class `PeriodicParameters`.
pub const PERIODIC_PARAMETERS: ClassId = ClassId { number: 12 };

/// The class `AperiodicParameters`.
pub const APERIODIC_PARAMETERS: ClassId = ClassId { number: 13 };

/// The class `StorageParameters`.
pub const STORAGE_PARAMETERS: ClassId = ClassId { number: 14 };

/// The class `RelativeTime`.
pub const RELATIVE_TIME: ClassId = ClassId { number: 15 };

/// The method `run` of `Runnable`.
pub const RUNNABLE_RUN: MethodId = MethodId { number: 0 };

/// The method `getSequencer` of `Safelet`.
pub const SAFELET_GET_SEQUENCER: MethodId = MethodId { number: 1 };

/// The method `immortalMemorySize` of `Safelet`.
pub const SAFELET_IMMORTAL_MEMORY_SIZE: MethodId = MethodId { number: 2 };

/// The method `initializeApplication` of `Safelet`.
pub const SAFELET_INITIALIZE_APPLICATION: MethodId = MethodId { number: 3 };

/// The method `initialize` of `Mission`.
pub const MISSION_INITIALIZE: MethodId = MethodId { number: 4 };

/// The method `missionMemorySize` of `Mission`.
pub const MISSION_MISSION_MEMORY_SIZE: MethodId = MethodId { number: 5 };

/// The method `cleanUp` of `Mission`.
pub const MISSION_CLEAN_UP: MethodId = MethodId { number: 6 };

/// The method `requestTermination` of `Mission`.
pub const MISSION_REQUEST_TERMINATION: MethodId = MethodId { number: 7 };

/// The method `getNextMission` of `MissionSequencer`.
pub const MISSION_SEQUENCER_GET_NEXT_MISSION: MethodId = MethodId { number: 8 };

/// The method `handleAsyncEvent` of `PeriodicEventHandler`.
pub const PERIODIC_EVENT_HANDLER_HANDLE_ASYNC_EVENT: MethodId = MethodId { number: 9 };

/// The method `register` of `PeriodicEventHandler`.
pub const PERIODIC_EVENT_HANDLER_REGISTER: MethodId = MethodId { number: 10 };

/// The method `handleAsyncEvent` of `AperiodicEventHandler`.
pub const APERIODIC_EVENT_HANDLER_HANDLE_ASYNC_EVENT: MethodId = MethodId { number: 11 };

/// The method `register` of `AperiodicEventHandler`.
pub const APERIODIC_EVENT_HANDLER_REGISTER: MethodId = MethodId { number: 12 };

/// The method `release` of `AperiodicEventHandler`.
pub const APERIODIC_EVENT_HANDLER_RELEASE: MethodId = MethodId { number: 13 };

/// The method `enterPrivateMemory` of `ManagedMemory`.
pub const MANAGED_MEMORY_ENTER_PRIVATE_MEMORY: MethodId = MethodId { number: 14 };

/// The method `executeInAreaOf` of `ManagedMemory`.
pub const MANAGED_MEMORY_EXECUTE_IN_AREA_OF: MethodId = MethodId { number: 15 };

/// The method `setCeiling` of `Services`.
pub const SERVICES_SET_CEILING: MethodId = MethodId { number: 16 };

/// The method `print` of `Trace`.
pub const TRACE_PRINT: MethodId = MethodId { number: 17 };

/// The method `read` of `Device`.
pub const DEVICE_READ: MethodId = MethodId { number: 18 };

/// The method `allocInSame` of `ManagedMemory`.
pub const MANAGED_MEMORY_ALLOC_IN_SAME: MethodId = MethodId { number: 19 };
