//! The faults of a run.

ghost use Rattle.std.specs.Prelude.{◌≡◌};
ghost use Rattle.scj_base.specs.RunFault.{text_of};

/// What ends a release, or the run, before its end.
#[derive(Clone, Copy, Debug, PartialEq, Eq)]
pub enum RunFault {
    /// A member, an element or a method of `null` is used (JLS 15.11 to 15.13).
    NullPointer,
    /// An index isn't within the array (JLS 10.4).
    ArrayIndex,
    /// An array or an area is asked for with a negative size (JLS 15.10.2).
    NegativeSize,
    /// An `int` is divided by zero (JLS 15.17.2).
    DivideByZero,
    /// An object isn't of the class to which it is cast (JLS 15.16).
    ClassCast,
    /// An area has no room for an object.
    MemoryFull,
    /// The store has no room for an area.
    StoreFull,
    /// A scope is entered that the job has already open.
    ScopedCycle,
    /// The active priority is above the ceiling of a monitor that is entered.
    CeilingViolation,
    /// A number is no priority.
    BadPriority,
    /// A time is no start or period of a handler.
    BadPeriod,
    /// A number is no port of the device.
    BadPort,
    /// What only a mission's initialisation may do is done elsewhere.
    NotInitializing,
    /// A mission registers one handler too many.
    TooManyHandlers,
    /// A job has as many frames as it may have.
    DepthFull,
}

impl RunFault {
    /// The fault's name, as it is printed.
    #[tactic(auto, unfolding(crate::specs::RunFault::text_of))]
    pub fn text(self) -> &'static str
        ensures { result.now ≡ text_of self }
    {
        match self {
            RunFault::NullPointer => "NullPointer",
            RunFault::ArrayIndex => "ArrayIndex",
            RunFault::NegativeSize => "NegativeSize",
            RunFault::DivideByZero => "DivideByZero",
            RunFault::ClassCast => "ClassCast",
            RunFault::MemoryFull => "MemoryFull",
            RunFault::StoreFull => "StoreFull",
            RunFault::ScopedCycle => "ScopedCycle",
            RunFault::CeilingViolation => "CeilingViolation",
            RunFault::BadPriority => "BadPriority",
            RunFault::BadPeriod => "BadPeriod",
            RunFault::BadPort => "BadPort",
            RunFault::NotInitializing => "NotInitializing",
            RunFault::TooManyHandlers => "TooManyHandlers",
            RunFault::DepthFull => "DepthFull",
        }
    }
}
