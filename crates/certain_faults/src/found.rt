//! A place at which a fault is certain.

ghost use Rattle.std.specs.Prelude.{◌≡◌};
ghost use Rattle.std.proofs.Common.{rules};
ghost use Rattle.std.specs.Cmp.{partial_order_from_own_ties};
ghost use Rattle.std.specs.Cmp.Rules.{comparing};
ghost use Rattle.std.specs.Ordering.{as_partial_cmp};
ghost use Rattle.certain_faults.specs.Report.{number_of, fault_order, is_same_fault};

use scj_base::{Position, RunFault};
use std::cmp::Ordering;

/// A fault and its place. They are ordered by file, line, column and fault.
#[derive(Clone, Copy, Debug)]
pub struct CertainFault {
    /// Where the run tells the fault.
    pub pos: Position,
    /// The fault.
    pub fault: RunFault,
}

/// The number of a fault in their order.
#[tactic(auto, unfolding(crate::specs::Report::number_of))]
fn number_of(fault: RunFault) -> u8
    ensures { result ≡ number_of fault }
{
    match fault {
        RunFault::NullPointer => 0,
        RunFault::ArrayIndex => 1,
        RunFault::NegativeSize => 2,
        RunFault::DivideByZero => 3,
        RunFault::ClassCast => 4,
        RunFault::MemoryFull => 5,
        RunFault::StoreFull => 6,
        RunFault::ScopedCycle => 7,
        RunFault::CeilingViolation => 8,
        RunFault::BadPriority => 9,
        RunFault::BadPeriod => 10,
        RunFault::BadPort => 11,
        RunFault::NotInitializing => 12,
        RunFault::TooManyHandlers => 13,
        RunFault::DepthFull => 14,
    }
}

impl PartialEq for CertainFault {
    ghost eq = { is_same_fault };

    ghost laws = { Prim.search (comparing, rules) };

    fn eq(&self, other: &CertainFault) -> bool {
        self.pos == other.pos && number_of(self.fault) == number_of(other.fault)
    }
}

impl Eq for CertainFault {
    ghost laws = { Prim.search (comparing, rules) };
}

impl Ord for CertainFault {
    ghost cmp = { fault_order };

    ghost total = { Prim.search (comparing, rules) };

    ghost matches_partial_cmp = { Prim.search (comparing, rules) };

    ghost matches_eq = { Prim.search (comparing, rules) };

    fn cmp(&self, other: &CertainFault) -> Ordering {
        self.pos
            .cmp(&other.pos)
            .then(number_of(self.fault).cmp(&number_of(other.fault)))
    }
}

impl PartialOrd for CertainFault {
    ghost partial_cmp = { as_partial_cmp fault_order };

    ghost laws = { partial_order_from_own_ties (Prim.search (comparing, rules) depth 9) (Prim.search (comparing, rules) depth 9) };

    fn partial_cmp(&self, other: &CertainFault) -> Option<Ordering> {
        Some(self.cmp(other))
    }
}
