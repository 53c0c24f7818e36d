//! Runs that stay within declared rows. Each law is the contract of a function that does nothing.

ghost use Rattle.bounded_runs.specs.KeptRows.{StaysWithinItsRows};
ghost use Rattle.bounded_runs.specs.MetBounds.{MeetsItsBound};

/// A program that breaks no rule, a plan and rows: the run stays within the rows for some units, and a release of it is
/// left until the last unit of its bound, and no longer.
pub fn a_run_meets_its_bound()
    ensures { MeetsItsBound }
{}

/// A program of three handlers that breaks no rule, a plan and rows: the run stays within the rows for some units, and in
/// one of them a release acts above its own priority.
pub fn a_run_stays_within_its_rows()
    ensures { StaysWithinItsRows }
{}
