//! Which handlers and which fires of the plan are due in a unit (JSR 302: PeriodicEventHandler, OneShotEventHandler).

ghost use Rattle.std.specs.Prelude.{◌≡◌};
ghost use Rattle.scj_model.specs.Arrivals.{comes_at, comes_in, is_due, is_due_after};
ghost use Rattle.scj_model.specs.declared.plans.FireFrom.TheVariants.{Mission};

use scj_model::{Fire, FireFrom, HandlerKind, HandlerRow};

/// Whether a handler of this kind is due in the unit, where `first` is its first one.
#[tactic(auto, unfolding(scj_model::specs::Arrivals::is_due_after))]
fn is_due_after(kind: HandlerKind, first: u64, period: u64, unit: u64) -> bool
    ensures { result ≡ is_due_after kind first period unit }
{
    match kind {
        HandlerKind::Periodic => unit >= first && (unit - first).is_multiple_of(period),
        HandlerKind::OneShot => unit == first,
        HandlerKind::Aperiodic => false,
    }
}

/// Whether a handler of the mission with this origin is due in the unit.
#[tactic(auto, unfolding(scj_model::specs::Arrivals::is_due), using(crate::proofs::DueUnits::not_due_before))]
pub(crate) fn is_due(origin: u64, unit: u64, row: &HandlerRow) -> bool
    ensures { result ≡ is_due origin unit row.now }
{
    match origin.checked_add(row.start) {
        Some(first) => is_due_after(row.kind, first, row.period, unit),
        None => false,
    }
}

/// Whether a fire that is counted from a mission's origin comes in the unit; `origin` is that of the mission that
/// executes.
#[tactic(auto, unfolding(scj_model::specs::Arrivals::comes_at))]
fn comes_since(origin: Option<u64>, unit: u64, at: u64) -> bool
    ensures { result ≡ comes_at Mission origin unit at }
{
    match origin {
        Some(origin) => unit >= origin && unit - origin == at,
        None => false,
    }
}

/// Whether a fire comes in the unit; `origin` is that of the mission, while it executes.
#[tactic(auto, unfolding(scj_model::specs::Arrivals::comes_in, scj_model::specs::Arrivals::comes_at))]
pub(crate) fn comes_in(origin: Option<u64>, unit: u64, fire: &Fire) -> bool
    ensures { result ≡ comes_in origin unit fire.now }
{
    match fire.from {
        FireFrom::Start => fire.at == unit,
        FireFrom::Mission => comes_since(origin, unit, fire.at),
    }
}
