//! The fires of a plan, kept so that those of a unit are found at once.

ghost use Rattle.std.specs.Prelude.{◌≡◌, ◌≤◌, ◌+◌, ◌-◌, ◌==◌, not, IfOk, Option, drop, filter, length, take_while};
ghost use Rattle.std.specs.List.{prefix_len};
ghost use Rattle.scj_model.specs.declared.plans.Fire.{Fire as FireRow};
ghost use Rattle.std.specs.List.Sorted.{IsNonDecreasingBy};
ghost use Rattle.scj_model.specs.Arrivals.{comes_at};
ghost use Rattle.scj_model.specs.declared.plans.FireFrom.TheVariants.{Mission};
ghost use Rattle.run_plan.specs.Index.{AreByUnit, coming, count_before, from_mission, from_start, is_from_start};
ghost use Rattle.run_plan.specs.Limits.{AreFires, most_rows};

use scj_base::Memory;
use scj_model::{Fire, FireFrom};
use std::alloc::Global;
use std::marker::Model;

/// Fires of a plan. A contract sees the list of them, in the order of the plan.
#[derive(Drop)]
pub(crate) struct Fires {
    in_order: Vec<Fire>,
    /// Those that are counted from the start by their units, those of one unit in the order of the plan.
    by_unit: Vec<Fire>,
    /// Those that are counted from a mission's origin in the same way.
    by_mission: Vec<Fire>,
}

impl Model for Fires {
    ghost use Rattle.std.specs.Prelude.{List};
    ghost use Rattle.scj_model.specs.declared.plans.Fire.{Fire as FireRow};

    ghost Value = { List FireRow };

    ghost use Rattle.run_plan.specs.Index.{AreByUnit, from_mission, from_start};
    ghost use Rattle.run_plan.specs.Limits.{AreFires};

    ghost view = { λ a. a.in_order.items };

    ghost invariant = { λ a. AreFires a.in_order.items
        × AreByUnit (from_start a.in_order.items) a.by_unit.items
        × AreByUnit (from_mission a.in_order.items) a.by_mission.items };
}

impl Fires {
    /// These fires.
    pub(crate) fn new(alloc: Global, fires: Vec<Fire>) -> Result<Fires, Memory>
        requires { AreFires fires.items }
        ensures { IfOk result (λ kept. kept ≡ fires.items) }
    {
        let by_unit = starting(alloc, fires.as_slice())?;
        let by_mission = of_missions(alloc, fires.as_slice())?;
        Ok(Fires {
            in_order: fires,
            by_unit,
            by_mission,
        })
    }

    /// The fires in the order of the plan.
    pub(crate) fn in_order(&self) -> &[Fire]
        ensures fires { result.now ≡ self.now }
        ensures limits { AreFires self.now }
    {
        self.in_order.as_slice()
    }

    /// Fires among which those of a unit stand in the order of the plan, where `past` are those of the units before
    /// that are counted from the start: those of the unit alone, but all where fires of both kinds may come in it.
    pub(crate) fn coming(&self, past: usize, origin: Option<u64>, unit: u64) -> &[Fire]
        requires { past ≡ count_before (from_start self.now) unit }
        ensures { coming origin unit result.now ≡ coming origin unit self.now }
    {
        let starting = due_from(self.by_unit.as_slice(), past, unit);
        let of_mission = due_since(self.by_mission.as_slice(), origin, unit);
        if of_mission.is_empty() {
            starting
        } else if starting.is_empty() {
            of_mission
        } else {
            self.in_order.as_slice()
        }
    }

    /// How many of the fires that are counted from the start are past behind a unit, where `past` are so before it.
    pub(crate) fn past(&self, past: usize, unit: u64) -> usize
        requires { past ≡ count_before (from_start self.now) unit }
        ensures past { result ≡ count_before (from_start self.now) (unit + 1) }
        ensures limit { result ≤ most_rows }
    {
        past + due_from(self.by_unit.as_slice(), past, unit).len()
    }
}

/// The fires that are counted from the start, by their units.
fn starting(alloc: Global, fires: &[Fire]) -> Result<Vec<Fire>, Memory>
    ensures { IfOk result (λ sorted. AreByUnit (from_start fires.now) sorted.items) }
{
    let mut chosen = Vec::new(alloc);
    for fire in fires {
        if is_from_start(fire.from) {
            chosen.push(*fire)?;
        }
    }
    sorted_by_unit(chosen)
}

/// Whether a fire is counted from the start.
fn is_from_start(from: FireFrom) -> bool
    ensures { result ≡ is_from_start from }
{
    match from {
        FireFrom::Start => true,
        FireFrom::Mission => false,
    }
}

/// The fires that are counted from the origin of a mission, by their units.
fn of_missions(alloc: Global, fires: &[Fire]) -> Result<Vec<Fire>, Memory>
    ensures { IfOk result (λ sorted. AreByUnit (from_mission fires.now) sorted.items) }
{
    let mut chosen = Vec::new(alloc);
    for fire in fires {
        if !is_from_start(fire.from) {
            chosen.push(*fire)?;
        }
    }
    sorted_by_unit(chosen)
}

/// The fires by their units.
fn sorted_by_unit(fires: Vec<Fire>) -> Result<Vec<Fire>, Memory>
    ensures { IfOk result (λ sorted. AreByUnit fires.items sorted.items) }
{
    let mut sorted = fires;
    sorted.sort_by_key(|fire| fire.at)?;
    Ok(sorted)
}

/// The fires of a unit of the run among those that are counted from a mission's origin.
fn due_since(fires: &[Fire], origin: Option<u64>, unit: u64) -> &[Fire]
    requires { IsNonDecreasingBy (λ (fire : FireRow). fire.at) fires.now }
    ensures { result.now ≡ filter (λ (fire : FireRow). comes_at Mission origin unit fire.at) fires.now }
{
    let Some(origin) = origin else {
        return &[];
    };
    if unit < origin {
        return &[];
    }
    due_at(fires, unit - origin)
}

/// The fires of a unit among fires that stand by their units.
fn due_at(fires: &[Fire], at: u64) -> &[Fire]
    requires { IsNonDecreasingBy (λ (fire : FireRow). fire.at) fires.now }
    ensures { result.now ≡ filter (λ (fire : FireRow). fire.at == at) fires.now }
{
    let index = fires.partition_point(|fire| fire.at < at);
    due_from(fires, index, at)
}

/// The fires of the unit that come first from a place on.
fn due_from(fires: &[Fire], index: usize, unit: u64) -> &[Fire]
    requires { index ≤ length fires.now }
    ensures { result.now ≡ take_while (λ (fire : FireRow). fire.at == unit) (drop index fires.now) }
{
    let (_, rest) = fires.split_at(index);
    &rest[..count_at(rest, unit)]
}

/// How many fires of the unit come first.
fn count_at(fires: &[Fire], unit: u64) -> usize
    ensures value { result ≡ prefix_len (λ (fire : FireRow). fire.at == unit) fires.now }
    ensures bound { result ≤ length fires.now }
{
    fires.iter().take_while(|fire| fire.at == unit).count()
}
