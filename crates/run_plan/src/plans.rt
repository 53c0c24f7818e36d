//! A plan, as a run asks it.

ghost use Rattle.std.specs.Prelude.{◌≡◌, ◌≤◌, ◌+◌, IfOk, length};
ghost use Rattle.run_plan.specs.Index.{coming, fires_before};
ghost use Rattle.run_plan.specs.Limits.{AreFires, AreReadings, KeepsLimits, largest_store, most_rows, most_units};

use crate::fires_by_unit::Fires;
use crate::port_readings::Readings;
use scj_base::Memory;
use scj_model::{Fire, ReadingRow};
use std::alloc::Global;
use std::marker::Model;

/// A plan: how many units the run has at most, the bytes of its store, the releases of handlers from outside, and what
/// the device reads. `read_plan` is its only maker.
#[derive(Drop)]
pub struct Plan {
    units: u64,
    store: u64,
    fires: Fires,
    readings: Readings,
}

impl Model for Plan {
    ghost use Rattle.std.specs.Prelude.{◌≤◌};
    ghost use Rattle.scj_model.specs.Plan.{Plan as PlanOfRun};

    ghost Value = { PlanOfRun };

    ghost use Rattle.run_plan.specs.Limits.{largest_store, most_rows, most_units};

    ghost view = { λ a. record { units = a.units; store = a.store; fires = a.fires; readings = a.readings } };

    ghost invariant = { λ a. (a.units ≤ most_units) × (a.store ≤ largest_store) };
}

impl Plan {
    /// The plan of these parts.
    pub(crate) fn new(
        alloc: Global,
        units: u64,
        store: u64,
        fires: Vec<Fire>,
        readings: Vec<ReadingRow>,
    ) -> Result<Plan, Memory>
        requires units { units ≤ most_units }
        requires store { store ≤ largest_store }
        requires fires { AreFires fires.items }
        requires readings { AreReadings readings.items }
        ensures plan { IfOk result (λ plan. plan ≡ record { units = units; store = store; fires = fires.items; readings = readings.items }) }
        ensures limits { IfOk result KeepsLimits }
    {
        let fires = Fires::new(alloc, fires)?;
        let readings = Readings::new(alloc, readings)?;
        Ok(Plan {
            units,
            store,
            fires,
            readings,
        })
    }

    /// How many units the run has at most, up to 10,000,000.
    pub fn units(&self) -> u64
        ensures units { result ≡ self.now.units }
        ensures limit { result ≤ most_units }
    {
        self.units
    }

    /// The bytes of the store, up to 67,108,864.
    pub fn store(&self) -> u64
        ensures store { result ≡ self.now.store }
        ensures limit { result ≤ largest_store }
    {
        self.store
    }

    /// The fires, in the order of the plan: at most 10,000, each in a unit below 10,000,000.
    pub fn fires(&self) -> &[Fire]
        ensures fires { result.now ≡ self.now.fires }
        ensures limits { AreFires self.now.fires }
    {
        self.fires.in_order()
    }

    /// What the device reads.
    pub fn readings(&self) -> &Readings
        ensures { result.now ≡ self.now.readings }
    {
        &self.readings
    }

    /// Fires among which those that come in a unit stand in the order of the plan; `origin` is that of the mission,
    /// while it executes, and `past` the number that `past_fires` gives of the unit before, at first 0.
    ///
    /// These are the fires of the unit alone, but where both fires that are counted from the start and fires that are
    /// counted from the origin come in it: then all of the plan are given.
    pub fn fires_coming(&self, past: usize, origin: Option<u64>, unit: u64) -> &[Fire]
        requires { past ≡ fires_before self.now unit }
        ensures { coming origin unit result.now ≡ coming origin unit self.now.fires }
    {
        self.fires.coming(past, origin, unit)
    }

    /// How many of the fires that are counted from the start come before the next unit, where `past` come before this
    /// one.
    pub fn past_fires(&self, past: usize, unit: u64) -> usize
        requires { past ≡ fires_before self.now unit }
        ensures past { result ≡ fires_before self.now (unit + 1) }
        ensures limit { result ≤ most_rows }
    {
        self.fires.past(past, unit)
    }
}
