//! What a line asks of the plan.

ghost use Rattle.std.specs.Prelude.{◌≡◌, ◌≤◌, IfOk};
ghost use Rattle.std.specs.Bool.{OnTrue};
ghost use Rattle.std.specs.List.{list_any};
ghost use Rattle.run_plan.specs.Limits.{most_units};
ghost use Rattle.scj_model.specs.declared.plans.FireFrom.TheVariants.{Start};
ghost use Rattle.trace_audit.specs.Fires.{is_fire_of, is_fired_since};
ghost use Rattle.trace_audit.specs.Passing.{is_fire, is_within};

use crate::fire_keys::{is_among, keys_of};
use crate::lines::{Entry, Line};
use run_plan::Plan;
use scj_base::Name;
use scj_model::FireFrom;
use std::alloc::{AllocError, Global};
use std::collections::BTreeSet;
use std::marker::Model;

/// A plan, and its fires by their units and names. A contract sees the plan.
#[derive(Drop)]
pub struct AuditPlan<'a> {
    plan: &'a Plan,
    /// The fires that are counted from the start.
    starting: BTreeSet<(u64, u64, Name)>,
    /// Those that are counted from a mission's origin.
    of_missions: BTreeSet<(u64, u64, Name)>,
}

impl<'a> Model for AuditPlan<'a> {
    ghost use Rattle.scj_model.specs.Plan.{Plan as PlanOfRun};
    ghost use Rattle.scj_model.specs.declared.plans.FireFrom.TheVariants.{Mission, Start};
    ghost use Rattle.trace_audit.specs.Fires.{AreFireKeys};

    ghost Value = { PlanOfRun };

    ghost view = { λ a. a.plan.now };

    ghost invariant = { λ a. AreFireKeys Start a.plan.now.fires a.starting
        × AreFireKeys Mission a.plan.now.fires a.of_missions };
}

impl<'a> AuditPlan<'a> {
    /// The plan with its fires by their units and names.
    pub fn new(alloc: Global, plan: &'a Plan) -> Result<AuditPlan<'a>, AllocError>
        ensures { IfOk result (λ kept. kept ≡ plan.now) }
    {
        let starting = keys_of(alloc, plan.fires(), FireFrom::Start)?;
        let of_missions = keys_of(alloc, plan.fires(), FireFrom::Mission)?;
        Ok(AuditPlan {
            plan,
            starting,
            of_missions,
        })
    }

    /// Whether some fire that is counted from the start has the unit and names the handler's class.
    fn is_starting(&self, at: u64, name: &Name) -> bool
        ensures { result ≡ list_any (is_fire_of Start at name.now) self.now.fires }
    {
        is_among(&self.starting, at, name)
    }

    /// Whether some fire that is counted from the origin comes in the unit and names the handler's class.
    fn is_since(&self, origin: Option<u64>, unit: u64, name: &Name) -> bool
        ensures { result ≡ is_fired_since origin unit name.now self.now.fires }
    {
        match origin {
            Some(origin) => { origin <= unit && is_among(&self.of_missions, unit - origin, name) }
            None => false,
        }
    }

    /// Whether some fire of the plan comes in the unit and names the handler's class; of a mission that executes the
    /// origin is given.
    pub fn is_fired(&self, origin: Option<u64>, unit: u64, name: &Name) -> bool
        ensures { result ≡ list_any (is_fire origin unit name.now) self.now.fires }
    {
        self.is_starting(unit, name) || self.is_since(origin, unit, name)
    }

    /// Whether the unit of a line suits its entry.
    pub fn is_within(&self, line: &Line) -> bool
        ensures value { result ≡ is_within self.now line.now }
        ensures small { OnTrue result (line.now.unit ≤ most_units) }
    {
        match line.entry {
            Entry::Stopped => line.unit == self.plan.units(),
            _ => line.unit < self.plan.units(),
        }
    }
}
