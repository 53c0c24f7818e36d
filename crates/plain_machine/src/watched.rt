//! A run whose needs of memory areas are noted.

ghost use Rattle.std.specs.Prelude.{◌≡◌, ◌+◌, IfOk, IfSome, IfNone, None};
ghost use Rattle.std.specs.List.{last_or};
ghost use Rattle.plain_machine.specs.AreaTexts.{as_fault, last_fault};
ghost use Rattle.plain_machine.specs.Lawful.{IsLawful};
ghost use Rattle.plain_machine.specs.UnderWay.{HasSpent, IsBetween, IsNeverStuck};
ghost use Rattle.plain_machine.specs.Watched.{HasEndedWith, IsSituatedRun, IsWatched, ReportsNeeds};

use crate::steps::is_over;
use crate::under_way::UnderWay;
use area_tables::AreaTable;
use scj_base::Memory;
use scj_model::Event;
use std::alloc::Global;
use unit_steps::{Acted, Setting, begin_unit, end_unit};

/// A run under way, the table of what it has needed, and its last fault.
#[derive(Drop)]
pub struct Watched {
    pub(crate) at: UnderWay,
    pub(crate) table: AreaTable,
    pub(crate) fault: Option<Event>,
}

/// Spends one unit of a run that is never stuck, and looks at its memory after the operation and at the end of the unit.
fn spend_watched(
    alloc: Global,
    setting: Setting<'_>,
    at: &mut UnderWay,
    table: &mut AreaTable,
) -> Result<(), Memory>
    requires same { setting.classes.now ≡ setting.code.now.program }
    requires never { IsNeverStuck setting.code.now.program setting.plan.now }
    requires lawful { IsLawful setting.code.now setting.plan.now }
    requires situated { IsSituatedRun setting.code.now.program setting.plan.now }
    requires between { IsBetween setting.code.now setting.plan.now at.old }
    requires reports { ReportsNeeds setting.code.now.program setting.plan.now at.old.state.unit table.old }
    ensures spent { IfOk result (λ _. HasSpent setting.entry.code.now setting.entry.plan.now at.old.state.unit at.new) }
    ensures reports { IfOk result
        (λ _. ReportsNeeds setting.entry.code.now.program setting.entry.plan.now (at.old.state.unit + 1) table.new) }
{
    at.reported.clear();
    let acted = begin_unit(
        alloc,
        setting,
        &mut at.past,
        &mut at.state,
        &mut at.reported,
    )?;
    let Acted::Done(refusal) = acted else {
        unreachable!()
    };
    table.note(refusal);
    let operated = &at.state;
    table.look(&operated.memory)?;
    let ended = end_unit(setting, &mut at.state, &mut at.reported)?;
    if ended {
        table.look(&at.state.memory)?;
        Ok(())
    } else {
        unreachable!()
    }
}

/// An event that is a fault.
#[tactic(auto, unfolding(crate::specs::AreaTexts::as_fault))]
fn as_fault(event: Event) -> Option<Event>
    ensures { result ≡ as_fault event }
{
    match event {
        Event::Fault {
            unit,
            fault,
            position,
        } => Some(Event::Fault {
            unit,
            fault,
            position,
        }),
        _ => None,
    }
}

/// The last fault of events, or else the one that is known.
#[tactic(auto, unfolding(crate::specs::AreaTexts::last_fault))]
fn last_fault(known: Option<Event>, events: &[Event]) -> Option<Event>
    ensures { result ≡ last_fault known events.now }
{
    let mut found = known;
    let mut others = events;
    while let [event, rest @ ..] = others {
        if let Some(fault) = as_fault(*event) {
            found = Some(fault);
        }
        others = rest;
    }
    found
}

/// The last event of a unit after which the run is over.
fn last_reported(at: &UnderWay) -> Option<Event>
    ensures { result ≡ last_or None at.now.reported.items }
{
    at.reported.last().copied()
}

/// One more unit of a run, or its end: then the last event of its trace is answered.
fn watched_step(
    alloc: Global,
    setting: Setting<'_>,
    run: &mut Watched,
) -> Result<Option<Event>, Memory>
    requires same { setting.classes.now ≡ setting.code.now.program }
    requires never { IsNeverStuck setting.code.now.program setting.plan.now }
    requires lawful { IsLawful setting.code.now setting.plan.now }
    requires situated { IsSituatedRun setting.code.now.program setting.plan.now }
    requires watched { IsWatched setting.code.now setting.plan.now run.old }
    ensures on { IfOk result (λ last. IfNone last
        (IsWatched setting.entry.code.now setting.entry.plan.now run.new
        × (run.new.at.state.unit ≡ run.old.at.state.unit + 1))) }
    ensures end { IfOk result (λ last. IfSome last
        (HasEndedWith setting.entry.code.now.program setting.entry.plan.now run.new)) }
{
    let unit = run.at.state.unit;
    if unit == setting.plan.units() {
        return Ok(Some(Event::Stopped { unit }));
    }
    spend_watched(alloc, setting, &mut run.at, &mut run.table)?;
    run.fault = last_fault(run.fault, &run.at.reported);
    if is_over(run.at.state.phase) {
        return Ok(last_reported(&run.at));
    }
    Ok(None)
}

/// A whole run, and the last event of its trace.
pub(crate) fn watch(alloc: Global, setting: Setting<'_>, run: &mut Watched) -> Result<Event, Memory>
    requires same { setting.classes.now ≡ setting.code.now.program }
    requires never { IsNeverStuck setting.code.now.program setting.plan.now }
    requires lawful { IsLawful setting.code.now setting.plan.now }
    requires situated { IsSituatedRun setting.code.now.program setting.plan.now }
    requires watched { IsWatched setting.code.now setting.plan.now run.old }
    ensures { IfOk result (λ last. HasEndedWith setting.entry.code.now.program setting.entry.plan.now run.new last) }
{
    loop {
        if let Some(last) = watched_step(alloc, setting, run)? {
            return Ok(last);
        }
    }
}
