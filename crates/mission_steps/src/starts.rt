//! START: the first operation of a release (JSR 302: ManagedEventHandler, handleAsyncEvent).

ghost use Rattle.std.specs.Prelude.{◌≡◌, ◌∷◌, ◌<◌, [], IfOk, None, Some};
ghost use Rattle.scj_model.specs.declared.handlers.HandlerRow.{HandlerRow as RowOfRun};
ghost use Rattle.scj_model.specs.Code.{code_of};
ghost use Rattle.scj_model.specs.State.{Release as ReleaseOfRun};
ghost use Rattle.scj_model.specs.Registry.{handler_row};
ghost use Rattle.scj_model.specs.Effects.{new_frame};
ghost use Rattle.scj_model.specs.Run.{start_op, started_with};
ghost use Rattle.region_heap.specs.Contents.{open_count};
ghost use Rattle.job_frames.specs.Frames.{activity_seen};
ghost use Rattle.run_state.specs.Seen.{state_of};
ghost use Rattle.run_state.specs.Standing.{HasNumbers};
ghost use Rattle.run_state.specs.Steps.{IsStep, IsTry};

use crate::bodies::{OwnCall, first_frames};
use crate::looks::{body_named, class_position, private_scope};
use crate::registry::handler_row;
use job_frames::{Activity, OpenAreas};
use op_list::OpList;
use run_state::ends::fault_in;
use run_state::jobs::put_back;
use run_state::memory::open_area;
use run_state::{Acting, Job, NewArea, RunState};
use scj_base::{AreaId, Memory, Name, RunFault, ScopeId};
use scj_model::{Event, HandlerRow};
use scj_rules::Body;
use std::alloc::Global;

/// A release that is to be started: its place, its handler's row, and what is run in a memory of which scope.
#[derive(Clone, Copy, Debug)]
struct Start {
    index: usize,
    row: HandlerRow,
    scope: ScopeId,
    body: Body,
}

/// The same areas, in which another job begins.
fn shared(alloc: Global, outer: &OpenAreas) -> Result<OpenAreas, Memory>
    ensures { IfOk result (λ areas. areas ≡ outer.now) }
{
    let mut areas = OpenAreas::new(alloc);
    let mut rest = outer.in_order();
    while let [area, others @ ..] = rest {
        areas.push(*area)?;
        rest = others;
    }
    Ok(areas)
}

/// What a release has whose private memory is open inside other areas.
fn begun(
    alloc: Global,
    code: &OpList<'_>,
    mut areas: OpenAreas,
    start: &Start,
    area: AreaId,
) -> Result<Activity, Memory>
    ensures seen { IfOk result
        (λ activity. activity_seen code.now activity
        ≡ record {
          frames = record (new_frame (code_of code.now.program) start.now.body None (Some start.now.row.at) area [])
              { opened = Some area } ∷ [];
          areas = area ∷ areas;
          priority = start.now.row.priority;
        }) }
{
    let frames = first_frames(
        alloc,
        code,
        OwnCall {
            body: start.body,
            this: start.row.at,
            area,
            opened: Some(area),
        },
    )?;
    areas.push(area)?;
    Ok(Activity {
        frames,
        areas,
        priority: start.row.priority,
    })
}

/// A release starts: its private memory is opened inside the mission's, and its body called.
fn started_with(
    alloc: Global,
    code: &OpList<'_>,
    state: &mut RunState,
    start: &Start,
    reported: &mut Vec<Event>,
) -> Result<(), Memory>
    requires numbers { HasNumbers state.old.memory }
    requires few { open_count state.old.memory < 1794 }
    ensures { IfOk result
        (λ _. IsStep code.now
        (started_with (code_of code.now.program) (state_of code.now state.old) start.now.index start.now.row
        start.now.scope
        start.now.body) state.new reported.old.items reported.new.items) }
{
    let parent = state.activity.areas.innermost();
    let areas = shared(alloc, &state.activity.areas)?;
    match open_area(
        state,
        NewArea {
            scope: start.scope,
            parent,
            bytes: start.row.bytes,
        },
    ) {
        Some(area) => {
            let activity = begun(alloc, code, areas, start, area)?;
            put_back(state, Job::Release(start.index), activity)?;
            Ok(())
        }
        None => {
            let acting = Acting {
                job: Job::Release(start.index),
                position: class_position(code, start.row.class),
            };
            fault_in(
                state,
                acting,
                &Activity::empty(alloc),
                RunFault::StoreFull,
                reported,
            )?;
            Ok(())
        }
    }
}

/// The first operation of a release that waits, by its handler.
pub fn start_op(
    alloc: Global,
    code: &OpList<'_>,
    state: &mut RunState,
    index: usize,
    handler: u8,
    reported: &mut Vec<Event>,
) -> Result<bool, Memory>
    requires numbers { HasNumbers state.old.memory }
    requires few { (row : RowOfRun) → handler_row state.old.registry.items handler ≡ Some row →
        open_count state.old.memory < 1794 }
    ensures { (r : ReleaseOfRun) → r.handler ≡ handler →
        IfOk result
        (λ answer. IsTry code.now
        (start_op (code_of code.now.program) (state_of code.now state.old) index r) answer state.new reported.old.items
        reported.new.items) }
{
    let Some(row) = handler_row(state.registry.as_slice(), handler) else {
        return Ok(false);
    };
    let Some(scope) = private_scope(code, row.class) else {
        return Ok(false);
    };
    let Some(body) = body_named(code, row.class, &Name::new(b"handleAsyncEvent")) else {
        return Ok(false);
    };
    let start = Start {
        index,
        row,
        scope,
        body,
    };
    started_with(alloc, code, state, &start, reported)?;
    Ok(true)
}
