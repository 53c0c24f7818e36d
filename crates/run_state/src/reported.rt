//! What the trace tells of a release.

ghost use Rattle.std.specs.Prelude.{◌≡◌, ◌∷◌, ◌++◌, [], OnOk};
ghost use Rattle.op_list.specs.Listed.{Listing};
ghost use Rattle.scj_model.specs.State.{ReleaseAt};
ghost use Rattle.scj_model.specs.Steps.{of_release};
ghost use Rattle.scj_model.specs.Apply.{report_priority};
ghost use Rattle.scj_model.specs.declared.events.Event.TheVariants.{End, Prio};
ghost use Rattle.run_state.specs.Seen.{job_seen, state_of};

use crate::states::{Job, RunState};
use scj_base::Memory;
use scj_model::Event;

/// Tells one thing.
pub fn report(reported: &mut Vec<Event>, event: Event) -> Result<(), Memory>
    ensures { OnOk result (reported.new.items ≡ reported.old.items ++ event ∷ []) }
{
    reported.push(event)?;
    Ok(())
}

/// Tells two things.
pub fn report_two(reported: &mut Vec<Event>, first: Event, second: Event) -> Result<(), Memory>
    ensures { OnOk result (reported.new.items ≡ reported.old.items ++ first ∷ second ∷ []) }
{
    report(reported, first)?;
    report(reported, second)?;
    Ok(())
}

/// Tells that the release at a place ends.
pub(crate) fn report_end(
    state: &RunState,
    index: usize,
    reported: &mut Vec<Event>,
) -> Result<(), Memory>
    ensures { (code : Listing) →
        OnOk result (reported.new.items ≡ reported.old.items ++ of_release (state_of code state.now) (ReleaseAt index)
        (λ r. End state.now.unit r.handler r.number ∷ [])) }
{
    match state.releases.release(index) {
        Some(release) => {
            let unit = state.unit;
            report(
                reported,
                Event::End {
                    unit,
                    handler: release.handler,
                    number: release.number,
                },
            )?;
            Ok(())
        }
        None => Ok(()),
    }
}

/// Tells another priority of the release at a place.
fn report_priority_of(
    state: &RunState,
    index: usize,
    priority: u8,
    reported: &mut Vec<Event>,
) -> Result<(), Memory>
    ensures { (code : Listing) →
        OnOk result (reported.new.items ≡ reported.old.items ++ of_release (state_of code state.now) (ReleaseAt index)
        (λ r. Prio state.now.unit r.handler priority ∷ [])) }
{
    match state.releases.release(index) {
        Some(release) => {
            let unit = state.unit;
            report(
                reported,
                Event::Prio {
                    unit,
                    handler: release.handler,
                    priority,
                },
            )?;
            Ok(())
        }
        None => Ok(()),
    }
}

/// Tells the active priority of a release where it is another one than before.
#[tactic(auto, using(crate::proofs::ReportLemmas::reported_same, crate::proofs::ReportLemmas::reported_other), unfolding(crate::specs::Seen::state_of))]
pub(crate) fn report_priority(
    state: &RunState,
    job: Job,
    before: u8,
    after: u8,
    reported: &mut Vec<Event>,
) -> Result<(), Memory>
    ensures { (code : Listing) →
        OnOk result
        (reported.new.items ≡ reported.old.items ++ report_priority (state_of code state.now) (job_seen job) before after) }
{
    if before == after {
        return Ok(());
    }
    match job {
        Job::Sequencer => Ok(()),
        Job::Release(index) => {
            report_priority_of(state, index, after, reported)?;
            Ok(())
        }
    }
}
