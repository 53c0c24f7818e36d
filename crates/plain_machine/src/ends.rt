//! How a run ends, by the last thing that it tells.

ghost use Rattle.std.specs.Prelude.{◌≡◌};
ghost use Rattle.plain_machine.specs.Ends.{end_of, end_reported};

use crate::runs::RunEnd;
use scj_model::Event;

/// The end that an event tells, if it tells one.
#[tactic(auto, unfolding(crate::specs::Ends::end_reported))]
pub(crate) fn end_reported(event: &Event) -> Option<RunEnd>
    ensures { result ≡ end_reported event.now }
{
    match event {
        Event::Done { .. } => Some(RunEnd::Done),
        Event::Halted { .. } => Some(RunEnd::Halted),
        Event::Stopped { .. } => Some(RunEnd::Stopped),
        _ => None,
    }
}

/// The end that the last event tells, if it tells one.
pub(crate) fn end_of(reported: &[Event]) -> Option<RunEnd>
    ensures { result ≡ end_of reported.now }
{
    match reported.last() {
        Some(event) => end_reported(event),
        None => None,
    }
}
