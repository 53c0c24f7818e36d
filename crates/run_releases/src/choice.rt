//! The choice of the release that acts.

ghost use Rattle.std.specs.Prelude.{◌≡◌};
ghost use Rattle.scj_model.specs.Choice.{is_more_urgent};
ghost use Rattle.run_releases.specs.Choosing.{candidate_at, candidate_by, chosen_among, preferred, priority_of};

use crate::rows::{Release, ReleaseStatus};
use scj_model::HandlerRow;
use std::marker::Model;

/// A live release: its place, its active priority, and whether it is under way.
#[derive(Clone, Copy)]
struct Candidate {
    index: usize,
    priority: u8,
    is_started: bool,
}

impl Model for Candidate {
    ghost use Rattle.scj_model.specs.Choice.{Candidate as CandidateOfModel};

    ghost Value = { CandidateOfModel };

    ghost view = { λ a. record { index = a.index; priority = a.priority; is_started = a.is_started } };

    ghost inverse = { λ x. record { index = x.index; priority = x.priority; is_started = x.is_started } };
}

impl Candidate {
    /// Whether it is more urgent than one of an earlier place.
    fn is_more_urgent(self, earlier: Candidate) -> bool
        ensures { result ≡ is_more_urgent self earlier }
    {
        self.priority > earlier.priority
            || (self.priority == earlier.priority && self.is_started && !earlier.is_started)
    }
}

/// The priority with which a handler was registered, or 0.
fn priority_by(registry: &[HandlerRow], handler: u8) -> u8
    ensures { result ≡ priority_of registry.now handler }
{
    if handler == 0 {
        return 0;
    }
    match registry.get(handler as usize - 1) {
        Some(row) => row.priority,
        None => 0,
    }
}

/// The release as a candidate, if it is live.
fn candidate_of(registry: &[HandlerRow], index: usize, release: &Release) -> Option<Candidate>
    ensures { result ≡ candidate_by registry.now index release.now.handler release.now.status }
{
    match &release.status {
        ReleaseStatus::Waits => Some(Candidate {
            index,
            priority: priority_by(registry, release.handler),
            is_started: false,
        }),
        ReleaseStatus::Started(activity) => Some(Candidate {
            index,
            priority: activity.priority,
            is_started: true,
        }),
        ReleaseStatus::Ended | ReleaseStatus::Dropped => None,
    }
}

/// The release at a place as a candidate.
fn candidate_there(registry: &[HandlerRow], rows: &[Release], index: usize) -> Option<Candidate>
    ensures { result ≡ candidate_at registry.now rows.now index }
{
    match rows.get(index) {
        Some(release) => candidate_of(registry, index, release),
        None => None,
    }
}

/// The more urgent one of a candidate and of one of a later place.
fn preferred(candidate: Option<Candidate>, later: Option<Candidate>) -> Option<Candidate>
    ensures { result ≡ preferred candidate later }
{
    match (candidate, later) {
        (Some(first), Some(second)) => Some(if second.is_more_urgent(first) {
            second
        } else {
            first
        }),
        (Some(first), None) => Some(first),
        (None, second) => second,
    }
}

/// The place of the most urgent one of the releases at these places, which ascend.
pub(crate) fn choose(registry: &[HandlerRow], rows: &[Release], indices: &[usize]) -> Option<usize>
    ensures { result ≡ chosen_among registry.now rows.now indices.now }
{
    let mut found = None;
    let mut left = indices.len();
    while left > 0 {
        left -= 1;
        found = preferred(candidate_there(registry, rows, indices[left]), found);
    }
    match found {
        Some(candidate) => Some(candidate.index),
        None => None,
    }
}
