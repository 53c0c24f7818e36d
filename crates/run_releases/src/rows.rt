//! A release.

ghost use Rattle.std.specs.Prelude.{◌≡◌};
ghost use Rattle.job_frames.specs.Frames.{empty_activity};
ghost use Rattle.run_releases.specs.Rows.{activity_within, dropped_row, emptied_row, is_live, is_under_way, waits, with_status};

use job_frames::Activity;
use std::mem;

/// How far a release has come.
#[derive(Drop)]
pub enum ReleaseStatus {
    /// It waits to be started.
    Waits,
    /// It is under way.
    Started(Activity),
    /// It has come to its end.
    Ended,
    /// It was let go before it was started.
    Dropped,
}

/// A release of a handler.
#[derive(Drop)]
pub struct Release {
    /// The number of the handler.
    pub handler: u8,
    /// Which release of the handler in the mission it is, counted from 1.
    pub number: u64,
    /// How far it has come.
    pub status: ReleaseStatus,
}

impl Release {
    /// Whether it waits.
    pub fn is_waiting(&self) -> bool
        ensures { result ≡ waits self.now.status }
    {
        match &self.status {
            ReleaseStatus::Waits => true,
            ReleaseStatus::Started(_) | ReleaseStatus::Ended | ReleaseStatus::Dropped => false,
        }
    }

    /// Whether it is under way.
    pub fn is_started(&self) -> bool
        ensures { result ≡ is_under_way self.now.status }
    {
        match &self.status {
            ReleaseStatus::Started(_) => true,
            ReleaseStatus::Waits | ReleaseStatus::Ended | ReleaseStatus::Dropped => false,
        }
    }

    /// Whether it waits or is under way.
    pub(crate) fn is_live(&self) -> bool
        ensures { result ≡ is_live self.now.status }
    {
        match &self.status {
            ReleaseStatus::Waits | ReleaseStatus::Started(_) => true,
            ReleaseStatus::Ended | ReleaseStatus::Dropped => false,
        }
    }

    /// Gives it another status.
    pub(crate) fn set_status(&mut self, status: ReleaseStatus)
        ensures { self.new ≡ with_status status self.old }
    {
        self.status = status;
    }

    /// Lets it go if it waits.
    pub(crate) fn drop_waiting(&mut self)
        ensures { self.new ≡ dropped_row self.old }
    {
        match &self.status {
            ReleaseStatus::Waits => self.status = ReleaseStatus::Dropped,
            ReleaseStatus::Started(_) | ReleaseStatus::Ended | ReleaseStatus::Dropped => {}
        }
    }

    /// The activity, if it is under way, which then has an empty one.
    pub(crate) fn take_activity(&mut self, empty: Activity) -> Option<Activity>
        requires { empty ≡ empty_activity }
        ensures taken { result ≡ activity_within self.old.status }
        ensures left { self.new ≡ emptied_row self.old }
    {
        match &mut self.status {
            ReleaseStatus::Started(activity) => Some(mem::replace(activity, empty)),
            ReleaseStatus::Waits | ReleaseStatus::Ended | ReleaseStatus::Dropped => None,
        }
    }
}
