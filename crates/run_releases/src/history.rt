//! All releases of a run.

ghost use Rattle.std.specs.Prelude.{◌≡◌, ◌++◌, [], IfOk, OnOk, OnErr, option_copied, option_map, slice_get};
ghost use Rattle.op_list.specs.Listed.{Listing};
ghost use Rattle.scj_model.specs.State.{Ended as EndedSeen, ReleaseAt, State, activity_of, with_activity, with_status as state_with_status};
ghost use Rattle.scj_model.specs.Steps.{reporting};
ghost use Rattle.scj_model.specs.Apply.{release_taken, report_dropped};
ghost use Rattle.scj_model.specs.Sequencer.{has_started};
ghost use Rattle.scj_model.specs.Choice.{chosen};
ghost use Rattle.job_frames.specs.Frames.{activity_seen};
ghost use Rattle.run_releases.specs.Rows.{with_releases};
ghost use Rattle.run_releases.specs.Releases.{activity_in, all_dropped, emptied_at, mission_begun, next_number, status_set, taken_in, report_taken};
ghost use Rattle.run_releases.specs.OtherReleases.{all_let_go, at_unit, with_registry};

use crate::choice::choose;
use crate::counts::{number_at, one_more, reach, set_number, take_one};
use crate::indices::{
    any_started, drop_all, forget, is_live_there, keep_live, push_release, report_all, set_status,
    take_from, waiting_there,
};
use crate::rows::{Release, ReleaseStatus};
use job_frames::Activity;
use scj_base::Memory;
use scj_model::{Event, HandlerRow};
use std::alloc::Global;
use std::marker::Model;

/// How many releases of a handler wait at most.
const MOST_WAITING: u64 = 64;

/// All releases of a run. The list only grows, so that a place in it is a name.
#[derive(Drop)]
pub struct Releases {
    rows: Vec<Release>,
    /// How many there were when the mission began.
    earlier: usize,
    /// The places of those that wait or are under way, ascending.
    live: Vec<usize>,
    /// How many releases each handler has in this mission.
    taken: Vec<u64>,
    /// How many of those wait.
    waiting: Vec<u64>,
}

impl Model for Releases {
    ghost use Rattle.run_releases.specs.Rows.{StoredReleases};
    ghost use Rattle.run_releases.specs.Counts.{AreCounted};

    ghost Value = { StoredReleases };

    ghost view = { λ a. record { rows = a.rows.items; earlier = a.earlier } };

    ghost invariant = { λ a. AreCounted a.live.items a.taken.items a.waiting.items a.earlier a.rows.items };
}

impl Releases {
    /// No releases.
    pub fn new(alloc: Global) -> Releases
        ensures { result ≡ record { rows = []; earlier = 0 } }
    {
        Releases {
            rows: Vec::new(alloc),
            earlier: 0,
            live: Vec::new(alloc),
            taken: Vec::new(alloc),
            waiting: Vec::new(alloc),
        }
    }

    /// One more release of a handler waits, and has this number; none does where as many wait as may.
    pub fn take_in(&mut self, handler: u8) -> Result<Option<u64>, Memory>
        ensures number { IfOk result (λ number. number ≡ next_number self.old handler) }
        ensures taken { IfOk result (λ number. self.new ≡ taken_in handler number self.old) }
        ensures seen { (code : Listing) (s : State) →
            IfOk result
            (λ number. release_taken (with_releases code s self.old) handler ≡ reporting (with_releases code s self.new)
            (report_taken s.unit handler number)) }
        ensures err { OnErr result (self.new ≡ self.old) }
    {
        let index = handler as usize;
        let waiting = number_at(&self.waiting, index);
        if waiting >= MOST_WAITING {
            return Ok(None);
        }
        let number = one_more(number_at(&self.taken, index))?;
        reach(&mut self.taken, index)?;
        reach(&mut self.waiting, index)?;
        push_release(
            &mut self.rows,
            &mut self.live,
            Release {
                handler,
                number,
                status: ReleaseStatus::Waits,
            },
        )?;
        set_number(&mut self.taken, index, number);
        set_number(&mut self.waiting, index, waiting + 1);
        Ok(Some(number))
    }

    /// Lets those that wait go, and tells so in the order in which they arrived.
    pub fn drop_waiting(&mut self, unit: u64, reported: &mut Vec<Event>) -> Result<(), Memory>
        ensures dropped { OnOk result (self.new ≡ all_dropped self.old) }
        ensures seen { (code : Listing) (s : State) →
            OnOk result (all_let_go (with_releases code s self.old) ≡ with_releases code s self.new) }
        ensures reported { (code : Listing) (s : State) →
            OnOk result
            (reported.new.items ≡ reported.old.items ++ report_dropped (at_unit (with_releases code s self.old) unit)) }
        ensures err { OnErr result (self.new ≡ self.old) }
    {
        report_all(&self.rows, &self.live, unit, reported)?;
        drop_all(&mut self.rows, &self.live);
        keep_live(&self.rows, &mut self.live);
        self.waiting.clear();
        Ok(())
    }

    /// From now on all releases are of earlier missions.
    pub fn begin_mission(&mut self)
        ensures { self.new ≡ mission_begun self.old }
    {
        self.earlier = self.rows.len();
        self.taken.clear();
        self.waiting.clear();
    }

    /// The release at a place, if there is one.
    pub fn release(&self, index: usize) -> Option<&Release>
        ensures { option_copied result ≡ slice_get self.now.rows index }
    {
        self.rows.get(index)
    }

    /// The activity of the release at a place, if it is under way. An empty one stays there.
    pub fn take_activity(&mut self, index: usize, alloc: Global) -> Option<Activity>
        ensures taken { result ≡ activity_in self.old.rows index }
        ensures left { self.new ≡ emptied_at index self.old }
        ensures seen { (code : Listing) (s : State) → option_map (activity_seen code) result ≡ activity_of
            (with_releases code s self.old) (ReleaseAt index) }
    {
        take_from(&mut self.rows, index, Activity::empty(alloc))
    }

    /// The release at a place, which waits or is under way, has this activity.
    pub fn put_activity(&mut self, index: usize, activity: Activity) -> Result<(), Memory>
        ensures put { OnOk result (self.new ≡ status_set index (ReleaseStatus.Started activity) self.old) }
        ensures seen { (code : Listing) (s : State) →
            OnOk result
            (with_activity (with_releases code s self.old) (ReleaseAt index) (activity_seen code activity)
            ≡ with_releases code s self.new) }
        ensures err { OnErr result (self.new ≡ self.old) }
    {
        if !is_live_there(&self.rows, index) {
            return Err(Memory);
        }
        take_one(
            &mut self.waiting,
            waiting_there(&self.rows, self.earlier, index),
        );
        set_status(&mut self.rows, index, ReleaseStatus::Started(activity));
        Ok(())
    }

    /// The release at a place has come to its end.
    pub fn end(&mut self, index: usize)
        ensures ended { self.new ≡ status_set index ReleaseStatus.Ended self.old }
        ensures seen { (code : Listing) (s : State) →
            state_with_status (with_releases code s self.old) index EndedSeen ≡ with_releases code s self.new }
    {
        take_one(
            &mut self.waiting,
            waiting_there(&self.rows, self.earlier, index),
        );
        forget(&mut self.live, index);
        set_status(&mut self.rows, index, ReleaseStatus::Ended);
    }

    /// Whether some release is under way.
    pub fn has_started(&self) -> bool
        ensures { (code : Listing) (s : State) → result ≡ has_started (with_releases code s self.now) }
    {
        any_started(&self.rows, &self.live)
    }

    /// The place of the most urgent release, where the mission has these handlers.
    pub fn chosen(&self, registry: &[HandlerRow]) -> Option<usize>
        ensures { (code : Listing) (s : State) →
            result ≡ chosen (with_registry (with_releases code s self.now) registry.now) }
    {
        choose(registry, &self.rows, &self.live)
    }
}
