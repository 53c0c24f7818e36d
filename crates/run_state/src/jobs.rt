//! The activity of a job is taken out of the state while the job acts, and is put back at the end.

ghost use Rattle.std.specs.Prelude.{◌≡◌, IfNone, OnOk, OnErr, OnSome, option_map};
ghost use Rattle.op_list.specs.Listed.{Listing};
ghost use Rattle.scj_model.specs.State.{activity_of, with_activity};
ghost use Rattle.scj_model.specs.Run.{no_activity};
ghost use Rattle.job_frames.specs.Frames.{activity_seen};
ghost use Rattle.run_state.specs.Seen.{job_seen, state_of};

use crate::states::{Job, RunState};
use job_frames::Activity;
use scj_base::Memory;
use std::alloc::Global;
use std::mem;

/// Takes the activity of a job out of the state, if it is under way. An empty one stays there.
pub fn take_out(alloc: Global, state: &mut RunState, job: Job) -> Option<Activity>
    ensures taken { (code : Listing) → option_map (activity_seen code) result ≡ activity_of (state_of code state.old)
        (job_seen job) }
    ensures left { (code : Listing) →
        OnSome result (state_of code state.new ≡ with_activity (state_of code state.old) (job_seen job) no_activity) }
    ensures missing { IfNone result (state.new ≡ state.old) }
{
    match job {
        Job::Sequencer => Some(mem::replace(&mut state.activity, Activity::empty(alloc))),
        Job::Release(index) => state.releases.take_activity(index, alloc),
    }
}

/// Gives a job its activity.
#[tactic(auto, unfolding(crate::specs::Seen::state_of, scj_model::specs::State::with_activity))]
pub fn put_back(state: &mut RunState, job: Job, activity: Activity) -> Result<(), Memory>
    ensures put { (code : Listing) →
        OnOk result
        (state_of code state.new ≡ with_activity (state_of code state.old) (job_seen job)
        (activity_seen code activity)) }
    ensures err { OnErr result (state.new ≡ state.old) }
{
    match job {
        Job::Sequencer => {
            state.activity = activity;
            Ok(())
        }
        Job::Release(index) => {
            state.releases.put_activity(index, activity)?;
            Ok(())
        }
    }
}
