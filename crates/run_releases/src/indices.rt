//! Releases by their places. Where there is none, nothing is done, and nothing is true of it.

ghost use Rattle.std.specs.Prelude.{◌≡◌, ◌++◌, ◌∷◌, ◌==◌, [], ℕ, List, OnOk, OnErr, filter, length, not, option_copied, slice_get};
ghost use Rattle.std.specs.List.{flat_map, fold, list_any};
ghost use Rattle.scj_model.specs.State.{changed};
ghost use Rattle.job_frames.specs.Frames.{empty_activity};
ghost use Rattle.run_releases.specs.declared.rows.Release.{Release as StoredRelease};
ghost use Rattle.run_releases.specs.Rows.{dropped_row, emptied_row, with_status};
ghost use Rattle.run_releases.specs.Releases.{activity_in};
ghost use Rattle.run_releases.specs.Counts.{is_live_at, is_under_way_at, report_at, report_row, waiting_handler};

use crate::rows::{Release, ReleaseStatus};
use job_frames::Activity;
use scj_base::Memory;
use scj_model::Event;

/// The release at a place.
fn row_there(rows: &[Release], index: usize) -> Option<&Release>
    ensures { option_copied result ≡ slice_get rows.now index }
{
    rows.get(index)
}

/// Whether the release waits or is under way.
pub(crate) fn is_live_there(rows: &[Release], index: usize) -> bool
    ensures { result ≡ is_live_at rows.now index }
{
    match rows.get(index) {
        Some(release) => release.is_live(),
        None => false,
    }
}

/// Whether the release is under way.
fn is_started_there(rows: &[Release], index: usize) -> bool
    ensures { result ≡ is_under_way_at rows.now index }
{
    match rows.get(index) {
        Some(release) => release.is_started(),
        None => false,
    }
}

/// Whether one of these releases is under way.
pub(crate) fn any_started(rows: &[Release], indices: &[usize]) -> bool
    ensures { result ≡ list_any (is_under_way_at rows.now) indices.now }
{
    for index in indices {
        if is_started_there(rows, *index) {
            return true;
        }
    }
    false
}

/// The handler for which the release waits, if it isn't one of the first so many.
pub(crate) fn waiting_there(rows: &[Release], earlier: usize, index: usize) -> Option<u8>
    ensures { result ≡ waiting_handler rows.now earlier index }
{
    if index < earlier {
        return None;
    }
    match rows.get(index) {
        Some(release) => if release.is_waiting() {
            Some(release.handler)
        } else {
            None
        },
        None => None,
    }
}

/// Puts a release that waits last, and its place behind the live ones.
pub(crate) fn push_release(
    rows: &mut Vec<Release>,
    live: &mut Vec<usize>,
    release: Release,
) -> Result<(), Memory>
    ensures rows { OnOk result (rows.new.items ≡ rows.old.items ++ release ∷ []) }
    ensures live { OnOk result (live.new.items ≡ live.old.items ++ length rows.old.items ∷ []) }
    ensures rows_err { OnErr result (rows.new.items ≡ rows.old.items) }
    ensures live_err { OnErr result (live.new.items ≡ live.old.items) }
{
    let count = live.len();
    live.push(rows.len())?;
    if rows.push(release).is_err() {
        live.truncate(count);
        return Err(Memory);
    }
    Ok(())
}

/// Gives the release another status.
pub(crate) fn set_status(rows: &mut Vec<Release>, index: usize, status: ReleaseStatus)
    ensures { rows.new.items ≡ changed (with_status status) index rows.old.items }
{
    if let Some(release) = rows.get_mut(index) {
        release.set_status(status);
    }
}

/// The activity of the release, if it is under way, which then has an empty one.
pub(crate) fn take_from(rows: &mut Vec<Release>, index: usize, empty: Activity) -> Option<Activity>
    requires { empty ≡ empty_activity }
    ensures taken { result ≡ activity_in rows.old.items index }
    ensures left { rows.new.items ≡ changed emptied_row index rows.old.items }
{
    match rows.get_mut(index) {
        Some(release) => release.take_activity(empty),
        None => None,
    }
}

/// Lets the release go if it waits.
fn drop_there(rows: &mut Vec<Release>, index: usize)
    ensures { rows.new.items ≡ changed dropped_row index rows.old.items }
{
    if let Some(release) = rows.get_mut(index) {
        release.drop_waiting();
    }
}

/// Lets those of these releases go that wait.
pub(crate) fn drop_all(rows: &mut Vec<Release>, indices: &[usize])
    ensures { rows.new.items ≡ fold (λ (some : List StoredRelease) (index : ℕ). changed dropped_row index some)
        rows.old.items indices.now }
{
    for index in indices {
        drop_there(rows, *index);
    }
}

/// Tells that the release is let go, if it waits.
fn report_release(release: &Release, unit: u64, reported: &mut Vec<Event>) -> Result<(), Memory>
    ensures { OnOk result (reported.new.items ≡ reported.old.items ++ report_row unit release.now) }
{
    if release.is_waiting() {
        reported.push(Event::Drop {
            unit,
            handler: release.handler,
            number: release.number,
        })?;
    }
    Ok(())
}

/// The same of the release at a place.
fn report_there(
    rows: &[Release],
    index: usize,
    unit: u64,
    reported: &mut Vec<Event>,
) -> Result<(), Memory>
    ensures { OnOk result (reported.new.items ≡ reported.old.items ++ report_at rows.now unit index) }
{
    match row_there(rows, index) {
        Some(release) => report_release(release, unit, reported),
        None => Ok(()),
    }
}

/// Tells of those of these releases that wait that they are let go.
pub(crate) fn report_all(
    rows: &[Release],
    indices: &[usize],
    unit: u64,
    reported: &mut Vec<Event>,
) -> Result<(), Memory>
    ensures { OnOk result (reported.new.items ≡ reported.old.items ++ flat_map (report_at rows.now unit) indices.now) }
{
    for index in indices {
        report_there(rows, *index, unit, reported)?;
    }
    Ok(())
}

/// Keeps the places of live releases.
pub(crate) fn keep_live(rows: &[Release], indices: &mut Vec<usize>)
    ensures { indices.new.items ≡ filter (is_live_at rows.now) indices.old.items }
{
    indices.retain(|index| is_live_there(rows, *index));
}

/// Takes a place away.
pub(crate) fn forget(indices: &mut Vec<usize>, index: usize)
    ensures { indices.new.items ≡ filter (λ other. not (other == index)) indices.old.items }
{
    indices.retain(|other| *other != index);
}
