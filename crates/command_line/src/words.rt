//! The words of a call, read.

ghost use Rattle.std.specs.Prelude.{◌≡◌, IfOk, map, string_bytes};
ghost use Rattle.clap.specs.Words.{found_of, rows_of};
ghost use Rattle.command_line.specs.Answers.{AnswersJob, KeepsLimits};
ghost use Rattle.command_line.specs.Job.{job_in, job_of};

use crate::arguments::matches_in;
use crate::given::given_by;
use crate::jobs::{Job, WordsError};
use crate::modes::job_by_mode;
use clap::ArgMatches;
use std::alloc::Global;

/// What the words after the program's name ask for.
///
/// # Errors
///
/// `Usage` where the command refuses the words, or what they hold breaks a rule of the mode. `Memory`
/// may come at any words.
#[tactic(auto, unfolding(crate::specs::Job::job_of))]
pub fn read_words(alloc: Global, words: &[String]) -> Result<Job, WordsError>
    ensures job { AnswersJob (job_of (map string_bytes words.now)) result }
    ensures limits { IfOk result KeepsLimits }
{
    let matches = matches_in(alloc, words)?;
    job_in(alloc, &matches)
}

/// The job that the matches ask for.
#[tactic(auto, unfolding(crate::specs::Job::job_in))]
fn job_in(alloc: Global, matches: &ArgMatches<'_>) -> Result<Job, WordsError>
    ensures job { AnswersJob (job_in (rows_of (found_of matches.now))) result }
    ensures limits { IfOk result KeepsLimits }
{
    match given_by(matches) {
        Some(given) => job_by_mode(alloc, &given),
        None => Err(WordsError::Usage),
    }
}
