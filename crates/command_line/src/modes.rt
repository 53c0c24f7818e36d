//! The rules of the modes.

ghost use Rattle.std.specs.Prelude.{◌≡◌, IfOk, map, string_bytes};
ghost use Rattle.command_line.specs.Answers.{AnswersJob, KeepsLimits, texts_of};
ghost use Rattle.command_line.specs.Job.{areas_job, audit_job, bounds_job, check_job, confirm_job, faults_job, gen_job, job_by_mode, migrate_job, respond_job, run_job, show_job};

use crate::given::{
    Given, only_source, plan_alone, plan_and_sources, plan_in, size_alone, sources_alone,
};
use crate::jobs::{Job, WordsError};
use std::alloc::{AllocError, Global};

/// The job of the mode.
#[tactic(auto, unfolding(crate::specs::Job::job_by_mode))]
pub(crate) fn job_by_mode(alloc: Global, given: &Given<'_, '_>) -> Result<Job, WordsError>
    ensures job { AnswersJob (job_by_mode (texts_of given.now)) result }
    ensures limits { IfOk result KeepsLimits }
{
    match given.mode {
        "check" => check_job(alloc, given),
        "run" => run_job(alloc, given),
        "areas" => areas_job(alloc, given),
        "show" => show_job(alloc, given),
        "gen" => gen_job(given),
        "respond" => respond_job(alloc, given),
        "confirm" => confirm_job(alloc, given),
        "faults" => faults_job(alloc, given),
        "audit" => audit_job(alloc, given),
        "migrate" => migrate_job(alloc, given),
        "bounds" => bounds_job(alloc, given),
        _ => Err(WordsError::Usage),
    }
}

/// `check`: sources alone.
#[tactic(auto, unfolding(crate::specs::Job::check_job))]
fn check_job(alloc: Global, given: &Given<'_, '_>) -> Result<Job, WordsError>
    ensures job { AnswersJob (check_job (texts_of given.now)) result }
    ensures limits { IfOk result KeepsLimits }
{
    let Some(sources) = sources_alone(given) else {
        return Err(WordsError::Usage);
    };
    let sources = to_strings(alloc, sources)?;
    Ok(Job::Check { sources })
}

/// `run`: a plan and sources.
#[tactic(auto, unfolding(crate::specs::Job::run_job))]
fn run_job(alloc: Global, given: &Given<'_, '_>) -> Result<Job, WordsError>
    ensures job { AnswersJob (run_job (texts_of given.now)) result }
    ensures limits { IfOk result KeepsLimits }
{
    let Some((plan, sources)) = plan_and_sources(given) else {
        return Err(WordsError::Usage);
    };
    let plan = String::from_str(alloc, plan)?;
    let sources = to_strings(alloc, sources)?;
    Ok(Job::Run { plan, sources })
}

/// `areas`: a plan and sources.
#[tactic(auto, unfolding(crate::specs::Job::areas_job))]
fn areas_job(alloc: Global, given: &Given<'_, '_>) -> Result<Job, WordsError>
    ensures job { AnswersJob (areas_job (texts_of given.now)) result }
    ensures limits { IfOk result KeepsLimits }
{
    let Some((plan, sources)) = plan_and_sources(given) else {
        return Err(WordsError::Usage);
    };
    let plan = String::from_str(alloc, plan)?;
    let sources = to_strings(alloc, sources)?;
    Ok(Job::Areas { plan, sources })
}

/// `show`: sources alone.
#[tactic(auto, unfolding(crate::specs::Job::show_job))]
fn show_job(alloc: Global, given: &Given<'_, '_>) -> Result<Job, WordsError>
    ensures job { AnswersJob (show_job (texts_of given.now)) result }
    ensures limits { IfOk result KeepsLimits }
{
    let Some(sources) = sources_alone(given) else {
        return Err(WordsError::Usage);
    };
    let sources = to_strings(alloc, sources)?;
    Ok(Job::Show { sources })
}

/// `gen`: a size alone.
#[tactic(auto, unfolding(crate::specs::Job::gen_job))]
fn gen_job(given: &Given<'_, '_>) -> Result<Job, WordsError>
    ensures job { AnswersJob (gen_job (texts_of given.now)) result }
    ensures limits { IfOk result KeepsLimits }
{
    match size_alone(given) {
        Some(size) => Ok(Job::Gen { size }),
        None => Err(WordsError::Usage),
    }
}

/// `respond`: a plan alone.
#[tactic(auto, unfolding(crate::specs::Job::respond_job))]
fn respond_job(alloc: Global, given: &Given<'_, '_>) -> Result<Job, WordsError>
    ensures job { AnswersJob (respond_job (texts_of given.now)) result }
    ensures limits { IfOk result KeepsLimits }
{
    let Some(plan) = plan_alone(given) else {
        return Err(WordsError::Usage);
    };
    let plan = String::from_str(alloc, plan)?;
    Ok(Job::Respond { plan })
}

/// `confirm`: a plan alone.
#[tactic(auto, unfolding(crate::specs::Job::confirm_job))]
fn confirm_job(alloc: Global, given: &Given<'_, '_>) -> Result<Job, WordsError>
    ensures job { AnswersJob (confirm_job (texts_of given.now)) result }
    ensures limits { IfOk result KeepsLimits }
{
    let Some(plan) = plan_alone(given) else {
        return Err(WordsError::Usage);
    };
    let plan = String::from_str(alloc, plan)?;
    Ok(Job::Confirm { plan })
}

/// `faults`: sources alone.
#[tactic(auto, unfolding(crate::specs::Job::faults_job))]
fn faults_job(alloc: Global, given: &Given<'_, '_>) -> Result<Job, WordsError>
    ensures job { AnswersJob (faults_job (texts_of given.now)) result }
    ensures limits { IfOk result KeepsLimits }
{
    let Some(sources) = sources_alone(given) else {
        return Err(WordsError::Usage);
    };
    let sources = to_strings(alloc, sources)?;
    Ok(Job::Faults { sources })
}

/// `audit`: a plan and one source.
#[tactic(auto, unfolding(crate::specs::Job::audit_job))]
fn audit_job(alloc: Global, given: &Given<'_, '_>) -> Result<Job, WordsError>
    ensures job { AnswersJob (audit_job (texts_of given.now)) result }
    ensures limits { IfOk result KeepsLimits }
{
    if given.size.is_some() {
        return Err(WordsError::Usage);
    }
    let Some(plan) = plan_in(given) else {
        return Err(WordsError::Usage);
    };
    let Some(trace) = only_source(given) else {
        return Err(WordsError::Usage);
    };
    let plan = String::from_str(alloc, plan)?;
    let trace = String::from_str(alloc, trace)?;
    Ok(Job::Audit { plan, trace })
}

/// `migrate`: a plan alone.
#[tactic(auto, unfolding(crate::specs::Job::migrate_job))]
fn migrate_job(alloc: Global, given: &Given<'_, '_>) -> Result<Job, WordsError>
    ensures job { AnswersJob (migrate_job (texts_of given.now)) result }
    ensures limits { IfOk result KeepsLimits }
{
    let Some(plan) = plan_alone(given) else {
        return Err(WordsError::Usage);
    };
    let plan = String::from_str(alloc, plan)?;
    Ok(Job::Migrate { plan })
}

/// `bounds`: sources alone.
#[tactic(auto, unfolding(crate::specs::Job::bounds_job))]
fn bounds_job(alloc: Global, given: &Given<'_, '_>) -> Result<Job, WordsError>
    ensures job { AnswersJob (bounds_job (texts_of given.now)) result }
    ensures limits { IfOk result KeepsLimits }
{
    let Some(sources) = sources_alone(given) else {
        return Err(WordsError::Usage);
    };
    let sources = to_strings(alloc, sources)?;
    Ok(Job::Bounds { sources })
}

/// The texts, each as a text of its own.
fn to_strings(alloc: Global, texts: &[&str]) -> Result<Vec<String>, AllocError>
    ensures { IfOk result (λ v. map string_bytes v.items ≡ map (λ s. s.now) texts.now) }
{
    let mut strings = Vec::new(alloc);
    for text in texts {
        strings.push(String::from_str(alloc, text)?)?;
    }
    Ok(strings)
}
