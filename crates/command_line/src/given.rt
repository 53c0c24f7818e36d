//! What the command found in the words, and what of it serves a mode.

ghost use Rattle.std.specs.Prelude.{◌≡◌, IfSome, codes, map, option_map};
ghost use Rattle.std.specs.Bool.{OnTrue};
ghost use Rattle.std.specs.List.{list_all};
ghost use Rattle.clap.specs.Words.{all_of, first_of, found_of, rows_of};
ghost use Rattle.command_line.specs.Answers.{IsFew, texts_of};
ghost use Rattle.command_line.specs.Sizes.{IsSize};
ghost use Rattle.command_line.specs.Job.{are_sources, given_in, is_file_name, is_printable, only_name, only_source, plan_alone, plan_and_sources, plan_in, size_alone, sources_alone, sources_in};

use crate::sizes::size_of;
use clap::ArgMatches;

/// What the command found in the words.
#[derive(Clone, Copy)]
pub(crate) struct Given<'m, 'w> {
    /// MODE.
    pub(crate) mode: &'w str,
    /// FILE of `--plan`.
    pub(crate) plan: Option<&'w str>,
    /// N of `--size`.
    pub(crate) size: Option<&'w str>,
    /// Each SOURCE.
    pub(crate) sources: Option<&'m [&'w str]>,
}

/// What the matches hold; matches without MODE are none.
#[tactic(auto, unfolding(crate::specs::Job::given_in))]
pub(crate) fn given_by<'m, 'w>(matches: &'m ArgMatches<'w>) -> Option<Given<'m, 'w>>
    ensures { option_map texts_of result ≡ given_in (rows_of (found_of matches.now)) }
{
    let mode = text_in(matches, "mode")?;
    Some(Given {
        mode,
        plan: text_in(matches, "plan"),
        size: text_in(matches, "size"),
        sources: all_sources(matches),
    })
}

/// The first value of an argument.
#[tactic(auto, using(crate::proofs::MatchLemmas::first_text))]
fn text_in<'w>(matches: &ArgMatches<'w>, id: &str) -> Option<&'w str>
    ensures { option_map (λ s. s.now) result ≡ first_of id.now (rows_of (found_of matches.now)) }
{
    matches.get_str(id)
}

/// Each SOURCE.
#[tactic(auto, using(crate::proofs::MatchLemmas::all_texts))]
fn all_sources<'m, 'w>(matches: &'m ArgMatches<'w>) -> Option<&'m [&'w str]>
    ensures { option_map (λ names. map (λ s. s.now) names.now) result ≡ all_of (codes "source")
        (rows_of (found_of matches.now)) }
{
    matches.get_strs("source")
}

/// The sources, where they are the names of 1 to 16 files and no option stands beside them.
#[tactic(auto, unfolding(crate::specs::Job::sources_alone))]
pub(crate) fn sources_alone<'m, 'w>(given: &Given<'m, 'w>) -> Option<&'m [&'w str]>
    ensures alone { option_map (λ names. map (λ s. s.now) names.now) result ≡ sources_alone (texts_of given.now) }
    ensures few { IfSome result (λ names. IsFew names.now) }
{
    if given.plan.is_some() || given.size.is_some() {
        return None;
    }
    sources_in(given)
}

/// The source, where it is the name of one file.
#[tactic(auto, unfolding(crate::specs::Job::only_source, crate::specs::Job::only_name))]
pub(crate) fn only_source<'w>(given: &Given<'_, 'w>) -> Option<&'w str>
    ensures { option_map (λ name. name.now) result ≡ only_source (texts_of given.now) }
{
    match sources_in(given)? {
        [name] => Some(name),
        _ => None,
    }
}

/// The plan and the sources, where they are the names of files and no size stands beside them.
#[tactic(auto, unfolding(crate::specs::Job::plan_and_sources))]
pub(crate) fn plan_and_sources<'m, 'w>(given: &Given<'m, 'w>) -> Option<(&'w str, &'m [&'w str])>
    ensures both { option_map (λ both. (both.0.now, map (λ s. s.now) both.1.now)) result
        ≡ plan_and_sources (texts_of given.now) }
    ensures few { IfSome result (λ both. IsFew both.1.now) }
{
    if given.size.is_some() {
        return None;
    }
    let plan = plan_in(given)?;
    let sources = sources_in(given)?;
    Some((plan, sources))
}

/// The plan, where it is the name of a file and neither a size nor a source stands beside it.
#[tactic(auto, unfolding(crate::specs::Job::plan_alone))]
pub(crate) fn plan_alone<'w>(given: &Given<'_, 'w>) -> Option<&'w str>
    ensures { option_map (λ name. name.now) result ≡ plan_alone (texts_of given.now) }
{
    if given.size.is_some() || given.sources.is_some() {
        return None;
    }
    plan_in(given)
}

/// The size, where it is one and neither a plan nor a source stands beside it.
#[tactic(auto, unfolding(crate::specs::Job::size_alone))]
pub(crate) fn size_alone(given: &Given<'_, '_>) -> Option<u32>
    ensures alone { result ≡ size_alone (texts_of given.now) }
    ensures size { IfSome result IsSize }
{
    if given.plan.is_some() || given.sources.is_some() {
        return None;
    }
    let size = given.size?;
    size_of(size.as_bytes())
}

/// The plan, where it is the name of a file.
#[tactic(auto, unfolding(crate::specs::Job::plan_in))]
pub(crate) fn plan_in<'w>(given: &Given<'_, 'w>) -> Option<&'w str>
    ensures { option_map (λ name. name.now) result ≡ plan_in (texts_of given.now) }
{
    let name = given.plan?;
    if is_file_name(name) { Some(name) } else { None }
}

/// The sources, where they are the names of 1 to 16 files.
#[tactic(auto, unfolding(crate::specs::Job::sources_in))]
pub(crate) fn sources_in<'m, 'w>(given: &Given<'m, 'w>) -> Option<&'m [&'w str]>
    ensures value { option_map (λ names. map (λ s. s.now) names.now) result ≡ sources_in (texts_of given.now) }
    ensures few { IfSome result (λ names. IsFew names.now) }
{
    let names = given.sources?;
    if are_sources(names) {
        Some(names)
    } else {
        None
    }
}

/// Whether these are the names of 1 to 16 files.
#[tactic(auto, unfolding(crate::specs::Job::are_sources))]
fn are_sources(names: &[&str]) -> bool
    ensures names { result ≡ are_sources (map (λ s. s.now) names.now) }
    ensures few { OnTrue result (IsFew names.now) }
{
    !names.is_empty() && names.len() <= 16 && are_file_names(names)
}

fn are_file_names(names: &[&str]) -> bool
    ensures { result ≡ list_all is_file_name (map (λ s. s.now) names.now) }
{
    names.iter().all(|name| is_file_name(name))
}

/// Whether the text is the name of a file: not empty, and of no control byte.
#[tactic(auto, unfolding(crate::specs::Job::is_file_name))]
fn is_file_name(name: &str) -> bool
    ensures { result ≡ is_file_name name.now }
{
    !name.is_empty() && is_printable(name.as_bytes())
}

fn is_printable(bytes: &[u8]) -> bool
    ensures { result ≡ list_all is_printable bytes.now }
{
    bytes.iter().all(|byte| *byte >= 32 && *byte != 127)
}
