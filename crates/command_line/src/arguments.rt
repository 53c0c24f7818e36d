//! The command that the words are read by, and what it finds in them.

ghost use Rattle.std.specs.Prelude.{◌≡◌, ◌↔◌, IfOk, OnOk, Err, [], false, map, string_bytes};
ghost use Rattle.clap.specs.Walk.{is_empty};
ghost use Rattle.clap.specs.Words.{app_of, fault_of, found_of, kind_of, matches_of, rows_of, rule_of};
ghost use Rattle.command_line.specs.Command.{bare_command, command, mode_rule, plan_rule, size_rule, source_rule};

use crate::jobs::WordsError;
use clap::error::ErrorKind;
use clap::{Arg, ArgAction, ArgMatches, Command, Error};
use std::alloc::{AllocError, Global};

/// MODE, the first word that is no option.
#[tactic(auto, unfolding(crate::specs::Command::mode_rule))]
fn mode_argument<'a>(alloc: Global) -> Arg<'a>
    ensures rule { rule_of result ≡ mode_rule }
    ensures local { result.global ≡ false }
{
    Arg::new(alloc, "mode").required(true)
}

/// `--plan FILE`.
#[tactic(auto, unfolding(crate::specs::Command::plan_rule))]
fn plan_argument<'a>(alloc: Global) -> Arg<'a>
    ensures rule { rule_of result ≡ plan_rule }
    ensures local { result.global ≡ false }
{
    Arg::new(alloc, "plan").long("plan")
}

/// `--size N`.
#[tactic(auto, unfolding(crate::specs::Command::size_rule))]
fn size_argument<'a>(alloc: Global) -> Arg<'a>
    ensures rule { rule_of result ≡ size_rule }
    ensures local { result.global ≡ false }
{
    Arg::new(alloc, "size").long("size")
}

/// SOURCE, each word that is left.
#[tactic(auto, unfolding(crate::specs::Command::source_rule))]
fn source_argument<'a>(alloc: Global) -> Arg<'a>
    ensures rule { rule_of result ≡ source_rule }
    ensures local { result.global ≡ false }
{
    Arg::new(alloc, "source").action(ArgAction::Append)
}

/// The command with no argument yet. Its words come without the name of the program.
#[tactic(auto, unfolding(crate::specs::Command::bare_command))]
fn bare_command<'a>(alloc: Global) -> Command<'a>
    ensures { app_of result ≡ bare_command }
{
    Command::new(alloc, "scj")
        .no_binary_name(true)
        .disable_help_flag(true)
        .disable_version_flag(true)
}

/// The command of the program.
#[tactic(auto, unfolding(crate::specs::Command::command))]
pub(crate) fn command<'a>(alloc: Global) -> Result<Command<'a>, AllocError>
    ensures { IfOk result (λ c. app_of c ≡ command) }
{
    bare_command(alloc)
        .arg(mode_argument(alloc))?
        .arg(plan_argument(alloc))?
        .arg(size_argument(alloc))?
        .arg(source_argument(alloc))
}

/// Why the command refuses words, by the error that it gives.
fn refusal(error: &Error) -> WordsError
    ensures { (result ≡ WordsError.Memory) ↔ (kind_of error.now ≡ ErrorKind.OutOfMemory) }
{
    if error.kind() == ErrorKind::OutOfMemory {
        WordsError::Memory
    } else {
        WordsError::Usage
    }
}

/// What the command finds in the words.
pub(crate) fn matches_in<'a>(
    alloc: Global,
    words: &'a [String],
) -> Result<ArgMatches<'a>, WordsError>
    ensures taken { OnOk result (fault_of command (map string_bytes words.now) ≡ []) }
    ensures rows { IfOk result (λ m. rows_of (found_of m) ≡ matches_of command (map string_bytes words.now)) }
    ensures usage { result ≡ Err WordsError.Usage → is_empty (fault_of command (map string_bytes words.now)) ≡ false }
{
    match command(alloc)?.try_get_matches_from(words) {
        Ok(matches) => Ok(matches),
        Err(error) => Err(refusal(&error)),
    }
}
