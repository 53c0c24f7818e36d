//! The summary of the run of a generated program.

ghost use Rattle.std.specs.Prelude.{◌≡◌, ◌≤◌, length, IfOk};
ghost use Rattle.scj_cli.specs.Summaries.{behind_digits, begins_with_print, print_count, last_line, summary_text};

use scj_base::Memory;
use std::alloc::Global;

/// The summary of the trace with this text, of the generated program of this size.
#[tactic(auto, unfolding(crate::specs::Summaries::summary_text))]
pub fn summary(alloc: Global, size: u32, trace: &[u8]) -> Result<Vec<u8>, Memory>
    ensures { IfOk result (λ text. text.items ≡ summary_text size trace.now) }
{
    let prints = print_count(trace);
    let head = format!(in alloc; "gen {size}\nprints {prints}\n")?;
    let mut text = head.into_bytes();
    text.extend_from_slice(last_line(trace))?;
    Ok(text)
}

/// How many lines of a text are those of prints.
#[tactic(auto, unfolding(crate::specs::Summaries::prints_from))]
fn print_count(text: &[u8]) -> usize
    ensures value { result ≡ print_count text.now }
    ensures bound { result ≤ length text.now }
{
    let mut rest = text;
    let mut is_begin = true;
    let mut count: usize = 0;
    while let [b, others @ ..] = rest {
        if is_begin && begins_with_print(rest) {
            count += 1;
        }
        is_begin = *b == b'\n';
        rest = others;
    }
    count
}

/// Whether a text begins with the line of a print.
#[tactic(auto, unfolding(crate::specs::Summaries::begins_with_print))]
fn begins_with_print(text: &[u8]) -> bool
    ensures { result ≡ begins_with_print text.now }
{
    behind_digits(text).starts_with(b" print ")
}

/// What stands behind the digits with which a text begins.
#[tactic(auto, unfolding(crate::specs::Summaries::behind_digits, scj_base::specs::Lexeme::is_digit))]
fn behind_digits(text: &[u8]) -> &[u8]
    ensures { result.now ≡ behind_digits text.now }
{
    let mut rest = text;
    while let [b, others @ ..] = rest {
        if !b.is_ascii_digit() {
            return rest;
        }
        rest = others;
    }
    rest
}

/// The last line of a text, with its end.
#[tactic(auto, unfolding(crate::specs::Summaries::last_line_from))]
fn last_line(text: &[u8]) -> &[u8]
    ensures { result.now ≡ last_line text.now }
{
    let mut line = text;
    let mut rest = text;
    while let [b, others @ ..] = rest {
        if *b == b'\n' && !others.is_empty() {
            line = others;
        }
        rest = others;
    }
    line
}
