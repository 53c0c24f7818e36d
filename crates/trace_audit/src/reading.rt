//! Lines of a trace, read.

ghost use Rattle.std.specs.Prelude.{◌≡◌};
ghost use Rattle.std.specs.Str.{bytes_eq};
ghost use Rattle.trace_audit.specs.Lines.{entry_of as entry_written, line_of as line_written, long_entry_of as long_entry, release_entry_of as release_entry, short_entry_of as short_entry};

use crate::forms::{
    fault_of, lost_of, miss_of, mission_of, print_of, prio_of, register_of, release_of,
};
use crate::lines::{Entry, Line};
use crate::parts::{len_before, number_of, parted};

/// Whether two rows of bytes are the same.
fn is_same(word: &[u8], other: &[u8]) -> bool
    ensures { result ≡ bytes_eq word.now other.now }
{
    word == other
}

/// The entry of a word that stands alone.
#[tactic(auto, unfolding(crate::specs::Lines::short_entry_of))]
fn short_entry_of(word: &[u8]) -> Option<Entry>
    ensures { result ≡ short_entry word.now }
{
    if is_same(word, b"exec") {
        return Some(Entry::Exec);
    }
    if is_same(word, b"idle") {
        return Some(Entry::Idle);
    }
    if is_same(word, b"terminate") {
        return Some(Entry::Terminate);
    }
    if is_same(word, b"cleanup") {
        return Some(Entry::Cleanup);
    }
    if is_same(word, b"done") {
        return Some(Entry::Done);
    }
    if is_same(word, b"halted") {
        return Some(Entry::Halted);
    }
    if is_same(word, b"stopped") {
        return Some(Entry::Stopped);
    }
    None
}

/// The entry of a word that names a release by its arguments.
#[tactic(auto, unfolding(crate::specs::Lines::release_entry_of))]
fn release_entry_of(word: &[u8], arguments: &[u8]) -> Option<Entry>
    ensures { result ≡ release_entry word.now arguments.now }
{
    let (handler, number) = release_of(arguments)?;
    if is_same(word, b"arrive") {
        return Some(Entry::Arrive { handler, number });
    }
    if is_same(word, b"run") {
        return Some(Entry::Run { handler, number });
    }
    if is_same(word, b"end") {
        return Some(Entry::End { handler, number });
    }
    if is_same(word, b"drop") {
        return Some(Entry::Drop { handler, number });
    }
    None
}

/// The entry of a word and its arguments.
#[tactic(auto, unfolding(crate::specs::Lines::long_entry_of))]
fn long_entry_of(word: &[u8], arguments: &[u8]) -> Option<Entry>
    ensures { result ≡ long_entry word.now arguments.now }
{
    if is_same(word, b"mission") {
        return mission_of(arguments);
    }
    if is_same(word, b"register") {
        return register_of(arguments);
    }
    if is_same(word, b"lost") {
        return lost_of(arguments);
    }
    if is_same(word, b"miss") {
        return miss_of(arguments);
    }
    if is_same(word, b"prio") {
        return prio_of(arguments);
    }
    if is_same(word, b"print") {
        return print_of(arguments);
    }
    if is_same(word, b"fault") {
        return fault_of(arguments);
    }
    release_entry_of(word, arguments)
}

/// The entry of a word and of what stands behind it.
fn entry_of(word: &[u8], rest: &[u8]) -> Option<Entry>
    ensures { result ≡ entry_written word.now rest.now }
{
    match rest {
        [] => short_entry_of(word),
        [_, arguments @ ..] => long_entry_of(word, arguments),
    }
}

/// The line that the bytes are, if they are one.
#[tactic(auto, unfolding(crate::specs::Lines::line_of))]
pub fn line_of(bytes: &[u8]) -> Option<Line>
    ensures { result ≡ line_written bytes.now }
{
    let (unit, rest) = parted(b' ', bytes)?;
    let unit = number_of(unit)?;
    let (word, arguments) = rest.split_at(len_before(b' ', rest));
    let entry = entry_of(word, arguments)?;
    Some(Line { unit, entry })
}
