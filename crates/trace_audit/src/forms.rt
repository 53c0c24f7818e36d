//! What stands behind the word of a line: the arguments of each word.

ghost use Rattle.std.specs.Prelude.{◌≡◌};
ghost use Rattle.trace_audit.specs.Lines.{class_of, fault_of, is_position as position_written, lost_of, miss_of, mission_of, print_of, prio_of, register_of, release_of};
ghost use Rattle.trace_audit.specs.Parts.{handler_of, priority_of};

use crate::lines::Entry;
use crate::parts::{
    is_fault_name, is_file_name, is_text, is_value, number_of, number_within, parted,
    parted_at_last,
};
use declaration_steps::scope_names::is_name;
use scj_base::Name;

/// The number of a handler.
fn handler_of(bytes: &[u8]) -> Option<u8>
    ensures { result ≡ handler_of bytes.now }
{
    Some(number_within(1, 64, bytes)? as u8)
}

/// A priority.
fn priority_of(bytes: &[u8]) -> Option<u8>
    ensures { result ≡ priority_of bytes.now }
{
    Some(number_within(1, 28, bytes)? as u8)
}

/// A mission's class.
pub fn mission_of(bytes: &[u8]) -> Option<Entry>
    ensures { result ≡ mission_of bytes.now }
{
    if is_name(bytes) {
        Some(Entry::Mission)
    } else {
        None
    }
}

/// The class and the priority of a handler.
fn class_of(handler: u8, bytes: &[u8]) -> Option<Entry>
    ensures { result ≡ class_of handler bytes.now }
{
    let (class, priority) = parted(b' ', bytes)?;
    let priority = priority_of(priority)?;
    if !is_name(class) {
        return None;
    }
    Some(Entry::Register { handler, priority })
}

/// A handler's number, class and priority.
pub fn register_of(bytes: &[u8]) -> Option<Entry>
    ensures { result ≡ register_of bytes.now }
{
    let (handler, rest) = parted(b' ', bytes)?;
    class_of(handler_of(handler)?, rest)
}

/// A handler's number, and a release's.
pub fn release_of(bytes: &[u8]) -> Option<(u8, u64)>
    ensures { result ≡ release_of bytes.now }
{
    let (handler, number) = parted(b' ', bytes)?;
    let handler = handler_of(handler)?;
    Some((handler, number_of(number)?))
}

/// A handler's number.
pub fn lost_of(bytes: &[u8]) -> Option<Entry>
    ensures { result ≡ lost_of bytes.now }
{
    handler_of(bytes)?;
    Some(Entry::Lost)
}

/// A fire's handler, by name.
pub fn miss_of(bytes: &[u8]) -> Option<Entry>
    ensures { result ≡ miss_of bytes.now }
{
    if !is_name(bytes) {
        return None;
    }
    let name = Name::new(bytes);
    Some(Entry::Miss { name })
}

/// A handler's number, and a priority.
pub fn prio_of(bytes: &[u8]) -> Option<Entry>
    ensures { result ≡ prio_of bytes.now }
{
    let (handler, priority) = parted(b' ', bytes)?;
    let handler = handler_of(handler)?;
    let priority = priority_of(priority)?;
    Some(Entry::Prio { handler, priority })
}

/// A text and a value.
pub fn print_of(bytes: &[u8]) -> Option<Entry>
    ensures { result ≡ print_of bytes.now }
{
    let (label, value) = parted_at_last(b' ', bytes)?;
    if is_text(label) && is_value(value) {
        Some(Entry::Print)
    } else {
        None
    }
}

/// Whether the bytes name a file and a line of it.
fn is_position(bytes: &[u8]) -> bool
    ensures { result ≡ position_written bytes.now }
{
    let Some((file, line)) = parted_at_last(b':', bytes) else {
        return false;
    };
    is_file_name(file) && number_of(line).is_some_and(|n| 1 <= n)
}

/// A fault's name and place.
pub fn fault_of(bytes: &[u8]) -> Option<Entry>
    ensures { result ≡ fault_of bytes.now }
{
    let (name, position) = parted(b' ', bytes)?;
    if is_fault_name(name) && is_position(position) {
        Some(Entry::Fault)
    } else {
        None
    }
}
