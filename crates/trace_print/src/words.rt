//! What stands behind the unit of a line, form by form. Each form puts its words behind at most 20 digits, into a line
//! that has room for 256 bytes besides a text of the program or the name of a file, and leaves room for a line feed.

ghost use Rattle.std.specs.Prelude.{◌≡◌, ◌+◌, ◌<◌, ◌≤◌, ◌++◌, length, codes, decimal, vec_len, vec_capacity};
ghost use Rattle.std.specs.Fmt.{signed_decimal};
ghost use Rattle.scj_base.specs.RunFault.{text_of};
ghost use Rattle.scj_model.specs.TraceText.{label, file_name, number, words_of};
ghost use Rattle.trace_print.specs.Room.{room_for, StandsInFile};

use crate::labels::{label_at, name_at};
use crate::pieces::{put_bytes, put_decimal, put_number, put_signed};
use scj_base::{Files, Name, RunFault};
use scj_model::Event;
use scj_tree::Program;

/// A word and a name.
fn put_named(line: &mut Vec<u8>, word: &[u8], name: Name)
    requires begun { vec_len line.old ≤ 20 }
    requires word { length word.now ≤ 10 }
    requires room { 256 ≤ vec_capacity line.old }
    ensures text { line.new.items ≡ line.old.items ++ (word.now ++ name) }
    ensures len { vec_len line.new < 256 }
    ensures room { vec_capacity line.old ≤ vec_capacity line.new }
{
    put_bytes(line, word);
    put_bytes(line, name.bytes());
}

/// A word and a number.
fn put_one(line: &mut Vec<u8>, word: &[u8], n: u64)
    requires begun { vec_len line.old ≤ 20 }
    requires word { length word.now ≤ 10 }
    requires room { 256 ≤ vec_capacity line.old }
    ensures text { line.new.items ≡ line.old.items ++ (word.now ++ number n) }
    ensures len { vec_len line.new < 256 }
    ensures room { vec_capacity line.old ≤ vec_capacity line.new }
{
    put_bytes(line, word);
    put_number(line, n);
}

/// A word and two numbers.
fn put_two(line: &mut Vec<u8>, word: &[u8], first: u64, second: u64)
    requires begun { vec_len line.old ≤ 20 }
    requires word { length word.now ≤ 10 }
    requires room { 256 ≤ vec_capacity line.old }
    ensures text { line.new.items ≡ line.old.items ++ (word.now ++ (number first ++ number second)) }
    ensures len { vec_len line.new < 256 }
    ensures room { vec_capacity line.old ≤ vec_capacity line.new }
{
    put_bytes(line, word);
    put_number(line, first);
    put_number(line, second);
}

/// A registration: the handler's number, class and priority.
fn put_register(line: &mut Vec<u8>, handler: u8, class: Name, priority: u8)
    requires begun { vec_len line.old ≤ 20 }
    requires room { 256 ≤ vec_capacity line.old }
    ensures text { line.new.items ≡ line.old.items
        ++ (codes " register" ++ (number handler ++ (codes " " ++ (class ++ number priority)))) }
    ensures len { vec_len line.new < 256 }
    ensures room { vec_capacity line.old ≤ vec_capacity line.new }
{
    put_bytes(line, b" register");
    put_number(line, handler as u64);
    put_bytes(line, b" ");
    put_bytes(line, class.bytes());
    put_number(line, priority as u64);
}

/// What a program prints: a text and a value.
fn put_print(line: &mut Vec<u8>, text: &[u8], value: i32)
    requires begun { vec_len line.old ≤ 20 }
    requires room { 256 + length text.now ≤ vec_capacity line.old }
    ensures text { line.new.items ≡ line.old.items
        ++ (codes " print " ++ (text.now ++ (codes " " ++ signed_decimal value))) }
    ensures len { vec_len line.new < 256 + length text.now }
    ensures room { vec_capacity line.old ≤ vec_capacity line.new }
{
    put_bytes(line, b" print ");
    put_bytes(line, text);
    put_bytes(line, b" ");
    put_signed(line, value);
}

/// The bytes of a fault's name.
#[tactic(auto, using(crate::proofs::Lengths::text_of_is_short))]
fn fault_name(fault: RunFault) -> &'static [u8]
    ensures value { result.now ≡ text_of fault }
    ensures short { length result.now ≤ 16 }
{
    fault.text().as_bytes()
}

/// A fault: its name, and the file and the line of its place.
fn put_fault(line: &mut Vec<u8>, fault: RunFault, file: &[u8], row: u32)
    requires begun { vec_len line.old ≤ 20 }
    requires room { 256 + length file.now ≤ vec_capacity line.old }
    ensures text { line.new.items ≡ line.old.items
        ++ (codes " fault " ++ (text_of fault ++ (codes " " ++ (file.now ++ (codes ":" ++ decimal row))))) }
    ensures len { vec_len line.new < 256 + length file.now }
    ensures room { vec_capacity line.old ≤ vec_capacity line.new }
{
    put_bytes(line, b" fault ");
    put_bytes(line, fault_name(fault));
    put_bytes(line, b" ");
    put_bytes(line, file);
    put_bytes(line, b":");
    put_decimal(line, row as u64);
}

/// What stands behind the unit in the line of an event.
#[tactic(auto, using(crate::proofs::Lengths::room_of_label, crate::proofs::Lengths::room_of_name, crate::proofs::Lengths::room_of_words), unfolding(scj_model::specs::TraceText::words_of))]
pub fn put_words(line: &mut Vec<u8>, program: &Program, files: &Files, event: &Event)
    requires begun { vec_len line.old ≤ 20 }
    requires room { room_for program.now.nodes files.now ≤ vec_capacity line.old }
    requires place { StandsInFile files.now event.now }
    ensures text { line.new.items ≡ line.old.items ++ words_of program.now.nodes files.now event.now }
    ensures len { vec_len line.new < room_for program.now.nodes files.now }
    ensures room { vec_capacity line.old ≤ vec_capacity line.new }
{
    match event {
        Event::Mission { class, .. } => put_named(line, b" mission ", *class),
        Event::Register {
            handler,
            class,
            priority,
            ..
        } => put_register(line, *handler, *class, *priority),
        Event::Exec { .. } => put_bytes(line, b" exec"),
        Event::Arrive {
            handler,
            number,
            ..
        } => put_two(line, b" arrive", *handler as u64, *number),
        Event::Lost { handler, .. } => put_one(line, b" lost", *handler as u64),
        Event::Miss { name, .. } => put_named(line, b" miss ", *name),
        Event::Run {
            handler,
            number,
            ..
        } => put_two(line, b" run", *handler as u64, *number),
        Event::Idle { .. } => put_bytes(line, b" idle"),
        Event::Prio {
            handler,
            priority,
            ..
        } => put_two(line, b" prio", *handler as u64, *priority as u64),
        Event::Print { label, value, .. } => put_print(line, label_at(program, *label), *value),
        Event::Fault {
            fault,
            position,
            ..
        } => put_fault(line, *fault, name_at(files, position.file), position.line),
        Event::End {
            handler,
            number,
            ..
        } => put_two(line, b" end", *handler as u64, *number),
        Event::Terminate { .. } => put_bytes(line, b" terminate"),
        Event::Drop {
            handler,
            number,
            ..
        } => put_two(line, b" drop", *handler as u64, *number),
        Event::Cleanup { .. } => put_bytes(line, b" cleanup"),
        Event::Done { .. } => put_bytes(line, b" done"),
        Event::Halted { .. } => put_bytes(line, b" halted"),
        Event::Stopped { .. } => put_bytes(line, b" stopped"),
    }
}
