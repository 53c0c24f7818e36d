//! Lines, and putting an event as one.

ghost use Rattle.std.specs.Prelude.{◌≡◌, ◌<◌, ◌≤◌, [], length, IfOk, OnOk, OnErr, vec_len, vec_capacity};
ghost use Rattle.scj_io.specs.Puts.{sink_run, PutWhole, PutFront};
ghost use Rattle.scj_model.specs.TraceText.{unit_of as unit_of_event, line_of};
ghost use Rattle.trace_print.specs.Room.{room_for, StandsInFile};

use crate::labels::{name_room, text_room};
use crate::pieces::{put_bytes, put_decimal};
use crate::words::put_words;
use scj_base::{Failed, Files, Memory};
use scj_io::Sink;
use scj_model::Event;
use scj_rules::Checked;
use scj_tree::Program;
use std::alloc::Global;
use std::marker::Model;

/// The bytes of a line besides the longest text of the program and the longest name of a file: more than the digits,
/// words and names of any event.
const WORDS_ROOM: usize = 256;

/// A line of a trace, with the room that was taken for it: a contract sees how many bytes it has room for.
#[derive(Drop)]
pub struct Line {
    bytes: Vec<u8>,
    room: usize,
}

impl Model for Line {
    ghost use Rattle.std.specs.Prelude.{ℕ, ◌≤◌, vec_capacity};

    ghost Value = { ℕ };

    ghost view = { λ line. line.room };

    ghost invariant = { λ line. line.room ≤ vec_capacity line.bytes };
}

impl Line {
    /// A line with room for each event of a run of this program, whose files have these names.
    ///
    /// # Errors
    ///
    /// `Memory`, where there is no such room.
    pub fn make(alloc: Global, checked: &Checked, files: &Files) -> Result<Line, Memory>
        requires named { length checked.now.program.files ≡ length files.now }
        ensures { IfOk result (λ line. line ≡ room_for checked.now.program.nodes files.now) }
    {
        let program = checked.program();
        Line::with_room(alloc, program, files, program.file_count())
    }

    /// A line with room for the texts of a program and the names of so many files.
    #[tactic(auto, unfolding(crate::specs::Room::room_for))]
    fn with_room(
        alloc: Global,
        program: &Program,
        files: &Files,
        count: usize,
    ) -> Result<Line, Memory>
        requires all { count ≡ length files.now }
        requires few { count ≤ 16 }
        ensures { IfOk result (λ line. line ≡ room_for program.now.nodes files.now) }
    {
        let Some(words_and_texts) = WORDS_ROOM.checked_add(text_room(program)) else {
            return Err(Memory);
        };
        let Some(room) = words_and_texts.checked_add(name_room(files, count)) else {
            return Err(Memory);
        };
        let bytes = Vec::with_capacity(alloc, room)?;
        Ok(Line { bytes, room })
    }
}

/// The unit of an event.
#[tactic(auto, unfolding(scj_model::specs::TraceText::unit_of))]
fn unit_of(event: &Event) -> u64
    ensures { result ≡ unit_of_event event.now }
{
    match event {
        Event::Mission { unit, .. } => *unit,
        Event::Register { unit, .. } => *unit,
        Event::Exec { unit } => *unit,
        Event::Arrive { unit, .. } => *unit,
        Event::Lost { unit, .. } => *unit,
        Event::Miss { unit, .. } => *unit,
        Event::Run { unit, .. } => *unit,
        Event::Idle { unit } => *unit,
        Event::Prio { unit, .. } => *unit,
        Event::Print { unit, .. } => *unit,
        Event::Fault { unit, .. } => *unit,
        Event::End { unit, .. } => *unit,
        Event::Terminate { unit } => *unit,
        Event::Drop { unit, .. } => *unit,
        Event::Cleanup { unit } => *unit,
        Event::Done { unit } => *unit,
        Event::Halted { unit } => *unit,
        Event::Stopped { unit } => *unit,
    }
}

/// Fills a line that has the room with the line of an event.
#[tactic(auto, using(crate::proofs::Lengths::room_of_words), unfolding(scj_model::specs::TraceText::line_of))]
fn fill(bytes: &mut Vec<u8>, program: &Program, files: &Files, event: &Event)
    requires room { room_for program.now.nodes files.now ≤ vec_capacity bytes.old }
    requires place { StandsInFile files.now event.now }
    ensures line { bytes.new.items ≡ line_of program.now.nodes files.now event.now }
    ensures some { 0 < vec_len bytes.new }
    ensures room { vec_capacity bytes.old ≤ vec_capacity bytes.new }
{
    bytes.clear();
    put_decimal(bytes, unit_of(event));
    put_words(bytes, program, files, event);
    put_bytes(bytes, b"\n");
}

/// Puts an event as its line, by one put, in the room that the line has.
///
/// # Errors
///
/// `Failed`, only where the sink's count of faults rose; the sink has then taken a front of the line at most.
pub fn put_event<K: Sink>(
    out: &mut K,
    line: &mut Line,
    checked: &Checked,
    files: &Files,
    event: &Event,
) -> Result<(), Failed>
    requires room { room_for checked.now.program.nodes files.now ≤ line.old }
    requires place { StandsInFile files.now event.now }
    ensures ok { OnOk result (PutWhole
        (sink_run (K.taken out.old) (K.taken out.new) (K.faults out.old) (K.faults out.new))
        (line_of checked.now.program.nodes files.now event.now)) }
    ensures failed { OnErr result (PutFront
        (sink_run (K.taken out.old) (K.taken out.new) (K.faults out.old) (K.faults out.new))
        (line_of checked.now.program.nodes files.now event.now)) }
    ensures kept { line.new ≡ line.old }
{
    fill(&mut line.bytes, checked.program(), files, event);
    out.put(&line.bytes)
}
