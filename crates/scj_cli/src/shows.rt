//! The mode that shows sources in canonical form.

ghost use Rattle.std.specs.Prelude.{◌≡◌, [], ◌≤◌, length, map, string_bytes, IfOk, IfErr, OnOk, OnErr, Some, flat_map};
ghost use Rattle.scj_io.specs.Loads.{ShelfGoes, shelf_run};
ghost use Rattle.scj_io.specs.Puts.{sink_run, PutWhole, PutFront};
ghost use Rattle.command_line.specs.Job.{Show};
ghost use Rattle.scj_check.specs.Texts.{texts_of};
ghost use Rattle.scj_cli.specs.Answers.{Answer, shown_text};
ghost use Rattle.scj_cli.specs.Modes.{IsAnswered, Stops, RefusesForm};

use crate::loads::load_all;
use crate::refusals::{ModeError, Refusal};
use crate::reports::report;
use scj_base::{Failed, Memory, Status};
use scj_check::{ParseOutcome, Sources, read};
use scj_io::{Shelf, Sink, put_all};
use scj_tree::Program;
use std::alloc::Global;

/// Puts the canonical sources of the files of these names on `out`, each by one put, or the break of the lexemes or
/// of the grammar that is told of them.
pub fn show<H: Shelf, K: Sink>(
    alloc: Global,
    names: &[String],
    shelf: &mut H,
    out: &mut K,
) -> Result<Status, ModeError>
    requires { length names.now ≤ 16 }
    ensures goes { ShelfGoes (H.held shelf.old) (H.held shelf.new) (H.faults shelf.old) (H.faults shelf.new)
        (H.most shelf.old) (H.most shelf.new) }
    ensures ok { IfOk result (λ status. IsAnswered (Some (Show (map string_bytes names.now)))
        (shelf_run (H.held shelf.old) (H.faults shelf.old) (H.faults shelf.new) (H.most shelf.new))
        (sink_run (K.taken out.old) (K.taken out.new) (K.faults out.old) (K.faults out.new)) status) }
    ensures stop { IfErr result (λ stop. Stops (Some (Show (map string_bytes names.now)))
        (shelf_run (H.held shelf.old) (H.faults shelf.old) (H.faults shelf.new) (H.most shelf.new))
        (sink_run (K.taken out.old) (K.taken out.new) (K.faults out.old) (K.faults out.new)) stop) }
{
    let sources = load_all(alloc, names, shelf)?;
    let showing = showing_of(alloc, names, &sources)?;
    put_each(out, &showing.texts)?;
    Ok(showing.status)
}

// What is shown, text by text.
#[derive(Drop)]
struct Showing {
    status: Status,
    texts: Vec<Vec<u8>>,
}

// The answer on the contents of the files.
fn showing_of(alloc: Global, names: &[String], sources: &Sources) -> Result<Showing, Refusal>
    ensures ok { IfOk result
        (λ showing. Answer (Some (Show (map string_bytes names.now))) (texts_of sources.now) showing.status
        (flat_map (λ t. t.items) showing.texts.items) []) }
    ensures refusal { IfErr result
        (λ refusal. RefusesForm (Show (map string_bytes names.now)) (texts_of sources.now) refusal) }
{
    match read(alloc, sources)? {
        ParseOutcome::Read(program) => {
            let texts = canonical_texts(alloc, &program)?;
            Ok(Showing {
                status: Status::Done,
                texts,
            })
        }
        ParseOutcome::Broken(found) => {
            let text = report(alloc, names, &[found])?;
            let texts = alone(alloc, text.as_bytes())?;
            Ok(Showing {
                status: Status::Refused,
                texts,
            })
        }
    }
}

// The canonical texts of a program's files, in their order.
fn canonical_texts(alloc: Global, program: &Program) -> Result<Vec<Vec<u8>>, Memory>
    ensures { IfOk result (λ texts. flat_map (λ t. t.items) texts.items ≡ shown_text program.now) }
{
    let mut texts = Vec::new(alloc);
    for file in 0..program.file_count() {
        texts.push(scj_show::show(alloc, program, file as u8)?)?;
    }
    Ok(texts)
}

// One text.
fn alone(alloc: Global, text: &[u8]) -> Result<Vec<Vec<u8>>, Memory>
    ensures { IfOk result (λ texts. flat_map (λ t. t.items) texts.items ≡ text.now) }
{
    let mut texts = Vec::new(alloc);
    texts.push(text.to_vec(alloc)?)?;
    Ok(texts)
}

// Puts texts one after the other, up to the first put that fails.
fn put_each<K: Sink>(out: &mut K, texts: &[Vec<u8>]) -> Result<(), Failed>
    ensures ok { OnOk result (PutWhole
        (sink_run (K.taken out.old) (K.taken out.new) (K.faults out.old) (K.faults out.new))
        (flat_map (λ t. t.items) texts.now)) }
    ensures failed { OnErr result (PutFront
        (sink_run (K.taken out.old) (K.taken out.new) (K.faults out.old) (K.faults out.new))
        (flat_map (λ t. t.items) texts.now)) }
{
    for text in texts {
        put_all(out, text)?;
    }
    Ok(())
}
