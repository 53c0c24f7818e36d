//! Reading of the tokens of a file, from its begin to its end.

ghost use Rattle.std.specs.Prelude.{◌≡◌, List, ℕ, Ok, Some, None, option_map};
ghost use Rattle.parser_machine.specs.Machine.{finished, parsed, start};
ghost use Rattle.parser_machine.specs.States.{State, at};
ghost use Rattle.parser_steps.specs.Outcomes.{AllFit, Way, leads, to, up_to, way};
ghost use Rattle.parser_steps.specs.declared.file_reads.FileRead.TheVariants.{Whole, Stopped, Unfinished};
ghost use Rattle.scj_base.specs.declared.positions.Position.{Position};
ghost use Rattle.scj_tree.specs.Lexemes.{lexemes_of};
ghost use Rattle.scj_tree.specs.declared.nodes.Node.{Node};

use crate::runs::{Outcome, read};
use parser_machine::{Entry, Mode};
use parser_nodes::growing_nodes::Nodes;
use parser_nodes::stacks::Stack;
use scj_base::{Memory, Position, Token};
use scj_tree::NodeList;
use std::alloc::Global;

/// What the tokens of a file are.
#[derive(Debug, Drop)]
pub enum FileRead {
    /// A file with these classes.
    Whole(NodeList),
    /// No file: the first token that may not stand where it does stands at the place.
    Stopped(Position),
    /// The begin of a file, without its end.
    Unfinished,
}

/// The classes of a file that was read to its end.
#[tactic(auto, unfolding(parser_machine::specs::Machine::finished))]
fn classes_of(stack: &mut Stack, mode: Mode) -> Option<NodeList>
    ensures { (nodes : List Node) → finished (at mode stack.old nodes) ≡ option_map (λ ids. parsed nodes ids) result }
{
    let Mode::Finished = mode else {
        return None;
    };
    let Some(entry) = stack.pop() else {
        return None;
    };
    match entry {
        Entry::FileOpen { classes } => Some(classes),
        _other => None,
    }
}

/// What stands on the stack behind all tokens.
fn end_of(stack: &mut Stack, mode: Mode) -> FileRead
    ensures whole { (nodes : List Node) (ids : List ℕ) → result ≡ Whole ids →
        finished (at mode stack.old nodes) ≡ Some (parsed nodes ids) }
    ensures unfinished { (nodes : List Node) → result ≡ Unfinished → finished (at mode stack.old nodes) ≡ None }
    ensures stopped { (p : Position) → result ≡ Stopped p → ⊥ }
{
    match classes_of(stack, mode) {
        Some(classes) => FileRead::Whole(classes),
        None => FileRead::Unfinished,
    }
}

/// What the tokens of a file are, by how far a run came over them.
fn reported_by(stack: &mut Stack, outcome: Result<Outcome, Memory>) -> Result<FileRead, Memory>
    ensures whole { (nodes : List Node) (awaited : Way) (ids : List ℕ) →
        leads outcome nodes stack.old awaited ≡ awaited → result ≡ Ok (Whole ids) →
        (st : State) × (awaited ≡ to st) × (finished st ≡ Some (parsed nodes ids)) }
    ensures stopped { (nodes : List Node) (awaited : Way) (p : Position) →
        leads outcome nodes stack.old awaited ≡ awaited → result ≡ Ok (Stopped p) → awaited ≡ up_to p }
    ensures unfinished { (nodes : List Node) (awaited : Way) → leads outcome nodes stack.old awaited ≡ awaited →
        result ≡ Ok Unfinished → (st : State) × (awaited ≡ to st) × (finished st ≡ None) }
{
    match outcome {
        Ok(Outcome::Stopped(pos)) => Ok(FileRead::Stopped(pos)),
        Ok(Outcome::Ended(mode)) => Ok(end_of(stack, mode)),
        Err(error) => Err(error),
    }
}

/// Reads the tokens of a file behind the nodes.
pub fn read_file(
    alloc: Global,
    nodes: &mut Nodes,
    bytes: &[u8],
    tokens: &[Token],
) -> Result<FileRead, Memory>
    requires { AllFit bytes.now tokens.now }
    ensures whole { (ids : List ℕ) → result ≡ Ok (Whole ids) →
        (st : State) × (way (start nodes.old.all) (lexemes_of bytes.now tokens.now) ≡ to st) ×
        (finished st ≡ Some (parsed nodes.new.all ids)) }
    ensures stopped { (p : Position) → result ≡ Ok (Stopped p) →
        way (start nodes.old.all) (lexemes_of bytes.now tokens.now) ≡ up_to p }
    ensures unfinished { result ≡ Ok Unfinished →
        (st : State) × (way (start nodes.old.all) (lexemes_of bytes.now tokens.now) ≡ to st) × (finished st ≡ None) }
    ensures kept { nodes.new.kept ≡ nodes.old.kept }
{
    let mut stack = Stack::new(alloc);
    stack.push(Entry::FileOpen {
        classes: nodes.empty_list(),
    })?;
    let outcome = read(nodes, &mut stack, bytes, tokens);
    reported_by(&mut stack, outcome)
}
