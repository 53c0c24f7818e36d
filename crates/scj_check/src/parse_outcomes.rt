//! Sources read into a program.

ghost use Rattle.std.specs.Prelude.{◌≡◌, [], ◌+◌, ◌<◌, ◌≤◌, length, IfOk, IfErr};
ghost use Rattle.scj_base.specs.Lex.{Lex};
ghost use Rattle.scj_tree.specs.Lexemes.{lexemes_of};
ghost use Rattle.scj_check.specs.Texts.{texts_of};
ghost use Rattle.scj_check.specs.ParseOutcomes.{IsParseOutcome, HasFiles, Goes, GoesOn, RefusesText};
ghost use Rattle.scj_check.specs.declared.parse_outcomes.ParseOutcome.TheVariants.{Read};

use crate::sources::Sources;
use scj_base::{Found, Memory, Tokens};
use scj_lexer::{LexError, lex};
use scj_parser::{ParseError, parse};
use scj_tree::Program;
use std::alloc::Global;

/// The bytes of source for which room for one node is made before reading, so that the nodes needn't be moved to a
/// larger place as they grow. Ordinary source has 6.2 bytes a node.
const BYTES_A_NODE: usize = 6;

/// What sources are read as.
#[derive(Drop)]
pub enum ParseOutcome {
    /// Their program.
    Read(Program),
    /// The break of the lexemes or of the grammar that is told of them.
    Broken(Found),
}

/// No nodes and no files, with room for as many nodes as the sources are likely to have.
fn empty_program(alloc: Global, sources: &Sources) -> Result<Program, Memory>
    ensures nodes { IfOk result (λ program. program.nodes ≡ []) }
    ensures files { IfOk result (λ program. program.files ≡ []) }
{
    Program::with_capacity(alloc, sources.byte_count() / BYTES_A_NODE)
}

/// Reads sources into a program, in time that grows with their bytes alone.
///
/// # Errors
///
/// `Memory` may come at any sources.
pub fn read(alloc: Global, sources: &Sources) -> Result<ParseOutcome, Memory>
    ensures { IfOk result (λ outcome. IsParseOutcome (texts_of sources.now) outcome) }
{
    let program = empty_program(alloc, sources)?;
    let mut outcome = ParseOutcome::Read(program);
    for file in 0..sources.len() {
        outcome = match add_text(alloc, file as u8, sources.text(file), outcome) {
            Ok(more) => more,
            Err(LexError::Bad(found)) => return Ok(ParseOutcome::Broken(found)),
            Err(LexError::Memory) => return Err(Memory),
        };
    }
    Ok(outcome)
}

/// What was read before with one more file. A break of the grammar stays, since the lexemes of later files may
/// still have one, which is told in its place.
fn add_text(
    alloc: Global,
    file: u8,
    text: &[u8],
    before: ParseOutcome,
) -> Result<ParseOutcome, LexError>
    requires few { file < 16 }
    requires short { length text.now ≤ 1048576 }
    requires next { HasFiles file before }
    ensures ok { IfOk result (λ after. GoesOn file text.now before after) }
    ensures files { IfOk result (λ after. HasFiles (file + 1) after) }
    ensures refusal { IfErr result (λ answer. RefusesText file text.now answer) }
{
    let tokens = lex(alloc, file, text)?;
    match before {
        ParseOutcome::Read(program) => Ok(add_tokens(alloc, file, &tokens, text, program)?),
        ParseOutcome::Broken(found) => Ok(ParseOutcome::Broken(found)),
    }
}

/// The program with one more file, or the break of the grammar in it.
fn add_tokens(
    alloc: Global,
    file: u8,
    tokens: &Tokens,
    text: &[u8],
    program: Program,
) -> Result<ParseOutcome, Memory>
    requires few { file < 16 }
    requires next { file ≡ length program.files }
    requires tokens { Lex file text.now tokens.now }
    ensures ok { IfOk result (λ after. Goes (lexemes_of text.now tokens.now) (Read program) after) }
    ensures files { IfOk result (λ after. HasFiles (file + 1) after) }
{
    let mut program = program;
    match parse(alloc, file, tokens, text, &mut program) {
        Ok(()) => Ok(ParseOutcome::Read(program)),
        Err(ParseError::Bad(found)) => Ok(ParseOutcome::Broken(found)),
        Err(ParseError::Memory) => Err(Memory),
    }
}
