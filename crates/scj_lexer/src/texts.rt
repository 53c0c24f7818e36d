//! The tokens of a whole text.

ghost use Rattle.std.specs.Prelude.{◌≡◌, ◌<◌, ◌≤◌, ◌+◌, ◌++◌, ◌^◌, length, fold, true, IfOk, IfErr, OnOk};
ghost use Rattle.scj_base.specs.Lex.{Lex, position_at, position_behind_byte};
ghost use Rattle.scj_base.specs.Lexeme.{AllOf, is_line_byte as line_byte};
ghost use Rattle.scj_lexer.specs.Places.{stays_in_line};
ghost use Rattle.scj_lexer.specs.Answer.{Reports, token_of};

use crate::classes::{is_blank, is_line_byte};
use crate::pieces::{Front, first};
use scj_base::{Found, Memory, Position, Token, TokenKind, Tokens};
use std::alloc::Global;

/// The column of the first byte of a line.
const FIRST_COLUMN: u32 = 1;

/// Why a text has no tokens.
#[derive(Clone, Copy, Debug, PartialEq, Eq)]
pub enum LexError {
    /// It breaks a rule, here for the first time.
    Bad(Found),
    /// There was no memory for the tokens.
    Memory,
}

impl From<Memory> for LexError {
    ghost use Rattle.std.specs.Prelude.{◌≡◌};
    ghost use Rattle.scj_lexer.specs.declared.texts.LexError.TheVariants.{Memory as NoMemory};

    ghost from_gives = { λ _ answer. answer ≡ NoMemory };

    fn from(_memory: Memory) -> LexError {
        LexError::Memory
    }
}

/// The tokens of a text of at most 1 MiB, in time that grows with its length alone.
pub fn lex(alloc: Global, file: u8, bytes: &[u8]) -> Result<Tokens, LexError>
    requires { length bytes.now ≤ 1048576 }
    ensures ok { IfOk result (λ tokens. Lex file bytes.now tokens) }
    ensures bad { IfErr result (λ answer. Reports file bytes.now answer) }
{
    let mut tokens = Tokens::new(alloc);
    let mut pos = Position {
        file,
        line: 1,
        col: FIRST_COLUMN,
    };
    let mut rest = bytes;
    while !rest.is_empty() {
        // Most blanks are spaces, and no other blank is tried for them.
        if rest[0] == b' ' {
            pos = along(pos, 1);
            let (_space, others) = rest.split_at(1);
            rest = others;
            continue;
        }
        if is_blank(rest[0]) {
            pos = behind_byte(pos, rest[0]);
            let (_blank, others) = rest.split_at(1);
            rest = others;
            continue;
        }
        match first(rest) {
            Front::Bad(rule) => return Err(LexError::Bad(Found { pos, rule })),
            Front::Piece(kind, len) => {
                put(&mut tokens, kind, pos, bytes.len() - rest.len(), len)?;
                let (piece, others) = rest.split_at(len);
                pos = behind_piece(pos, kind, piece);
                rest = others;
            }
        }
    }
    put(&mut tokens, Some(TokenKind::End), pos, bytes.len(), 0)?;
    Ok(tokens)
}

/// Puts the token of a piece last, if the piece has a kind.
fn put(
    tokens: &mut Tokens,
    kind: Option<TokenKind>,
    pos: Position,
    start: usize,
    len: usize,
) -> Result<(), Memory>
    requires start_fits { start < 2 ^ 32 }
    requires len_fits { len < 2 ^ 32 }
    ensures { OnOk result (tokens.new ≡ tokens.old ++ token_of kind pos start len) }
{
    match kind {
        Some(kind) => tokens.add(Token {
            kind,
            pos,
            start: start as u32,
            len: len as u32,
        }),
        None => Ok(()),
    }
}

/// The place behind a piece, which is looked through for line feeds only where it can have some.
fn behind_piece(pos: Position, kind: Option<TokenKind>, piece: &[u8]) -> Position
    requires in_line { stays_in_line kind piece.now ≡ true → AllOf line_byte piece.now }
    requires lines_fit { pos.line + length piece.now < 2 ^ 32 }
    requires columns_fit { pos.col + length piece.now + 1 < 2 ^ 32 }
    ensures { result ≡ fold position_behind_byte pos piece.now }
{
    if is_in_line(kind, piece) {
        return along(pos, piece.len() as u32);
    }
    behind(pos, piece)
}

/// Whether a piece is a lexeme or a comment of `//`.
#[tactic(auto, unfolding(crate::specs::Places::stays_in_line))]
fn is_in_line(kind: Option<TokenKind>, piece: &[u8]) -> bool
    ensures { result ≡ stays_in_line kind piece.now }
{
    match kind {
        Some(_) => true,
        None => match piece {
            [_, second, ..] => *second == b'/',
            _ => false,
        },
    }
}

/// The place so many columns further.
fn along(pos: Position, len: u32) -> Position
    requires { pos.col + len < 2 ^ 32 }
    ensures { result ≡ position_at pos.file pos.line (pos.col + len) }
{
    Position {
        file: pos.file,
        line: pos.line,
        col: pos.col + len,
    }
}

/// The place behind the bytes.
fn behind(pos: Position, bytes: &[u8]) -> Position
    requires lines_fit { pos.line + length bytes.now < 2 ^ 32 }
    requires columns_fit { pos.col + length bytes.now + 1 < 2 ^ 32 }
    ensures { result ≡ fold position_behind_byte pos bytes.now }
{
    let mut position = pos;
    for byte in bytes {
        position = behind_byte(position, *byte);
    }
    position
}

/// The place behind a byte.
#[tactic(auto, unfolding(scj_base::specs::Lex::position_behind_byte, scj_base::specs::Lexeme::is_line_byte))]
fn behind_byte(pos: Position, byte: u8) -> Position
    requires line_fits { pos.line + 1 < 2 ^ 32 }
    requires column_fits { pos.col + 1 < 2 ^ 32 }
    ensures value { result ≡ position_behind_byte pos byte }
    ensures line { result.line ≤ pos.line + 1 }
    ensures column { result.col ≤ pos.col + 1 }
{
    if is_line_byte(byte) {
        return Position {
            file: pos.file,
            line: pos.line,
            col: pos.col + 1,
        };
    }
    Position {
        file: pos.file,
        line: pos.line + 1,
        col: FIRST_COLUMN,
    }
}
