//! What a row of bytes begins with: a blank, a comment or a lexeme.

ghost use Rattle.std.specs.Prelude.{◌≡◌, ◌<◌, ◌≤◌, length, IfSome};
ghost use Rattle.scj_base.specs.Lexeme.{value_of};
ghost use Rattle.scj_lexer.specs.First.{first_of, name_first, number_first, text_first, comment_first, sign_first, number_of, close_of, after_slash as slash_next};

use crate::classes::{is_blank, is_digit, is_letter, line_len, name_len, opens_comment, text_len};
use crate::tries::{sign, word};
use scj_base::vocabulary::sign_text;
use scj_base::{Rule, TokenKind};

/// What a row of bytes begins with.
#[derive(Clone, Copy, Debug)]
pub enum Front {
    /// A piece of so many bytes: a lexeme of the kind, or a blank or a comment.
    Piece(Option<TokenKind>, usize),
    /// A byte that breaks the rule.
    Bad(Rule),
}

/// The most bytes of a name.
const LONGEST: usize = 64;

/// The greatest number, 2^31.
const GREATEST: u64 = 2_147_483_648;

/// What the bytes begin with.
#[tactic(auto, unfolding(crate::specs::First::first_of))]
pub fn first(bytes: &[u8]) -> Front
    requires { 0 < length bytes.now }
    ensures { result ≡ first_of bytes.now }
{
    match bytes {
        [] => Front::Bad(Rule::L1),
        [byte, rest @ ..] => {
            if is_blank(*byte) {
                return Front::Piece(None, 1);
            }
            if is_letter(*byte) {
                return first_name(bytes);
            }
            if is_digit(*byte) {
                return first_number(bytes);
            }
            if *byte == b'"' {
                return first_text(rest);
            }
            if opens_comment(bytes) {
                return after_slash(rest);
            }
            first_sign(bytes)
        }
    }
}

/// What the bytes behind the `/` make of a comment.
fn after_slash(bytes: &[u8]) -> Front
    ensures { result ≡ slash_next bytes.now }
{
    match bytes {
        [] => Front::Bad(Rule::L1),
        [byte, inside @ ..] => {
            if *byte == b'/' {
                return Front::Piece(None, line_len(inside) + 2);
            }
            first_comment(inside)
        }
    }
}

/// What bytes begin with that begin like a name.
#[tactic(auto, unfolding(crate::specs::First::name_first))]
fn first_name(bytes: &[u8]) -> Front
    requires { 0 < length bytes.now }
    ensures { result ≡ name_first bytes.now }
{
    let len = name_len(bytes);
    if len > LONGEST {
        return Front::Bad(Rule::L4);
    }
    match word(&bytes[..len]) {
        Some(index) => Front::Piece(Some(TokenKind::Word(index)), len),
        None => Front::Piece(Some(TokenKind::Name), len),
    }
}

/// What bytes begin with that begin with a digit.
#[tactic(auto, unfolding(crate::specs::First::number_first))]
fn first_number(bytes: &[u8]) -> Front
    ensures { result ≡ number_first bytes.now }
{
    let len = name_len(bytes);
    match number(&bytes[..len]) {
        Some(value) => Front::Piece(Some(TokenKind::Number(value)), len),
        None => Front::Bad(Rule::L2),
    }
}

/// The value of a number, where the bytes are one.
#[tactic(auto, unfolding(crate::specs::First::number_of, crate::specs::First::digits_of, scj_base::specs::Lexeme::is_digit))]
fn number(bytes: &[u8]) -> Option<u32>
    ensures { result ≡ number_of bytes.now }
{
    if bytes.len() > 1 && bytes[0] == b'0' {
        return None;
    }
    let mut value = 0;
    for byte in bytes {
        if !is_digit(*byte) {
            return None;
        }
        value = 10 * value + (*byte - b'0') as u64;
        if value > GREATEST {
            return None;
        }
    }
    Some(value as u32)
}

/// What bytes behind a quote make of it.
#[tactic(auto, unfolding(crate::specs::First::text_first))]
fn first_text(inside: &[u8]) -> Front
    ensures { result ≡ text_first inside.now }
{
    let len = text_len(inside);
    match &inside[len..] {
        [b'"', ..] => Front::Piece(Some(TokenKind::Text), len + 2),
        _ => Front::Bad(Rule::L3),
    }
}

/// What bytes behind `/*` make of it.
#[tactic(auto, unfolding(crate::specs::First::comment_first))]
fn first_comment(inside: &[u8]) -> Front
    ensures { result ≡ comment_first inside.now }
{
    match close(inside) {
        Some(len) => Front::Piece(None, len + 4),
        None => Front::Bad(Rule::L3),
    }
}

/// How many bytes come before the first `*/`.
#[tactic(auto, unfolding(crate::specs::First::close_of))]
fn close(bytes: &[u8]) -> Option<usize>
    ensures value { result ≡ close_of bytes.now }
    ensures bound { IfSome result (λ len. len ≤ length bytes.now) }
{
    let mut rest = bytes;
    let mut len = 0;
    while let [byte, others @ ..] = rest {
        if let [b'*', b'/', ..] = rest {
            return Some(len);
        }
        rest = others;
        len += 1;
    }
    None
}

/// What bytes begin with that begin with none of the bytes above.
#[tactic(auto, unfolding(crate::specs::First::sign_first))]
fn first_sign(bytes: &[u8]) -> Front
    requires { 0 < length bytes.now }
    ensures { result ≡ sign_first bytes.now }
{
    match sign(bytes) {
        Some(index) => Front::Piece(Some(TokenKind::Sign(index)), sign_text(index).len()),
        None => Front::Bad(Rule::L1),
    }
}
