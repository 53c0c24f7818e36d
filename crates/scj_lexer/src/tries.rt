//! The word that a name is, and the sign that comes first.

ghost use Rattle.std.specs.Prelude.{◌≡◌, ◌<◌, ◌≤◌, length, IfSome};
ghost use Rattle.scj_lexer.specs.Tries.{only_word_of, signs_from, word_of, sign_of, goes_on, is_second_of_sign, last_sign};

use crate::tables::{SIGNS_FROM, WORD_AT};
use scj_base::vocabulary::{sign_text, word_text};

/// The place of a reserved word among the words.
#[tactic(auto, unfolding(crate::specs::Tries::word_of))]
pub fn word(name: &[u8]) -> Option<u8>
    ensures { result ≡ word_of name.now }
{
    let [first, second, ..] = name else {
        return None;
    };
    let index = only_word(*first, *second, name.len());
    if word_text(index).as_bytes() == name {
        return Some(index);
    }
    None
}

/// The only word that a name of this length can be that begins with these bytes.
#[tactic(auto, unfolding(crate::specs::Tries::only_word_of))]
fn only_word(first: u8, second: u8, len: usize) -> u8
    ensures value { result ≡ only_word_of first second len }
    ensures in_range { result < 53 }
{
    // No two words have the same hash.
    WORD_AT[(19 * first as usize + 8 * second as usize + 20 * (len % 16)) % 128]
}

/// The place among the signs of the longest sign that the bytes begin with.
#[tactic(auto, unfolding(crate::specs::Tries::sign_of))]
pub fn sign(bytes: &[u8]) -> Option<u8>
    requires { 0 < length bytes.now }
    ensures value { result ≡ sign_of bytes.now }
    ensures in_range { IfSome result (λ index. index < 50) }
{
    let first = bytes[0];
    if first < b'!' || first > b'~' {
        return None;
    }
    if !may_go_on(bytes) {
        return sign_alone(first);
    }
    for index in candidate_signs(first) {
        if bytes.starts_with(sign_text(*index).as_bytes()) {
            return Some(*index);
        }
    }
    None
}

/// Whether the second byte can be that of a sign.
#[tactic(auto, unfolding(crate::specs::Tries::goes_on))]
fn may_go_on(bytes: &[u8]) -> bool
    ensures { result ≡ goes_on bytes.now }
{
    match bytes {
        [_, second, ..] => is_second(*second),
        _ => false,
    }
}

/// Whether the byte is the second of some sign.
#[tactic(auto, unfolding(crate::specs::Tries::is_second_of_sign))]
fn is_second(byte: u8) -> bool
    ensures { result ≡ is_second_of_sign byte }
{
    byte == b'='
        || byte == b'&'
        || byte == b'|'
        || byte == b'+'
        || byte == b'-'
        || byte == b'<'
        || byte == b'>'
        || byte == b':'
        || byte == b'.'
}

/// The sign of one byte, which is the last of those that begin with it.
fn sign_alone(byte: u8) -> Option<u8>
    requires from { 33 ≤ byte }
    requires to { byte ≤ 126 }
    ensures value { result ≡ last_sign byte }
    ensures in_range { IfSome result (λ index. index < 50) }
{
    candidate_signs(byte).last().copied()
}

/// The signs that begin with a byte.
#[tactic(auto, unfolding(crate::specs::Tries::signs_from))]
fn candidate_signs(byte: u8) -> &'static [u8]
    requires from { 33 ≤ byte }
    requires to { byte ≤ 126 }
    ensures { result.now ≡ signs_from byte }
{
    SIGNS_FROM[(byte - b'!') as usize]
}
