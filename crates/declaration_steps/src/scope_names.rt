//! Names between quotes.

ghost use Rattle.std.specs.Prelude.{◌≡◌, ◌≤◌, length};
ghost use Rattle.std.specs.Bool.{OnTrue};
ghost use Rattle.std.specs.List.{list_all};
ghost use Rattle.scj_base.specs.Bytes.{is_one_of};
ghost use Rattle.scj_base.specs.Lexeme.{is_letter as letter, is_name_byte as name_byte, is_name as has_form_of_a_name};
ghost use Rattle.scj_base.specs.Vocabulary.{words};

use scj_base::vocabulary::{WORDS, word_text};

/// Whether the byte is a letter, `$` or `_`.
#[tactic(auto, unfolding(scj_base::specs::Lexeme::is_letter))]
fn is_letter(byte: u8) -> bool
    ensures { result ≡ letter byte }
{
    matches!(byte, b'A'..=b'Z' | b'a'..=b'z' | b'$' | b'_')
}

/// Whether each byte is a letter, a digit, `$` or `_`.
#[tactic(auto, unfolding(scj_base::specs::Lexeme::is_name_byte, scj_base::specs::Lexeme::is_digit))]
fn are_name_bytes(bytes: &[u8]) -> bool
    ensures { result ≡ list_all name_byte bytes.now }
{
    let mut rest = bytes;
    while let [byte, others @ ..] = rest {
        if !is_letter(*byte) && !byte.is_ascii_digit() {
            return false;
        }
        rest = others;
    }
    true
}

/// Whether the bytes are a reserved word.
fn is_reserved(bytes: &[u8]) -> bool
    ensures { result ≡ is_one_of bytes.now words }
{
    for i in 0..WORDS.len() {
        if bytes == word_text(i as u8).as_bytes() {
            return true;
        }
    }
    false
}

/// Whether the bytes are a name.
#[tactic(auto, unfolding(scj_base::specs::Lexeme::is_name))]
pub fn is_name(bytes: &[u8]) -> bool
    ensures value { result ≡ has_form_of_a_name bytes.now }
    ensures short { OnTrue result (length bytes.now ≤ 64) }
{
    let [first, others @ ..] = bytes else {
        return false;
    };
    is_letter(*first) && are_name_bytes(others) && bytes.len() <= 64 && !is_reserved(bytes)
}
