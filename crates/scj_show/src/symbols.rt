//! The bytes of lexemes.

ghost use Rattle.std.specs.Prelude.{◌≡◌, [], ◌∷◌, ◌++◌, OnOk, slice_index_or, decimal};
ghost use Rattle.scj_base.specs.Vocabulary.{words, signs};
ghost use Rattle.scj_show.specs.Symbols.{Symbol, a_name, a_text, a_word, a_sign, a_number, bytes_of, separator, canonical};

use scj_base::Memory;
use scj_base::vocabulary::{self, SIGNS, WORDS, sign_text, word_text};
use std::alloc::Global;

const SPACE: u8 = b' ';

const LINE_FEED: u8 = b'\n';

const QUOTE: u8 = b'"';

/// Puts the bytes of a lexeme and the byte behind it.
fn put_lexeme(text: &mut Vec<u8>, bytes: &[u8], separator: u8) -> Result<(), Memory>
    ensures { OnOk result (text.new.items ≡ text.old.items ++ (bytes.now ++ separator ∷ [])) }
{
    text.extend_from_slice(bytes)?;
    text.push(separator)?;
    Ok(())
}

/// Puts a name.
#[tactic(auto, unfolding(crate::specs::Symbols::canonical, crate::specs::Symbols::bytes_of, crate::specs::Symbols::separator))]
pub fn put_name(text: &mut Vec<u8>, name: &[u8]) -> Result<(), Memory>
    ensures { OnOk result (text.new.items ≡ text.old.items ++ canonical (a_name name.now ∷ [])) }
{
    put_lexeme(text, name, SPACE)
}

/// Puts a text.
#[tactic(auto, unfolding(crate::specs::Symbols::canonical, crate::specs::Symbols::bytes_of, crate::specs::Symbols::separator))]
pub fn put_text(text: &mut Vec<u8>, inside: &[u8]) -> Result<(), Memory>
    ensures { OnOk result (text.new.items ≡ text.old.items ++ canonical (a_text inside.now ∷ [])) }
{
    text.push(QUOTE)?;
    text.extend_from_slice(inside)?;
    put_lexeme(text, &[QUOTE], SPACE)
}

/// Puts a reserved word.
#[tactic(auto, unfolding(crate::specs::Symbols::canonical, crate::specs::Symbols::bytes_of, crate::specs::Symbols::separator))]
pub fn put_word(text: &mut Vec<u8>, word: u8) -> Result<(), Memory>
    ensures { OnOk result (text.new.items ≡ text.old.items ++ canonical (a_word word ∷ [])) }
{
    put_lexeme(text, bytes_of_word(word), SPACE)
}

fn bytes_of_word(word: u8) -> &'static [u8]
    ensures { result.now ≡ slice_index_or words word [] }
{
    if (word as usize) < WORDS.len() {
        return word_text(word).as_bytes();
    }
    &[]
}

/// Puts a sign.
#[tactic(auto, unfolding(crate::specs::Symbols::canonical, crate::specs::Symbols::bytes_of))]
pub fn put_sign(text: &mut Vec<u8>, sign: u8) -> Result<(), Memory>
    ensures { OnOk result (text.new.items ≡ text.old.items ++ canonical (a_sign sign ∷ [])) }
{
    put_lexeme(text, bytes_of_sign(sign), behind_sign(sign))
}

fn bytes_of_sign(sign: u8) -> &'static [u8]
    ensures { result.now ≡ slice_index_or signs sign [] }
{
    if (sign as usize) < SIGNS.len() {
        return sign_text(sign).as_bytes();
    }
    &[]
}

/// What stands behind a sign.
#[tactic(auto, unfolding(crate::specs::Symbols::separator))]
fn behind_sign(sign: u8) -> u8
    ensures { result ≡ separator (a_sign sign) }
{
    if sign == vocabulary::SEMICOLON
        || (sign == vocabulary::LEFT_BRACE || sign == vocabulary::RIGHT_BRACE)
    {
        LINE_FEED
    } else {
        SPACE
    }
}

/// Puts a number.
#[tactic(auto, unfolding(crate::specs::Symbols::canonical, crate::specs::Symbols::bytes_of, crate::specs::Symbols::separator))]
pub fn put_number(alloc: Global, text: &mut Vec<u8>, number: u32) -> Result<(), Memory>
    ensures { OnOk result (text.new.items ≡ text.old.items ++ canonical (a_number number ∷ [])) }
{
    let digits = format!(in alloc; "{number}")?;
    put_lexeme(text, digits.as_bytes(), SPACE)
}
