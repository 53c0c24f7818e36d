//! The classes of bytes, and how many bytes of a class come first.

ghost use Rattle.std.specs.Prelude.{◌≡◌, ◌≤◌, length};
ghost use Rattle.scj_base.specs.Lexeme.{is_blank as blank, is_digit as digit, is_letter as letter, is_line_byte as line_byte, is_name_byte as name_byte, opens_comment as comment_opens, is_text_byte as text_byte};
ghost use Rattle.std.specs.List.{prefix_len};

use crate::tables::NAME_BYTES;

/// Whether the byte is a blank.
#[tactic(auto, unfolding(scj_base::specs::Lexeme::is_blank))]
pub fn is_blank(byte: u8) -> bool
    ensures { result ≡ blank byte }
{
    byte == b' ' || byte == b'\t' || byte == b'\n' || byte == 12 || byte == b'\r'
}

/// Whether the byte can begin a name.
#[tactic(auto, unfolding(scj_base::specs::Lexeme::is_letter))]
pub fn is_letter(byte: u8) -> bool
    ensures { result ≡ letter byte }
{
    byte.is_ascii_alphabetic() || byte == b'$' || byte == b'_'
}

/// Whether the byte is a digit.
#[tactic(auto, unfolding(scj_base::specs::Lexeme::is_digit))]
pub fn is_digit(byte: u8) -> bool
    ensures { result ≡ digit byte }
{
    byte.is_ascii_digit()
}

/// Whether the byte can stand in a name.
pub fn is_name_byte(byte: u8) -> bool
    ensures { result ≡ name_byte byte }
{
    NAME_BYTES[byte as usize]
}

/// Whether the byte can stand between quotes.
#[tactic(auto, unfolding(scj_base::specs::Lexeme::is_text_byte))]
pub fn is_text_byte(byte: u8) -> bool
    ensures { result ≡ text_byte byte }
{
    b' ' <= byte && byte <= b'~' && byte != b'"' && byte != b'\\'
}

/// Whether the byte ends no line.
#[tactic(auto, unfolding(scj_base::specs::Lexeme::is_line_byte))]
pub fn is_line_byte(byte: u8) -> bool
    ensures { result ≡ line_byte byte }
{
    byte != b'\n'
}

/// How many bytes of a name come first.
pub fn name_len(bytes: &[u8]) -> usize
    ensures value { result ≡ prefix_len name_byte bytes.now }
    ensures bound { result ≤ length bytes.now }
{
    bytes.iter().take_while(|byte| is_name_byte(**byte)).count()
}

/// How many bytes come before the first that cannot stand between quotes.
pub fn text_len(bytes: &[u8]) -> usize
    ensures value { result ≡ prefix_len text_byte bytes.now }
    ensures bound { result ≤ length bytes.now }
{
    bytes.iter().take_while(|byte| is_text_byte(**byte)).count()
}

/// How many bytes come before the end of the line.
pub fn line_len(bytes: &[u8]) -> usize
    ensures value { result ≡ prefix_len line_byte bytes.now }
    ensures bound { result ≤ length bytes.now }
{
    bytes.iter().take_while(|byte| is_line_byte(**byte)).count()
}

/// Whether a comment begins here.
#[tactic(auto, unfolding(scj_base::specs::Lexeme::opens_comment))]
pub fn opens_comment(bytes: &[u8]) -> bool
    ensures { result ≡ comment_opens bytes.now }
{
    match bytes {
        [first, second, ..] => *first == b'/' && (*second == b'/' || *second == b'*'),
        _ => false,
    }
}
