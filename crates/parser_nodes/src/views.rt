//! Lexemes as the parser sees them.

use scj_base::{Position, SharedName};

/// A token with its name or its text.
#[derive(Clone, Copy, Debug)]
pub enum View<'a> {
    /// A name.
    Name(&'a SharedName, Position),
    /// A reserved word, by its number.
    Word(u8, Position),
    /// A number, by its value.
    Number(u32, Position),
    /// The bytes between the quotes of a text.
    Text(&'a [u8], Position),
    /// A sign, by its number.
    Sign(u8, Position),
    /// The end of the file.
    End(Position),
}
