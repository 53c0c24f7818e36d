//! Places in source texts.

ghost use Rattle.std.specs.Prelude.{◌≡◌};

/// A place in a source text: the file by its number among the words of the command, the line counted
/// from 1 by line feeds, and the column counted from 1 by bytes. Places are ordered by file, then line,
/// then column.
#[derive(Clone, Copy, Debug, PartialEq, Eq, PartialOrd, Ord)]
pub struct Position {
    /// The file's number, counted from 0 in the order of the words.
    pub file: u8,
    /// The line, from 1.
    pub line: u32,
    /// The column, from 1, in bytes.
    pub col: u32,
}
