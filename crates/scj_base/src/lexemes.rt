//! Tokens: the lexemes of a source text, with their places.

ghost use Rattle.std.specs.Prelude.{◌≡◌, [], ◌∷◌, ◌++◌, OnOk, OnErr};

use crate::errors::Memory;
use crate::positions::Position;
use std::alloc::Global;
use std::marker::Model;

/// What a token is.
#[derive(Clone, Copy, Debug, PartialEq, Eq)]
pub enum TokenKind {
    /// A name that is no reserved word.
    Name,
    /// A reserved word, by its place in the list of the words.
    Word(u8),
    /// A number, by its value.
    Number(u32),
    /// A text between quotes.
    Text,
    /// A sign, by its place in the list of the signs.
    Sign(u8),
    /// The end of the file.
    End,
}

/// A lexeme of a source text.
#[derive(Clone, Copy, Debug, PartialEq, Eq)]
pub struct Token {
    /// What it is.
    pub kind: TokenKind,
    /// Where it begins.
    pub pos: Position,
    /// The number of the bytes before it.
    pub start: u32,
    /// The number of its bytes: none at the end of the file.
    pub len: u32,
}

/// The tokens of a file.
#[derive(Drop)]
pub struct Tokens {
    items: Vec<Token>,
}

impl Model for Tokens {
    ghost use Rattle.std.specs.Prelude.{List};
    ghost use Rattle.scj_base.specs.declared.lexemes.Token.{Token as Lexeme};

    ghost Value = { List Lexeme };

    ghost view = { λ a. a.items.items };
}

impl Tokens {
    /// No tokens.
    pub fn new(alloc: Global) -> Tokens
        ensures { result ≡ [] }
    {
        Tokens {
            items: Vec::new(alloc),
        }
    }

    /// Puts a token last.
    pub fn add(&mut self, token: Token) -> Result<(), Memory>
        ensures ok { OnOk result (self.new ≡ self.old ++ token ∷ []) }
        ensures err { OnErr result (self.new ≡ self.old) }
    {
        self.items.push(token)?;
        Ok(())
    }

    /// The tokens in order.
    pub fn items(&self) -> &[Token]
        ensures { result.now ≡ self.now }
    {
        self.items.as_slice()
    }
}
