//! What is true of every canonical text.

ghost use Rattle.std.specs.Prelude.{◌≡◌, ◌↔◌, ◌++◌, ℕ, List, [], true};
ghost use Rattle.scj_base.specs.Lex.{Lex};
ghost use Rattle.scj_base.specs.declared.lexemes.Token.{Token};
ghost use Rattle.scj_base.specs.declared.lexemes.TokenKind.TheVariants.{Name};
ghost use Rattle.scj_base.specs.Lexeme.{Lexeme, is_name};
ghost use Rattle.scj_tree.specs.Lexemes.{lexemes_of};
ghost use Rattle.scj_tree.specs.declared.nodes.Node.{Node};
ghost use Rattle.scj_tree.specs.Forest.{ChildrenFirst};
ghost use Rattle.scj_tree.specs.Grammar.{Tree};
ghost use Rattle.scj_show.specs.Symbols.{Symbol, canonical, symbols_of};
ghost use Rattle.scj_show.specs.Placed.{AreLexemes, tokens_behind, lexemes_behind};
ghost use Rattle.scj_show.specs.Reread.{IsRead};

/// A row of bytes passes the grammar's test of a name exactly where it is a lexeme that is a name.
pub fn names_are_lexemes()
    ensures { (w : List ℕ) → (is_name w ≡ true) ↔ Lexeme w [] Name }
{}

/// The canonical text of lexemes has them as its tokens.
pub fn canonical_text_lexes()
    ensures tokens { (file : ℕ) (ss : List Symbol) → AreLexemes ss
        → Lex file (canonical ss) (tokens_behind file [] ss) }
    ensures lexemes { (file : ℕ) (ss : List Symbol)
        → lexemes_of (canonical ss) (tokens_behind file [] ss) ≡ lexemes_behind file [] ss }
{}

/// What was read from a source that lexes is read again from its canonical text, from whatever nodes there are before:
/// the text lexes, and its lexemes are the same tree up to places.
pub fn canonical_text_is_read_again()
    ensures { (source : List ℕ) (number : ℕ) (tokens : List Token) (start old all more : List Node) (ids : List ℕ)
        (file : ℕ) (before : List Node) → Lex number source tokens → Tree start (lexemes_of source tokens) old ids
        → all ≡ old ++ more → ChildrenFirst 0 all
        → IsRead all ids (canonical (symbols_of all ids)) file before }
{}
