//! What is true of the tokens of every text.

ghost use Rattle.std.specs.Prelude.{◌≡◌, ◌⊎◌, ℕ, List};
ghost use Rattle.scj_base.specs.declared.lexemes.Token.{Token};
ghost use Rattle.scj_base.specs.declared.findings.Rule.{Rule};
ghost use Rattle.scj_base.specs.Lex.{Lex, LexBreak};

/// A text has at most one list of tokens.
pub fn at_most_one_list()
    ensures { (file : ℕ) (bytes : List ℕ) (some other : List Token) → Lex file bytes some → Lex file bytes other →
        some ≡ other }
{}

/// A text has at most one first break, at one place.
pub fn at_most_one_break()
    ensures { (bytes : List ℕ) (rule other : Rule) (offset index : ℕ) → LexBreak bytes rule offset →
        LexBreak bytes other index → (rule ≡ other) × (offset ≡ index) }
{}

/// A text with a break has no tokens.
pub fn no_tokens_with_a_break()
    ensures { (file : ℕ) (bytes : List ℕ) (tokens : List Token) (rule : Rule) (offset : ℕ) →
        LexBreak bytes rule offset → Lex file bytes tokens → ⊥ }
{}

/// Every text has tokens or a break.
pub fn tokens_or_a_break()
    ensures { (file : ℕ) (bytes : List ℕ) → ((tokens : List Token) × Lex file bytes tokens) ⊎
        ((rule : Rule) × ((offset : ℕ) × LexBreak bytes rule offset)) }
{}
