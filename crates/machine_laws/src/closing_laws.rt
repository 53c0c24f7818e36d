//! Where the machine stops. These functions do nothing: each stands for a law.

ghost use Rattle.std.specs.Prelude.{◌≡◌, ◌++◌, ◌∷◌, [], ℕ, List, Some, None};
ghost use Rattle.scj_tree.specs.declared.nodes.Node.{Node};
ghost use Rattle.scj_tree.specs.Lexemes.{Lexeme, the_end, position_of_lexeme};
ghost use Rattle.scj_tree.specs.Grammar.{Tree, BeginsFile, RefusedAt};
ghost use Rattle.machine_laws.specs.ClosingEnds.{ReadWhole};
ghost use Rattle.scj_base.specs.declared.positions.Position.{Position};
ghost use Rattle.parser_machine.specs.Machine.{run, step, start};
ghost use Rattle.parser_machine.specs.States.{State};

/// Some lexemes behind those that the machine takes make a file of them.
pub fn each_run_begins_a_file()
    ensures { (before : List Node) (lexemes : List Lexeme) (last : State) → run (start before) lexemes ≡ Some last →
        BeginsFile before lexemes }
{}

/// The machine refuses the first lexeme that no file has behind those before it.
pub fn each_refusal_is_exact()
    ensures { (before : List Node) (taken behind : List Lexeme) (refused : Lexeme) (last : State) →
        run (start before) taken ≡ Some last → step last refused ≡ None →
        RefusedAt before (taken ++ refused ∷ behind) (position_of_lexeme refused) }
{}

/// Where the machine takes a row with the end behind it, the row is a file, and nothing but its classes is put aside.
pub fn each_end_is_of_a_file()
    ensures { (before : List Node) (lexemes : List Lexeme) (position : Position) (last : State) →
        run (start before) (lexemes ++ the_end position ∷ []) ≡ Some last →
        ReadWhole before (lexemes ++ the_end position ∷ []) last }
{}

/// A row of lexemes is refused at one place at most, and a file at none.
pub fn one_refusal_at_most()
    ensures place { (before : List Node) (lexemes : List Lexeme) (one other : Position) → RefusedAt before lexemes one →
        RefusedAt before lexemes other → one ≡ other }
    ensures file { (before after : List Node) (lexemes : List Lexeme) (classes : List ℕ) (position : Position) →
        Tree before lexemes after classes → RefusedAt before lexemes position → Prim.⊥ }
{}
