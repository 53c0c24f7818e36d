//! What the machine owes to the grammar. These functions do nothing: each stands for a law.

ghost use Rattle.std.specs.Prelude.{◌≡◌, ◌<◌, ◌^◌, ◌++◌, [], ◌∷◌, length, ℕ, List, Some, None, Option};
ghost use Rattle.scj_tree.specs.declared.nodes.Node.{Node};
ghost use Rattle.scj_tree.specs.Forest.{IsForest, forest_of};
ghost use Rattle.scj_tree.specs.Lexemes.{Lexeme};
ghost use Rattle.scj_tree.specs.Grammar.{Tree, BeginsFile};
ghost use Rattle.parser_machine.specs.Machine.{answer, run, start, parsed};

/// The machine gives the nodes and the classes of each file's tree.
pub fn each_tree_is_given()
    ensures { (before after : List Node) (lexemes : List Lexeme) (classes : List ℕ) →
        Tree before lexemes after classes → answer (start before) lexemes ≡ Some (parsed after classes) }
{}

/// A row of lexemes has one tree at most.
pub fn one_tree_at_most()
    ensures nodes { (before one other : List Node) (lexemes : List Lexeme) (these those : List ℕ) →
        Tree before lexemes one these → Tree before lexemes other those → one ≡ other }
    ensures classes { (before one other : List Node) (lexemes : List Lexeme) (these those : List ℕ) →
        Tree before lexemes one these → Tree before lexemes other those → these ≡ those }
{}

/// Behind lexemes that the machine refuses no lexemes make a file of them.
pub fn refused_begin_no_file()
    ensures { (before : List Node) (lexemes : List Lexeme) → run (start before) lexemes ≡ None →
        BeginsFile before lexemes → Prim.⊥ }
{}

/// Reading a file into a forest leaves a forest, with the file's classes behind the earlier files.
pub fn each_tree_keeps_a_forest()
    ensures { (before after : List Node) (lexemes : List Lexeme) (classes : List ℕ) (files : List (List ℕ)) →
        Tree before lexemes after classes → IsForest (forest_of before files) → length files < 16 →
        length after < 2 ^ 32 → IsForest (forest_of after (files ++ classes ∷ [])) }
{}

/// What the machine gives is a tree of the lexemes that it read.
pub fn each_answer_is_a_tree()
    ensures { (before after : List Node) (lexemes : List Lexeme) (classes : List ℕ) →
        answer (start before) lexemes ≡ Some (parsed after classes) → Tree before lexemes after classes }
{}
