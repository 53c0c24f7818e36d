//! What is true of the nodes of a program that was read. The law is the contract of a function that does nothing.

ghost use Rattle.std.specs.Prelude.{◌≡◌, ℕ, true, List, length, slice_get, Some};
ghost use Rattle.std.specs.List.{list_all};
ghost use Rattle.scj_base.specs.Lexeme.{is_name, is_text_byte};
ghost use Rattle.scj_tree.specs.Forest.{Forest};
ghost use Rattle.scj_rules.specs.Classes.{ClassRow};
ghost use Rattle.scj_rules.specs.Contexts.{declarations_of};
ghost use Rattle.scj_rules.specs.Syntax.{Reads};
ghost use Rattle.scj_model.specs.TraceText.{label};
ghost use Rattle.source_nodes.specs.Nodes.{AreShort, NodesFit};

/// Of the nodes of a program that was read from texts, each class has a name of the language, each text between quotes
/// bytes that may stand there, each number 32 bits, and each node a place in one of the files, on a line from 1 that
/// isn't behind the last.
pub fn nodes_have_words_and_places()
    ensures { (texts : List (List ℕ)) (forest : Forest) (longest : ℕ) → Reads texts forest → AreShort longest texts →
        NodesFit forest.nodes (length texts) longest }
{}

/// So each class of the program, those of the framework among them, has a name of the language, and the label of any node
/// holds bytes that may stand between quotes.
pub fn classes_and_labels_fit()
    ensures classes { (texts : List (List ℕ)) (forest : Forest) (longest : ℕ) → Reads texts forest →
        AreShort longest texts → (class : ℕ) (row : ClassRow) →
        slice_get (declarations_of forest).classes class ≡ Some row → is_name row.name ≡ true }
    ensures labels { (texts : List (List ℕ)) (forest : Forest) (longest : ℕ) → Reads texts forest →
        AreShort longest texts → (id : ℕ) → list_all is_text_byte (label forest.nodes id) ≡ true }
{}
