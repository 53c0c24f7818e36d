//! Laws of the definitions, each the contract of a function that does nothing.

ghost use Rattle.std.specs.Prelude.{◌≡◌, ℕ, List, Option, Some, slice_get};
ghost use Rattle.scj_base.specs.declared.statuses.Status.{Status as Told};
ghost use Rattle.command_line.specs.Job.{Job};
ghost use Rattle.scj_tree.specs.Forest.{Forest};
ghost use Rattle.scj_rules.specs.Syntax.{Reads};
ghost use Rattle.scj_show.specs.Reread.{WasReadFrom};
ghost use Rattle.scj_cli.specs.Answers.{Answer, IsSameAnswer};

/// A job has one answer at most on the contents of its files; that of a migrated plan may be spelt in several ways.
pub fn one_answer()
    ensures { (job : Option Job) (contents : List (List ℕ)) (status status_again : Told)
        (out err out_again err_again : List ℕ) →
        Answer job contents status out err → Answer job contents status_again out_again err_again →
        IsSameAnswer job status out err status_again out_again err_again }
{}

/// Each file of a program that was read was read from its text. So `show`, whose text is read as the file wherever the
/// file was read from a text, prints of each file that is read a text that is read as the same tree again.
pub fn files_are_read_from_their_texts()
    ensures { (texts : List (List ℕ)) (forest : Forest) (file : ℕ) (text : List ℕ) →
        Reads texts forest → slice_get texts file ≡ Some text → WasReadFrom forest file text }
{}
