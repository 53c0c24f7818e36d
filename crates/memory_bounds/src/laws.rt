//! What is so of the definitions. Each law is the contract of a function that does nothing.

ghost use Rattle.std.specs.Prelude.{◌≡◌, ℕ, List, Some};
ghost use Rattle.scj_rules.specs.declared.views.Body.{Body as Run};
ghost use Rattle.scj_model.specs.Code.{code_of};
ghost use Rattle.memory_needs.specs.declared.answers.BoundAnswer.{BoundAnswer as Answer};
ghost use Rattle.memory_needs.specs.declared.answers.BoundAnswer.TheVariants.{Yes};
ghost use Rattle.memory_needs.specs.declared.answers.BoundRow.{BoundRow as Row};
ghost use Rattle.memory_needs.specs.Need.{HasNeed};
ghost use Rattle.memory_needs.specs.Room.{HasRoom};
ghost use Rattle.memory_needs.specs.Rows.{AreRows, IsAnswer, ReportsStore};
ghost use Rattle.memory_bounds.specs.Theorem.{NeverFillsMemory, NeverLacksStore};

use accepted_laws::nodes::checked_is_accepted;
use scj_rules::Checked;

/// The definitions give a handler class one answer at most.
pub fn one_answer(checked: &Checked)
    ensures { (class : ℕ) (a b : Answer) → IsAnswer (code_of checked.now.program) class a →
        IsAnswer (code_of checked.now.program) class b → a ≡ b }
{
    checked_is_accepted(checked);
}

/// A body has one Need and one Room at most.
pub fn one_need(checked: &Checked)
    ensures need { (body : Run) (m n : ℕ) → HasNeed (code_of checked.now.program) body m →
        HasNeed (code_of checked.now.program) body n → m ≡ n }
    ensures room { (body : Run) (m n : ℕ) → HasRoom (code_of checked.now.program) body m →
        HasRoom (code_of checked.now.program) body n → m ≡ n }
{
    checked_is_accepted(checked);
}

/// Where the definitions give a handler class Yes, no release of it finds its memory full: in no run, whichever release
/// acts in each unit.
pub fn never_full(checked: &Checked)
    ensures { (class bytes : ℕ) → IsAnswer (code_of checked.now.program) class (Yes bytes) →
        NeverFillsMemory (code_of checked.now.program) class }
{
    checked_is_accepted(checked);
}

/// Where the definitions give each concrete handler class Yes and so tell how much store is needed, no release finds a
/// store as large as that too small: in no run in which the machine chooses by priority.
pub fn never_lacks_store(checked: &Checked)
    ensures { (rows : List Row) (bytes : ℕ) → AreRows (code_of checked.now.program) rows →
        ReportsStore (code_of checked.now.program) rows (Some bytes) →
        NeverLacksStore (code_of checked.now.program) bytes }
{
    checked_is_accepted(checked);
}
