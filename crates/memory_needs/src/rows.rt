//! The rows of all handler classes.

ghost use Rattle.std.specs.Prelude.{◌≡◌, ◌<◌, IfOk, OnOk, length};
ghost use Rattle.scj_model.specs.Code.{code_of};
ghost use Rattle.memory_needs.specs.ProgramTables.{AreTablesOf};
ghost use Rattle.memory_needs.specs.RowLists.{IsWithRow};
ghost use Rattle.memory_needs.specs.Rows.{AreRows, is_concrete_handler};
ghost use Rattle.memory_needs.specs.WellFormed.{IsWellFormed};

use crate::answers::BoundRow;
use crate::class_answers::answer;
use crate::code::Code;
use crate::program_tables::Tables;
use scj_base::ids::{APERIODIC_EVENT_HANDLER, PERIODIC_EVENT_HANDLER};
use scj_base::{ClassId, Memory};
use std::alloc::Global;

/// Whether a class is a concrete handler class.
#[tactic(auto, unfolding(scj_model::specs::Code::code_of))]
pub fn is_concrete_handler(code: &Code<'_>, class: ClassId) -> bool
    ensures { result ≡ is_concrete_handler (code_of code.now).program class }
{
    code.is_concrete(class)
        && (code.classes().is_under(class, PERIODIC_EVENT_HANDLER)
            || code.classes().is_under(class, APERIODIC_EVENT_HANDLER))
}

/// Notes the row of a class, if it is a concrete handler class.
#[tactic(auto, using(crate::proofs::RowLists::class_listed, crate::proofs::RowLists::with_none, crate::proofs::RowLists::with_one))]
fn note_row(
    rows: &mut Vec<BoundRow>,
    alloc: Global,
    code: &Code<'_>,
    tables: &Tables,
    handler: ClassId,
) -> Result<(), Memory>
    requires tables { AreTablesOf (code_of code.now) tables.now }
    requires formed { IsWellFormed (code_of code.now) }
    requires there { handler < length (code_of code.now).program.classes }
    ensures { OnOk result (IsWithRow (code_of code.now) handler rows.old.items rows.new.items) }
{
    if is_concrete_handler(code, handler) {
        let answer = answer(alloc, code, tables, handler)?;
        rows.push(BoundRow { handler, answer })?;
    }
    Ok(())
}

/// The rows of all concrete handler classes.
#[tactic(auto, using(crate::proofs::RowLists::rows_none, crate::proofs::RowLists::rows_more, crate::proofs::RowLists::rows_all, crate::proofs::SiteLemmas::classes_are))]
pub fn all_rows(alloc: Global, code: &Code<'_>, tables: &Tables) -> Result<Vec<BoundRow>, Memory>
    requires tables { AreTablesOf (code_of code.now) tables.now }
    requires formed { IsWellFormed (code_of code.now) }
    ensures { IfOk result (λ rows. AreRows (code_of code.now) rows.items) }
{
    let mut rows = Vec::new(alloc);
    for number in 0..code.classes().class_count() {
        note_row(&mut rows, alloc, code, tables, ClassId::at(number))?;
    }
    Ok(rows)
}
