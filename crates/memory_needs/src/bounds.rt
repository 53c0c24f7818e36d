//! The bounds of a program.

ghost use Rattle.std.specs.Prelude.{◌≡◌, IfOk};
ghost use Rattle.scj_model.specs.Code.{code_of};
ghost use Rattle.memory_needs.specs.ProgramTables.{AreTablesOf};
ghost use Rattle.memory_needs.specs.Rows.{AreRows, ReportsStore, is_no, store_needed};
ghost use Rattle.memory_needs.specs.Solved.{solved_rooms, zero_rows};
ghost use Rattle.memory_needs.specs.Stores.{all_yes, class_room};
ghost use Rattle.memory_needs.specs.WellFormed.{IsWellFormed};

use crate::answers::{BoundAnswer, BoundRow, BoundRows, Bounds};
use crate::code::Code;
use crate::program_tables::{Tables, tables_of};
use crate::rooms::rooms;
use crate::rows::all_rows;
use crate::store::store_needed;
use class_rows::ClassTable;
use object_layout::Layout;
use scj_base::Memory;
use scj_rules::Checked;
use std::alloc::Global;

/// Whether an answer is No.
fn is_no(answer: &BoundAnswer) -> bool
    ensures { result ≡ is_no answer.now }
{
    match answer {
        BoundAnswer::Yes { .. } => false,
        BoundAnswer::No { .. } => true,
    }
}

/// Whether no row is No.
#[tactic(auto, unfolding(crate::specs::Stores::all_yes))]
fn all_yes(rows: &[BoundRow]) -> bool
    ensures { result ≡ all_yes rows.now }
{
    let mut rest = rows;
    while let [row, others @ ..] = rest {
        if is_no(&row.answer) {
            return false;
        }
        rest = others;
    }
    true
}

/// The bytes of the store that is needed.
fn store_bytes(alloc: Global, code: &Code<'_>, tables: &Tables) -> Result<u64, Memory>
    requires tables { AreTablesOf (code_of code.now) tables.now }
    requires formed { IsWellFormed (code_of code.now) }
    ensures { IfOk result (λ n. n ≡ store_needed (code_of code.now).program
        (class_room (code_of code.now)
        (solved_rooms (code_of code.now) tables.now.order.vertices.items
        (zero_rows (code_of code.now))))) }
{
    let (here, entered) = (tables.here.as_slice(), tables.entered.as_slice());
    let rooms = rooms(alloc, code, here, entered, tables.order.vertices.as_slice())?;
    match store_needed(code, rooms.as_slice()) {
        Some(bytes) => Ok(bytes),
        None => Err(Memory),
    }
}

/// The bytes of the store that is needed, where no row is No.
fn need(
    alloc: Global,
    code: &Code<'_>,
    tables: &Tables,
    rows: &[BoundRow],
) -> Result<Option<u64>, Memory>
    requires tables { AreTablesOf (code_of code.now) tables.now }
    requires formed { IsWellFormed (code_of code.now) }
    requires rows { AreRows (code_of code.now) rows.now }
    ensures { IfOk result (ReportsStore (code_of code.now) rows.now) }
{
    code.children_first();
    if all_yes(rows) {
        return Ok(Some(store_bytes(alloc, code, tables)?));
    }
    Ok(None)
}

/// The row of each concrete handler class, and how large a store is needed.
pub fn find_bounds(
    alloc: Global,
    checked: &Checked,
    classes: &ClassTable<'_>,
    layout: &Layout<'_>,
) -> Result<Bounds, Memory>
    requires classes { classes.now ≡ checked.now.program }
    requires layout { layout.now ≡ checked.now.program }
    requires facts { IsWellFormed (code_of checked.now.program) }
    ensures rows { IfOk result (λ found. AreRows (code_of checked.now.program) found.rows) }
    ensures need { IfOk result (λ found. ReportsStore (code_of checked.now.program) found.rows found.need) }
{
    let code = Code::new(checked, classes, layout);
    let tables = tables_of(alloc, &code)?;
    let rows = all_rows(alloc, &code, &tables)?;
    let need = need(alloc, &code, &tables, rows.as_slice())?;
    Ok(Bounds {
        rows: BoundRows(rows),
        need,
    })
}
