//! The call that finds the bounds of a program.

ghost use Rattle.std.specs.Prelude.{◌≡◌, IfOk};
ghost use Rattle.scj_model.specs.Code.{code_of};
ghost use Rattle.memory_needs.specs.Rows.{AreRows, ReportsStore};
ghost use Rattle.memory_bounds.specs.Theorem.{NeedSuffices, YesNeverFull};

use accepted_laws::nodes::checked_is_accepted;
use class_rows::ClassTable;
use memory_needs::{Bounds, find_bounds};
use object_layout::Layout;
use scj_base::Memory;
use scj_rules::Checked;
use std::alloc::Global;

/// Of each concrete handler class whether its private memory suffices in every release, with the bytes that it needs or
/// with the first cause and place for which that can't be said; and the store that no release finds too small.
#[tactic(auto, using(crate::proofs::WellFormed::well_formed))]
pub fn bounds(
    alloc: Global,
    checked: &Checked,
    table: &ClassTable<'_>,
    layout: &Layout<'_>,
) -> Result<Bounds, Memory>
    requires classes { table.now ≡ checked.now.program }
    requires layout { layout.now ≡ checked.now.program }
    ensures rows { IfOk result (λ found. AreRows (code_of checked.now.program) found.rows) }
    ensures need { IfOk result (λ found. ReportsStore (code_of checked.now.program) found.rows found.need) }
    ensures never_full { IfOk result (λ found. YesNeverFull (code_of checked.now.program) found.rows) }
    ensures never_lacks_store { IfOk result (λ found. NeedSuffices (code_of checked.now.program) found.need) }
{
    checked_is_accepted(checked);
    find_bounds(alloc, checked, table, layout)
}
