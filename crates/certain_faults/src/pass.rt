//! The pass over the nodes of a checked program.

ghost use Rattle.std.specs.Prelude.{◌≡◌, ◌++◌, ◌∷◌, [], IfOk, OnOk, length};
ghost use Rattle.scj_tree.specs.Recursion.{lookup, bottom_up, joined_below};
ghost use Rattle.scj_model.specs.Code.{code_of};
ghost use Rattle.certain_faults.specs.declared.known.Left.TheVariants.{Forgets as forgets};
ghost use Rattle.certain_faults.specs.Known.{left_by, next_left};
ghost use Rattle.certain_faults.specs.Faults.{certain_fault};
ghost use Rattle.certain_faults.specs.Report.{IsFaultReport};
ghost use Rattle.certain_faults.specs.Places.{found_at};

use crate::faults::fault_at;
use crate::found::CertainFault;
use crate::known::Left;
use crate::nodes::next_left;
use node_views::position_at;
use scj_base::{Memory, NodeId};
use scj_rules::Checked;
use std::alloc::Global;

/// What the operations of each node leave.
fn left_rows(alloc: Global, checked: &Checked) -> Result<Vec<Left>, Memory>
    ensures { IfOk result (λ rows. rows.items ≡ bottom_up forgets (next_left (code_of checked.now.program))
        (length checked.now.program.nodes)) }
{
    let program = checked.program();
    let mut rows = Vec::with_capacity(alloc, program.len())?;
    for number in 0..program.len() {
        let left = next_left(checked, &rows, NodeId::at(number as u32));
        rows.push(left)?;
    }
    Ok(rows)
}

/// Notes the fault that is certain at a node, if there is one.
#[tactic(auto, unfolding(crate::specs::Places::found_at, scj_model::specs::Code::code_of, scj_rules::specs::Contexts::declarations_of))]
fn note(
    found: &mut Vec<CertainFault>,
    checked: &Checked,
    rows: &[Left],
    id: NodeId,
) -> Result<(), Memory>
    requires { lookup forgets rows.now ≡ left_by (code_of checked.now.program) }
    ensures { OnOk result (found.new.items ≡ found.old.items ++ found_at (code_of checked.now.program) id) }
{
    if let Some(fault) = fault_at(checked, rows, id) {
        let pos = position_at(checked.program(), id);
        found.push(CertainFault { pos, fault })?;
    }
    Ok(())
}

/// The certain faults, node by node.
fn faults_by_node(
    alloc: Global,
    checked: &Checked,
    rows: &[Left],
) -> Result<Vec<CertainFault>, Memory>
    requires { lookup forgets rows.now ≡ left_by (code_of checked.now.program) }
    ensures { IfOk result (λ found. found.items ≡ joined_below (found_at (code_of checked.now.program))
        (length checked.now.program.nodes)) }
{
    let mut found = Vec::new(alloc);
    for number in 0..checked.program().len() {
        note(&mut found, checked, rows, NodeId::at(number as u32))?;
    }
    Ok(found)
}

/// The places of a checked program at which constants alone make an operation fault whenever it is done, each with its
/// fault, by file, line and column.
pub fn certain_faults(alloc: Global, checked: &Checked) -> Result<Vec<CertainFault>, Memory>
    ensures { IfOk result (λ found. IsFaultReport (code_of checked.now.program) found.items) }
{
    let rows = left_rows(alloc, checked)?;
    let mut found = faults_by_node(alloc, checked, &rows)?;
    found.sort_unstable();
    found.dedup();
    Ok(found)
}
