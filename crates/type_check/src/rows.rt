//! Rows of the nodes, which are filled and written by place.

ghost use Rattle.std.specs.Prelude.{◌≡◌, IfOk, replicate, set};

use program_facts::NodeMeaning;
use scj_base::{Memory, NodeId};
use std::alloc::Global;

/// So many copies of a value.
pub fn filled<T: Copy>(alloc: Global, value: T, count: usize) -> Result<Vec<T>, Memory>
    requires { (copy : T) → T.is_clone value copy → copy ≡ value }
    ensures { IfOk result (λ values. values.items ≡ replicate count value) }
{
    Ok(vec![in alloc; value; count]?)
}

/// Keeps the row of a node.
pub fn keep(rows: &mut Vec<NodeMeaning>, id: NodeId, row: NodeMeaning)
    ensures { rows.new.items ≡ set rows.old.items id row }
{
    let number = id.number();
    if number < rows.len() {
        rows[number] = row;
    }
}
