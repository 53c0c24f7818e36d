//! Rows with an item for each node.

ghost use Rattle.std.specs.Prelude.{◌≡◌};
ghost use Rattle.scj_tree.specs.Recursion.{lookup};

use scj_base::NodeId;

/// What rows tell of a node, and the default of one behind their end.
pub fn row_or<T: Copy>(rows: &[T], default: T, id: NodeId) -> T
    ensures { result ≡ lookup default rows.now id }
{
    match rows.get(id.number()) {
        Some(row) => *row,
        None => default,
    }
}
