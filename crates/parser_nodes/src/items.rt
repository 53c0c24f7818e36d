//! Lists of children.

ghost use Rattle.std.specs.Prelude.{◌≡◌, ◌∷◌, ◌++◌, [], IfOk};

use scj_base::{Memory, NodeId};
use scj_tree::NodeList;

/// The list with one child more.
pub fn with_item(list: NodeList, id: NodeId) -> Result<NodeList, Memory>
    ensures { IfOk result (λ longer. longer ≡ list ++ id ∷ []) }
{
    let mut items = list.0;
    items.push(id)?;
    Ok(NodeList(items))
}
