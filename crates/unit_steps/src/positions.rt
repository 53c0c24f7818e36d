//! Where operations stand.

ghost use Rattle.std.specs.Prelude.{◌≡◌};
ghost use Rattle.scj_model.specs.Code.{code_of, position_of_node};
ghost use Rattle.scj_model.specs.Run.{position_of_op};

use call_operations::node_of;
use node_views::position_at;
use op_list::OpList;
use scj_base::{NodeId, Position};
use scj_model::Op;

/// Where a node stands.
#[tactic(auto, unfolding(scj_model::specs::Code::code_of, scj_rules::specs::Contexts::declarations_of))]
fn position_of_node(code: &OpList<'_>, id: NodeId) -> Position
    ensures { result ≡ position_of_node (code_of code.now.program) id }
{
    position_at(code.code().program(), id)
}

/// Where an operation stands.
pub(crate) fn position_of(code: &OpList<'_>, op: Op) -> Position
    ensures { result ≡ position_of_op (code_of code.now.program) op }
{
    match node_of(op) {
        Some(id) => position_of_node(code, id),
        None => Position {
            file: 0,
            line: 0,
            col: 0,
        },
    }
}
