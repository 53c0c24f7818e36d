//! The nodes whose operations these are.

ghost use Rattle.std.specs.Prelude.{◌≡◌};
ghost use Rattle.scj_model.specs.Ops.{node_of};
ghost use Rattle.op_list.specs.Meanings.{node_number};

use scj_base::NodeId;
use scj_model::Op;

/// The node whose operation it is.
#[tactic(auto, unfolding(scj_model::specs::Ops::node_of))]
pub fn node_of(op: Op) -> Option<NodeId>
    ensures { result ≡ node_of op }
{
    match op {
        Op::Push(id) => Some(id),
        Op::This(id) => Some(id),
        Op::Load(id) => Some(id),
        Op::Get(id) => Some(id),
        Op::GetStatic(id) => Some(id),
        Op::Length(id) => Some(id),
        Op::Elem(id) => Some(id),
        Op::Unary(id) => Some(id),
        Op::Bin(id) => Some(id),
        Op::And(id) => Some(id),
        Op::Or(id) => Some(id),
        Op::Alloc(id) => Some(id),
        Op::Construct(id) => Some(id),
        Op::AllocArray(id) => Some(id),
        Op::Call(id) => Some(id),
        Op::CallStatic(id) => Some(id),
        Op::Cast(id) => Some(id),
        Op::Enter(id) => Some(id),
        Op::ExecuteIn(id) => Some(id),
        Op::Same(id) => Some(id),
        Op::SetCeiling(id) => Some(id),
        Op::Print(id) => Some(id),
        Op::Read(id) => Some(id),
        Op::Register(id) => Some(id),
        Op::Release(id) => Some(id),
        Op::Terminate(id) => Some(id),
        Op::Zero(id) => Some(id),
        Op::Store(id) => Some(id),
        Op::Put(id) => Some(id),
        Op::PutStatic(id) => Some(id),
        Op::PutElem(id) => Some(id),
        Op::If(id) => Some(id),
        Op::Loop(id) => Some(id),
        Op::LeaveWith(id) => Some(id),
        Op::Leave => None,
        Op::Drop(id) => Some(id),
        Op::Init(id) => Some(id),
        Op::Super(id) => Some(id),
        Op::Params(id) => Some(id),
    }
}

/// The number of that node; 0 for an operation that is of no node.
#[tactic(auto, unfolding(op_list::specs::Meanings::node_number))]
pub(crate) fn node_number(op: Op) -> NodeId
    ensures { result ≡ node_number op }
{
    match node_of(op) {
        Some(id) => id,
        None => NodeId::at(0),
    }
}
