//! What the kind of a node tells of its type.

ghost use Rattle.std.specs.Prelude.{◌≡◌};
ghost use Rattle.type_check.specs.Kinds.{type_of_kind};

use scj_rules::Ty;
use scj_tree::NodeKind;
use scj_tree::NodeKind::{
    Block, BooleanType, ClassType, ExpressionStatement, False, Flags, IntType, Number, Parameters,
    True,
};

/// The type of each node of a frequent kind whose nodes break no rule, if one has any.
#[tactic(auto, unfolding(crate::specs::Kinds::type_of_kind))]
pub fn type_of_kind(kind: &Option<NodeKind>) -> Option<Option<Ty>>
    ensures { result ≡ type_of_kind kind.now }
{
    match kind {
        Some(Number) => Some(Some(Ty::Int)),
        Some(True | False) => Some(Some(Ty::Bool)),
        Some(Flags | Parameters | Block | ExpressionStatement) => Some(None),
        Some(IntType | BooleanType | ClassType) => Some(None),
        _ => None,
    }
}
