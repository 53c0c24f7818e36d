//! What the kinds of nodes tell of what they declare, without a look at the nodes.

ghost use Rattle.std.specs.Prelude.{◌≡◌, is_some};
ghost use Rattle.node_views.specs.Kinds.{is_variable_kind, is_field_kind, is_method_kind};
ghost use Rattle.scj_rules.specs.Views.{variable_at, field_at, method_at};

use scj_base::NodeId;
use scj_tree::{NodeKind, Program};

/// Whether nodes of this kind declare a parameter or a local.
#[tactic(auto, unfolding(crate::specs::Kinds::is_variable_kind))]
fn is_variable_kind(kind: &Option<NodeKind>) -> bool
    ensures { result ≡ is_variable_kind kind.now }
{
    matches!(
        kind,
        Some(NodeKind::Parameter | NodeKind::Local | NodeKind::LocalWithValue)
    )
}

/// Whether nodes of this kind declare a field.
#[tactic(auto, unfolding(crate::specs::Kinds::is_field_kind))]
fn is_field_kind(kind: &Option<NodeKind>) -> bool
    ensures { result ≡ is_field_kind kind.now }
{
    matches!(kind, Some(NodeKind::Field))
}

/// Whether nodes of this kind declare a method.
#[tactic(auto, unfolding(crate::specs::Kinds::is_method_kind))]
fn is_method_kind(kind: &Option<NodeKind>) -> bool
    ensures { result ≡ is_method_kind kind.now }
{
    matches!(kind, Some(NodeKind::Method))
}

/// Whether a node declares a parameter or a local.
#[tactic(auto, using(crate::proofs::KindLemmas::variable_kind))]
pub fn is_variable(program: &Program, id: NodeId) -> bool
    ensures { result ≡ is_some (variable_at program.now.nodes id) }
{
    is_variable_kind(&program.kind(id))
}

/// Whether a node declares a field.
#[tactic(auto, using(crate::proofs::KindLemmas::field_kind))]
pub fn is_field(program: &Program, id: NodeId) -> bool
    ensures { result ≡ is_some (field_at program.now.nodes id) }
{
    is_field_kind(&program.kind(id))
}

/// Whether a node declares a method.
#[tactic(auto, using(crate::proofs::KindLemmas::method_kind))]
pub fn is_method(program: &Program, id: NodeId) -> bool
    ensures { result ≡ is_some (method_at program.now.nodes id) }
{
    is_method_kind(&program.kind(id))
}
