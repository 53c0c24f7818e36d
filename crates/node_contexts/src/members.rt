//! Whether members are static.

ghost use Rattle.std.specs.Prelude.{◌≡◌};
ghost use Rattle.scj_rules.specs.Definitions.{read};
ghost use Rattle.scj_rules.specs.Contexts.{is_static_member, member_flags};

use node_views::is_static_at;
use scj_base::NodeId;
use scj_tree::{Node, Program};

/// The annotations and modifiers of a member.
#[tactic(auto, unfolding(scj_rules::specs::Contexts::member_flags))]
fn member_flags(program: &Program, member: NodeId) -> Option<Option<NodeId>>
    ensures { result ≡ read program.now.nodes member_flags member }
{
    match program.get(member)? {
        Node::Field { flags, .. } => Some(*flags),
        Node::Method { flags, .. } => Some(*flags),
        Node::Constructor { flags, .. } => Some(*flags),
        _ => None,
    }
}

/// Whether a member is static.
pub fn is_static_member(program: &Program, member: NodeId) -> bool
    ensures { result ≡ is_static_member program.now.nodes member }
{
    match member_flags(program, member) {
        Some(flags) => is_static_at(program, flags),
        None => false,
    }
}
