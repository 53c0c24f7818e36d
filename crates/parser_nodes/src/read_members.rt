//! Members that were read.

ghost use Rattle.std.specs.Prelude.{◌≡◌};
ghost use Rattle.parser_machine.specs.Members.{member_read};
ghost use Rattle.parser_nodes.specs.Reported.{gives};

use crate::growing_nodes::Nodes;
use crate::items::with_item;
use crate::stacks::Stack;
use parser_machine::{Entry, Mode};
use scj_base::{Memory, NodeId};

/// Behind a member that has no body.
#[tactic(auto, unfolding(parser_machine::specs::Members::member_read))]
pub fn member_read(nodes: &mut Nodes, stack: &mut Stack, id: NodeId) -> Result<Option<Mode>, Memory>
    ensures step { let awaited = member_read id nodes.old.all stack.old in
        gives result nodes.new.all stack.new awaited ≡ awaited }
    ensures kept { nodes.new.kept ≡ nodes.old.kept }
{
    let Some(entry) = stack.pop() else {
        return Ok(None);
    };
    match entry {
        Entry::ClassBody {
            flags,
            position,
            name,
            header,
            members,
        } => {
            let members = with_item(members, id)?;
            stack.push(Entry::ClassBody {
                flags,
                position,
                name,
                header,
                members,
            })?;
            Ok(Some(Mode::InMembers))
        }
        _other => Ok(None),
    }
}
