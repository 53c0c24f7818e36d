//! Statements that end where their last part ends.

ghost use Rattle.std.specs.Prelude.{◌≡◌};
ghost use Rattle.parser_machine.specs.Members.{is_else as begins_else};
ghost use Rattle.parser_nodes.specs.Reported.{seen};
ghost use Rattle.statement_steps.specs.Enclosing.{enclosing as enclosing_node};

use parser_machine::Entry;
use parser_nodes::views::View;
use scj_base::NodeId;
use scj_base::vocabulary::ELSE;
use scj_tree::Node;

/// Whether the lexeme is `else`.
#[tactic(auto, unfolding(parser_machine::specs::Members::is_else))]
pub fn is_else(view: &View) -> bool
    ensures { result ≡ begins_else (seen view.now) }
{
    match view {
        View::Word(word, _) => *word == ELSE,
        _ => false,
    }
}

/// The statement that ends with its last part before the lexeme, if the entry is one's; an `if` goes on with its
/// `else`.
#[tactic(auto, unfolding(crate::specs::Enclosing::enclosing))]
pub fn enclosing(entry: &Entry, view: &View, id: NodeId) -> Option<Node>
    ensures { result ≡ enclosing_node entry.now (seen view.now) id }
{
    match entry {
        Entry::IfThen {
            position,
            condition,
        } => {
            if is_else(view) {
                return None;
            }
            Some(Node::If {
                position: *position,
                condition: *condition,
                then_part: id,
                else_part: None,
            })
        }
        Entry::IfElse {
            position,
            condition,
            then_part,
        } => Some(Node::If {
            position: *position,
            condition: *condition,
            then_part: *then_part,
            else_part: Some(id),
        }),
        Entry::WhileBody {
            position,
            condition,
        } => Some(Node::While {
            position: *position,
            condition: *condition,
            body: id,
        }),
        Entry::ForBody {
            position,
            first,
            condition,
            step,
        } => Some(Node::For {
            position: *position,
            first: *first,
            condition: *condition,
            step: *step,
            body: id,
        }),
        _ => None,
    }
}
