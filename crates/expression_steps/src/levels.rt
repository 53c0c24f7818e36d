//! How tightly operators bind.

ghost use Rattle.std.specs.Prelude.{◌≡◌, IfOk};
ghost use Rattle.parser_machine.specs.Closing.{admits as are_admitted, operation as operation_of};
ghost use Rattle.parser_machine.specs.States.{level_of as level_of_lexeme};
ghost use Rattle.parser_nodes.specs.Reported.{seen};
ghost use Rattle.scj_tree.specs.Terminals.{level as level_of_sign, compound as compound_of, stepping as stepping_of};

use parser_machine::Entry;
use parser_nodes::growing_nodes::Nodes;
use parser_nodes::views::View;
use scj_base::vocabulary::{
    AND, AND_AND, AND_ASSIGN, EQUAL, GREATER, GREATER_EQUAL, LESS, LESS_EQUAL, MINUS, MINUS_ASSIGN,
    MINUS_MINUS, NOT_EQUAL, OR, OR_ASSIGN, OR_OR, PERCENT, PERCENT_ASSIGN, PLUS, PLUS_ASSIGN,
    PLUS_PLUS, SHIFT_LEFT, SHIFT_LEFT_ASSIGN, SHIFT_RIGHT, SHIFT_RIGHT_ASSIGN,
    SHIFT_RIGHT_UNSIGNED, SHIFT_RIGHT_UNSIGNED_ASSIGN, SLASH, SLASH_ASSIGN, STAR, STAR_ASSIGN, XOR,
    XOR_ASSIGN,
};
use scj_base::{Memory, NodeId};
use scj_tree::Node;

/// How tightly a binary operator binds, the loosest 1; 0 for any other sign.
#[tactic(auto, unfolding(scj_tree::specs::Terminals::level))]
pub fn level(sign: u8) -> u8
    ensures { result ≡ level_of_sign sign }
{
    match sign {
        OR_OR => 1,
        AND_AND => 2,
        OR => 3,
        XOR => 4,
        AND => 5,
        EQUAL | NOT_EQUAL => 6,
        LESS | GREATER | LESS_EQUAL | GREATER_EQUAL => 7,
        SHIFT_LEFT | SHIFT_RIGHT | SHIFT_RIGHT_UNSIGNED => 8,
        PLUS | MINUS => 9,
        STAR | SLASH | PERCENT => 10,
        _ => 0,
    }
}

/// The operator of a compound assignment.
#[tactic(auto, unfolding(scj_tree::specs::Terminals::compound))]
pub fn compound(sign: u8) -> Option<u8>
    ensures { result ≡ compound_of sign }
{
    match sign {
        PLUS_ASSIGN => Some(PLUS),
        MINUS_ASSIGN => Some(MINUS),
        STAR_ASSIGN => Some(STAR),
        SLASH_ASSIGN => Some(SLASH),
        PERCENT_ASSIGN => Some(PERCENT),
        AND_ASSIGN => Some(AND),
        OR_ASSIGN => Some(OR),
        XOR_ASSIGN => Some(XOR),
        SHIFT_LEFT_ASSIGN => Some(SHIFT_LEFT),
        SHIFT_RIGHT_ASSIGN => Some(SHIFT_RIGHT),
        SHIFT_RIGHT_UNSIGNED_ASSIGN => Some(SHIFT_RIGHT_UNSIGNED),
        _ => None,
    }
}

/// The operator of `++` and `--`.
#[tactic(auto, unfolding(scj_tree::specs::Terminals::stepping))]
pub fn stepping(sign: u8) -> Option<u8>
    ensures { result ≡ stepping_of sign }
{
    match sign {
        PLUS_PLUS => Some(PLUS),
        MINUS_MINUS => Some(MINUS),
        _ => None,
    }
}

/// How tightly a lexeme binds as a binary operator, 0 for any other.
#[tactic(auto, unfolding(parser_machine::specs::States::level_of))]
pub fn level_of(view: &View) -> u8
    ensures { result ≡ level_of_lexeme (seen view.now) }
{
    match view {
        View::Sign(sign, _) => level(*sign),
        _ => 0,
    }
}

/// Whether an operator that binds so tightly takes the operand behind the entry for its own.
#[tactic(auto, unfolding(parser_machine::specs::Closing::admits))]
pub fn admits(entry: &Entry, binding: u8) -> bool
    ensures { result ≡ are_admitted entry.now binding }
{
    match entry {
        Entry::BinaryLeft { operator, .. } => level(*operator) < binding,
        Entry::UnaryOpen { .. } => false,
        Entry::CastOpen { .. } => false,
        Entry::Target => false,
        _ => 0 < binding,
    }
}

/// The operation of an operator on its last operand.
#[tactic(auto, unfolding(parser_machine::specs::Closing::operation))]
pub fn operation(entry: &Entry, id: NodeId) -> Result<Option<Node>, Memory>
    ensures { IfOk result (λ node. node ≡ operation_of entry.now id) }
{
    match entry {
        Entry::BinaryLeft {
            position,
            operator,
            left,
        } => Ok(Some(Node::Binary {
            position: *position,
            operator: *operator,
            left: *left,
            right: id,
        })),
        Entry::UnaryOpen { position, operator } => Ok(Some(Node::Unary {
            position: *position,
            operator: *operator,
            operand: id,
        })),
        Entry::CastOpen {
            position,
            name_position,
            name,
        } => Ok(Some(Node::Cast {
            position: *position,
            name_position: *name_position,
            name: name.share()?,
            operand: id,
        })),
        _ => Ok(None),
    }
}
