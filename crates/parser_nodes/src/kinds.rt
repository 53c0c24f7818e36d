//! Tests on lexemes and on what was read.

ghost use Rattle.std.specs.Prelude.{◌≡◌};
ghost use Rattle.parser_nodes.specs.Reported.{seen};
ghost use Rattle.scj_tree.specs.Terminals.{indexable as may_be_indexed, is_unary1_start as begins_cast};

use crate::views::View;
use scj_base::vocabulary::{FALSE, LEFT_PARENTHESIS, NEW, NOT, NULL, THIS, TILDE, TRUE};
use scj_tree::PostKind;

/// The number that stands only behind a `-`.
pub const MINIMUM: u32 = 2_147_483_648;

/// Whether an element may be taken of it.
#[tactic(auto, unfolding(scj_tree::specs::Terminals::indexable))]
pub fn indexable(kind: PostKind) -> bool
    ensures { result ≡ may_be_indexed kind }
{
    match kind {
        PostKind::NewArray => false,
        PostKind::Variable | PostKind::Invocation | PostKind::Value => true,
    }
}

/// Whether the lexeme may stand directly behind the `( Name )` of a cast.
#[tactic(auto, unfolding(scj_tree::specs::Terminals::is_unary1_start))]
pub fn is_unary1_start(view: &View) -> bool
    ensures { result ≡ begins_cast (seen view.now) }
{
    match view {
        View::Name(_, _) | View::Number(_, _) => true,
        View::Word(word, _) => *word == TRUE
            || *word == FALSE
            || *word == NULL
            || *word == THIS
            || *word == NEW,
        View::Sign(sign, _) => *sign == NOT || *sign == TILDE || *sign == LEFT_PARENTHESIS,
        View::Text(_, _) | View::End(_) => false,
    }
}
