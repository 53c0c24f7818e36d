//! The run of the parser over the tokens of a file.

ghost use Rattle.std.specs.Prelude.{◌≡◌, IfOk};
ghost use Rattle.parser_machine.specs.States.{at};
ghost use Rattle.parser_machine.specs.declared.modes.Mode.TheVariants.{FileStart};
ghost use Rattle.parser_steps.specs.Outcomes.{way, leads, name_in, Fits, AllFit};
ghost use Rattle.parser_nodes.specs.Reported.{seen};
ghost use Rattle.scj_tree.specs.Lexemes.{lexeme_of, lexemes_of};

use crate::steps::step_mode;
use parser_machine::Mode;
use parser_nodes::growing_nodes::Nodes;
use parser_nodes::stacks::Stack;
use parser_nodes::views::View;
use scj_base::{Memory, Position, SharedName, Token, TokenKind};

/// How far a run comes.
#[derive(Drop)]
pub enum Outcome {
    /// Behind all tokens.
    Ended(Mode),
    /// To the first token that may not stand where it does, which stands at the place.
    Stopped(Position),
}

/// The name that a token is, if it is one.
#[tactic(auto, unfolding(crate::specs::Outcomes::Fits, crate::specs::Outcomes::name_in, scj_tree::specs::Lexemes::part_of))]
fn name_of(nodes: &mut Nodes, bytes: &[u8], token: &Token) -> Result<Option<SharedName>, Memory>
    requires { Fits bytes.now token.now }
    ensures name { IfOk result (λ name. name ≡ name_in bytes.now token.now) }
    ensures same { nodes.new ≡ nodes.old }
{
    let start = token.start as usize;
    match token.kind {
        TokenKind::Name => {
            let name = nodes.shared(&bytes[start..start + token.len as usize])?;
            Ok(Some(name))
        }
        _ => Ok(None),
    }
}

/// The lexeme of a token, with the name that it is.
#[tactic(auto, unfolding(crate::specs::Outcomes::Fits, crate::specs::Outcomes::name_in, scj_tree::specs::Lexemes::lexeme_of, scj_tree::specs::Lexemes::part_of))]
fn view_of<'a>(bytes: &'a [u8], token: &Token, name: &'a Option<SharedName>) -> View<'a>
    requires fits { Fits bytes.now token.now }
    requires named { name.now ≡ name_in bytes.now token.now }
    ensures { seen result ≡ lexeme_of bytes.now token.now }
{
    let start = token.start as usize;
    let end = start + token.len as usize;
    match token.kind {
        TokenKind::Name => match name {
            Some(name) => View::Name(name, token.pos),
            None => View::End(token.pos),
        },
        TokenKind::Word(word) => View::Word(word, token.pos),
        TokenKind::Number(value) => View::Number(value, token.pos),
        TokenKind::Text => View::Text(&bytes[start + 1..end - 1], token.pos),
        TokenKind::Sign(sign) => View::Sign(sign, token.pos),
        TokenKind::End => View::End(token.pos),
    }
}

/// Reads the tokens one after the other, from the begin of a file.
#[tactic(auto, using(crate::proofs::Ways::same_place), unfolding(crate::specs::Outcomes::way, crate::specs::Outcomes::AllFit, parser_machine::specs::Machine::step, scj_tree::specs::Lexemes::lexemes_of))]
pub fn read(
    nodes: &mut Nodes,
    stack: &mut Stack,
    bytes: &[u8],
    tokens: &[Token],
) -> Result<Outcome, Memory>
    requires { AllFit bytes.now tokens.now }
    ensures way { let awaited = way (at FileStart stack.old nodes.old.all) (lexemes_of bytes.now tokens.now) in
        leads result nodes.new.all stack.new awaited ≡ awaited }
    ensures kept { nodes.new.kept ≡ nodes.old.kept }
{
    let mut mode = Mode::FileStart;
    let mut rest = tokens;
    while let [token, others @ ..] = rest {
        let name = name_of(nodes, bytes, token)?;
        let view = view_of(bytes, token, &name);
        let Some(next) = step_mode(nodes, stack, &view, &mode)? else {
            return Ok(Outcome::Stopped(token.pos));
        };
        mode = next;
        rest = others;
    }
    Ok(Outcome::Ended(mode))
}
