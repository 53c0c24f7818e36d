//! Reading of a file into a program.

ghost use Rattle.std.specs.Prelude.{◌≡◌, ◌<◌, ◌^◌, List, ℕ, Ok, Err, length, map, OnOk, OnErr, IfOk};
ghost use Rattle.parser_steps.specs.Outcomes.{AllFit};
ghost use Rattle.scj_base.specs.Lex.{Lex};
ghost use Rattle.scj_parser.specs.Parsing.{EndsThere};
ghost use Rattle.scj_parser.specs.declared.parse_answers.ParseError.TheVariants.{Bad};
ghost use Rattle.scj_base.specs.declared.findings.Found.{Found as FoundRule};
ghost use Rattle.scj_tree.specs.Files.{BreaksGrammar, FileRead as IsFileRead};
ghost use Rattle.scj_tree.specs.Forest.{IsForest, forest_of};
ghost use Rattle.scj_tree.specs.Grammar.{Tree};
ghost use Rattle.scj_tree.specs.Lexemes.{lexemes_of};

use crate::heights::too_deep;
use crate::parse_answers::ParseError;
use parser_nodes::growing_nodes::Nodes;
use parser_steps::file_reads::{FileRead, read_file};
use scj_base::{Found, NodeId, Rule, Token, Tokens};
use scj_tree::{NodeList, Program};
use std::alloc::Global;
use std::mem::replace;

/// Reads the tokens of a file behind the nodes, and tells its classes.
fn read_classes(
    alloc: Global,
    nodes: &mut Nodes,
    bytes: &[u8],
    tokens: &[Token],
) -> Result<NodeList, ParseError>
    requires fit { AllFit bytes.now tokens.now }
    requires ends { EndsThere (lexemes_of bytes.now tokens.now) }
    ensures ok { (classes : List ℕ) → result ≡ Ok classes →
        Tree nodes.old.all (lexemes_of bytes.now tokens.now) nodes.new.all classes }
    ensures bad { (found : FoundRule) → result ≡ Err (Bad found) →
        BreaksGrammar nodes.old.all (lexemes_of bytes.now tokens.now) found }
    ensures kept { nodes.new.kept ≡ nodes.old.kept }
{
    match read_file(alloc, nodes, bytes, tokens)? {
        FileRead::Whole(classes) => Ok(classes),
        FileRead::Stopped(pos) => Err(ParseError::Bad(Found {
            pos,
            rule: Rule::P1,
        })),
        FileRead::Unfinished => unreachable!(),
    }
}

/// Reads a file behind the nodes, and puts its classes behind the others.
fn add_file(
    alloc: Global,
    nodes: &mut Nodes,
    files: &mut Vec<Vec<NodeId>>,
    bytes: &[u8],
    tokens: &[Token],
) -> Result<(), ParseError>
    requires begun { nodes.old.all ≡ nodes.old.kept }
    requires whole { IsForest (forest_of nodes.old.all (map (λ f. f.items) files.old.items)) }
    requires fit { AllFit bytes.now tokens.now }
    requires ends { EndsThere (lexemes_of bytes.now tokens.now) }
    ensures ok { OnOk result
        (IsFileRead (forest_of nodes.old.all (map (λ f. f.items) files.old.items)) (lexemes_of bytes.now tokens.now)
        (forest_of nodes.new.all (map (λ f. f.items) files.new.items))) }
    ensures bad { (found : FoundRule) → result ≡ Err (Bad found) →
        BreaksGrammar nodes.old.all (lexemes_of bytes.now tokens.now) found }
    ensures err { OnErr result (files.new.items ≡ files.old.items) }
    ensures few { OnOk result (length nodes.new.all < 2 ^ 32) }
    ensures kept { nodes.new.kept ≡ nodes.old.kept }
{
    let first = nodes.kept_len();
    let classes = read_classes(alloc, nodes, bytes, tokens)?;
    if let Some(pos) = too_deep(alloc, nodes.items(), first)? {
        return Err(ParseError::Bad(Found {
            pos,
            rule: Rule::P2,
        }));
    }
    files.push(classes.0)?;
    Ok(())
}

/// Adds a file to a program: its tree behind the nodes of the files before. After an error the program is as
/// before; P1 stands at the first token that no file has behind those before it, P2 at the name of the first
/// method or constructor whose body is higher than 64.
pub fn parse(
    alloc: Global,
    file: u8,
    tokens: &Tokens,
    bytes: &[u8],
    program: &mut Program,
) -> Result<(), ParseError>
    requires next { file ≡ length program.old.files }
    requires few { file < 16 }
    requires lexed { Lex file bytes.now tokens.now }
    ensures ok { OnOk result (IsFileRead program.old (lexemes_of bytes.now tokens.now) program.new) }
    ensures bad { (found : FoundRule) → result ≡ Err (Bad found) →
        BreaksGrammar program.old.nodes (lexemes_of bytes.now tokens.now) found }
    ensures err { OnErr result (program.new ≡ program.old) }
{
    let before = replace(program, Program::new(alloc));
    let (nodes, mut files) = before.into_parts();
    let mut nodes = Nodes::over(alloc, nodes);
    match add_file(alloc, &mut nodes, &mut files, bytes, tokens.items()) {
        Ok(()) => {
            *program = Program::from_parts(alloc, nodes.into_all(), files);
            Ok(())
        }
        Err(answer) => {
            *program = Program::from_parts(alloc, nodes.into_kept(), files);
            Err(answer)
        }
    }
}
