//! The parts of which a node is printed.

ghost use Rattle.std.specs.Prelude.{◌≡◌, ◌++◌, OnOk};
ghost use Rattle.scj_show.specs.Parts.{maybe, each as each_node, each_behind_comma, listed, in_parentheses as listed_in_parentheses, annotation as annotated, scope_definition as defined, word_if_set as set_word, argument_in_brackets as bracketed_argument, brackets as bracket_pair, extended, implemented, assigned, parameters_or_none as parameters_in_parentheses, body_or_semicolon as body_if_there, body_with_call as body_of_constructor, alternative, object_and_dot as dotted, sign_if_set as set_sign};

use crate::rows::Parts;
use scj_base::{Memory, Name, NodeId, vocabulary};

/// A part of a printed node.
#[derive(Clone, Copy, Debug, PartialEq, Eq)]
pub enum Part {
    /// A node below it.
    Whole(NodeId),
    /// A block below it without its `{`, or an assignment without the `;` behind it.
    Bare(NodeId),
    /// A name.
    Named(Name),
    /// A name between quotes.
    Quoted(Name),
    /// A reserved word, by its place in the list of the words.
    Word(u8),
    /// A sign, by its place in the list of the signs.
    Sign(u8),
    /// A number.
    Digits(u32),
}

/// Puts parts behind the others.
pub fn put(parts: &mut Parts, more: &[Part]) -> Result<(), Memory>
    ensures { OnOk result (parts.new ≡ parts.old ++ more.now) }
{
    let mut rest = more;
    while let [part, others @ ..] = rest {
        parts.push(*part)?;
        rest = others;
    }
    Ok(())
}

/// Puts a node, if there is one.
#[tactic(auto, unfolding(crate::specs::Parts::maybe))]
pub fn put_maybe(parts: &mut Parts, node: Option<NodeId>) -> Result<(), Memory>
    ensures { OnOk result (parts.new ≡ parts.old ++ maybe node) }
{
    match node {
        None => Ok(()),
        Some(id) => put(parts, &[Part::Whole(id)]),
    }
}

/// Puts nodes one behind the other.
#[tactic(auto, unfolding(crate::specs::Parts::each))]
pub fn put_each(parts: &mut Parts, nodes: &[NodeId]) -> Result<(), Memory>
    ensures { OnOk result (parts.new ≡ parts.old ++ each_node nodes.now) }
{
    let mut rest = nodes;
    while let [id, others @ ..] = rest {
        put(parts, &[Part::Whole(*id)])?;
        rest = others;
    }
    Ok(())
}

/// Puts nodes, each behind a comma.
#[tactic(auto, unfolding(crate::specs::Parts::each_behind_comma))]
fn put_each_behind_comma(parts: &mut Parts, nodes: &[NodeId]) -> Result<(), Memory>
    ensures { OnOk result (parts.new ≡ parts.old ++ each_behind_comma nodes.now) }
{
    let mut rest = nodes;
    while let [id, others @ ..] = rest {
        put(parts, &[Part::Sign(vocabulary::COMMA), Part::Whole(*id)])?;
        rest = others;
    }
    Ok(())
}

/// Puts nodes with commas between them.
#[tactic(auto, unfolding(crate::specs::Parts::listed))]
fn put_listed(parts: &mut Parts, nodes: &[NodeId]) -> Result<(), Memory>
    ensures { OnOk result (parts.new ≡ parts.old ++ listed nodes.now) }
{
    match nodes {
        [] => Ok(()),
        [first, others @ ..] => {
            put(parts, &[Part::Whole(*first)])?;
            put_each_behind_comma(parts, others)
        }
    }
}

/// Puts nodes with commas between them, in parentheses.
#[tactic(auto, unfolding(crate::specs::Parts::in_parentheses))]
pub fn put_in_parentheses(parts: &mut Parts, nodes: &[NodeId]) -> Result<(), Memory>
    ensures { OnOk result (parts.new ≡ parts.old ++ listed_in_parentheses nodes.now) }
{
    put(parts, &[Part::Sign(vocabulary::LEFT_PARENTHESIS)])?;
    put_listed(parts, nodes)?;
    put(parts, &[Part::Sign(vocabulary::RIGHT_PARENTHESIS)])
}

/// Puts a word, if it is set.
#[tactic(auto, unfolding(crate::specs::Parts::word_if_set))]
pub fn put_word_if_set(parts: &mut Parts, is_set: bool, word: u8) -> Result<(), Memory>
    ensures { OnOk result (parts.new ≡ parts.old ++ set_word is_set word) }
{
    if is_set {
        return put(parts, &[Part::Word(word)]);
    }
    Ok(())
}

/// Puts a sign, if it is set.
#[tactic(auto, unfolding(crate::specs::Parts::sign_if_set))]
pub fn put_sign_if_set(parts: &mut Parts, is_set: bool, sign: u8) -> Result<(), Memory>
    ensures { OnOk result (parts.new ≡ parts.old ++ set_sign is_set sign) }
{
    if is_set {
        return put(parts, &[Part::Sign(sign)]);
    }
    Ok(())
}

/// Puts an annotation with the name of a scope, if there is one.
#[tactic(auto, unfolding(crate::specs::Parts::annotation))]
pub fn put_annotation(parts: &mut Parts, name: Name, scope: Option<NodeId>) -> Result<(), Memory>
    ensures { OnOk result (parts.new ≡ parts.old ++ annotated name scope) }
{
    match scope {
        None => Ok(()),
        Some(id) => put(
            parts,
            &[
                Part::Sign(vocabulary::AT),
                Part::Named(name),
                Part::Sign(vocabulary::LEFT_PARENTHESIS),
                Part::Whole(id),
                Part::Sign(vocabulary::RIGHT_PARENTHESIS),
            ],
        ),
    }
}

/// Puts the definition of a scope, its name first.
#[tactic(auto, unfolding(crate::specs::Parts::scope_definition))]
pub fn put_scope_definition(parts: &mut Parts, name: NodeId, parent: NodeId) -> Result<(), Memory>
    ensures { OnOk result (parts.new ≡ parts.old ++ defined name parent) }
{
    put(
        parts,
        &[
            Part::Sign(vocabulary::AT),
            Part::Named(Name::new(b"DefineScope")),
            Part::Sign(vocabulary::LEFT_PARENTHESIS),
            Part::Named(Name::new(b"name")),
            Part::Sign(vocabulary::ASSIGN),
            Part::Whole(name),
            Part::Sign(vocabulary::COMMA),
            Part::Named(Name::new(b"parent")),
            Part::Sign(vocabulary::ASSIGN),
            Part::Whole(parent),
            Part::Sign(vocabulary::RIGHT_PARENTHESIS),
        ],
    )
}

/// Puts a type argument with its brackets, if there is one.
#[tactic(auto, unfolding(crate::specs::Parts::argument_in_brackets))]
pub fn put_argument(parts: &mut Parts, argument: Option<NodeId>) -> Result<(), Memory>
    ensures { OnOk result (parts.new ≡ parts.old ++ bracketed_argument argument) }
{
    match argument {
        None => Ok(()),
        Some(id) => put(
            parts,
            &[
                Part::Sign(vocabulary::LESS),
                Part::Whole(id),
                Part::Sign(vocabulary::GREATER),
            ],
        ),
    }
}

/// Puts the brackets of an array's type.
#[tactic(auto, unfolding(crate::specs::Parts::brackets))]
pub fn put_brackets(parts: &mut Parts, is_array: bool) -> Result<(), Memory>
    ensures { OnOk result (parts.new ≡ parts.old ++ bracket_pair is_array) }
{
    if is_array {
        return put(
            parts,
            &[
                Part::Sign(vocabulary::LEFT_BRACKET),
                Part::Sign(vocabulary::RIGHT_BRACKET),
            ],
        );
    }
    Ok(())
}

/// Puts the class behind `extends`, if there is one.
#[tactic(auto, unfolding(crate::specs::Parts::extended))]
pub fn put_extended(parts: &mut Parts, superclass: Option<NodeId>) -> Result<(), Memory>
    ensures { OnOk result (parts.new ≡ parts.old ++ extended superclass) }
{
    match superclass {
        None => Ok(()),
        Some(id) => put(parts, &[Part::Word(vocabulary::EXTENDS), Part::Whole(id)]),
    }
}

/// Puts the interfaces behind `implements`, if there are some.
#[tactic(auto, unfolding(crate::specs::Parts::implemented))]
pub fn put_implemented(parts: &mut Parts, interfaces: &[NodeId]) -> Result<(), Memory>
    ensures { OnOk result (parts.new ≡ parts.old ++ implemented interfaces.now) }
{
    match interfaces {
        [] => Ok(()),
        [first, others @ ..] => {
            put(
                parts,
                &[Part::Word(vocabulary::IMPLEMENTS), Part::Whole(*first)],
            )?;
            put_each_behind_comma(parts, others)
        }
    }
}

/// Puts a value behind `=`, if there is one.
#[tactic(auto, unfolding(crate::specs::Parts::assigned))]
pub fn put_assigned(parts: &mut Parts, value: Option<NodeId>) -> Result<(), Memory>
    ensures { OnOk result (parts.new ≡ parts.old ++ assigned value) }
{
    match value {
        None => Ok(()),
        Some(id) => put(parts, &[Part::Sign(vocabulary::ASSIGN), Part::Whole(id)]),
    }
}

/// Puts parameters, or the parentheses of none.
#[tactic(auto, unfolding(crate::specs::Parts::parameters_or_none))]
pub fn put_parameters(parts: &mut Parts, parameters: Option<NodeId>) -> Result<(), Memory>
    ensures { OnOk result (parts.new ≡ parts.old ++ parameters_in_parentheses parameters) }
{
    match parameters {
        None => put(
            parts,
            &[
                Part::Sign(vocabulary::LEFT_PARENTHESIS),
                Part::Sign(vocabulary::RIGHT_PARENTHESIS),
            ],
        ),
        Some(id) => put(parts, &[Part::Whole(id)]),
    }
}

/// Puts a method's body, or `;`.
#[tactic(auto, unfolding(crate::specs::Parts::body_or_semicolon))]
pub fn put_body(parts: &mut Parts, body: Option<NodeId>) -> Result<(), Memory>
    ensures { OnOk result (parts.new ≡ parts.old ++ body_if_there body) }
{
    match body {
        None => put(parts, &[Part::Sign(vocabulary::SEMICOLON)]),
        Some(id) => put(parts, &[Part::Whole(id)]),
    }
}

/// Puts a constructor's body, with the call of the superclass's constructor at its begin.
#[tactic(auto, unfolding(crate::specs::Parts::body_with_call))]
pub fn put_body_with_call(
    parts: &mut Parts,
    super_call: Option<NodeId>,
    body: NodeId,
) -> Result<(), Memory>
    ensures { OnOk result (parts.new ≡ parts.old ++ body_of_constructor super_call body) }
{
    match super_call {
        None => put(parts, &[Part::Whole(body)]),
        Some(call) => put(
            parts,
            &[
                Part::Sign(vocabulary::LEFT_BRACE),
                Part::Whole(call),
                Part::Bare(body),
            ],
        ),
    }
}

/// Puts what stands behind `else`, if it is there.
#[tactic(auto, unfolding(crate::specs::Parts::alternative))]
pub fn put_alternative(parts: &mut Parts, else_part: Option<NodeId>) -> Result<(), Memory>
    ensures { OnOk result (parts.new ≡ parts.old ++ alternative else_part) }
{
    match else_part {
        None => Ok(()),
        Some(id) => put(parts, &[Part::Word(vocabulary::ELSE), Part::Whole(id)]),
    }
}

/// Puts an object and the dot behind it, if there is one.
#[tactic(auto, unfolding(crate::specs::Parts::object_and_dot))]
pub fn put_object(parts: &mut Parts, object: Option<NodeId>) -> Result<(), Memory>
    ensures { OnOk result (parts.new ≡ parts.old ++ dotted object) }
{
    match object {
        None => Ok(()),
        Some(id) => put(parts, &[Part::Whole(id), Part::Sign(vocabulary::DOT)]),
    }
}
