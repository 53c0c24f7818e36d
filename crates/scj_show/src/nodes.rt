//! The parts of each kind of node.

ghost use Rattle.std.specs.Prelude.{◌≡◌, ◌++◌, OnOk};
ghost use Rattle.scj_show.specs.Parts.{parts_of, bare_parts, class_parts, flag_parts, class_type_parts, field_parts, method_parts, constructor_parts, super_call_parts, block_end, return_parts, call_parts};

use crate::parts::{
    Part, put, put_alternative, put_annotation, put_argument, put_assigned, put_body,
    put_body_with_call, put_brackets, put_each, put_extended, put_implemented, put_in_parentheses,
    put_maybe, put_object, put_parameters, put_scope_definition, put_sign_if_set, put_word_if_set,
};
use crate::rows::Parts;
use scj_base::{Memory, Name, NodeId, vocabulary};
use scj_tree::{Node, NodeList};

/// Puts the parts of a class.
#[tactic(auto, unfolding(crate::specs::Parts::class_parts))]
fn put_class(
    parts: &mut Parts,
    name: Name,
    flags: Option<NodeId>,
    header: Option<NodeId>,
    members: &NodeList,
) -> Result<(), Memory>
    ensures { OnOk result (parts.new ≡ parts.old ++ class_parts name flags header members.now) }
{
    put_maybe(parts, flags)?;
    put(parts, &[Part::Word(vocabulary::CLASS), Part::Named(name)])?;
    put_maybe(parts, header)?;
    put(parts, &[Part::Sign(vocabulary::LEFT_BRACE)])?;
    put_each(parts, members.items())?;
    put(parts, &[Part::Sign(vocabulary::RIGHT_BRACE)])
}

/// The annotations with an effect, in the order in which they are printed.
#[derive(Clone, Copy)]
struct Annotations {
    define_scope: Option<NodeId>,
    scope: Option<NodeId>,
    runs_in: Option<NodeId>,
}

/// The modifiers with an effect, in the order in which they are printed.
#[derive(Clone, Copy)]
struct Modifiers {
    is_static: bool,
    is_abstract: bool,
    is_synchronized: bool,
}

/// Puts the parts of flags.
#[tactic(auto, unfolding(crate::specs::Parts::flag_parts))]
fn put_flags(
    parts: &mut Parts,
    annotations: Annotations,
    modifiers: Modifiers,
) -> Result<(), Memory>
    ensures { OnOk result (parts.new ≡ parts.old ++ flag_parts annotations.define_scope
        annotations.scope annotations.runs_in modifiers.is_static modifiers.is_abstract modifiers.is_synchronized) }
{
    put_maybe(parts, annotations.define_scope)?;
    put_annotation(parts, Name::new(b"Scope"), annotations.scope)?;
    put_annotation(parts, Name::new(b"RunsIn"), annotations.runs_in)?;
    put_word_if_set(parts, modifiers.is_static, vocabulary::STATIC)?;
    put_word_if_set(parts, modifiers.is_abstract, vocabulary::ABSTRACT)?;
    put_word_if_set(parts, modifiers.is_synchronized, vocabulary::SYNCHRONIZED)
}

/// Puts the parts of a class's name as a type.
#[tactic(auto, unfolding(crate::specs::Parts::class_type_parts))]
fn put_class_type(
    parts: &mut Parts,
    name: Name,
    argument: Option<NodeId>,
    is_array: bool,
) -> Result<(), Memory>
    ensures { OnOk result (parts.new ≡ parts.old ++ class_type_parts name argument is_array) }
{
    put(parts, &[Part::Named(name)])?;
    put_argument(parts, argument)?;
    put_brackets(parts, is_array)
}

/// Puts the parts of a field.
#[tactic(auto, unfolding(crate::specs::Parts::field_parts))]
fn put_field(
    parts: &mut Parts,
    name: Name,
    flags: Option<NodeId>,
    declared_type: NodeId,
    value: Option<NodeId>,
) -> Result<(), Memory>
    ensures { OnOk result (parts.new ≡ parts.old ++ field_parts name flags declared_type value) }
{
    put_maybe(parts, flags)?;
    put(parts, &[Part::Whole(declared_type), Part::Named(name)])?;
    put_assigned(parts, value)?;
    put(parts, &[Part::Sign(vocabulary::SEMICOLON)])
}

/// Puts the parts of a method.
#[tactic(auto, unfolding(crate::specs::Parts::method_parts))]
fn put_method(
    parts: &mut Parts,
    name: Name,
    flags: Option<NodeId>,
    result_type: NodeId,
    parameters: Option<NodeId>,
    body: Option<NodeId>,
) -> Result<(), Memory>
    ensures { OnOk result (parts.new ≡ parts.old
        ++ method_parts name flags result_type parameters body) }
{
    put_maybe(parts, flags)?;
    put(parts, &[Part::Whole(result_type), Part::Named(name)])?;
    put_parameters(parts, parameters)?;
    put_body(parts, body)
}

/// Puts the parts of a constructor.
#[tactic(auto, unfolding(crate::specs::Parts::constructor_parts))]
fn put_constructor(
    parts: &mut Parts,
    name: Name,
    flags: Option<NodeId>,
    parameters: Option<NodeId>,
    super_call: Option<NodeId>,
    body: NodeId,
) -> Result<(), Memory>
    ensures { OnOk result (parts.new ≡ parts.old
        ++ constructor_parts name flags parameters super_call body) }
{
    put_maybe(parts, flags)?;
    put(parts, &[Part::Named(name)])?;
    put_parameters(parts, parameters)?;
    put_body_with_call(parts, super_call, body)
}

/// Puts the parts of a call of a superclass's constructor.
#[tactic(auto, unfolding(crate::specs::Parts::super_call_parts))]
fn put_super_call(parts: &mut Parts, arguments: &NodeList) -> Result<(), Memory>
    ensures { OnOk result (parts.new ≡ parts.old ++ super_call_parts arguments.now) }
{
    put(parts, &[Part::Word(vocabulary::SUPER)])?;
    put_in_parentheses(parts, arguments.items())?;
    put(parts, &[Part::Sign(vocabulary::SEMICOLON)])
}

/// Puts the statements of a block and its `}`.
#[tactic(auto, unfolding(crate::specs::Parts::block_end))]
fn put_block_end(parts: &mut Parts, statements: &NodeList) -> Result<(), Memory>
    ensures { OnOk result (parts.new ≡ parts.old ++ block_end statements.now) }
{
    put_each(parts, statements.items())?;
    put(parts, &[Part::Sign(vocabulary::RIGHT_BRACE)])
}

/// Puts the parts of a `return`.
#[tactic(auto, unfolding(crate::specs::Parts::return_parts))]
fn put_return(parts: &mut Parts, value: Option<NodeId>) -> Result<(), Memory>
    ensures { OnOk result (parts.new ≡ parts.old ++ return_parts value) }
{
    put(parts, &[Part::Word(vocabulary::RETURN)])?;
    put_maybe(parts, value)?;
    put(parts, &[Part::Sign(vocabulary::SEMICOLON)])
}

/// Puts the parts of a call.
#[tactic(auto, unfolding(crate::specs::Parts::call_parts))]
fn put_call(
    parts: &mut Parts,
    name: Name,
    object: Option<NodeId>,
    arguments: &NodeList,
) -> Result<(), Memory>
    ensures { OnOk result (parts.new ≡ parts.old ++ call_parts name object arguments.now) }
{
    put_object(parts, object)?;
    put(parts, &[Part::Named(name)])?;
    put_in_parentheses(parts, arguments.items())
}

/// Puts the parts of a node.
#[tactic(auto, unfolding(crate::specs::Parts::parts_of))]
pub fn put_parts(parts: &mut Parts, node: &Node) -> Result<(), Memory>
    ensures { OnOk result (parts.new ≡ parts.old ++ parts_of node.now) }
{
    match node {
        Node::Class {
            name,
            flags,
            header,
            members,
            ..
        } => put_class(parts, *name.get(), *flags, *header, members),
        Node::Flags {
            define_scope,
            scope,
            runs_in,
            is_static,
            is_abstract,
            is_synchronized,
            ..
        } => put_flags(
            parts,
            Annotations {
                define_scope: *define_scope,
                scope: *scope,
                runs_in: *runs_in,
            },
            Modifiers {
                is_static: *is_static,
                is_abstract: *is_abstract,
                is_synchronized: *is_synchronized,
            },
        ),
        Node::DefineScope {
            first,
            second,
            parent_first,
            ..
        } => {
            if *parent_first {
                put_scope_definition(parts, *second, *first)
            } else {
                put_scope_definition(parts, *first, *second)
            }
        }
        Node::ScopeName { name, .. } => put(parts, &[Part::Quoted(*name.get())]),
        Node::Supers {
            superclass,
            interfaces,
            ..
        } => {
            put_extended(parts, *superclass)?;
            put_implemented(parts, interfaces.items())
        }
        Node::SuperType { name, argument, .. } => {
            put(parts, &[Part::Named(*name.get())])?;
            put_argument(parts, *argument)
        }
        Node::TypeArgument { name, .. } => put(parts, &[Part::Named(*name.get())]),
        Node::IntType { is_array, .. } => {
            put(parts, &[Part::Word(vocabulary::INT)])?;
            put_brackets(parts, *is_array)
        }
        Node::BooleanType { is_array, .. } => {
            put(parts, &[Part::Word(vocabulary::BOOLEAN)])?;
            put_brackets(parts, *is_array)
        }
        Node::ClassType {
            name,
            argument,
            is_array,
            ..
        } => put_class_type(parts, *name.get(), *argument, *is_array),
        Node::VoidType { .. } => put(parts, &[Part::Word(vocabulary::VOID)]),
        Node::LongType { .. } => put(parts, &[Part::Word(vocabulary::LONG)]),
        Node::Field {
            name,
            flags,
            declared_type,
            value,
            ..
        } => { put_field(parts, *name.get(), *flags, *declared_type, *value) }
        Node::Method {
            name,
            flags,
            result_type,
            parameters,
            body,
            ..
        } => { put_method(parts, *name.get(), *flags, *result_type, *parameters, *body) }
        Node::Constructor {
            name,
            flags,
            parameters,
            super_call,
            body,
            ..
        } => { put_constructor(parts, *name.get(), *flags, *parameters, *super_call, *body) }
        Node::Parameters { list, .. } => put_in_parentheses(parts, list.items()),
        Node::Parameter {
            name,
            flags,
            declared_type,
            ..
        } => {
            put_maybe(parts, *flags)?;
            put(
                parts,
                &[Part::Whole(*declared_type), Part::Named(*name.get())],
            )
        }
        Node::SuperCall { arguments, .. } => put_super_call(parts, arguments),
        Node::Block { statements, .. } => {
            put(parts, &[Part::Sign(vocabulary::LEFT_BRACE)])?;
            put_block_end(parts, statements)
        }
        Node::Empty { .. } => put(parts, &[Part::Sign(vocabulary::SEMICOLON)]),
        Node::Local {
            name,
            flags,
            declared_type,
            ..
        } => {
            put_maybe(parts, *flags)?;
            put(
                parts,
                &[
                    Part::Whole(*declared_type),
                    Part::Named(*name.get()),
                    Part::Sign(vocabulary::SEMICOLON),
                ],
            )
        }
        Node::LocalWithValue {
            name,
            flags,
            declared_type,
            value,
            ..
        } => {
            put_maybe(parts, *flags)?;
            put(
                parts,
                &[
                    Part::Whole(*declared_type),
                    Part::Named(*name.get()),
                    Part::Sign(vocabulary::ASSIGN),
                    Part::Whole(*value),
                    Part::Sign(vocabulary::SEMICOLON),
                ],
            )
        }
        Node::Assign { target, value, .. } => put(
            parts,
            &[
                Part::Whole(*target),
                Part::Sign(vocabulary::ASSIGN),
                Part::Whole(*value),
                Part::Sign(vocabulary::SEMICOLON),
            ],
        ),
        Node::ExpressionStatement { expression, .. } => {
            put(
                parts,
                &[Part::Whole(*expression), Part::Sign(vocabulary::SEMICOLON)],
            )
        }
        Node::If {
            condition,
            then_part,
            else_part,
            ..
        } => {
            put(
                parts,
                &[
                    Part::Word(vocabulary::IF),
                    Part::Sign(vocabulary::LEFT_PARENTHESIS),
                    Part::Whole(*condition),
                    Part::Sign(vocabulary::RIGHT_PARENTHESIS),
                    Part::Whole(*then_part),
                ],
            )?;
            put_alternative(parts, *else_part)
        }
        Node::While {
            condition,
            body,
            ..
        } => put(
            parts,
            &[
                Part::Word(vocabulary::WHILE),
                Part::Sign(vocabulary::LEFT_PARENTHESIS),
                Part::Whole(*condition),
                Part::Sign(vocabulary::RIGHT_PARENTHESIS),
                Part::Whole(*body),
            ],
        ),
        Node::For {
            first,
            condition,
            step,
            body,
            ..
        } => put(
            parts,
            &[
                Part::Word(vocabulary::FOR),
                Part::Sign(vocabulary::LEFT_PARENTHESIS),
                Part::Whole(*first),
                Part::Whole(*condition),
                Part::Sign(vocabulary::SEMICOLON),
                Part::Bare(*step),
                Part::Sign(vocabulary::RIGHT_PARENTHESIS),
                Part::Whole(*body),
            ],
        ),
        Node::Return { value, .. } => put_return(parts, *value),
        Node::Binary {
            operator,
            left,
            right,
            ..
        } => {
            put(
                parts,
                &[
                    Part::Whole(*left),
                    Part::Sign(*operator),
                    Part::Whole(*right),
                ],
            )
        }
        Node::Unary {
            operator,
            operand,
            ..
        } => { put(parts, &[Part::Sign(*operator), Part::Whole(*operand)]) }
        Node::Cast { name, operand, .. } => put(
            parts,
            &[
                Part::Sign(vocabulary::LEFT_PARENTHESIS),
                Part::Named(*name.get()),
                Part::Sign(vocabulary::RIGHT_PARENTHESIS),
                Part::Whole(*operand),
            ],
        ),
        Node::Parenthesized { inner, .. } => put(
            parts,
            &[
                Part::Sign(vocabulary::LEFT_PARENTHESIS),
                Part::Whole(*inner),
                Part::Sign(vocabulary::RIGHT_PARENTHESIS),
            ],
        ),
        Node::SimpleName { name, .. } => put(parts, &[Part::Named(*name.get())]),
        Node::FieldAccess { name, object, .. } => {
            put(
                parts,
                &[
                    Part::Whole(*object),
                    Part::Sign(vocabulary::DOT),
                    Part::Named(*name.get()),
                ],
            )
        }
        Node::Call {
            name,
            object,
            arguments,
            ..
        } => put_call(parts, *name.get(), *object, arguments),
        Node::Element { array, index, .. } => put(
            parts,
            &[
                Part::Whole(*array),
                Part::Sign(vocabulary::LEFT_BRACKET),
                Part::Whole(*index),
                Part::Sign(vocabulary::RIGHT_BRACKET),
            ],
        ),
        Node::New {
            name,
            arguments,
            ..
        } => {
            put(
                parts,
                &[Part::Word(vocabulary::NEW), Part::Named(*name.get())],
            )?;
            put_in_parentheses(parts, arguments.items())
        }
        Node::NewArray {
            element,
            length,
            ..
        } => put(
            parts,
            &[
                Part::Word(vocabulary::NEW),
                Part::Whole(*element),
                Part::Sign(vocabulary::LEFT_BRACKET),
                Part::Whole(*length),
                Part::Sign(vocabulary::RIGHT_BRACKET),
            ],
        ),
        Node::Text { .. } => Ok(()),
        Node::Number {
            value,
            is_negative,
            ..
        } => {
            put_sign_if_set(parts, *is_negative, vocabulary::MINUS)?;
            put(parts, &[Part::Digits(*value)])
        }
        Node::True { .. } => put(parts, &[Part::Word(vocabulary::TRUE)]),
        Node::False { .. } => put(parts, &[Part::Word(vocabulary::FALSE)]),
        Node::Null { .. } => put(parts, &[Part::Word(vocabulary::NULL)]),
        Node::This { .. } => put(parts, &[Part::Word(vocabulary::THIS)]),
    }
}

/// Puts the parts of a block behind its `{`, or of an assignment before its `;`.
#[tactic(auto, unfolding(crate::specs::Parts::bare_parts))]
pub fn put_bare_parts(parts: &mut Parts, node: &Node) -> Result<(), Memory>
    ensures { OnOk result (parts.new ≡ parts.old ++ bare_parts node.now) }
{
    match node {
        Node::Block { statements, .. } => put_block_end(parts, statements),
        Node::Assign { target, value, .. } => put(
            parts,
            &[
                Part::Whole(*target),
                Part::Sign(vocabulary::ASSIGN),
                Part::Whole(*value),
            ],
        ),
        _ => Ok(()),
    }
}
