//! The line of a node: its kind, its position and its fields in order.

use Field::{At, Child, Flag, List, Named, Number, Optional, OptionalAt};
use case_tables::TableError;
use scj_base::{NodeId, Position};
use scj_tree::{Node, NodeList};
use std::io::Write;

/// A field of a node behind its position.
#[derive(Drop)]
enum Field<'a> {
    Child(NodeId),
    Optional(Option<NodeId>),
    List(&'a NodeList),
    Named(&'a [u8]),
    At(Position),
    OptionalAt(Option<Position>),
    Flag(bool),
    Number(u32),
}

/// Prints a node.
pub fn print_node<W: Write>(node: &Node, out: &mut W) -> Result<(), TableError> {
    match node {
        Node::Class {
            position,
            name,
            flags,
            header,
            members,
        } => print_line(
            out,
            "Class",
            *position,
            &[
                Named(name.bytes()),
                Optional(*flags),
                Optional(*header),
                List(members),
            ],
        ),
        Node::Flags {
            position,
            define_scope,
            scope,
            runs_in,
            is_static,
            is_abstract,
            is_synchronized,
        } => print_line(
            out,
            "Flags",
            *position,
            &[
                Optional(*define_scope),
                Optional(*scope),
                Optional(*runs_in),
                Flag(*is_static),
                Flag(*is_abstract),
                Flag(*is_synchronized),
            ],
        ),
        Node::DefineScope {
            position,
            first,
            second,
            parent_first,
        } => print_line(
            out,
            "DefineScope",
            *position,
            &[Child(*first), Child(*second), Flag(*parent_first)],
        ),
        Node::ScopeName { position, name } => print_line(
            out,
            "ScopeName",
            *position,
            &[Named(name.bytes())],
        ),
        Node::Supers {
            position,
            superclass,
            interfaces,
        } => print_line(
            out,
            "Supers",
            *position,
            &[Optional(*superclass), List(interfaces)],
        ),
        Node::SuperType {
            position,
            name,
            argument,
        } => print_line(
            out,
            "SuperType",
            *position,
            &[Named(name.bytes()), Optional(*argument)],
        ),
        Node::TypeArgument { position, name } => print_line(
            out,
            "TypeArgument",
            *position,
            &[Named(name.bytes())],
        ),
        Node::IntType { position, is_array } => print_line(
            out,
            "IntType",
            *position,
            &[Flag(*is_array)],
        ),
        Node::BooleanType { position, is_array } => print_line(
            out,
            "BooleanType",
            *position,
            &[Flag(*is_array)],
        ),
        Node::ClassType {
            position,
            name,
            argument,
            is_array,
        } => print_line(
            out,
            "ClassType",
            *position,
            &[Named(name.bytes()), Optional(*argument), Flag(*is_array)],
        ),
        Node::VoidType { position } => print_line(out, "VoidType", *position, &[]),
        Node::LongType { position } => print_line(out, "LongType", *position, &[]),
        Node::Field {
            position,
            name,
            flags,
            declared_type,
            equals,
            value,
        } => print_line(
            out,
            "Field",
            *position,
            &[
                Named(name.bytes()),
                Optional(*flags),
                Child(*declared_type),
                OptionalAt(*equals),
                Optional(*value),
            ],
        ),
        Node::Method {
            position,
            name,
            flags,
            result_type,
            parameters,
            body,
        } => print_line(
            out,
            "Method",
            *position,
            &[
                Named(name.bytes()),
                Optional(*flags),
                Child(*result_type),
                Optional(*parameters),
                Optional(*body),
            ],
        ),
        Node::Constructor {
            position,
            name,
            flags,
            parameters,
            super_call,
            body,
        } => print_line(
            out,
            "Constructor",
            *position,
            &[
                Named(name.bytes()),
                Optional(*flags),
                Optional(*parameters),
                Optional(*super_call),
                Child(*body),
            ],
        ),
        Node::Parameters { position, list } => print_line(
            out,
            "Parameters",
            *position,
            &[List(list)],
        ),
        Node::Parameter {
            position,
            name,
            flags,
            declared_type,
        } => print_line(
            out,
            "Parameter",
            *position,
            &[Named(name.bytes()), Optional(*flags), Child(*declared_type)],
        ),
        Node::SuperCall {
            position,
            arguments,
        } => print_line(out, "SuperCall", *position, &[List(arguments)]),
        Node::Block {
            position,
            statements,
        } => print_line(out, "Block", *position, &[List(statements)]),
        Node::Empty { position } => print_line(out, "Empty", *position, &[]),
        Node::Local {
            position,
            name,
            flags,
            declared_type,
        } => print_line(
            out,
            "Local",
            *position,
            &[Named(name.bytes()), Optional(*flags), Child(*declared_type)],
        ),
        Node::LocalWithValue {
            position,
            name_position,
            name,
            flags,
            declared_type,
            value,
        } => print_line(
            out,
            "LocalWithValue",
            *position,
            &[
                At(*name_position),
                Named(name.bytes()),
                Optional(*flags),
                Child(*declared_type),
                Child(*value),
            ],
        ),
        Node::Assign {
            position,
            target,
            value,
        } => print_line(out, "Assign", *position, &[Child(*target), Child(*value)]),
        Node::ExpressionStatement {
            position,
            expression,
        } => print_line(out, "ExpressionStatement", *position, &[Child(*expression)]),
        Node::If {
            position,
            condition,
            then_part,
            else_part,
        } => print_line(
            out,
            "If",
            *position,
            &[Child(*condition), Child(*then_part), Optional(*else_part)],
        ),
        Node::While {
            position,
            condition,
            body,
        } => print_line(out, "While", *position, &[Child(*condition), Child(*body)]),
        Node::For {
            position,
            first,
            condition,
            step,
            body,
        } => print_line(
            out,
            "For",
            *position,
            &[Child(*first), Child(*condition), Child(*step), Child(*body)],
        ),
        Node::Return { position, value } => print_line(
            out,
            "Return",
            *position,
            &[Optional(*value)],
        ),
        Node::Binary {
            position,
            operator,
            left,
            right,
        } => print_line(
            out,
            "Binary",
            *position,
            &[Number(*operator as u32), Child(*left), Child(*right)],
        ),
        Node::Unary {
            position,
            operator,
            operand,
        } => print_line(
            out,
            "Unary",
            *position,
            &[Number(*operator as u32), Child(*operand)],
        ),
        Node::Cast {
            position,
            name_position,
            name,
            operand,
        } => print_line(
            out,
            "Cast",
            *position,
            &[At(*name_position), Named(name.bytes()), Child(*operand)],
        ),
        Node::Parenthesized { position, inner } => print_line(
            out,
            "Parenthesized",
            *position,
            &[Child(*inner)],
        ),
        Node::SimpleName { position, name } => print_line(
            out,
            "SimpleName",
            *position,
            &[Named(name.bytes())],
        ),
        Node::FieldAccess {
            position,
            name,
            object,
        } => print_line(
            out,
            "FieldAccess",
            *position,
            &[Named(name.bytes()), Child(*object)],
        ),
        Node::Call {
            position,
            name,
            object,
            arguments,
        } => print_line(
            out,
            "Call",
            *position,
            &[Named(name.bytes()), Optional(*object), List(arguments)],
        ),
        Node::Element {
            position,
            array,
            index,
        } => print_line(out, "Element", *position, &[Child(*array), Child(*index)]),
        Node::New {
            position,
            name_position,
            name,
            arguments,
        } => print_line(
            out,
            "New",
            *position,
            &[At(*name_position), Named(name.bytes()), List(arguments)],
        ),
        Node::NewArray {
            position,
            element,
            length,
        } => print_line(
            out,
            "NewArray",
            *position,
            &[Child(*element), Child(*length)],
        ),
        Node::Text { position, text } => print_line(out, "Text", *position, &[Named(text.items())]),
        Node::Number {
            position,
            value,
            is_negative,
        } => print_line(
            out,
            "Number",
            *position,
            &[Number(*value), Flag(*is_negative)],
        ),
        Node::True { position } => print_line(out, "True", *position, &[]),
        Node::False { position } => print_line(out, "False", *position, &[]),
        Node::Null { position } => print_line(out, "Null", *position, &[]),
        Node::This { position } => print_line(out, "This", *position, &[]),
    }
}

fn print_line<W: Write>(
    out: &mut W,
    kind: &str,
    position: Position,
    fields: &[Field],
) -> Result<(), TableError> {
    write!(out, "{kind} ")?;
    print_position(position, out)?;
    for field in fields {
        write!(out, " ")?;
        print_field(field, out)?;
    }
    writeln!(out)?;
    Ok(())
}

fn print_field<W: Write>(field: &Field, out: &mut W) -> Result<(), TableError> {
    match field {
        Child(id) => write!(out, "{}", id.number())?,
        Optional(Some(id)) => write!(out, "(Some {})", id.number())?,
        Optional(None) => write!(out, "None")?,
        List(list) => print_list(list.items(), out)?,
        Named(bytes) => print_bytes(bytes, out)?,
        At(position) => print_position(*position, out)?,
        OptionalAt(Some(position)) => {
            write!(out, "(Some ")?;
            print_position(*position, out)?;
            write!(out, ")")?;
        }
        OptionalAt(None) => write!(out, "None")?,
        Flag(flag) => write!(out, "{flag}")?,
        Number(number) => write!(out, "{number}")?,
    }
    Ok(())
}

/// Prints the numbers of nodes.
pub fn print_list<W: Write>(list: &[NodeId], out: &mut W) -> Result<(), TableError> {
    if list.is_empty() {
        write!(out, "[]")?;
        return Ok(());
    }
    write!(out, "(")?;
    for id in list {
        write!(out, "{} ∷ ", id.number())?;
    }
    write!(out, "[])")?;
    Ok(())
}

fn print_bytes<W: Write>(bytes: &[u8], out: &mut W) -> Result<(), TableError> {
    write!(out, "(codes \"")?;
    out.write_all(bytes)?;
    write!(out, "\")")?;
    Ok(())
}

fn print_position<W: Write>(position: Position, out: &mut W) -> Result<(), TableError> {
    write!(
        out,
        "(at {} {} {})",
        position.file, position.line, position.col
    )?;
    Ok(())
}
