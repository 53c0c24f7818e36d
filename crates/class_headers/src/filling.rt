//! The table of the headers of the classes of a program.

ghost use Rattle.std.specs.Prelude.{◌≡◌, ◌++◌, map, filter_map, option_map, IfOk};
ghost use Rattle.scj_builtins.specs.Framework.{framework_classes};
ghost use Rattle.scj_rules.specs.Views.{class_at};
ghost use Rattle.class_headers.specs.declared.filling.Header.{Header as Row};
ghost use Rattle.class_headers.specs.Rows.{framework_header, header_by, interfaces_at};
ghost use Rattle.class_headers.specs.NamedNumbers.{found_under};

use crate::named_numbers::NamedNumbers;
use crate::names::{index_of, names_of};
use crate::parts::{user_header, user_interfaces};
use crate::ways::{Way, ends, ways_in};
use scj_base::ids::OBJECT;
use scj_base::{ClassId, Memory, NodeId};
use scj_builtins::{ClassKind, FrameworkClass, framework_classes};
use scj_tree::{Program, class_ids};
use std::alloc::{AllocError, Global};
use std::marker::Model;

/// A class as it is written.
#[derive(Clone, Copy, Debug)]
pub struct Header {
    /// The node of a user class.
    pub node: Option<NodeId>,
    /// Its kind.
    pub kind: ClassKind,
    /// The superclass.
    pub superclass: Option<ClassId>,
    /// Its first constructor.
    pub constructor: Option<NodeId>,
}

/// The classes of a program as they are written: the program with the table of their headers. A contract sees the
/// program.
#[derive(Drop)]
pub struct Headers<'a> {
    pub(crate) program: &'a Program,
    /// The class of each name.
    pub(crate) names: NamedNumbers,
    /// The classes, each at its number.
    pub(crate) rows: Vec<Header>,
    /// The interfaces of each class.
    pub(crate) interfaces: Vec<Vec<ClassId>>,
    /// Whether the superclasses come back to the class.
    pub(crate) cyclic: Vec<bool>,
    /// A way from each class that meets all that is on its chain.
    pub(crate) ways: Vec<Way>,
}

impl<'a> Model for Headers<'a> {
    ghost use Rattle.scj_tree.specs.Forest.{Forest};

    ghost Value = { Forest };

    ghost use Rattle.class_headers.specs.Columns.{IsHeadersOf};

    ghost view = { λ a. a.program.now };

    ghost invariant = { λ a. IsHeadersOf a.program.now a };
}

/// The header of a framework class.
#[tactic(auto, unfolding(crate::specs::Rows::header_of, scj_rules::specs::Classes::framework_row))]
fn framework_header(class: &FrameworkClass) -> Header
    ensures { result ≡ framework_header class.now }
{
    let superclass = if class.number == OBJECT {
        None
    } else {
        Some(OBJECT)
    };
    Header {
        node: None,
        kind: class.kind,
        superclass,
        constructor: None,
    }
}

/// The headers of the framework's classes.
fn framework_headers(alloc: Global) -> Result<Vec<Header>, AllocError>
    ensures { IfOk result (λ headers. headers.items ≡ map framework_header framework_classes) }
{
    framework_classes()
        .iter()
        .map(|class| framework_header(class))
        .collect(alloc)
}

/// The headers of the classes at these nodes.
fn user_headers(
    alloc: Global,
    program: &Program,
    names: &NamedNumbers,
    ids: &[NodeId],
) -> Result<Vec<Header>, AllocError>
    ensures { IfOk result (λ headers. headers.items ≡ filter_map
        (λ id. option_map (header_by program.now.nodes (found_under names.now)) (class_at program.now.nodes id))
        ids.now) }
{
    ids.iter()
        .filter_map(|id| user_header(program, names, *id))
        .collect(alloc)
}

/// The headers of the framework's classes and of those at these nodes.
fn headers_of(
    alloc: Global,
    program: &Program,
    names: &NamedNumbers,
    ids: &[NodeId],
) -> Result<Vec<Header>, Memory>
    ensures { IfOk result (λ headers. headers.items ≡ map framework_header framework_classes ++ filter_map
        (λ id. option_map (header_by program.now.nodes (found_under names.now)) (class_at program.now.nodes id))
        ids.now) }
{
    let mut headers = framework_headers(alloc)?;
    let users = user_headers(alloc, program, names, ids)?;
    headers.extend_from_slice(&users)?;
    Ok(headers)
}

/// The interfaces of the class at a node, and none of no class.
#[tactic(auto, unfolding(crate::specs::Rows::interfaces_at))]
fn interfaces(
    alloc: Global,
    program: &Program,
    names: &NamedNumbers,
    node: Option<NodeId>,
) -> Result<Vec<ClassId>, Memory>
    ensures { IfOk result (λ found. found.items ≡ interfaces_at program.now.nodes (found_under names.now) node) }
{
    match node {
        Some(node) => {
            let found = user_interfaces(alloc, program, names, node)?;
            Ok(found)
        }
        None => Ok(Vec::new(alloc)),
    }
}

/// The interfaces of the classes that have these headers.
#[tactic(auto, using(std::proofs::lemmas::List::map_push))]
fn interfaces_of(
    alloc: Global,
    program: &Program,
    names: &NamedNumbers,
    rows: &[Header],
) -> Result<Vec<Vec<ClassId>>, Memory>
    ensures { IfOk result (λ lists. map (λ v. v.items) lists.items
        ≡ map (λ (h : Row). interfaces_at program.now.nodes (found_under names.now) h.node) rows.now) }
{
    let mut lists = Vec::new(alloc);
    for row in rows {
        let found = interfaces(alloc, program, names, row.node)?;
        lists.push(found)?;
    }
    Ok(lists)
}

/// The headers of the classes of a program.
pub fn headers_in<'a>(alloc: Global, program: &'a Program) -> Result<Headers<'a>, Memory>
    ensures { IfOk result (λ headers. headers ≡ program.now) }
{
    let ids = class_ids(alloc, program)?;
    let all = names_of(alloc, program, &ids)?;
    let names = index_of(alloc, &all)?;
    let rows = headers_of(alloc, program, &names, &ids)?;
    let interfaces = interfaces_of(alloc, program, &names, &rows)?;
    let ways = ways_in(alloc, &rows, &interfaces)?;
    let cyclic = ends(alloc, &ways)?;
    Ok(Headers {
        program,
        names,
        rows,
        interfaces,
        cyclic,
        ways,
    })
}
