//! The operations of all bodies as one list.

ghost use Rattle.std.specs.Prelude.{◌≡◌, ◌<◌, ◌∷◌, [], IfOk, IfSome, IfNone, Option, length, option_and_then, slice_get};
ghost use Rattle.scj_rules.specs.declared.views.Body.TheVariants.{Empty};
ghost use Rattle.scj_model.specs.Code.{code_of};
ghost use Rattle.op_list.specs.declared.bodies.BodyRow.{BodyRow as RowOfBody};
ghost use Rattle.op_list.specs.Instructions.{instruction_of};
ghost use Rattle.op_list.specs.Listed.{AreGood, IsBodyAmong, IsBodyRow, IsListed};
ghost use Rattle.op_list.specs.Rows.{rest_at, GoesBy, IsLonger};

use crate::bodies::{BodyRow, lay_body};
use crate::code::Code;
use crate::rows::Row;
use crate::single_rows::{lay_empty, put_row};
use scj_base::{Memory, NodeId};
use scj_model::Op;
use scj_rules::Body;
use std::alloc::Global;
use std::marker::Model;

/// The operations of all bodies of a program. What is left of a body is told by a place in the
/// list; at place 0 nothing is.
#[derive(Drop)]
pub struct OpList<'a> {
    code: Code<'a>,
    rows: Vec<Row>,
    bodies: Vec<Option<BodyRow>>,
    empty: BodyRow,
}

impl<'a> Model for OpList<'a> {
    ghost use Rattle.op_list.specs.Listed.{Listing, IsListing};

    ghost Value = { Listing };

    ghost view = { λ a. record {
      program = a.code;
      rows = a.rows.items;
      bodies = a.bodies.items;
      empty = a.empty;
    } };

    ghost invariant = { λ a. IsListing (record {
      program = a.code;
      rows = a.rows.items;
      bodies = a.bodies.items;
      empty = a.empty;
    }) };
}

/// Lays out what stands first: the row of place 0, and the framework's empty body.
fn lay_first(code: &Code<'_>, rows: &mut Vec<Row>) -> Result<BodyRow, Memory>
    requires { rows.old.items ≡ [] }
    ensures listed { IfOk result (λ row. IsListed (code_of code.now) rows.new.items []) }
    ensures inside { IfOk result (λ row. row.start < length rows.new.items) }
    ensures empty { IfOk result (λ row. IsBodyRow (code_of code.now) rows.new.items Empty row) }
{
    let _end = put_row(code, rows, &Op::Leave, 0, 0, 0)?;
    let start = lay_empty(code, rows)?;
    Ok(BodyRow {
        start,
        locals: 0,
        is_synchronized: false,
    })
}

/// What is listed of a node.
fn listed_at(bodies: &[Option<BodyRow>], node: NodeId) -> Option<BodyRow>
    ensures { result ≡ option_and_then (λ (listed : Option RowOfBody). listed) (slice_get bodies.now node) }
{
    match bodies.get(node.number()) {
        Some(listed) => *listed,
        None => None,
    }
}

/// The row at a place.
fn read(rows: &[Row], index: usize) -> Option<Row>
    ensures { result ≡ slice_get rows.now index }
{
    match rows.get(index) {
        Some(row) => Some(*row),
        None => None,
    }
}

/// The row at a place, if an operation is left there.
#[inline]
fn row_at(code: &Code<'_>, rows: &[Row], index: u32) -> Option<Row>
    requires { AreGood (code_of code.now) rows.now }
    ensures some { IfSome result (λ row. rest_at rows.now index ≡ row.op ∷ rest_at rows.now row.next) }
    ensures none { IfNone result (rest_at rows.now index ≡ []) }
    ensures asks { IfSome result (λ row. row.instruction ≡ instruction_of (code_of code.now) row.op) }
    ensures goes { IfSome result (λ row. GoesBy (code_of code.now) rows.now row row.next) }
{
    if index == 0 {
        return None;
    }
    match read(rows, index as usize) {
        None => None,
        Some(row) => Some(row),
    }
}

/// Lays out all bodies.
fn lay_bodies(
    alloc: Global,
    code: &Code<'_>,
    rows: &mut Vec<Row>,
) -> Result<Vec<Option<BodyRow>>, Memory>
    requires { IsListed (code_of code.now) rows.old.items [] }
    ensures listed { IfOk result (λ bodies. IsListed (code_of code.now) rows.new.items bodies.items) }
    ensures longer { IfOk result (λ bodies. IsLonger (code_of code.now) rows.old.items rows.new.items) }
    ensures all { IfOk result (λ bodies. length bodies.items ≡ length code.now.nodes) }
{
    let count = code.node_count();
    let mut bodies = Vec::new(alloc);
    while bodies.len() < count {
        let id = NodeId::at(bodies.len() as u32);
        let body = lay_body(code, rows, id)?;
        bodies.push(body)?;
    }
    Ok(bodies)
}

impl<'a> OpList<'a> {
    /// The operations of all bodies of a program.
    pub fn of(alloc: Global, code: Code<'a>) -> Result<OpList<'a>, Memory>
        ensures { IfOk result (λ list. list.program ≡ code.entry) }
    {
        let mut rows = Vec::new(alloc);
        let empty = lay_first(&code, &mut rows)?;
        let bodies = lay_bodies(alloc, &code, &mut rows)?;
        Ok(OpList {
            code,
            rows,
            bodies,
            empty,
        })
    }

    /// The code whose operations these are.
    pub fn code(&self) -> &Code<'a>
        ensures { result.now ≡ self.now.program }
    {
        &self.code
    }

    /// What calls of a body ask. There is nothing of a node that names no body.
    pub fn body(&self, body: Body) -> Option<BodyRow>
        ensures some { IfSome result (λ row.
            IsBodyRow (code_of self.now.program) self.now.rows body row) }
        ensures none { IfNone result (IsBodyAmong self.now.program.nodes body → ⊥) }
    {
        match body {
            Body::Written(node) => listed_at(self.bodies.as_slice(), node),
            Body::Empty => Some(self.empty),
        }
    }

    /// The operation at a place, with what it asks and where it goes on, if one is left.
    #[inline]
    pub fn at(&self, index: u32) -> Option<Row>
        ensures some { IfSome result (λ row.
            rest_at self.now.rows index ≡ row.op ∷ rest_at self.now.rows row.next) }
        ensures none { IfNone result (rest_at self.now.rows index ≡ []) }
        ensures asks { IfSome result (λ row.
            row.instruction ≡ instruction_of (code_of self.now.program) row.op) }
        ensures goes { IfSome result (λ row.
            GoesBy (code_of self.now.program) self.now.rows row row.next) }
    {
        row_at(&self.code, self.rows.as_slice(), index)
    }
}
