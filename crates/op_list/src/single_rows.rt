//! Single rows.

ghost use Rattle.std.specs.Prelude.{◌≡◌, ◌<◌, ◌++◌, ◌∷◌, [], IfOk, length, slice_set};
ghost use Rattle.scj_model.specs.declared.operations.Op.TheVariants.{Leave as LEAVE};
ghost use Rattle.scj_model.specs.Code.{code_of};
ghost use Rattle.op_list.specs.declared.choices.Choice.TheVariants.{Plain};
ghost use Rattle.op_list.specs.Choices.{choice_of};
ghost use Rattle.op_list.specs.Rows.{row_of, IsLaid};

use crate::code::Code;
use crate::resolving::instruction_of;
use crate::rows::Row;
use scj_base::Memory;
use scj_model::Op;

/// Puts the row of an operation last, which goes on at these places, and tells its place.
pub fn put_row(
    code: &Code<'_>,
    rows: &mut Vec<Row>,
    op: &Op,
    next: u32,
    if_true: u32,
    if_false: u32,
) -> Result<u32, Memory>
    ensures index { IfOk result (λ index. index ≡ length rows.old.items) }
    ensures put { IfOk result (λ index.
        rows.new.items ≡ rows.old.items ++ row_of (code_of code.now) op.now next if_true if_false ∷ []) }
{
    let index = rows.len();
    if index >= u32::MAX as usize {
        return Err(Memory);
    }
    rows.push(Row {
        op: *op,
        instruction: instruction_of(code, op),
        next,
        if_true,
        if_false,
    })?;
    Ok(index as u32)
}

/// Puts the row of a loop's operation in the place of one: it goes on at its turn if its condition is true.
pub fn set_row(code: &Code<'_>, rows: &mut Vec<Row>, index: u32, op: &Op, next: u32, turn: u32)
    requires { index < length rows.old.items }
    ensures { rows.new.items ≡ slice_set rows.old.items index (row_of (code_of code.now) op.now next turn next) }
{
    rows[index as usize] = Row {
        op: *op,
        instruction: instruction_of(code, op),
        next,
        if_true: turn,
        if_false: next,
    };
}

/// Lays out an operation that puts nothing in front of the rest.
pub fn lay_plain(code: &Code<'_>, rows: &mut Vec<Row>, op: Op, next: u32) -> Result<u32, Memory>
    requires plain { choice_of code.now.nodes op ≡ Plain }
    requires inside { next < length rows.old.items }
    ensures { IfOk result (λ start.
        IsLaid (code_of code.now) rows.old.items rows.new.items (op ∷ []) next start) }
{
    let start = put_row(code, rows, &op, next, next, next)?;
    Ok(start)
}

/// Lays out the framework's empty body, which is left at once.
pub fn lay_empty(code: &Code<'_>, rows: &mut Vec<Row>) -> Result<u32, Memory>
    requires { 0 < length rows.old.items }
    ensures { IfOk result (λ start.
        IsLaid (code_of code.now) rows.old.items rows.new.items (LEAVE ∷ []) 0 start) }
{
    let start = lay_plain(code, rows, Op::Leave, 0)?;
    Ok(start)
}
