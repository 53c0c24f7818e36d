//! The values of the static fields before a run (JLS 4.12.5, 8.3.2).

ghost use Rattle.std.specs.Prelude.{◌≡◌, map, IfOk};
ghost use Rattle.scj_rules.specs.Layout.{static_fields};
ghost use Rattle.scj_model.specs.Code.{code_of};
ghost use Rattle.scj_model.specs.Run.{first_static};
ghost use Rattle.plain_machine.specs.Statics.{start_of, value_written};

use object_layout::StaticField;
use op_list::OpList;
use scj_base::{Memory, Value};
use scj_rules::Checked;
use std::alloc::Global;
use value_operators::{default_of, literal};

/// The value of a static field's literal, if it has one.
fn value_written(checked: &Checked, row: &StaticField) -> Option<Value>
    ensures { result ≡ value_written checked.now.program.nodes row.now }
{
    match row.literal {
        Some(node) => literal(checked, node),
        None => None,
    }
}

/// The value of a static field before the run.
fn start_of(checked: &Checked, row: &StaticField) -> Value
    ensures { result ≡ start_of checked.now.program.nodes row.now }
{
    match value_written(checked, row) {
        Some(value) => value,
        None => default_of(row.kind),
    }
}

/// The values of these static fields before the run.
fn starts_of(alloc: Global, checked: &Checked, rows: &[StaticField]) -> Result<Vec<Value>, Memory>
    ensures { IfOk result (λ values. values.items ≡ map (start_of checked.now.program.nodes) rows.now) }
{
    let mut values = Vec::new(alloc);
    let mut others = rows;
    while let [row, rest @ ..] = others {
        values.push(start_of(checked, row))?;
        others = rest;
    }
    Ok(values)
}

/// The values of all static fields before the run.
#[tactic(auto, using(crate::proofs::StaticLaws::statics_begin))]
pub(crate) fn first_statics(alloc: Global, code: &OpList<'_>) -> Result<Vec<Value>, Memory>
    ensures { IfOk result
        (λ values. values.items ≡ map (first_static (code_of code.now.program)) (static_fields (code_of code.now.program).program)) }
{
    starts_of(alloc, code.code().checked(), code.code().layout().statics())
}
