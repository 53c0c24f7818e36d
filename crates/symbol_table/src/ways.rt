//! The way from one class to another.

ghost use Rattle.std.specs.Prelude.{◌≡◌, OnOk};
ghost use Rattle.symbol_table.specs.Scopes.{classes_of, rows_of, IsEntered, IsScope, IsUnder};

use crate::levels::{Level, Path, level_under};
use crate::scopes::{Entered, Scope};
use class_rows::ClassTable;
use scj_base::{ClassId, Memory};
use std::alloc::Global;

/// Whether a class is the nearest of a path, or is none where the path has none.
fn is_nearest(path: &Path, class: &Option<ClassId>) -> bool {
    path.nearest().map(|level| level.class) == *class
}

/// Leaves classes until this one is the nearest, or none is left.
#[tactic(auto, using(crate::proofs::ReportedLemmas::some_nearest))]
fn climb(entered: &mut Entered, classes: &ClassTable, class: &Option<ClassId>) -> Result<(), Memory>
    requires { IsEntered classes.now entered.old }
    ensures { OnOk result (IsEntered classes.now entered.new) }
{
    while let Some(nearest) = entered.path.nearest() {
        if *class == Some(nearest.class) {
            return Ok(());
        }
        entered.pop(classes)?;
    }
    Ok(())
}

/// The classes above a class, the nearest first.
fn chain_above(
    alloc: Global,
    classes: &ClassTable<'_>,
    class: ClassId,
) -> Result<Vec<ClassId>, Memory> {
    let mut above = Vec::new(alloc);
    let mut chain = classes.classes_above(class);
    while let Some(at) = chain.next() {
        above.push(at)?;
    }
    Ok(above)
}

/// Enters these classes, the last first.
fn descend(entered: &mut Entered, classes: &ClassTable<'_>, chain: &[ClassId]) -> Result<(), Memory>
    requires { IsEntered classes.now entered.old }
    ensures { OnOk result (IsEntered classes.now entered.new) }
{
    for k in 0..chain.len() {
        let level = level_under(classes, &entered.path, chain[chain.len() - 1 - k])?;
        entered.push(classes, level)?;
    }
    Ok(())
}

/// Enters the classes above a class and leaves all others, from a class that stands under those that are entered.
fn arrive(
    alloc: Global,
    entered: &mut Entered,
    classes: &ClassTable<'_>,
    from: Level,
    class: ClassId,
) -> Result<(), Memory>
    requires entered { IsEntered classes.now entered.old }
    requires from { IsUnder (rows_of classes.now) from (classes_of entered.old.path) }
    ensures { OnOk result (IsEntered classes.now entered.new) }
{
    let above = classes.superclass(class);
    if above == Some(from.class) {
        return entered.push(classes, from);
    }
    climb(entered, classes, &above)?;
    if !is_nearest(&entered.path, &above) {
        let chain = chain_above(alloc, classes, class)?;
        descend(entered, classes, chain.as_slice())?;
    }
    Ok(())
}

/// Goes to a class, and tells what stands above it. The members of a class are entered once for all that stand right
/// under it, where these follow.
pub fn go(
    alloc: Global,
    scope: &mut Scope,
    classes: &ClassTable<'_>,
    class: ClassId,
) -> Result<(), Memory>
    requires { IsScope classes.now scope.old }
    ensures scope { OnOk result (IsScope classes.now scope.new) }
    ensures at { OnOk result (scope.new.level.class ≡ class) }
{
    let from = scope.level;
    arrive(alloc, &mut scope.above, classes, from, class)?;
    let level = level_under(classes, &scope.above.path, class)?;
    scope.above.fields.report(level.class)?;
    scope.above.methods.report(level.class)?;
    scope.level = level;
    Ok(())
}
