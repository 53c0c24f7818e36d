//! The table of the classes, and the report of the rules on classes and members.

ghost use Rattle.std.specs.Prelude.{◌≡◌, IfOk};
ghost use Rattle.node_contexts.specs.Numbers.{numbers_before};
ghost use Rattle.scj_rules.specs.Contexts.{contexts_in, declarations_of};
ghost use Rattle.scj_rules.specs.Phases.{BreaksClassRules};
ghost use Rattle.scj_rules.specs.Report.{IsReport};

use crate::classes::{in_order, note_classes};
use class_rows::ClassTable;
use class_rules::safelets::note_c8;
use node_contexts::Contexts;
use node_rules::nodes::note_nodes;
use scj_base::{Found, Memory};
use scj_rules::put_in_order;
use scj_tree::Program;
use std::alloc::Global;

/// The table of the classes of a program, and the breaks of the rules on classes and members and of the limits, in the
/// order of a report; by the contexts of its nodes and the numbers of its variables, which later phases ask too.
#[tactic(auto, using(crate::proofs::ClassLemmas::is_report))]
pub fn build<'a>(
    alloc: Global,
    program: &'a Program,
    contexts: &Contexts,
    numbers: &[u32],
) -> Result<(ClassTable<'a>, Vec<Found>), Memory>
    requires contexts { contexts.now ≡ contexts_in program.now }
    requires numbers { numbers.now ≡ numbers_before (declarations_of program.now) }
    ensures table { IfOk result (λ built. built.0 ≡ program.now) }
    ensures report { IfOk result (λ built. IsReport (BreaksClassRules program.now) built.1.items) }
{
    let mut table = ClassTable::of(alloc, program)?;
    let order = in_order(alloc, &table)?;
    table.report_ancestries(alloc, &order)?;
    let mut found = Vec::new(alloc);
    note_c8(&mut found, &table)?;
    let (inherited, fields, methods) = note_classes(alloc, &mut found, &table, &order)?;
    table.keep(inherited, fields, methods);
    note_nodes(&mut found, &table, contexts, numbers)?;
    put_in_order(&mut found);
    Ok((table, found))
}
