//! The phases of a check of a program: classes and limits, types, scopes, and annotations with uses.

ghost use Rattle.std.specs.Prelude.{◌≡◌, None, IfOk};
ghost use Rattle.node_contexts.specs.Numbers.{numbers_before};
ghost use Rattle.scj_rules.specs.Contexts.{declarations_of};
ghost use Rattle.scj_rules.specs.Phases.{NothingBreaks, Reports, BreaksClassRules, BreaksTypeRules, BreaksUseRules};
ghost use Rattle.scj_rules.specs.Report.{IsReport};
ghost use Rattle.scj_rules.specs.TypeRules.{types_in};
ghost use Rattle.scj_check.specs.Verdicts.{IsJudgement};

use class_table::build;
use node_bindings::bindings_of;
use node_contexts::Contexts;
use node_contexts::numbers::number_variables;
use program_facts::ProgramFacts;
use runs_in_check::check_uses;
use scj_base::{Found, Memory};
use scj_rules::{Bindings, Ty};
use scj_tree::Program;
use scope_tree::names_of;
use static_scopes::{runs_of, variables_of};
use std::alloc::Global;
use type_check::check_types;

/// What the phases leave of a program.
#[derive(Drop)]
pub enum Judgement {
    /// All breaks of the first phase that has any.
    Broken(Vec<Found>),
    /// No break, and what the nodes stand for.
    Right(Bindings),
}

/// Judges a program, phase after phase. What several phases ask is told by its facts, of which each phase makes a part.
#[tactic(auto, using(scj_rules::proofs::VerdictLemmas::reported_of_classes))]
pub fn judge(alloc: Global, program: &Program) -> Result<Judgement, Memory>
    ensures { IfOk result (λ judgement. IsJudgement program.now judgement) }
{
    let contexts = Contexts::of(alloc, program)?;
    let numbers = number_variables(alloc, program, &contexts)?;
    let (table, found) = build(alloc, program, &contexts, &numbers)?;
    if found.len() > 0 {
        return Ok(Judgement::Broken(found));
    }
    let names = names_of(alloc, &table)?;
    Ok(judge_types(
        alloc,
        &ProgramFacts::new(&table, &contexts, &names),
        &numbers,
    )?)
}

/// Judges a program that breaks no rule on classes.
#[tactic(auto, using(scj_rules::proofs::VerdictLemmas::reported_of_types, crate::proofs::VerdictLaws::accepted_of))]
fn judge_types(
    alloc: Global,
    facts: &ProgramFacts<'_>,
    numbers: &[u32],
) -> Result<Judgement, Memory>
    requires right { NothingBreaks (BreaksClassRules facts.now) }
    requires numbers { numbers.now ≡ numbers_before (declarations_of facts.now) }
    ensures { IfOk result (λ judgement. IsJudgement facts.now judgement) }
{
    let (types, found, rows) = check_types(alloc, facts)?;
    if found.len() > 0 {
        return Ok(Judgement::Broken(found));
    }
    let facts = facts.again().with_meanings(&rows);
    let late = late_report(alloc, &facts, &types)?;
    if late.len() > 0 {
        return Ok(Judgement::Broken(late));
    }
    let bindings = bindings_of(alloc, &facts, numbers, &types)?;
    Ok(Judgement::Right(bindings))
}

/// The report of a program that breaks no rule of the phases before the scopes.
#[tactic(auto, using(scj_rules::proofs::VerdictLemmas::reported_of_scopes))]
fn late_report(
    alloc: Global,
    facts: &ProgramFacts<'_>,
    types: &[Option<Ty>],
) -> Result<Vec<Found>, Memory>
    requires right_classes { NothingBreaks (BreaksClassRules facts.now) }
    requires right_types { NothingBreaks (BreaksTypeRules facts.now) }
    requires types { types.now ≡ types_in (declarations_of facts.now) }
    ensures { IfOk result (λ found. Reports facts.now None found.items) }
{
    let (tree, found) = scope_tree::build(alloc, facts)?;
    if found.len() > 0 {
        return Ok(found);
    }
    Ok(report_of_uses(alloc, &facts.again().with_tree(&tree), types)?)
}

/// The report of annotations and uses. What is made for it alone is given back at its end.
fn report_of_uses(
    alloc: Global,
    facts: &ProgramFacts<'_>,
    types: &[Option<Ty>],
) -> Result<Vec<Found>, Memory>
    requires { types.now ≡ types_in (declarations_of facts.now) }
    ensures { IfOk result (λ found. IsReport (BreaksUseRules facts.now) found.items) }
{
    let runs = runs_of(alloc, facts)?;
    let facts = facts.again().with_runs(&runs);
    let variables = variables_of(alloc, &facts)?;
    Ok(check_uses(alloc, &facts.again().with_variables(&variables), types)?)
}
