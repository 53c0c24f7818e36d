//! The tree of scopes and what is broken in it.

ghost use Rattle.std.specs.Prelude.{◌≡◌, length, IfOk};
ghost use Rattle.scj_tree.specs.Recursion.{listed};
ghost use Rattle.scj_rules.specs.Contexts.{declarations_of};
ghost use Rattle.scj_rules.specs.Phases.{BreaksScopeRules};
ghost use Rattle.scj_rules.specs.Report.{IsReport};
ghost use Rattle.scj_rules.specs.StaticScopes.{is_implied_immortal};
ghost use Rattle.program_facts.specs.Tables.{IsTreeOf, IsWholeTree, row_of};

use crate::rules::report_of;
use crate::scopes::{find_chained, find_class_scope, find_parent, is_implied_immortal};
use program_facts::{ProgramFacts, ScopeRow, ScopeTree};
use scj_base::{ClassId, Found, Memory};
use std::alloc::Global;

/// Whether the instances of each class lie in `IMMORTAL` although it doesn't write so.
#[tactic(auto, unfolding(scj_tree::specs::Recursion::listed))]
fn implied_of(alloc: Global, facts: &ProgramFacts) -> Result<Vec<bool>, Memory>
    ensures { IfOk result (λ implied. implied.items ≡ listed (is_implied_immortal (declarations_of facts.now))
        (length (declarations_of facts.now).classes)) }
{
    let mut implied = Vec::new(alloc);
    for number in 0..facts.class_count() {
        implied.push(is_implied_immortal(facts, ClassId::at(number as u32)))?;
    }
    Ok(implied)
}

/// What is said of each class.
#[tactic(auto, unfolding(scj_tree::specs::Recursion::listed, program_facts::specs::Tables::row_of))]
fn rows_of(alloc: Global, facts: &ProgramFacts) -> Result<Vec<ScopeRow>, Memory>
    ensures { IfOk result (λ rows. rows.items ≡ listed (row_of (declarations_of facts.now))
        (length (declarations_of facts.now).classes)) }
{
    let mut rows = Vec::new(alloc);
    for number in 0..facts.class_count() {
        let class = ClassId::at(number as u32);
        rows.push(ScopeRow {
            chained: find_chained(facts, class),
            parent: find_parent(facts, class),
            scope: find_class_scope(facts, class),
        })?;
    }
    Ok(rows)
}

/// The tree of the scopes of a program: first what is implied of classes, by which the rest is found.
#[tactic(auto, using(crate::proofs::TreeLemmas::rows_listed, crate::proofs::TreeLemmas::no_rows))]
fn tree_of(alloc: Global, facts: &ProgramFacts) -> Result<ScopeTree, Memory>
    ensures tree { IfOk result (λ tree. IsTreeOf facts.now tree) }
    ensures whole { IfOk result (λ tree. IsWholeTree facts.now tree) }
{
    let implied = implied_of(alloc, facts)?;
    let mut tree = ScopeTree {
        implied,
        rows: Vec::new(alloc),
    };
    let rows = rows_of(alloc, &facts.again().with_tree(&tree))?;
    tree.rows = rows;
    Ok(tree)
}

/// The tree of scopes of a program, and the breaks of the rules on it in the order of a report.
pub fn build(alloc: Global, facts: &ProgramFacts) -> Result<(ScopeTree, Vec<Found>), Memory>
    ensures tree { IfOk result (λ built. IsTreeOf facts.now built.0) }
    ensures whole { IfOk result (λ built. IsWholeTree facts.now built.0) }
    ensures found { IfOk result (λ built. IsReport (BreaksScopeRules facts.now) built.1.items) }
{
    let tree = tree_of(alloc, facts)?;
    let found = report_of(alloc, &facts.again().with_tree(&tree))?;
    Ok((tree, found))
}
