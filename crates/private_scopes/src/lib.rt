//! The scopes that the chains of classes define, as a machine is given them.
#![tactic(auto)]

ghost use Rattle.std.specs.Prelude.{◌≡◌, IfOk};
ghost use Rattle.scj_rules.specs.Contexts.{contexts_in, declarations_of};
ghost use Rattle.class_rows.specs.Tables.{AreChainedScopes};
ghost use Rattle.program_facts.specs.Tables.{IsNaming};

use class_rows::ClassTable;
use node_contexts::Contexts;
use program_facts::{ProgramFacts, ScopeNames};
use scj_base::{ClassId, Memory, ScopeId};
use scope_tree::scopes::defined_by_chain;
use scope_tree::{build, names_of};
use std::alloc::Global;

/// The scope that the chain of each class defines, from what is known of the program.
#[tactic(auto, unfolding(scj_tree::specs::Recursion::listed))]
fn chained(alloc: Global, facts: &ProgramFacts) -> Result<Vec<Option<ScopeId>>, Memory>
    ensures { IfOk result (λ scopes. AreChainedScopes facts.now scopes.items) }
{
    let mut scopes = Vec::new(alloc);
    for number in 0..facts.class_count() {
        scopes.push(defined_by_chain(facts, ClassId::at(number as u32)))?;
    }
    Ok(scopes)
}

/// The scope that the chain of each class defines, by the tree of the scopes.
fn scopes_by_tree(
    alloc: Global,
    classes: &ClassTable,
    contexts: &Contexts,
    names: &ScopeNames,
) -> Result<Vec<Option<ScopeId>>, Memory>
    requires contexts { contexts.now ≡ contexts_in classes.now }
    requires names { IsNaming (declarations_of classes.now) names.now }
    ensures { IfOk result (λ scopes. AreChainedScopes classes.now scopes.items) }
{
    let facts = ProgramFacts::new(classes, contexts, names);
    let (tree, _found) = build(alloc, &facts)?;
    chained(alloc, &facts.with_tree(&tree))
}

/// The scope that the chain of each class defines, at the number of the class (JSR 302: DefineScope).
pub fn private_scopes(alloc: Global, classes: &ClassTable) -> Result<Vec<Option<ScopeId>>, Memory>
    ensures { IfOk result (λ scopes. AreChainedScopes classes.now scopes.items) }
{
    let contexts = Contexts::of(alloc, classes.program())?;
    let names = names_of(alloc, classes)?;
    scopes_by_tree(alloc, classes, &contexts, &names)
}
