//! The types of the nodes of a program, and what breaks the rules on types: the pass over all nodes.

ghost use Rattle.std.specs.Prelude.{◌≡◌, ◌++◌, None, IfOk, OnOk, slice_get};
ghost use Rattle.scj_tree.specs.Recursion.{lookup};
ghost use Rattle.scj_rules.specs.Words.{found_at};
ghost use Rattle.scj_rules.specs.Contexts.{declarations_of};
ghost use Rattle.scj_rules.specs.TypeRules.{types_in, type_breaks, type_of_next};
ghost use Rattle.scj_rules.specs.Phases.{BreaksTypeRules};
ghost use Rattle.scj_rules.specs.Report.{IsReport};
ghost use Rattle.program_facts.specs.Meanings.{AreMeanings};
ghost use Rattle.type_words.specs.Returns.{all_returns};

use crate::kinds::type_of_kind;
use crate::nodes::judge;
use crate::rows::filled;
use program_facts::{At, NodeMeaning, ProgramFacts};
use scj_base::{Found, Memory, NodeId};
use scj_rules::{Ty, put_in_order};
use std::alloc::Global;
use type_words::returning;

/// The type of the node of a number, from the types and the rows of the nodes before it. Notes what is broken there, and
/// keeps what the node stands for; a node at which something is broken has no type. The kind of the node is looked at
/// first, since many nodes break no rule and have none or the same type.
#[tactic(auto, unfolding(scj_rules::specs::TypeRules::type_of_next, scj_rules::specs::Contexts::declarations_of), using(crate::proofs::KindLemmas::none_of_kind, crate::proofs::KindLemmas::typed_by_kind, crate::proofs::PassLemmas::broken_type, crate::proofs::PassLemmas::right_type))]
fn next_type(
    found: &mut Vec<Found>,
    facts: &ProgramFacts<'_>,
    rows: &mut Vec<NodeMeaning>,
    types: &[Option<Ty>],
    returns: &[bool],
    id: NodeId,
) -> Result<Option<Ty>, Memory>
    requires rows { AreMeanings facts.now rows.old.items }
    requires returns { returns.now ≡ all_returns facts.now.nodes }
    ensures type_of { IfOk result (λ t. t ≡ type_of_next (declarations_of facts.now) id (lookup None types.now)) }
    ensures found { OnOk result (found.new.items ≡ found.old.items ++ found_at
        (slice_get facts.now.nodes id) (type_breaks (declarations_of facts.now) (lookup None types.now) id)) }
    ensures rows { OnOk result (AreMeanings facts.now rows.new.items) }
{
    if let Some(t) = type_of_kind(&facts.program().kind(id)) {
        return Ok(t);
    }
    let Some(node) = facts.program().get(id) else {
        return Ok(None);
    };
    let count = found.len();
    let at = At {
        facts,
        types,
        scopes: &[],
        id,
    };
    let t = judge(found, &at, returns, rows, node)?;
    if found.len() > count {
        return Ok(None);
    }
    Ok(t)
}

/// The types of all nodes, what breaks the rules on types, in the order of a report, and what simple names, accesses
/// and calls stand for, which later phases ask too. What is broken at a node hangs on the types of those before it
/// alone, so one pass tells all three.
pub fn check_types(
    alloc: Global,
    facts: &ProgramFacts<'_>,
) -> Result<(Vec<Option<Ty>>, Vec<Found>, Vec<NodeMeaning>), Memory>
    ensures types { IfOk result (λ r. r.0.items ≡ types_in (declarations_of facts.now)) }
    ensures report { IfOk result (λ r. IsReport (BreaksTypeRules facts.now) r.1.items) }
    ensures rows { IfOk result (λ r. AreMeanings facts.now r.2.items) }
{
    let program = facts.program();
    let returns = returning(alloc, program)?;
    let mut types = Vec::with_capacity(alloc, program.len())?;
    let mut rows = filled(alloc, NodeMeaning::Nothing, program.len())?;
    let mut found = Vec::new(alloc);
    for number in 0..program.len() {
        let id = NodeId::at(number as u32);
        let t = next_type(&mut found, facts, &mut rows, &types, &returns, id)?;
        types.push(t)?;
    }
    put_in_order(&mut found);
    Ok((types, found, rows))
}
