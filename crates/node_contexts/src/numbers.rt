//! The numbers of variables within their members.

ghost use Rattle.std.specs.Prelude.{◌≡◌, ◌+◌, ◌<◌, ℕ, IfOk, OnOk, length, set, replicate};
ghost use Rattle.scj_tree.specs.Recursion.{lookup};
ghost use Rattle.scj_rules.specs.Bodies.{locals};
ghost use Rattle.scj_rules.specs.Contexts.{declarations_of, contexts_in};
ghost use Rattle.node_contexts.specs.Numbers.{owner_of, number_before, numbers_before, AreCounted};

use crate::contexts::Contexts;
use node_views::is_variable;
use scj_base::{Memory, NodeId};
use scj_tree::Program;
use std::alloc::Global;

/// The member whose parameter or local a node declares.
#[tactic(auto, unfolding(scj_rules::specs::Contexts::declarations_of))]
pub fn owner_of(program: &Program, contexts: &Contexts, id: NodeId) -> Option<NodeId>
    requires { contexts.now ≡ contexts_in program.now }
    ensures { result ≡ owner_of (declarations_of program.now) id }
{
    if is_variable(program, id) {
        return contexts.get(id).member;
    }
    None
}

/// No variable is counted yet.
#[tactic(auto, using(crate::proofs::CountLemmas::none_counted))]
fn none_counted(alloc: Global, program: &Program) -> Result<Vec<u32>, Memory>
    ensures { IfOk result (λ counts. AreCounted (declarations_of program.now) 0 counts.items) }
{
    let counts = zeros(alloc, program.len())?;
    Ok(counts)
}

/// So many zeros.
fn zeros(alloc: Global, count: usize) -> Result<Vec<u32>, Memory>
    ensures { IfOk result (λ counts. counts.items ≡ replicate count 0) }
{
    Ok(vec![in alloc; 0; count]?)
}

/// Counts a variable of a member, and tells how many were counted before.
fn count_one(counts: &mut Vec<u32>, member: NodeId) -> Result<u32, Memory>
    ensures within { OnOk result (member < length counts.old.items) }
    ensures value { IfOk result (λ number. number ≡ lookup 0 counts.old.items member) }
    ensures counts { OnOk result
        (counts.new.items ≡ set counts.old.items member (lookup 0 counts.old.items member + 1)) }
{
    let index = member.number();
    if index >= counts.len() {
        return Err(Memory);
    }
    let number = counts[index];
    if number == u32::MAX {
        return Err(Memory);
    }
    counts[index] = number + 1;
    Ok(number)
}

/// Counts a node, and tells how many variables of its member stand before it, if it declares one.
#[tactic(auto, using(crate::proofs::CountLemmas::none_more, crate::proofs::CountLemmas::one_more), unfolding(crate::specs::Numbers::number_before))]
fn count(
    program: &Program,
    contexts: &Contexts,
    counts: &mut Vec<u32>,
    id: NodeId,
) -> Result<u32, Memory>
    requires contexts { contexts.now ≡ contexts_in program.now }
    requires counted { AreCounted (declarations_of program.now) id counts.old.items }
    ensures value { IfOk result (λ number. number ≡ number_before (declarations_of program.now) id) }
    ensures counted { OnOk result (AreCounted (declarations_of program.now) (id + 1) counts.new.items) }
{
    match owner_of(program, contexts, id) {
        Some(member) => {
            let number = count_one(counts, member)?;
            Ok(number)
        }
        None => Ok(0),
    }
}

/// The number of each variable within its member, and how many variables each member has.
#[tactic(auto, using(scj_tree::proofs::RecursionLemmas::listed_more, crate::proofs::CountLemmas::all_counted), unfolding(scj_tree::specs::Recursion::listed, crate::specs::Numbers::numbers_before, scj_rules::specs::Contexts::declarations_of))]
pub fn count_variables(
    alloc: Global,
    program: &Program,
    contexts: &Contexts,
) -> Result<(Vec<u32>, Vec<u32>), Memory>
    requires { contexts.now ≡ contexts_in program.now }
    ensures numbers { IfOk result (λ all. all.0.items ≡ numbers_before (declarations_of program.now)) }
    ensures counts { IfOk result
        (λ all. (member : ℕ) → lookup 0 all.1.items member ≡ locals (declarations_of program.now) member) }
{
    let mut numbers = zeros(alloc, program.len())?;
    let mut counts = none_counted(alloc, program)?;
    for index in 0..program.len() {
        let number = count(program, contexts, &mut counts, NodeId::at(index as u32))?;
        numbers[index] = number;
    }
    Ok((numbers, counts))
}

/// The number of each variable alone.
pub fn number_variables(
    alloc: Global,
    program: &Program,
    contexts: &Contexts,
) -> Result<Vec<u32>, Memory>
    requires { contexts.now ≡ contexts_in program.now }
    ensures { IfOk result (λ numbers. numbers.items ≡ numbers_before (declarations_of program.now)) }
{
    let (numbers, _counts) = count_variables(alloc, program, contexts)?;
    Ok(numbers)
}
