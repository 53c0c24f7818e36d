//! What each node of a program stands for.

ghost use Rattle.std.specs.Prelude.{◌≡◌, IfOk};
ghost use Rattle.node_contexts.specs.Numbers.{numbers_before};
ghost use Rattle.scj_rules.specs.Contexts.{declarations_of};
ghost use Rattle.scj_rules.specs.TypeRules.{types_in};
ghost use Rattle.scj_rules.specs.Bindings.{bindings_in};

use crate::kinds::binding_at;
use program_facts::ProgramFacts;
use scj_base::{Memory, NodeId};
use scj_rules::{Bindings, Ty};
use std::alloc::Global;

/// What each node stands for, by what is told of the program, the numbers of variables and the types of the nodes.
/// Numbers that fit no more are answered by want of memory: those of the 257th and later variables of a member, which
/// break a limit, and of 2,147,483,648 classes.
#[tactic(auto, unfolding(scj_tree::specs::Recursion::listed))]
pub fn bindings_of(
    alloc: Global,
    facts: &ProgramFacts<'_>,
    numbers: &[u32],
    types: &[Option<Ty>],
) -> Result<Bindings, Memory>
    requires numbers { numbers.now ≡ numbers_before (declarations_of facts.now) }
    requires types { types.now ≡ types_in (declarations_of facts.now) }
    ensures { IfOk result (λ bindings. bindings ≡ bindings_in (declarations_of facts.now)) }
{
    let program = facts.program();
    let mut bindings = Bindings::with_capacity(alloc, program.len())?;
    for number in 0..program.len() {
        let id = NodeId::at(number as u32);
        let b = binding_at(facts, numbers, types, id)?;
        bindings.add(b)?;
    }
    Ok(bindings)
}
