//! What stands for a variable: its number within its member.

ghost use Rattle.std.specs.Prelude.{◌≡◌, ◌==◌, IfOk, position};
ghost use Rattle.scj_rules.specs.Bindings.{variable_binding};
ghost use Rattle.scj_rules.specs.Contexts.{declarations_of};
ghost use Rattle.scj_rules.specs.LimitRules.{is_variable_of, variables_of};
ghost use Rattle.node_contexts.specs.Numbers.{numbers_before};

use node_views::is_variable;
use program_facts::ProgramFacts;
use scj_base::{Memory, NodeId};
use scj_rules::Binding;
use scj_tree::row_or;

/// Whether a node declares a variable of a member.
#[tactic(auto, unfolding(scj_rules::specs::Contexts::declarations_of))]
fn is_variable_of(facts: &ProgramFacts<'_>, member: NodeId, id: NodeId) -> bool
    ensures { result ≡ is_variable_of (declarations_of facts.now) member id }
{
    is_variable(facts.program(), id) && facts.context(id).member == Some(member)
}

/// The place of a variable among those of a member.
fn index_of(
    facts: &ProgramFacts<'_>,
    numbers: &[u32],
    member: NodeId,
    variable: NodeId,
) -> Option<u32>
    requires { numbers.now ≡ numbers_before (declarations_of facts.now) }
    ensures { result ≡ position (λ v. v == variable) (variables_of (declarations_of facts.now) member) }
{
    if is_variable_of(facts, member, variable) {
        Some(row_or(numbers, 0, variable))
    } else {
        None
    }
}

/// A variable, by its number among those of the member in which a node stands. A member with more than 256 of them
/// breaks a limit; of those behind these there is no number, and the answer is that of want of memory.
#[tactic(auto, unfolding(scj_rules::specs::Bindings::variable_binding))]
pub fn variable_binding(
    facts: &ProgramFacts<'_>,
    numbers: &[u32],
    id: NodeId,
    variable: NodeId,
) -> Result<Binding, Memory>
    requires { numbers.now ≡ numbers_before (declarations_of facts.now) }
    ensures { IfOk result (λ b. b ≡ variable_binding (declarations_of facts.now) id variable) }
{
    let Some(member) = facts.context(id).member else {
        return Ok(Binding::Plain);
    };
    match index_of(facts, numbers, member, variable) {
        Some(number) => {
            if number > 255 {
                return Err(Memory);
            }
            Ok(Binding::Local(number as u8))
        }
        None => Ok(Binding::Plain),
    }
}
