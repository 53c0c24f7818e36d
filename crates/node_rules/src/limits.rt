//! The limits on parameters and on the variables of a member.

ghost use Rattle.std.specs.Prelude.{◌≡◌, ◌++◌, OnOk};
ghost use Rattle.scj_rules.specs.LimitRules.{k3};
ghost use Rattle.scj_rules.specs.Contexts.{contexts_in, declarations_of};
ghost use Rattle.node_rules.specs.Nodes.{is_late, too_late};

use node_contexts::Contexts;
use node_contexts::numbers::owner_of;
use node_views::{is_constructor, is_method, parameter_nodes, variable_written};
use scj_base::{Found, Memory, NodeId, Rule};
use scj_rules::report_if;
use scj_tree::Program;

/// Notes the ninth parameter and each later one.
#[tactic(auto, unfolding(scj_rules::specs::LimitRules::k3, scj_rules::specs::Contexts::declarations_of))]
pub fn note_k3(
    found: &mut Vec<Found>,
    program: &Program,
    parameters: Option<NodeId>,
) -> Result<(), Memory>
    ensures { OnOk result (found.new.items ≡ found.old.items ++ k3 (declarations_of program.now) parameters) }
{
    let mut allowed = 8usize;
    let mut others = parameter_nodes(program, parameters);
    while let [id, rest @ ..] = others {
        if let Some(written) = variable_written(program, *id) {
            if allowed > 0 {
                allowed -= 1;
            } else {
                found.push(Found {
                    pos: written.position,
                    rule: Rule::K3,
                })?;
            }
        }
        others = rest;
    }
    Ok(())
}

/// How many variables a method or a constructor may have.
const MOST_LOCALS: u32 = 32;

/// Whether a node declares a variable that comes late, where so many of its member stand before it.
#[tactic(auto, unfolding(scj_rules::specs::Contexts::declarations_of))]
fn is_late(program: &Program, contexts: &Contexts, id: NodeId, number: u32) -> bool
    requires { contexts.now ≡ contexts_in program.now }
    ensures { result ≡ is_late (declarations_of program.now) id number }
{
    if number < MOST_LOCALS {
        return false;
    }
    match owner_of(program, contexts, id) {
        Some(member) => is_method(program, member) || is_constructor(program, member),
        None => false,
    }
}

/// Notes the variable that a node declares, if it does, where it comes late.
#[tactic(auto, unfolding(scj_rules::specs::Contexts::declarations_of))]
pub fn note_late(
    found: &mut Vec<Found>,
    program: &Program,
    contexts: &Contexts,
    id: NodeId,
    number: u32,
) -> Result<(), Memory>
    requires { contexts.now ≡ contexts_in program.now }
    ensures { OnOk result (found.new.items ≡ found.old.items ++ too_late (declarations_of program.now) id number) }
{
    if !is_late(program, contexts, id, number) {
        return Ok(());
    }
    match variable_written(program, id) {
        Some(variable) => report_if(found, true, Rule::K2, variable.position),
        None => Ok(()),
    }
}
