//! The variables that are known at a node, and whether there is an object that `this` names.

ghost use Rattle.std.specs.Prelude.{◌≡◌, length};
ghost use Rattle.scj_rules.specs.Contexts.{declarations_of, variable_named, has_object};
ghost use Rattle.program_facts.specs.Reported.{declares, seek};

use crate::facts::ProgramFacts;
use node_contexts::is_static_member;
use scj_base::{Name, NodeId};
use scj_tree::{Node, Program};

/// Whether the node declares a variable of the name.
#[tactic(auto, unfolding(scj_rules::specs::Views::variable_of))]
fn declares(program: &Program, id: NodeId, name: &Name) -> bool
    ensures { result ≡ declares program.now.nodes name.now id }
{
    match program.get(id) {
        Some(
            Node::Parameter { name: other, .. }
            | Node::Local { name: other, .. }
            | Node::LocalWithValue { name: other, .. },
        ) => *name == *other.get(),
        _ => false,
    }
}

impl<'a> ProgramFacts<'a> {
    /// The variable of a name that is known at a node: the last one that is declared.
    #[tactic(auto, using(crate::proofs::VariableLemmas::first))]
    pub fn variable_named(&self, id: NodeId, name: &Name) -> Option<NodeId>
        ensures { result ≡ variable_named (declarations_of self.now) id name.now }
    {
        self.variable_from(self.context(id).last, name)
    }

    /// The same, where the last variable that is known there is told.
    #[tactic(auto, using(crate::proofs::VariableLemmas::found_here, crate::proofs::VariableLemmas::passed_here, crate::proofs::VariableLemmas::none_before, crate::proofs::VariableLemmas::none_left), unfolding(scj_rules::specs::Contexts::declarations_of))]
    pub fn variable_from(&self, last: Option<NodeId>, name: &Name) -> Option<NodeId>
        ensures { result ≡ seek self.now name.now (length self.now.nodes) last }
    {
        let program = self.program();
        let contexts = self.contexts();
        let mut variable = last?;
        let mut left = program.len();
        while left > 0 {
            if declares(program, variable, name) {
                return Some(variable);
            }
            variable = contexts.get(variable).last?;
            left -= 1;
        }
        None
    }

    /// Whether there is an object that `this` names at a node.
    #[tactic(auto, unfolding(scj_rules::specs::Contexts::has_object, scj_rules::specs::Contexts::declarations_of))]
    pub fn has_object(&self, id: NodeId) -> bool
        ensures { result ≡ has_object (declarations_of self.now) id }
    {
        let context = self.context(id);
        if context.in_super_call {
            return false;
        }
        match context.member {
            Some(member) => !is_static_member(self.program(), member),
            None => true,
        }
    }
}
