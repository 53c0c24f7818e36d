//! Contexts in little room: each node has one.

ghost use Rattle.std.specs.Prelude.{◌≡◌, ◌+◌, ℕ, List, IfOk, Some, if◌then◌else◌};
ghost use Rattle.scj_rules.specs.Words.{or_else};
ghost use Rattle.scj_rules.specs.Contexts.{outermost, number_of_class, is_member};
ghost use Rattle.node_contexts.specs.Packed.{reported};
ghost use Rattle.node_contexts.specs.Steps.{shared};

use crate::kinds::{is_member, is_super_call};
use scj_base::{ClassId, Memory, NodeId};
use scj_rules::Context;
use scj_tree::Node;
use std::marker::Model;

/// A context in 16 bytes. Its numbers are one higher than what they stand for, and 0 where there is none.
#[derive(Clone, Copy)]
pub struct PackedContext {
    class: u32,
    member: u32,
    last: u32,
    in_super_call: bool,
    before_dot: bool,
}

impl Model for PackedContext {
    ghost use Rattle.scj_rules.specs.declared.contexts.Context.{Context as Row};

    ghost Value = { Row };

    ghost use Rattle.node_contexts.specs.Packed.{reported, kept, kept-reported};

    ghost view = { λ a. record {
      class = reported a.class;
      member = reported a.member;
      last = reported a.last;
      in_super_call = a.in_super_call;
      before_dot = a.before_dot;
    } };

    ghost inverse = { λ c. record {
      class = kept c.class;
      member = kept c.member;
      last = kept c.last;
      in_super_call = c.in_super_call;
      before_dot = c.before_dot;
    } };

    ghost inverse_ok = { λ a h i. record {
      class = kept-reported a.class i;
      member = kept-reported a.member i;
      last = kept-reported a.last i;
      in_super_call = a.in_super_call;
      before_dot = a.before_dot;
    } };
}

/// One more than a number.
fn raised(number: u32) -> Result<u32, Memory>
    ensures { IfOk result (λ raised. raised ≡ number + 1) }
{
    if number == u32::MAX {
        return Err(Memory);
    }
    Ok(number + 1)
}

/// A node, as it is kept.
#[tactic(auto, unfolding(crate::specs::Packed::reported))]
pub fn kept_node(node: NodeId) -> Result<u32, Memory>
    ensures { IfOk result (λ kept. reported kept ≡ Some node) }
{
    raised(node.number() as u32)
}

/// The node that is kept, if one is.
#[tactic(auto, unfolding(crate::specs::Packed::reported))]
fn node_reported(kept: u32) -> Option<NodeId>
    ensures { result ≡ reported kept }
{
    if kept == 0 {
        return None;
    }
    Some(NodeId::at(kept - 1))
}

/// The class that is kept, if one is.
#[tactic(auto, unfolding(crate::specs::Packed::reported))]
fn class_reported(kept: u32) -> Option<ClassId>
    ensures { result ≡ reported kept }
{
    if kept == 0 {
        return None;
    }
    Some(ClassId::at(kept - 1))
}

/// The class, as it is kept, and `other` where there is none.
#[tactic(auto, unfolding(crate::specs::Packed::reported))]
fn class_or(class: Option<ClassId>, other: u32) -> Result<u32, Memory>
    ensures { IfOk result (λ kept. reported kept ≡ or_else class (reported other)) }
{
    match class {
        Some(class) => raised(class.number()),
        None => Ok(other),
    }
}

/// The member at or above a node, as it is kept.
fn member_or(parent: NodeId, node: &Node, other: u32) -> Result<u32, Memory>
    ensures { IfOk result (λ kept. reported kept ≡ (if is_member node.now then Some parent else reported other)) }
{
    if is_member(node) {
        return kept_node(parent);
    }
    Ok(other)
}

impl PackedContext {
    /// The context of a node that has no parent.
    #[tactic(auto, unfolding(crate::specs::Packed::reported))]
    pub fn outermost() -> PackedContext
        ensures { result ≡ outermost }
    {
        PackedContext {
            class: 0,
            member: 0,
            last: 0,
            in_super_call: false,
            before_dot: false,
        }
    }

    /// The context itself.
    pub fn context(self) -> Context
        ensures { result ≡ self }
    {
        Context {
            class: class_reported(self.class),
            member: node_reported(self.member),
            last: node_reported(self.last),
            in_super_call: self.in_super_call,
            before_dot: self.before_dot,
        }
    }

    /// The last variable that is known, as it is kept.
    pub fn last(self) -> u32
        ensures { reported result ≡ self.last }
    {
        self.last
    }

    /// What is the same for all children of a node with this context.
    #[tactic(auto, unfolding(crate::specs::Steps::shared))]
    pub fn shared(
        self,
        class: Option<ClassId>,
        parent: NodeId,
        node: &Node,
    ) -> Result<PackedContext, Memory>
        ensures { IfOk result (λ base. (classes : List ℕ) → class ≡ number_of_class classes parent →
            base ≡ shared classes parent node.now self) }
    {
        let class = class_or(class, self.class)?;
        let member = member_or(parent, node, self.member)?;
        Ok(PackedContext {
            class,
            member,
            last: self.last,
            in_super_call: is_super_call(node) || self.in_super_call,
            before_dot: false,
        })
    }

    /// The context of a child, from what is the same for all.
    pub fn of_child(self, last: u32, before_dot: bool) -> PackedContext
        ensures { result ≡ record self { last = reported last; before_dot = before_dot } }
    {
        PackedContext {
            last,
            before_dot,
            ..self
        }
    }
}
