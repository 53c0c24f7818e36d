//! What is asked of a program.

ghost use Rattle.std.specs.Prelude.{◌≡◌, ◌<◌, ◌^◌, length, option_copied, slice_get};
ghost use Rattle.scj_tree.specs.Forest.{ChildrenFirst};
ghost use Rattle.scj_rules.specs.Types.{is_concrete, kind_is};
ghost use Rattle.scj_model.specs.Code.{binding, code_of};
ghost use Rattle.memory_needs.specs.Reach.{handler_body};
ghost use Rattle.memory_needs.specs.Targets.{is_concrete_under};
ghost use Rattle.memory_needs.specs.Sites.{asked_body};

use accepted_laws::nodes::checked_is_accepted;
use class_rows::ClassTable;
use object_layout::Layout;
use scj_base::{ClassId, MethodId, Name, NodeId};
use scj_builtins::ClassKind;
use scj_rules::{Binding, Body, Checked};
use scj_tree::{Node, Program};
use std::marker::Model;

/// A program that breaks no rule, beside its classes and its layout. A contract sees the program.
#[derive(Drop)]
pub struct Code<'a> {
    checked: &'a Checked,
    classes: &'a ClassTable<'a>,
    layout: &'a Layout<'a>,
}

impl<'a> Model for Code<'a> {
    ghost use Rattle.std.specs.Prelude.{◌≡◌};
    ghost use Rattle.scj_tree.specs.Forest.{Forest};

    ghost Value = { Forest };

    ghost view = { λ a. a.checked.now.program };

    ghost invariant = { λ a. (a.classes.now ≡ a.checked.now.program) × (a.layout.now ≡ a.checked.now.program) };
}

/// The body that is asked of a class.
#[derive(Clone, Copy, Debug)]
pub enum Asked {
    /// That which a call of a method runs.
    Method(MethodId),
    /// That of `run`.
    Run,
}

impl<'a> Code<'a> {
    /// The code of a program, with its classes and its layout.
    pub fn new(
        checked: &'a Checked,
        classes: &'a ClassTable<'a>,
        layout: &'a Layout<'a>,
    ) -> Code<'a>
        requires classes { classes.now ≡ checked.now.program }
        requires layout { layout.now ≡ checked.now.program }
        ensures { result ≡ checked.now.program }
    {
        Code {
            checked,
            classes,
            layout,
        }
    }

    /// The classes.
    pub fn classes(&self) -> &'a ClassTable<'a>
        ensures { result.now ≡ self.now }
    {
        self.classes
    }

    /// The layout.
    pub fn layout(&self) -> &'a Layout<'a>
        ensures { result.now ≡ self.now }
    {
        self.layout
    }

    /// The program alone.
    pub fn program(&self) -> &'a Program
        ensures { result.now ≡ self.now }
    {
        self.checked.program()
    }

    /// Each node stands behind its children.
    #[tactic(auto, using(crate::proofs::Accepted::children_first))]
    pub fn children_first(&self)
        ensures { ChildrenFirst 0 (code_of self.now).program.nodes }
    {
        checked_is_accepted(self.checked);
    }

    /// What a node stands for; a number of no node stands for nothing.
    pub fn binding(&self, node: NodeId) -> Binding
        ensures { result ≡ binding (code_of self.now) node }
    {
        binding(self.checked, node)
    }

    /// How many nodes there are.
    #[tactic(auto, using(op_list::proofs::CodeLemmas::nodes_are))]
    pub fn count(&self) -> usize
        ensures value { result ≡ length (code_of self.now).program.nodes }
        ensures few { result < 2 ^ 32 }
    {
        self.program().len()
    }

    /// The node of a number, if there is one.
    #[tactic(auto, using(op_list::proofs::CodeLemmas::nodes_are))]
    pub fn node(&self, id: NodeId) -> Option<&'a Node>
        ensures { option_copied result ≡ slice_get (code_of self.now).program.nodes id }
    {
        self.checked.program().get(id)
    }

    /// Whether objects of a class are made.
    #[tactic(auto, unfolding(scj_model::specs::Code::code_of, scj_rules::specs::Types::is_concrete))]
    pub fn is_concrete(&self, class: ClassId) -> bool
        ensures { result ≡ kind_is is_concrete (code_of self.now).program class }
    {
        match self.classes.kind(class) {
            Some(ClassKind::Concrete) => true,
            _ => false,
        }
    }

    /// Whether a class is a concrete one under another one.
    #[tactic(auto, unfolding(scj_model::specs::Code::code_of, scj_rules::specs::Types::is_concrete))]
    pub fn is_concrete_under(&self, on: ClassId, class: ClassId) -> bool
        ensures { result ≡ is_concrete_under (code_of self.now).program on class }
    {
        match self.classes.kind(class) {
            Some(ClassKind::Concrete) => self.classes.is_sub(class, on),
            _ => false,
        }
    }

    /// The body of a class's `handleAsyncEvent`.
    #[tactic(auto, unfolding(scj_model::specs::Code::code_of, crate::specs::Reach::handler_body))]
    pub fn handler_body(&self, class: ClassId) -> Option<Body>
        ensures { result ≡ handler_body (code_of self.now) class }
    {
        self.layout
            .body_named(class, &Name::new(b"handleAsyncEvent"))
    }

    /// The body that is asked of a class.
    #[tactic(auto, unfolding(scj_model::specs::Code::code_of, crate::specs::Sites::asked_body))]
    pub fn asked_body(&self, asked: &Asked, class: ClassId) -> Option<Body>
        ensures { result ≡ asked_body (code_of self.now).program asked.now class }
    {
        match asked {
            Asked::Method(method) => self.layout.body_of(class, *method),
            Asked::Run => self.layout.body_named(class, &Name::new(b"run")),
        }
    }
}

/// What a node of a program stands for.
#[tactic(auto, using(op_list::proofs::CodeLemmas::bindings_are), unfolding(scj_model::specs::Code::code_of))]
fn binding(checked: &Checked, node: NodeId) -> Binding
    ensures { result ≡ binding (code_of checked.now.program) node }
{
    let _program = checked.program();
    match checked.bindings().get(node.number()) {
        Some(binding) => *binding,
        None => Binding::Plain,
    }
}
