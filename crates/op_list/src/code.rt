//! What a run executes.

ghost use Rattle.std.specs.Prelude.{◌≡◌, length, option_copied, slice_get};
ghost use Rattle.scj_tree.specs.Forest.{IsForest};
ghost use Rattle.scj_model.specs.Code.{binding, code_of};

use object_layout::Layout;
use scj_base::NodeId;
use scj_rules::{Binding, Checked};
use scj_tree::{Node, Program};
use std::marker::Model;

/// What a run executes: a program that breaks no rule, beside its layout. A contract sees the program.
#[derive(Drop)]
pub struct Code<'a> {
    checked: &'a Checked,
    layout: &'a Layout<'a>,
}

impl<'a> Model for Code<'a> {
    ghost use Rattle.std.specs.Prelude.{◌≡◌};
    ghost use Rattle.scj_tree.specs.Forest.{Forest};

    ghost Value = { Forest };

    ghost view = { λ a. a.checked.now.program };

    ghost invariant = { λ a. a.layout.now ≡ a.checked.now.program };
}

impl<'a> Code<'a> {
    /// The code of a program, with the layout of the same program.
    pub fn new(checked: &'a Checked, layout: &'a Layout<'a>) -> Code<'a>
        requires { layout.now ≡ checked.now.program }
        ensures { result ≡ checked.now.program }
    {
        Code { checked, layout }
    }

    /// The program with what its nodes stand for.
    pub fn checked(&self) -> &'a Checked
        ensures { result.now.program ≡ self.now }
    {
        self.checked
    }

    /// The layout of the program.
    pub fn layout(&self) -> &'a Layout<'a>
        ensures { result.now ≡ self.now }
    {
        self.layout
    }

    /// The program alone.
    pub fn program(&self) -> &'a Program
        ensures { result.now ≡ self.now }
    {
        self.checked.program()
    }

    /// How many nodes the program has. Each node stands behind its parts.
    pub fn node_count(&self) -> usize
        ensures value { result ≡ length self.now.nodes }
        ensures whole { IsForest self.now }
    {
        self.checked.program().len()
    }

    /// What a node stands for; a number of no node stands for nothing.
    pub fn binding(&self, node: NodeId) -> Binding
        ensures { result ≡ binding (code_of self.now) node }
    {
        binding(self.checked, node)
    }

    /// The node of a number, if there is one.
    pub fn node(&self, id: NodeId) -> Option<&'a Node>
        ensures { option_copied result ≡ slice_get self.now.nodes id }
    {
        self.checked.program().get(id)
    }
}

/// What a node of a program stands for.
#[tactic(auto, using(crate::proofs::CodeLemmas::bindings_are), unfolding(scj_model::specs::Code::code_of))]
fn binding(checked: &Checked, node: NodeId) -> Binding
    ensures { result ≡ binding (code_of checked.now.program) node }
{
    let _program = checked.program();
    match checked.bindings().get(node.number()) {
        Some(binding) => *binding,
        None => Binding::Plain,
    }
}
