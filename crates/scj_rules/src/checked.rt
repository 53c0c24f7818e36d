//! Programs that break no rule.

ghost use Rattle.std.specs.Prelude.{◌≡◌, ◌<◌, Some, length, slice_get};
ghost use Rattle.scj_tree.specs.Forest.{IsForest};
ghost use Rattle.scj_rules.specs.Contexts.{declarations_of};
ghost use Rattle.scj_rules.specs.Bindings.{bindings_in};
ghost use Rattle.scj_rules.specs.Phases.{IsAccepted};

use crate::bindings::Bindings;
use crate::typing::Binding;
use scj_base::NodeId;
use scj_tree::Program;
use std::marker::Model;

/// A program that stands in some texts and breaks no rule, with what its nodes stand for. There is no other way to make
/// one than to seal such a program.
#[derive(Drop)]
pub struct Checked {
    program: Program,
    bindings: Bindings,
}

impl Model for Checked {
    ghost use Rattle.scj_rules.specs.CheckedProgram.{CheckedProgram, IsChecked};

    ghost Value = { CheckedProgram };

    ghost view = { λ a. record { program = a.program; bindings = a.bindings } };

    ghost invariant = { λ a. IsChecked a.program a.bindings };
}

impl Checked {
    ghost use Rattle.scj_rules.specs.CheckedProgram.{IsChecked, IsReadFromTexts};

    /// Seals a program that breaks no rule.
    pub fn seal(program: Program, bindings: Bindings) -> Checked
        requires is_read { IsReadFromTexts program }
        requires is_accepted { IsAccepted program }
        requires are_bound { bindings ≡ bindings_in (declarations_of program) }
        ensures program { result.program ≡ program }
        ensures bindings { result.bindings ≡ bindings }
    {
        Checked { program, bindings }
    }

    /// The program.
    pub fn program(&self) -> &Program
        ensures program { result.now ≡ self.now.program }
        ensures whole { IsChecked self.now.program self.now.bindings }
    {
        &self.program
    }

    /// What the nodes stand for, node by node.
    #[tactic(auto, using(crate::proofs::CheckedLemmas::all_bound))]
    pub fn bindings(&self) -> &[Binding]
        ensures value { result.now ≡ self.now.bindings }
        ensures whole { length self.now.bindings ≡ length self.now.program.nodes }
    {
        self.bindings.items()
    }

    /// What a node stands for.
    pub fn binding(&self, node: NodeId) -> Binding
        requires { node < length self.now.program.nodes }
        ensures { slice_get self.now.bindings node ≡ Some result }
    {
        let rows = self.bindings();
        rows[node.number()]
    }
}
