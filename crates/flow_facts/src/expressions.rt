//! What each expression of an accepted program has.

ghost use Rattle.std.specs.Prelude.{◌≡◌, ℕ, Option, Some, slice_get};
ghost use Rattle.scj_tree.specs.declared.nodes.Node.{Node as SyntaxNode};
ghost use Rattle.scj_tree.specs.Forest.{Forest};
ghost use Rattle.scj_rules.specs.Contexts.{Declarations};
ghost use Rattle.accepted_laws.specs.Judgements.{Inside, Judged};
ghost use Rattle.accepted_laws.specs.Kinds.{Kind};
ghost use Rattle.accepted_laws.specs.Programs.{IsAcceptedProgram};
ghost use Rattle.scj_model.specs.Code.{Code, code_of};
ghost use Rattle.scope_flow.specs.Signatures.{Signature, IsBody};
ghost use Rattle.scope_flow.specs.CallFacts.{ExpressionFact};

/// Each expression in a body that has a type and a scope has the facts of its kind: its operands with their kinds, what
/// it stands for, and what it gives. A user's method that is called runs where it is called, and the arguments fit its
/// parameters.
pub fn expressions_have_facts()
    ensures { (forest : Forest) → IsAcceptedProgram forest → (member class : ℕ) (signature : Signature) (id : ℕ)
        (node : SyntaxNode) (gives : Option Kind) → IsBody (code_of forest).program member class signature →
        Inside (code_of forest).program member class id → slice_get (code_of forest).program.nodes id ≡ Some node →
        Judged (code_of forest).program id gives →
        ExpressionFact (code_of forest) member class signature id node gives }
{}
