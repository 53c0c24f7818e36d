//! Each accepted program has what the proofs about its runs ask of its bodies, classes and types.

ghost use Rattle.scj_tree.specs.Forest.{Forest};
ghost use Rattle.accepted_laws.specs.Programs.{IsAcceptedProgram};
ghost use Rattle.scj_model.specs.Code.{code_of};
ghost use Rattle.scope_flow.specs.Facts.{Facts};

/// Each accepted program has what the proofs about its runs ask of its expressions, statements and bodies, and of its
/// classes and types.
pub fn accepted_programs_have_facts()
    ensures { (forest : Forest) → IsAcceptedProgram forest → Facts (code_of forest) }
{}
