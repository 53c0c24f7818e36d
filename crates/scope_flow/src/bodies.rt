//! What the operations of a program find: each one the operands and variables that it needs.

ghost use Rattle.std.specs.Prelude.{ℕ, []};
ghost use Rattle.scj_rules.specs.declared.views.Body.TheVariants.{Written};
ghost use Rattle.scj_model.specs.Code.{Code};
ghost use Rattle.scj_model.specs.Ops.{ops_of};
ghost use Rattle.scope_flow.specs.Facts.{Facts};
ghost use Rattle.scope_flow.specs.Flow.{Flow};
ghost use Rattle.scope_flow.specs.Signatures.{Signature, IsBody, parameters_of};

/// The operations of a body find what they need, from its beginning, where its parameters are set, to its end.
pub fn bodies_flow()
    ensures { (code : Code) → Facts code → (body class : ℕ) (sig : Signature) → IsBody code.program body class sig → Flow code (Written body) class sig (ops_of code body) (parameters_of code.program body) [] }
{}
