//! What is asked of a checked program, and of classes and numbers.

ghost use Rattle.std.specs.Prelude.{◌≡◌, ◌&&◌, pos, is_some, not};
ghost use Rattle.std.specs.Int.{is_negative};
ghost use Rattle.scj_model.specs.Code.{code_of, binding};
ghost use Rattle.scj_model.specs.Operations.{units_of};

use scj_base::NodeId;
use scj_rules::{Binding, Checked};

/// What a node stands for; a number of no node stands for nothing.
#[tactic(auto, using(crate::proofs::CodeLemmas::bindings_are), unfolding(scj_model::specs::Code::code_of))]
pub fn binding(checked: &Checked, node: NodeId) -> Binding
    ensures { result ≡ binding (code_of checked.now.program) node }
{
    let _program = checked.program();
    match checked.bindings().get(node.number()) {
        Some(binding) => *binding,
        None => Binding::Plain,
    }
}

/// Whether a number is the nanoseconds of a time: whole units below a millisecond (JSR 302: RelativeTime).
#[tactic(auto, using(crate::proofs::NumberLemmas::nanoseconds_negative, crate::proofs::NumberLemmas::nanoseconds_are))]
pub fn is_nanoseconds(number: i32) -> bool
    ensures { result ≡ is_some (units_of (pos 0) number) }
{
    if number < 0 {
        return false;
    }
    let ns = number.unsigned_abs();
    ns % 1000 == 0 && ns < 1_000_000
}
