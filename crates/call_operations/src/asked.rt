//! What is asked of the classes of the objects on which is called.

ghost use Rattle.std.specs.Prelude.{◌≡◌, codes};
ghost use Rattle.scj_rules.specs.Bodies.{body_named, body_of};
ghost use Rattle.scj_rules.specs.ScopeRules.{defined_by_chain};
ghost use Rattle.scj_model.specs.Code.{code_of};

use op_list::OpList;
use scj_base::{ClassId, MethodId, Name, ScopeId};
use scj_rules::Body;

/// What a call of a method runs on an object of a class (JLS 15.12.4.4).
#[tactic(auto, unfolding(scj_model::specs::Code::code_of))]
pub fn body_of(code: &OpList<'_>, class: ClassId, method: MethodId) -> Option<Body>
    ensures { result ≡ body_of (code_of code.now.program).program class method }
{
    code.code().layout().body_of(class, method)
}

/// The method `run` of the objects of a class.
#[tactic(auto, unfolding(scj_model::specs::Code::code_of))]
pub fn run_of(code: &OpList<'_>, class: ClassId) -> Option<Body>
    ensures { result ≡ body_named (code_of code.now.program).program class (codes "run") }
{
    code.code().layout().body_named(class, &Name::new(b"run"))
}

/// The scope that the chain of a class defines (JSR 302: DefineScope).
#[tactic(auto, unfolding(scj_model::specs::Code::code_of))]
pub fn private_scope(code: &OpList<'_>, class: ClassId) -> Option<ScopeId>
    ensures { result ≡ defined_by_chain (code_of code.now.program).program class }
{
    code.code().layout().private_scope(class)
}
