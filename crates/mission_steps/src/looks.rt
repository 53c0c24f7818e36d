//! What the sequencer and releases ask of the program that runs, and of the objects of a run.

ghost use Rattle.std.specs.Prelude.{◌≡◌, option_map, slice_get};
ghost use Rattle.scj_rules.specs.Bodies.{body_named, class_position, constructor_body, safelet_class, size_of};
ghost use Rattle.scj_rules.specs.ScopeRules.{defined_by_chain};
ghost use Rattle.scj_model.specs.Code.{code_of};
ghost use Rattle.scj_model.specs.State.{Object as ObjectOfRun};
ghost use Rattle.scj_model.specs.Apply.{class_name};
ghost use Rattle.run_state.specs.Standing.{IsLive};

use op_list::OpList;
use region_heap::RegionHeap;
use scj_base::{ClassId, Name, Position, Ref, ScopeId};
use scj_rules::Body;

/// The concrete class that implements `Safelet` (JSR 302: Safelet).
#[tactic(auto, unfolding(scj_model::specs::Code::code_of))]
pub(crate) fn safelet(code: &OpList<'_>) -> Option<ClassId>
    ensures { result ≡ safelet_class (code_of code.now.program).program }
{
    code.code().layout().safelet()
}

/// The bytes of the memory that a mission's or the safelet's class declares (JSR 302: Mission, Safelet).
#[tactic(auto, unfolding(scj_model::specs::Code::code_of))]
pub(crate) fn size_of(code: &OpList<'_>, class: ClassId) -> Option<u32>
    ensures { result ≡ size_of (code_of code.now.program).program class }
{
    code.code().layout().size_of(class)
}

/// Where a class is named.
#[tactic(auto, unfolding(scj_model::specs::Code::code_of))]
pub(crate) fn class_position(code: &OpList<'_>, class: ClassId) -> Position
    ensures { result ≡ class_position (code_of code.now.program).program class }
{
    code.code().layout().class_position(class)
}

/// What `new` runs for a class (JLS 8.8.9).
#[tactic(auto, unfolding(scj_model::specs::Code::code_of))]
pub(crate) fn constructor(code: &OpList<'_>, class: ClassId) -> Option<Body>
    ensures { result ≡ constructor_body (code_of code.now.program).program class }
{
    code.code().layout().constructor(class)
}

/// The method of a name that the objects of a class have.
#[tactic(auto, unfolding(scj_model::specs::Code::code_of))]
pub(crate) fn body_named(code: &OpList<'_>, class: ClassId, name: &Name) -> Option<Body>
    ensures { result ≡ body_named (code_of code.now.program).program class name.now }
{
    code.code().layout().body_named(class, name)
}

/// The scope that the chain of a class defines (JSR 302: DefineScope).
#[tactic(auto, unfolding(scj_model::specs::Code::code_of))]
pub(crate) fn private_scope(code: &OpList<'_>, class: ClassId) -> Option<ScopeId>
    ensures { result ≡ defined_by_chain (code_of code.now.program).program class }
{
    code.code().layout().private_scope(class)
}

/// The name of a class. A number of no class has none, which is the empty one.
pub(crate) fn class_name(code: &OpList<'_>, class: ClassId) -> Name
    ensures { result ≡ class_name (code_of code.now.program) class }
{
    match code.code().layout().class_name(class) {
        Some(name) => name,
        None => Name::new(b""),
    }
}

/// The class of an object, if there is one.
pub(crate) fn class_of(memory: &RegionHeap, r: Ref) -> Option<ClassId>
    requires { IsLive memory.now r }
    ensures { result ≡ option_map (λ (o : ObjectOfRun). o.class) (slice_get memory.now.objects r) }
{
    match memory.object(r) {
        Some(object) => Some(object.class()),
        None => None,
    }
}
