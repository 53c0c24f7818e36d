//! Laws of instructions.

ghost use Rattle.std.specs.Prelude.{◌≡◌, ℕ, List, Some};
ghost use Rattle.scj_tree.specs.Forest.{Forest};
ghost use Rattle.scj_rules.specs.declared.views.Body.{Body as BodyOfProgram};
ghost use Rattle.scj_rules.specs.Bodies.{body_named, body_of, constructor_body};
ghost use Rattle.scj_rules.specs.Contexts.{declarations_of};
ghost use Rattle.accepted_laws.specs.Programs.{IsAcceptedProgram};
ghost use Rattle.scj_model.specs.declared.operations.Op.{Op as OpOfRun};
ghost use Rattle.scj_model.specs.Code.{Code as CodeOfRun, code_of};
ghost use Rattle.scj_model.specs.Operations.{Environment, effect_of};
ghost use Rattle.scj_model.specs.State.{Frame as FrameOfRun};
ghost use Rattle.op_list.specs.Listed.{IsBodyAmong};
ghost use Rattle.op_list.specs.Instructions.{callee_of, instruction_of};
ghost use Rattle.op_list.specs.Meanings.{effect_by, node_number};

/// An instruction does what its operation does, whatever the program is.
pub fn instructions_mean_operations()
    ensures { (code : CodeOfRun) (world : Environment) (frame : FrameOfRun) (op : OpOfRun) →
        effect_of code world frame op ≡ effect_by code world frame (node_number op) (instruction_of code op) }
{}

/// What calls run are bodies of the program: what a class has for a name or for a method, and what `new` runs.
pub fn calls_run_bodies()
    ensures named { (forest : Forest) → IsAcceptedProgram forest → (class : ℕ) (name : List ℕ) (body : BodyOfProgram) →
        body_named (declarations_of forest) class name ≡ Some body → IsBodyAmong forest.nodes body }
    ensures called { (forest : Forest) → IsAcceptedProgram forest → (class method : ℕ) (body : BodyOfProgram) →
        body_of (declarations_of forest) class method ≡ Some body → IsBodyAmong forest.nodes body }
    ensures constructed { (forest : Forest) → IsAcceptedProgram forest → (class : ℕ) (body : BodyOfProgram) →
        constructor_body (declarations_of forest) class ≡ Some body → IsBodyAmong forest.nodes body }
{}

/// The body that an instruction calls is one of the program.
pub fn instructions_call_bodies()
    ensures { (forest : Forest) → IsAcceptedProgram forest → (op : OpOfRun) (body : BodyOfProgram) →
        callee_of (instruction_of (code_of forest) op) ≡ Some body → IsBodyAmong forest.nodes body }
{}
