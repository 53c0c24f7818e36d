//! Facts of calls in accepted programs.

ghost use Rattle.std.specs.Prelude.{◌≡◌, ℕ, List, [], ◌∷◌, Option, Some, None, false, slice_get};
ghost use Rattle.scj_base.specs.declared.positions.Position.{Position};
ghost use Rattle.scj_builtins.specs.Framework.{managed_memory_enter_private_memory, managed_memory_execute_in_area_of};
ghost use Rattle.scj_tree.specs.declared.nodes.Node.TheVariants.{Call as CallNode, New as NewNode, SuperCall as SuperCallNode};
ghost use Rattle.scj_tree.specs.Forest.{Forest};
ghost use Rattle.scj_rules.specs.Classes.{FoundMethod};
ghost use Rattle.scj_rules.specs.Contexts.{Declarations, declarations_of};
ghost use Rattle.scj_rules.specs.Types.{is_form_part, method_called};
ghost use Rattle.scj_rules.specs.TypeRules.{superclass_at};
ghost use Rattle.accepted_laws.specs.Judgements.{type_at_node, Judged, Inside};
ghost use Rattle.accepted_laws.specs.Kinds.{Kind};
ghost use Rattle.accepted_laws.specs.Programs.{IsAcceptedProgram};
ghost use Rattle.accepted_facts.specs.Calls.{CallFacts, NewFacts, ArgumentFacts, EnterFacts, ExecuteFacts, SuperCallFacts};

/// A call of a user's method that isn't static has an object, runs where it may, and its arguments fit (JLS 15.12).
pub fn calls_have_facts()
    ensures { (forest : Forest) → IsAcceptedProgram forest → (member class id : ℕ) (position : Position) (name : List ℕ) (object : Option ℕ) (arguments : List ℕ) (f : FoundMethod) (o : Option Kind) → slice_get (declarations_of forest).nodes id ≡ Some (CallNode position name object arguments) → Inside (declarations_of forest) member class id → method_called (declarations_of forest) (type_at_node (declarations_of forest)) id object name ≡ Some f → f.method.builtin ≡ None → f.method.declared.modifiers.is_static ≡ false → Judged (declarations_of forest) id o → CallFacts (declarations_of forest) member class id object arguments f o }
{}

/// A `new` that is no part of a form makes an object of a concrete class in the current scope, and its arguments fit (JLS
/// 15.9).
pub fn new_objects_have_facts()
    ensures { (forest : Forest) → IsAcceptedProgram forest → (member class id : ℕ) (position name_position : Position) (name arguments : List ℕ) (k : Kind) → slice_get (declarations_of forest).nodes id ≡ Some (NewNode position name_position name arguments) → Inside (declarations_of forest) member class id → is_form_part (declarations_of forest) id ≡ false → Judged (declarations_of forest) id (Some k) → NewFacts (declarations_of forest) member class id name arguments k }
{}

/// The arguments of a call have types that the parameters of its method take.
pub fn calls_accept_arguments()
    ensures { (forest : Forest) → IsAcceptedProgram forest → (member class id : ℕ) (position : Position) (name : List ℕ) (object : Option ℕ) (arguments : List ℕ) (f : FoundMethod) → slice_get (declarations_of forest).nodes id ≡ Some (CallNode position name object arguments) → Inside (declarations_of forest) member class id → method_called (declarations_of forest) (type_at_node (declarations_of forest)) id object name ≡ Some f → ArgumentFacts (declarations_of forest) id arguments f }
{}

/// `enterPrivateMemory` enters the scope of a Runnable's class from its parent (JSR 302: ManagedMemory).
pub fn entering_calls_have_facts()
    ensures { (forest : Forest) → IsAcceptedProgram forest → (member class id size r : ℕ) (position : Position) (name : List ℕ) (object : Option ℕ) (f : FoundMethod) → slice_get (declarations_of forest).nodes id ≡ Some (CallNode position name object (size ∷ r ∷ [])) → Inside (declarations_of forest) member class id → method_called (declarations_of forest) (type_at_node (declarations_of forest)) id object name ≡ Some f → f.method.builtin ≡ Some managed_memory_enter_private_memory → EnterFacts (declarations_of forest) member class id r }
{}

/// `executeInAreaOf` runs a `run` in the named scope where an object lies (JSR 302: ManagedMemory).
pub fn executing_calls_have_facts()
    ensures { (forest : Forest) → IsAcceptedProgram forest → (member class id o r : ℕ) (position : Position) (name : List ℕ) (object : Option ℕ) (f : FoundMethod) → slice_get (declarations_of forest).nodes id ≡ Some (CallNode position name object (o ∷ r ∷ [])) → Inside (declarations_of forest) member class id → method_called (declarations_of forest) (type_at_node (declarations_of forest)) id object name ≡ Some f → f.method.builtin ≡ Some managed_memory_execute_in_area_of → ExecuteFacts (declarations_of forest) member class id o r }
{}

/// A super call is of the superclass's constructor, and its arguments fit where no form is due (JLS 8.8.7.1).
pub fn super_calls_have_facts()
    ensures { (forest : Forest) → IsAcceptedProgram forest → (member class id superclass : ℕ) (position : Position) (arguments : List ℕ) → slice_get (declarations_of forest).nodes id ≡ Some (SuperCallNode position arguments) → Inside (declarations_of forest) member class id → superclass_at (declarations_of forest) id ≡ Some superclass → SuperCallFacts (declarations_of forest) member class id superclass arguments }
{}
