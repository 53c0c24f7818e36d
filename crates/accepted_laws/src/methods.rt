//! Laws of the methods of accepted programs: overriding and dispatch (JLS 8.4.8, 15.12.4).

ghost use Rattle.std.specs.Prelude.{◌≡◌, ◌<◌, ℕ, List, Some, false, true, length, is_some, slice_get};
ghost use Rattle.scj_tree.specs.Forest.{Forest};
ghost use Rattle.scj_rules.specs.declared.typing.Scope.{Scope as StaticScope};
ghost use Rattle.scj_rules.specs.StaticScopes.{runs_in};
ghost use Rattle.scj_rules.specs.Words.{is_among, along};
ghost use Rattle.scj_rules.specs.Views.{WrittenClass};
ghost use Rattle.scj_rules.specs.Classes.{ClassRow, FoundMethod, superclasses, all_interfaces, own_method, method_named, method_above};
ghost use Rattle.scj_rules.specs.Contexts.{Declarations, declarations_of};
ghost use Rattle.scj_rules.specs.Phases.{IsAccepted};
ghost use Rattle.accepted_laws.specs.Overriding.{IsUserMethod, OverridesRightly, OverridesInSteps, RunsAs, Dispatches};
ghost use Rattle.accepted_laws.specs.Programs.{IsAcceptedProgram};

/// The methods that a class has from an interface are the framework's.
pub fn interfaces_give_framework_methods()
    ensures { (forest : Forest) → IsAccepted forest → (class : ℕ) (name : List ℕ) (f : FoundMethod) → along (own_method (declarations_of forest).classes name) (all_interfaces (declarations_of forest).classes class) ≡ Some f → is_some f.method.builtin ≡ true }
{}

/// A method of a user class overrides what is above it rightly.
pub fn overrides_are_right()
    ensures { (forest : Forest) → IsAcceptedProgram forest → (class : ℕ) (name : List ℕ) (g f : FoundMethod) → own_method (declarations_of forest).classes name class ≡ Some g → is_some g.method.builtin ≡ false → method_above (declarations_of forest).classes class name ≡ Some f → OverridesRightly (declarations_of forest) class g.method f }
{}

/// What a class has for a user's method of a class above it is that method, or overrides it in right steps.
pub fn calls_are_dispatched()
    ensures { (forest : Forest) → IsAcceptedProgram forest → (class above : ℕ) (name : List ℕ) (f : FoundMethod) → class < length (declarations_of forest).classes → is_among above (superclasses (declarations_of forest).classes class) ≡ true → method_named (declarations_of forest).classes above name ≡ Some f → IsUserMethod (declarations_of forest) f → Dispatches (declarations_of forest) class name f }
{}

/// What a concrete class has for a user's method has a body.
pub fn methods_of_concrete_classes_have_bodies()
    ensures { (forest : Forest) → IsAcceptedProgram forest → (class : ℕ) (row : ClassRow) (c : WrittenClass) (name : List ℕ) (g : FoundMethod) → slice_get (declarations_of forest).classes class ≡ Some row → row.written ≡ Some c → c.modifiers.is_abstract ≡ false → method_named (declarations_of forest).classes class name ≡ Some g → IsUserMethod (declarations_of forest) g → is_some g.method.body ≡ true }
{}

/// What overrides a method that isn't static runs where that runs, as its own class sees it.
pub fn overriding_keeps_runs_in()
    ensures { (forest : Forest) → IsAcceptedProgram forest → (f g : FoundMethod) (r : StaticScope) → IsUserMethod (declarations_of forest) f → f.method.declared.modifiers.is_static ≡ false → runs_in (declarations_of forest) f.on f.method ≡ Some r → OverridesInSteps (declarations_of forest) f g → RunsAs (declarations_of forest) r g }
{}
