//! Facts of methods in accepted programs: the kinds that they take and give, through overriding, and dispatch.

ghost use Rattle.std.specs.Prelude.{◌≡◌, ◌<◌, ℕ, List, Some, false, true, length, slice_get};
ghost use Rattle.scj_tree.specs.Forest.{Forest};
ghost use Rattle.scj_rules.specs.declared.typing.Scope.{Scope as StaticScope};
ghost use Rattle.scj_rules.specs.StaticScopes.{runs_in};
ghost use Rattle.scj_rules.specs.Words.{is_among};
ghost use Rattle.scj_rules.specs.Views.{WrittenClass};
ghost use Rattle.scj_rules.specs.Classes.{ClassRow, FoundMethod, superclasses, method_named};
ghost use Rattle.scj_rules.specs.Contexts.{Declarations, declarations_of};
ghost use Rattle.accepted_laws.specs.Kinds.{Kind};
ghost use Rattle.accepted_laws.specs.Overriding.{IsUserMethod, OverridesInSteps};
ghost use Rattle.accepted_laws.specs.Programs.{IsAcceptedProgram};
ghost use Rattle.accepted_facts.specs.Methods.{Takes, TakesAs, GivesAs, Dispatched};

/// The parameters of a user's method have kinds.
pub fn parameters_have_kinds()
    ensures { (forest : Forest) → IsAcceptedProgram forest → (f : FoundMethod) → IsUserMethod (declarations_of forest) f → (kinds : List Kind) × Takes (declarations_of forest) f kinds }
{}

/// What overrides a method takes what that takes.
pub fn overriding_keeps_parameters()
    ensures { (forest : Forest) → IsAcceptedProgram forest → (f g : FoundMethod) → IsUserMethod (declarations_of forest) f → f.method.declared.modifiers.is_static ≡ false → OverridesInSteps (declarations_of forest) f g → TakesAs (declarations_of forest) f g }
{}

/// What overrides a method gives what that gives, or something narrower (JLS 8.4.5).
pub fn overriding_keeps_results()
    ensures { (forest : Forest) → IsAcceptedProgram forest → (f g : FoundMethod) → IsUserMethod (declarations_of forest) f → f.method.declared.modifiers.is_static ≡ false → OverridesInSteps (declarations_of forest) f g → GivesAs (declarations_of forest) f g }
{}

/// A call of a user's method runs a body in each concrete class under that of its receiver, as the method promises.
pub fn calls_run_bodies()
    ensures { (forest : Forest) → IsAcceptedProgram forest → (class above : ℕ) (row : ClassRow) (c : WrittenClass) (name : List ℕ) (f : FoundMethod) (r : StaticScope) → slice_get (declarations_of forest).classes class ≡ Some row → row.written ≡ Some c → c.modifiers.is_abstract ≡ false → is_among above (superclasses (declarations_of forest).classes class) ≡ true → method_named (declarations_of forest).classes above name ≡ Some f → IsUserMethod (declarations_of forest) f → f.method.declared.modifiers.is_static ≡ false → runs_in (declarations_of forest) f.on f.method ≡ Some r → Dispatched (declarations_of forest) class name f r }
{}
