//! Laws of the classes of accepted programs: their rows, names, superclasses, interfaces and subtypes.

ghost use Rattle.std.specs.Prelude.{◌≡◌, ◌<◌, ℕ, Some, None, false, true, length, slice_get};
ghost use Rattle.scj_builtins.specs.Framework.{object};
ghost use Rattle.scj_tree.specs.Forest.{Forest, IsForest};
ghost use Rattle.scj_rules.specs.declared.typing.Ty.{Ty as Type_of_values};
ghost use Rattle.scj_rules.specs.declared.typing.Ty.TheVariants.{Class as ClassTy};
ghost use Rattle.scj_rules.specs.Chains.{ComesBack};
ghost use Rattle.scj_rules.specs.Words.{is_among};
ghost use Rattle.scj_rules.specs.Views.{WrittenClass};
ghost use Rattle.scj_rules.specs.Classes.{ClassRow, class_number, superclass_in, superclasses, all_interfaces, is_sub};
ghost use Rattle.scj_rules.specs.Contexts.{Declarations, declarations_of, context};
ghost use Rattle.scj_rules.specs.Types.{assigns};
ghost use Rattle.scj_rules.specs.Phases.{IsAccepted};
ghost use Rattle.accepted_laws.specs.Programs.{IsAcceptedProgram};
ghost use Rattle.accepted_laws.specs.Unbroken.{NoBreakAtClass};

/// No rule is broken at any class of an accepted program.
pub fn no_class_breaks_a_rule()
    ensures { (forest : Forest) → IsAccepted forest → (class : ℕ) (row : ClassRow) (c : WrittenClass) → slice_get (declarations_of forest).classes class ≡ Some row → row.written ≡ Some c → NoBreakAtClass (declarations_of forest) class row c }
{}

/// The rows that count for the rules on members are those that are written.
pub fn counted_rows_are_written()
    ensures { (forest : Forest) → IsAccepted forest → (declarations_of forest).classes ≡ (declarations_of forest).written }
{}

/// No class is above itself.
pub fn no_class_is_above_itself()
    ensures { (forest : Forest) → IsAccepted forest → (class : ℕ) → ¬ (ComesBack (superclass_in (declarations_of forest).classes) class) }
{}

/// Object is above each class.
pub fn object_is_above_each_class()
    ensures { (forest : Forest) → IsAccepted forest → (class : ℕ) → class < length (declarations_of forest).classes → is_among object (superclasses (declarations_of forest).classes class) ≡ true }
{}

/// The name of a class denotes it, and no other class.
pub fn names_denote_their_classes()
    ensures { (forest : Forest) → IsAcceptedProgram forest → (class : ℕ) (row : ClassRow) (c : WrittenClass) → slice_get (declarations_of forest).classes class ≡ Some row → row.written ≡ Some c → class_number (declarations_of forest).names c.name ≡ Some class }
{}

/// The members of a class stand in it.
pub fn members_stand_in_their_class()
    ensures { (forest : Forest) → IsAcceptedProgram forest → (class : ℕ) (row : ClassRow) (c : WrittenClass) → slice_get (declarations_of forest).classes class ≡ Some row → row.written ≡ Some c → (member : ℕ) → is_among member c.members ≡ true → (context (declarations_of forest) member).class ≡ Some class }
{}

/// Subtyping is reflexive (JLS 4.10).
pub fn subtyping_is_reflexive()
    ensures { (forest : Forest) → IsAccepted forest → (class : ℕ) → is_sub (declarations_of forest).classes class class ≡ true }
{}

/// Subtyping is transitive (JLS 4.10).
pub fn subtyping_is_transitive()
    ensures { (forest : Forest) → IsAccepted forest → (a b c : ℕ) → a < length (declarations_of forest).classes → is_sub (declarations_of forest).classes a b ≡ true → is_sub (declarations_of forest).classes b c ≡ true → is_sub (declarations_of forest).classes a c ≡ true }
{}

/// What a reference of a class may be assigned to goes on to what that may be assigned to (JLS 5.2).
pub fn assignment_is_transitive()
    ensures { (forest : Forest) → IsAccepted forest → (a : ℕ) (t u : Type_of_values) → a < length (declarations_of forest).classes → assigns (declarations_of forest).classes (ClassTy a) t ≡ true → assigns (declarations_of forest).classes t u ≡ true → assigns (declarations_of forest).classes (ClassTy a) u ≡ true }
{}
