//! Facts of statements in accepted programs, kind by kind.

ghost use Rattle.std.specs.Prelude.{◌≡◌, ℕ, List, Option, Some, None, slice_get};
ghost use Rattle.scj_base.specs.declared.positions.Position.{Position};
ghost use Rattle.scj_tree.specs.declared.nodes.Node.TheVariants.{If, While, For, Assign, LocalWithValue, Return};
ghost use Rattle.scj_tree.specs.Forest.{Forest};
ghost use Rattle.scj_rules.specs.declared.typing.Scope.{Scope as StaticScope};
ghost use Rattle.scj_rules.specs.declared.views.WrittenType.TheVariants.{Void as void_type};
ghost use Rattle.scj_rules.specs.Views.{DeclaredMethod, method_at};
ghost use Rattle.scj_rules.specs.Contexts.{Declarations, declarations_of};
ghost use Rattle.accepted_laws.specs.Judgements.{Inside};
ghost use Rattle.accepted_laws.specs.Kinds.{Kind, truth, seen_kind, Fits, IsRealKind, NamesArea};
ghost use Rattle.accepted_laws.specs.Programs.{IsAcceptedProgram};
ghost use Rattle.accepted_facts.specs.Expressions.{Operand};
ghost use Rattle.accepted_facts.specs.Statements.{FitsAsSeen, ForFacts, AssignFacts, InitialValueFacts, ReturnFacts};

/// The condition of an `if` is a truth value (JLS 14.9).
pub fn conditions_of_if_have_facts()
    ensures { (forest : Forest) → IsAcceptedProgram forest → (member class id condition then_part : ℕ) (position : Position) (else_part : Option ℕ) → slice_get (declarations_of forest).nodes id ≡ Some (If position condition then_part else_part) → Inside (declarations_of forest) member class id → Operand (declarations_of forest) member class id condition truth }
{}

/// The condition of a `while` is a truth value (JLS 14.12).
pub fn conditions_of_while_have_facts()
    ensures { (forest : Forest) → IsAcceptedProgram forest → (member class id condition body : ℕ) (position : Position) → slice_get (declarations_of forest).nodes id ≡ Some (While position condition body) → Inside (declarations_of forest) member class id → Operand (declarations_of forest) member class id condition truth }
{}

/// The condition of a `for` is a truth value (JLS 14.14.1).
pub fn conditions_of_for_have_facts()
    ensures { (forest : Forest) → IsAcceptedProgram forest → (member class id first condition step body : ℕ) (position : Position) → slice_get (declarations_of forest).nodes id ≡ Some (For position first condition step body) → Inside (declarations_of forest) member class id → ForFacts (declarations_of forest) member class id condition }
{}

/// The value of an assignment fits its target, or a guard allows the store.
pub fn assignments_have_facts()
    ensures { (forest : Forest) → IsAcceptedProgram forest → (member class id target value : ℕ) (position : Position) → slice_get (declarations_of forest).nodes id ≡ Some (Assign position target value) → Inside (declarations_of forest) member class id → AssignFacts (declarations_of forest) member class id target value }
{}

/// What fits a kind as it is seen from where THIS and CALLER are these scopes goes to the kind there.
pub fn fitting_values_go()
    ensures { (forest : Forest) (home now : StaticScope) (j k : Kind) → IsRealKind k → NamesArea now → FitsAsSeen (declarations_of forest) j (seen_kind home now k) → Fits (declarations_of forest) home now j k }
{}

/// The value with which a local is declared fits it (JLS 14.4).
pub fn initial_values_have_facts()
    ensures { (forest : Forest) → IsAcceptedProgram forest → (member class id value declared_type : ℕ) (position name_position : Position) (name : List ℕ) (flags : Option ℕ) → slice_get (declarations_of forest).nodes id ≡ Some (LocalWithValue position name_position name flags declared_type value) → Inside (declarations_of forest) member class id → InitialValueFacts (declarations_of forest) member class id value }
{}

/// A value that is returned fits the result of the method around it (JLS 14.17).
pub fn returns_have_facts()
    ensures { (forest : Forest) → IsAcceptedProgram forest → (member class id value : ℕ) (position : Position) → slice_get (declarations_of forest).nodes id ≡ Some (Return position (Some value)) → Inside (declarations_of forest) member class id → ReturnFacts (declarations_of forest) member class id value }
{}

/// A `return` without a value stands in no method that gives one (JLS 14.17).
pub fn returns_give_nothing()
    ensures { (forest : Forest) → IsAcceptedProgram forest → (member class id : ℕ) (position : Position) (m : DeclaredMethod) → slice_get (declarations_of forest).nodes id ≡ Some (Return position None) → Inside (declarations_of forest) member class id → method_at (declarations_of forest).nodes member ≡ Some m → m.declared.declared_type ≡ void_type }
{}
