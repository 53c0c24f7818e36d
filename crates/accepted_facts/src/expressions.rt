//! Facts of expressions in accepted programs, kind by kind.

ghost use Rattle.std.specs.Prelude.{◌≡◌, ℕ, List, Option, Some, true, slice_get};
ghost use Rattle.scj_base.specs.declared.positions.Position.{Position};
ghost use Rattle.scj_tree.specs.declared.nodes.Node.{Node as SyntaxNode};
ghost use Rattle.scj_tree.specs.declared.nodes.Node.TheVariants.{Binary, Unary, SimpleName, FieldAccess, Element, NewArray, Cast};
ghost use Rattle.scj_tree.specs.Forest.{Forest};
ghost use Rattle.scj_rules.specs.Contexts.{Declarations, declarations_of};
ghost use Rattle.accepted_laws.specs.Judgements.{Judged, IsValue, Inside};
ghost use Rattle.accepted_laws.specs.Kinds.{Kind};
ghost use Rattle.accepted_laws.specs.Programs.{IsAcceptedProgram};
ghost use Rattle.accepted_laws.specs.Sorts.{is_expression};
ghost use Rattle.accepted_facts.specs.Expressions.{NameFacts, AccessFacts, BinaryFacts, UnaryFacts, ElementFacts, NewArrayFacts, CastFacts};

/// Each expression in a body is judged: it has a type with a static scope, or gives nothing.
pub fn expressions_are_judged()
    ensures { (forest : Forest) → IsAcceptedProgram forest → (member class id : ℕ) (node : SyntaxNode) → slice_get (declarations_of forest).nodes id ≡ Some node → Inside (declarations_of forest) member class id → IsValue (declarations_of forest) id node → is_expression node ≡ true → (o : Option Kind) × Judged (declarations_of forest) id o }
{}

/// A simple name that stands for a value is a variable in scope, a field of the own object or a static field.
pub fn names_have_facts()
    ensures { (forest : Forest) → IsAcceptedProgram forest → (member class id : ℕ) (position : Position) (name : List ℕ) (k : Kind) → slice_get (declarations_of forest).nodes id ≡ Some (SimpleName position name) → Inside (declarations_of forest) member class id → IsValue (declarations_of forest) id (SimpleName position name) → Judged (declarations_of forest) id (Some k) → NameFacts (declarations_of forest) member class id name k }
{}

/// An access is to a field of an object, to the length of an array, or to a static field.
pub fn accesses_have_facts()
    ensures { (forest : Forest) → IsAcceptedProgram forest → (member class id object : ℕ) (position : Position) (name : List ℕ) (k : Kind) → slice_get (declarations_of forest).nodes id ≡ Some (FieldAccess position name object) → Inside (declarations_of forest) member class id → Judged (declarations_of forest) id (Some k) → AccessFacts (declarations_of forest) member class id object name k }
{}

/// An element is of an array, at an int.
pub fn elements_have_facts()
    ensures { (forest : Forest) → IsAcceptedProgram forest → (member class id array index : ℕ) (position : Position) (k : Kind) → slice_get (declarations_of forest).nodes id ≡ Some (Element position array index) → Inside (declarations_of forest) member class id → Judged (declarations_of forest) id (Some k) → ElementFacts (declarations_of forest) member class id array index k }
{}

/// A new array lies in the current scope, and that of its elements' class, where it has one, is around it.
pub fn new_arrays_have_facts()
    ensures { (forest : Forest) → IsAcceptedProgram forest → (member class id element size : ℕ) (position : Position) (k : Kind) → slice_get (declarations_of forest).nodes id ≡ Some (NewArray position element size) → Inside (declarations_of forest) member class id → Judged (declarations_of forest) id (Some k) → NewArrayFacts (declarations_of forest) member class id element size k }
{}

/// A cast is of a reference of a related type, which lies where the class's objects lie.
pub fn casts_have_facts()
    ensures { (forest : Forest) → IsAcceptedProgram forest → (member class id operand : ℕ) (position name_position : Position) (name : List ℕ) (k : Kind) → slice_get (declarations_of forest).nodes id ≡ Some (Cast position name_position name operand) → Inside (declarations_of forest) member class id → Judged (declarations_of forest) id (Some k) → CastFacts (declarations_of forest) member class id name operand k }
{}

/// A binary operator has operands of kinds that it takes, and gives a number or a truth value (JLS 15.17 to 15.24).
pub fn binary_expressions_have_facts()
    ensures { (forest : Forest) → IsAcceptedProgram forest → (member class id operator left operand : ℕ) (position : Position) (k : Kind) → slice_get (declarations_of forest).nodes id ≡ Some (Binary position operator left operand) → Inside (declarations_of forest) member class id → Judged (declarations_of forest) id (Some k) → BinaryFacts (declarations_of forest) member class id operator left operand k }
{}

/// A unary operator has an operand of the kind that it gives (JLS 15.15).
pub fn unary_expressions_have_facts()
    ensures { (forest : Forest) → IsAcceptedProgram forest → (member class id operator operand : ℕ) (position : Position) (k : Kind) → slice_get (declarations_of forest).nodes id ≡ Some (Unary position operator operand) → Inside (declarations_of forest) member class id → Judged (declarations_of forest) id (Some k) → UnaryFacts (declarations_of forest) member class id operator operand k }
{}
