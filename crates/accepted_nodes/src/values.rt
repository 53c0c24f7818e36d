//! Laws of values in accepted programs: each has a type; conditions, the values of locals, and `this`.

ghost use Rattle.std.specs.Prelude.{◌≡◌, ℕ, true, List, Option, Some, slice_get};
ghost use Rattle.scj_base.specs.declared.positions.Position.{Position};
ghost use Rattle.scj_tree.specs.declared.nodes.Node.{Node as SyntaxNode};
ghost use Rattle.scj_tree.specs.declared.nodes.Node.TheVariants.{If, While, For, LocalWithValue, This as ThisNode};
ghost use Rattle.scj_tree.specs.Forest.{Forest};
ghost use Rattle.scj_rules.specs.declared.typing.Ty.{Ty as ValueType};
ghost use Rattle.scj_rules.specs.declared.typing.Ty.TheVariants.{Bool as Boolean, Class as ClassTy};
ghost use Rattle.scj_rules.specs.declared.typing.Scope.TheVariants.{This, Caller};
ghost use Rattle.scj_rules.specs.Contexts.{Declarations, declarations_of};
ghost use Rattle.scj_rules.specs.Types.{is_reference};
ghost use Rattle.scj_rules.specs.Phases.{IsAccepted};
ghost use Rattle.accepted_laws.specs.Judgements.{type_at_node, scope_at_node, HasType, HasScope, IsValue, Judged, Inside, OwnObject};
ghost use Rattle.accepted_laws.specs.Kinds.{Kind, reference, kind_of_variable, Fits};
ghost use Rattle.accepted_laws.specs.Programs.{IsAcceptedProgram};

/// Each expression in a body has a type, but for the name of a class before a dot and a part of a framework's form.
pub fn values_have_types()
    ensures { (forest : Forest) → IsAcceptedProgram forest → (member class id : ℕ) (node : SyntaxNode) → slice_get (declarations_of forest).nodes id ≡ Some node → Inside (declarations_of forest) member class id → IsValue (declarations_of forest) id node → HasType (type_at_node (declarations_of forest) id) }
{}

/// Each expression in a body whose value is a reference has a static scope.
pub fn references_have_scopes()
    ensures { (forest : Forest) → IsAcceptedProgram forest → (member class id : ℕ) (node : SyntaxNode) (t : ValueType) → slice_get (declarations_of forest).nodes id ≡ Some node → Inside (declarations_of forest) member class id → IsValue (declarations_of forest) id node → type_at_node (declarations_of forest) id ≡ Some t → is_reference t ≡ true → HasScope (scope_at_node (declarations_of forest) id) }
{}

/// The condition of an `if` is boolean, where it has a type.
pub fn conditions_of_if_are_boolean()
    ensures { (forest : Forest) → IsAccepted forest → (id : ℕ) (position : Position) (condition then_part : ℕ) (else_part : Option ℕ) (t : ValueType) → slice_get (declarations_of forest).nodes id ≡ Some (If position condition then_part else_part) → type_at_node (declarations_of forest) condition ≡ Some t → t ≡ Boolean }
{}

/// The condition of a `while` is boolean, where it has a type.
pub fn conditions_of_while_are_boolean()
    ensures { (forest : Forest) → IsAccepted forest → (id : ℕ) (position : Position) (condition body : ℕ) (t : ValueType) → slice_get (declarations_of forest).nodes id ≡ Some (While position condition body) → type_at_node (declarations_of forest) condition ≡ Some t → t ≡ Boolean }
{}

/// The condition of a `for` is boolean, where it has a type.
pub fn conditions_of_for_are_boolean()
    ensures { (forest : Forest) → IsAccepted forest → (id : ℕ) (position : Position) (first condition step body : ℕ) (t : ValueType) → slice_get (declarations_of forest).nodes id ≡ Some (For position first condition step body) → type_at_node (declarations_of forest) condition ≡ Some t → t ≡ Boolean }
{}

/// The value with which a local is declared fits the local in type and scope, where both are judged.
pub fn initial_values_fit()
    ensures { (forest : Forest) → IsAccepted forest → (id : ℕ) (position name_position : Position) (name : List ℕ) (flags : Option ℕ) (declared_type value : ℕ) → slice_get (declarations_of forest).nodes id ≡ Some (LocalWithValue position name_position name flags declared_type value) → (j k : Kind) → Judged (declarations_of forest) value (Some j) → kind_of_variable (declarations_of forest) id ≡ Some k → Fits (declarations_of forest) This Caller j k }
{}

/// `this` stands where there is an object, is of the class around it, and lies where that class's objects lie.
pub fn this_is_the_own_object()
    ensures { (forest : Forest) → IsAcceptedProgram forest → (member class id : ℕ) (position : Position) → slice_get (declarations_of forest).nodes id ≡ Some (ThisNode position) → Inside (declarations_of forest) member class id → (own : OwnObject (declarations_of forest) member class) × Judged (declarations_of forest) id (Some (reference (ClassTy class) own.home)) }
{}
