//! Laws of the nodes of accepted programs: their children, types, scopes and bindings, and the rules at each of them.

ghost use Rattle.std.specs.Prelude.{◌≡◌, ◌<◌, ℕ, Some, true, slice_get};
ghost use Rattle.scj_tree.specs.declared.nodes.Node.{Node as SyntaxNode};
ghost use Rattle.scj_tree.specs.Forest.{Forest, IsForest};
ghost use Rattle.scj_rules.specs.CheckedProgram.{IsReadFromTexts};
ghost use Rattle.scj_rules.specs.Contexts.{Declarations, declarations_of, context, known_variables};
ghost use Rattle.scj_rules.specs.LimitRules.{variables_of};
ghost use Rattle.scj_rules.specs.Words.{is_among};
ghost use Rattle.scj_rules.specs.Phases.{IsAccepted};
ghost use Rattle.scj_rules.specs.TypeRules.{type_of};
ghost use Rattle.scj_rules.specs.UseRules.{scope_of};
ghost use Rattle.scj_rules.specs.Bindings.{binding_of};
ghost use Rattle.accepted_laws.specs.Intervals.{AreIntervals};
ghost use Rattle.accepted_laws.specs.Variables.{BeginWithParameters};
ghost use Rattle.accepted_laws.specs.Judgements.{type_at_node, scope_at_node, binding_at_node, IsMemberOf};
ghost use Rattle.accepted_laws.specs.Programs.{IsAcceptedProgram};
ghost use Rattle.accepted_laws.specs.Sorts.{IsWellSorted};
ghost use Rattle.accepted_laws.specs.Unbroken.{NoBreakAtNode};

use scj_rules::Checked;

/// The program of a sealed one is an accepted program.
pub fn checked_is_accepted(checked: &Checked)
    ensures { IsAcceptedProgram checked.now.program }
{
    // that a program is a forest is told by each function that looks into it
    let program = checked.program();
    let _ = program.len();
}

/// In a program that is read from texts each node has children of the sorts that its kind asks.
pub fn children_are_of_their_sorts()
    ensures { (forest : Forest) → IsReadFromTexts forest → IsWellSorted forest.nodes }
{}

/// Each node stands behind all that is below it, and nothing else stands between them: the nodes of a program are those
/// of its classes, class after class.
pub fn trees_are_intervals()
    ensures { (forest : Forest) → IsReadFromTexts forest → AreIntervals forest }
{}

/// No rule is broken at any node of an accepted program.
pub fn no_node_breaks_a_rule()
    ensures { (forest : Forest) → IsAccepted forest → (id : ℕ) (node : SyntaxNode) → slice_get (declarations_of forest).nodes id ≡ Some node → NoBreakAtNode (declarations_of forest) id node }
{}

/// The type of a node is that of its kind, by the types of all nodes.
pub fn types_are_of_their_kinds()
    ensures { (forest : Forest) → IsForest forest → IsAccepted forest → (id : ℕ) (node : SyntaxNode) → slice_get (declarations_of forest).nodes id ≡ Some node → type_at_node (declarations_of forest) id ≡ type_of (declarations_of forest) (type_at_node (declarations_of forest)) id node }
{}

/// The static scope of a node is that of its kind, by the types and static scopes of all nodes.
pub fn scopes_are_of_their_kinds()
    ensures { (forest : Forest) → IsForest forest → (id : ℕ) (node : SyntaxNode) → slice_get (declarations_of forest).nodes id ≡ Some node → scope_at_node (declarations_of forest) id ≡ scope_of (declarations_of forest) (type_at_node (declarations_of forest)) (scope_at_node (declarations_of forest)) id node }
{}

/// The binding of a node is that of its kind, by the types of all nodes.
pub fn bindings_are_of_their_kinds()
    ensures { (forest : Forest) (id : ℕ) (node : SyntaxNode) → slice_get (declarations_of forest).nodes id ≡ Some node → binding_at_node (declarations_of forest) id ≡ binding_of (declarations_of forest) (type_at_node (declarations_of forest)) id node }
{}

/// The member in which a node stands is a member, behind the node and of the same class.
pub fn members_hold_their_nodes()
    ensures { (forest : Forest) → IsForest forest → IsReadFromTexts forest → (id member : ℕ) → (context (declarations_of forest) id).member ≡ Some member → IsMemberOf (declarations_of forest) id member }
{}

/// A variable of a member has one number.
pub fn variables_have_one_number()
    ensures { (forest : Forest) (member i j variable : ℕ) → slice_get (variables_of (declarations_of forest) member) i ≡ Some variable → slice_get (variables_of (declarations_of forest) member) j ≡ Some variable → i ≡ j }
{}

/// Each variable that is in scope in a member is among its variables.
pub fn variables_in_scope_have_numbers()
    ensures { (forest : Forest) → IsForest forest → IsReadFromTexts forest → (id member variable : ℕ) → (context (declarations_of forest) id).member ≡ Some member → is_among variable (known_variables (declarations_of forest) id) ≡ true → is_among variable (variables_of (declarations_of forest) member) ≡ true }
{}

/// The parameters of a member have its first numbers, each its place among the parameters.
pub fn variables_begin_with_parameters()
    ensures { (forest : Forest) → IsForest forest → IsReadFromTexts forest → (member : ℕ) → BeginWithParameters (declarations_of forest) member }
{}
