//! Laws of the scopes of accepted programs: none is missing, and a class has that of an annotated class above it.

ghost use Rattle.std.specs.Prelude.{◌≡◌, ◌<◌, ℕ, Some, false, true, length, slice_get};
ghost use Rattle.scj_tree.specs.declared.nodes.Node.{Node as SyntaxNode};
ghost use Rattle.scj_tree.specs.Forest.{Forest};
ghost use Rattle.scj_rules.specs.declared.scopes.ClassScope.TheVariants.{Annotated as annotated, Missing as scopeless};
ghost use Rattle.scj_rules.specs.declared.scopes.ScopedDeclaration.{ScopedDeclaration};
ghost use Rattle.scj_rules.specs.Words.{is_among};
ghost use Rattle.scj_rules.specs.declared.views.Declared.{Declared as Declaration};
ghost use Rattle.scj_rules.specs.Views.{DeclaredMethod, field_of, method_at};
ghost use Rattle.scj_rules.specs.Classes.{superclasses};
ghost use Rattle.scj_rules.specs.Contexts.{Declarations, declarations_of, context};
ghost use Rattle.scj_rules.specs.StaticScopes.{class_scope, this_in, runs_in, current_in, has_no_scope, declaration_scope, field_scope};
ghost use Rattle.scj_rules.specs.AnnotationRules.{scoped_declaration_at, result_scope};
ghost use Rattle.accepted_laws.specs.Judgements.{HasScope};
ghost use Rattle.accepted_laws.specs.Programs.{IsAcceptedProgram};

/// No scope of a class is missing.
pub fn class_scopes_are_known()
    ensures { (forest : Forest) → IsAcceptedProgram forest → (class : ℕ) → ¬ (class_scope (declarations_of forest) class ≡ scopeless) }
{}

/// A class has the scope of an annotated class above it.
pub fn class_scopes_are_inherited()
    ensures { (forest : Forest) → IsAcceptedProgram forest → (class above scope : ℕ) → class < length (declarations_of forest).classes → is_among above (superclasses (declarations_of forest).classes class) ≡ true → class_scope (declarations_of forest) above ≡ annotated scope → class_scope (declarations_of forest) class ≡ annotated scope }
{}

/// THIS has a scope in each class.
pub fn this_has_a_scope()
    ensures { (forest : Forest) → IsAcceptedProgram forest → (class : ℕ) → HasScope (this_in (declarations_of forest) class) }
{}

/// Each method runs in a scope.
pub fn methods_run_in_a_scope()
    ensures { (forest : Forest) → IsAcceptedProgram forest → (class id : ℕ) (m : DeclaredMethod) → method_at (declarations_of forest).nodes id ≡ Some m → (context (declarations_of forest) id).class ≡ Some class → HasScope (runs_in (declarations_of forest) class m) }
{}

/// A scope is current in each member.
pub fn members_have_a_current_scope()
    ensures { (forest : Forest) → IsAcceptedProgram forest → (class member : ℕ) → (context (declarations_of forest) member).class ≡ Some class → HasScope (current_in (declarations_of forest) class member) }
{}

/// Each variable, field and result whose values are references has a scope.
pub fn declarations_have_scopes()
    ensures { (forest : Forest) → IsAcceptedProgram forest → (id : ℕ) (node : SyntaxNode) (t : ScopedDeclaration) → slice_get (declarations_of forest).nodes id ≡ Some node → scoped_declaration_at (declarations_of forest) id node ≡ Some t → has_no_scope t.declared_type ≡ false → HasScope (declaration_scope (declarations_of forest) t) }
{}

/// Each field whose values are references has a scope.
pub fn fields_have_scopes()
    ensures { (forest : Forest) → IsAcceptedProgram forest → (class id : ℕ) (node : SyntaxNode) (f : Declaration) → slice_get (declarations_of forest).nodes id ≡ Some node → field_of (declarations_of forest).nodes id node ≡ Some f → (context (declarations_of forest) id).class ≡ Some class → has_no_scope f.declared_type ≡ false → HasScope (field_scope (declarations_of forest) class f) }
{}

/// Each result whose values are references has a scope.
pub fn results_have_scopes()
    ensures { (forest : Forest) → IsAcceptedProgram forest → (class id : ℕ) (m : DeclaredMethod) → method_at (declarations_of forest).nodes id ≡ Some m → (context (declarations_of forest) id).class ≡ Some class → has_no_scope m.declared.declared_type ≡ false → HasScope (result_scope (declarations_of forest) class m) }
{}
