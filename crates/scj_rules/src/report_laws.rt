//! Laws of the report of a program, and of the tables that its rules are told from. Each is the contract of a function
//! that does nothing.

ghost use Rattle.std.specs.Prelude.{◌↔◌, ◌⊎◌, true, ◌≡◌, ◌<◌, ℕ, List, Option, None, length, slice_get};
ghost use Rattle.scj_base.specs.declared.findings.Found.{Found as Finding};
ghost use Rattle.scj_tree.specs.Forest.{Forest, IsForest};
ghost use Rattle.scj_tree.specs.Recursion.{lookup, below, above};
ghost use Rattle.scj_rules.specs.Contexts.{Declarations, outermost, contexts_in, context_of, declarations_of, known_variables, variables_in_scope};
ghost use Rattle.scj_tree.specs.Forest.{joined};
ghost use Rattle.scj_rules.specs.TypeRules.{Types, types_in, type_of_next};
ghost use Rattle.scj_rules.specs.UseRules.{scopes_in, scope_of_next};
ghost use Rattle.scj_rules.specs.Chains.{Follows, ComesBack, Reaches};
ghost use Rattle.scj_rules.specs.Words.{is_among};
ghost use Rattle.scj_rules.specs.Classes.{is_cyclic, superclass_in, superclasses, is_super, is_sub};
ghost use Rattle.scj_rules.specs.ScopeRules.{is_cyclic_scope, is_outer, parent_scope, immortal_scope};
ghost use Rattle.scj_rules.specs.Phases.{IsAccepted, Reports};

/// Some program breaks no rule.
pub fn some_program_is_accepted()
    ensures { (forest : Forest) × IsForest forest × IsAccepted forest }
{}

/// A program has one report at most.
pub fn one_report_of_a_program()
    ensures { (forest : Forest) (early : Option Finding) (xs ys : List Finding) → Reports forest early xs →
        Reports forest early ys → xs ≡ ys }
{}

/// The type of a node is told by those of the nodes before it.
pub fn types_come_from_below()
    ensures { (p : Declarations) (id : ℕ) → id < length p.nodes →
        lookup None (types_in p) id ≡ type_of_next p id (below None id (lookup None (types_in p))) }
{}

/// The static scope of a node is told by those of the nodes before it.
pub fn scopes_come_from_below()
    ensures { (p : Declarations) (types : Types) (id : ℕ) → id < length p.nodes →
        lookup None (scopes_in p types) id ≡ scope_of_next p types id
        (below None id (lookup None (scopes_in p types))) }
{}

/// The context of a node is told by those of the nodes behind it.
pub fn contexts_come_from_above()
    ensures { (forest : Forest) (id : ℕ) → id < length forest.nodes →
        lookup outermost (contexts_in forest) id ≡ context_of forest.nodes (joined forest.files) id
        (above outermost id (lookup outermost (contexts_in forest))) }
{}

/// A class breaks the rule on cycles exactly where its superclasses come back to it.
pub fn class_cycles_are_found()
    ensures { (forest : Forest) (class : ℕ) → (is_cyclic (declarations_of forest).written class ≡ true) ↔ ComesBack
        (superclass_in (declarations_of forest).written) class }
{}

/// The chain of a class holds exactly the class and what is reached from it by superclasses.
pub fn superclasses_are_reached()
    ensures { (forest : Forest) (a b : ℕ) → a < length (declarations_of forest).classes →
        (is_among b (superclasses (declarations_of forest).classes a) ≡ true) ↔
        ((a ≡ b) ⊎ Follows (superclass_in (declarations_of forest).classes) a b) }
{}

/// A class is a subtype of another one exactly where steps from a class to its superclass or one of its interfaces lead
/// there.
pub fn subtypes_are_reached()
    ensures { (forest : Forest) (a b : ℕ) → a < length (declarations_of forest).classes →
        (is_sub (declarations_of forest).classes a b ≡ true) ↔ Reaches (is_super (declarations_of forest).classes) a b }
{}

/// A scope is outer of another one exactly where it is the root, that scope, or reached from it by parents.
pub fn outer_scopes_are_reached()
    ensures { (forest : Forest) (a b : ℕ) → b < length (declarations_of forest).classes →
        (is_outer (declarations_of forest) a b ≡ true) ↔
        ((a ≡ immortal_scope) ⊎ ((b ≡ a) ⊎ Follows (parent_scope (declarations_of forest)) b a)) }
{}

/// The parents of a scope form a cycle exactly where they come back to it.
pub fn scope_cycles_are_found()
    ensures { (forest : Forest) (scope : ℕ) → (is_cyclic_scope (declarations_of forest) scope ≡ true) ↔ ComesBack
        (parent_scope (declarations_of forest)) scope }
{}

/// The variables that contexts link, which the code follows, are those in scope: what is declared before a node in its
/// parent, the last first, and then what is in scope at the parent.
pub fn known_variables_are_in_scope()
    ensures { (forest : Forest) → IsForest forest → (id : ℕ) → id < length forest.nodes →
        known_variables (declarations_of forest) id ≡ variables_in_scope forest id }
{}
