//! What each statement and each body of an accepted program has.

ghost use Rattle.std.specs.Prelude.{◌≡◌, ◌<◌, ℕ, Some, None, true, length, slice_get};
ghost use Rattle.scj_tree.specs.declared.nodes.Node.{Node as SyntaxNode};
ghost use Rattle.scj_tree.specs.Forest.{Forest};
ghost use Rattle.scj_rules.specs.declared.typing.Scope.TheVariants.{In};
ghost use Rattle.scj_rules.specs.declared.typing.Ty.{Ty as ValueType};
ghost use Rattle.scj_rules.specs.declared.typing.Ty.TheVariants.{Class as ClassTy};
ghost use Rattle.scj_rules.specs.Classes.{is_sub};
ghost use Rattle.scj_rules.specs.StaticScopes.{this_in};
ghost use Rattle.scj_rules.specs.Types.{assigns};
ghost use Rattle.accepted_laws.specs.Programs.{IsAcceptedProgram};
ghost use Rattle.scj_model.specs.Code.{Code, code_of};
ghost use Rattle.scope_flow.specs.Facts.{EntryFact};
ghost use Rattle.scope_flow.specs.Needs.{IsStatement};
ghost use Rattle.scope_flow.specs.Signatures.{Signature, IsBody, IsConcrete};
ghost use Rattle.scope_flow.specs.Slots.{array_type, IsOfType};
ghost use Rattle.scope_flow.specs.StatementFacts.{StatementFact};

/// An object of a type is of each type that this one may be assigned to.
pub fn objects_are_of_assigned_types()
    ensures { (forest : Forest) → IsAcceptedProgram forest → (class : ℕ) (t u : ValueType) →
        IsOfType (code_of forest).program class t → assigns (code_of forest).program.classes t u ≡ true →
        IsOfType (code_of forest).program class u }
{}

/// A class that is concrete is one of its own type.
pub fn concrete_classes_are_of_their_types()
    ensures { (forest : Forest) → IsAcceptedProgram forest → (class : ℕ) → IsConcrete (code_of forest).program class →
        IsOfType (code_of forest).program class (ClassTy class) }
{}

/// A class is no array's.
pub fn classes_are_no_arrays()
    ensures { (forest : Forest) → IsAcceptedProgram forest → (class : ℕ) →
        class < length (code_of forest).program.classes → array_type (code_of forest).program class ≡ None }
{}

/// A class has the scope of an annotated class above it.
pub fn scopes_are_inherited()
    ensures { (forest : Forest) → IsAcceptedProgram forest → (c above n : ℕ) →
        is_sub (code_of forest).program.classes c above ≡ true → this_in (code_of forest).program above ≡ Some (In n) →
        this_in (code_of forest).program c ≡ Some (In n) }
{}

/// Each statement of a body has the facts of its kind.
pub fn statements_have_facts()
    ensures { (forest : Forest) → IsAcceptedProgram forest →
        (body class : ℕ) (sig : Signature) (id : ℕ) (node : SyntaxNode) →
        IsBody (code_of forest).program body class sig → IsStatement (code_of forest).program body class id →
        slice_get (code_of forest).program.nodes id ≡ Some node →
        StatementFact (code_of forest) body class sig id node }
{}

/// Each body has the facts of its kind.
pub fn bodies_have_facts()
    ensures { (forest : Forest) → IsAcceptedProgram forest →
        (b class : ℕ) (sig : Signature) (body : IsBody (code_of forest).program b class sig) →
        EntryFact (code_of forest) b class sig body.node }
{}
