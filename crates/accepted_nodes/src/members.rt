//! Laws of the fields of objects in accepted programs: their numbers and slots.

ghost use Rattle.std.specs.Prelude.{◌≡◌, ◌<◌, ℕ, List, Some, false, true, length};
ghost use Rattle.scj_tree.specs.Forest.{Forest};
ghost use Rattle.scj_rules.specs.declared.typing.FoundField.{FoundField as FieldOf};
ghost use Rattle.scj_rules.specs.Words.{is_among};
ghost use Rattle.scj_rules.specs.Classes.{superclasses, field_named, field_number};
ghost use Rattle.scj_rules.specs.Contexts.{Declarations, declarations_of};
ghost use Rattle.accepted_laws.specs.Programs.{IsAcceptedProgram};
ghost use Rattle.accepted_nodes.specs.Members.{HasNumber, HasSlot};

/// Each field that a class has is numbered.
pub fn fields_have_numbers()
    ensures { (forest : Forest) → IsAcceptedProgram forest → (class : ℕ) (name : List ℕ) (f : FieldOf) → field_named (declarations_of forest).classes class name ≡ Some f → HasNumber (declarations_of forest) f.field }
{}

/// An instance field has a slot in each object of its class and of the classes under it.
pub fn fields_have_slots()
    ensures { (forest : Forest) → IsAcceptedProgram forest → (class under number : ℕ) (name : List ℕ) (f : FieldOf) → under < length (declarations_of forest).classes → is_among class (superclasses (declarations_of forest).classes under) ≡ true → field_named (declarations_of forest).classes class name ≡ Some f → f.field.modifiers.is_static ≡ false → field_number (declarations_of forest).classes f.field.node ≡ Some number → HasSlot (declarations_of forest) under number f.field }
{}
