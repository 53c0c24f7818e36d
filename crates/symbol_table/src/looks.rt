//! Look-ups of members, and of the classes above.

ghost use Rattle.std.specs.Prelude.{◌≡◌, option_and_then, option_map};
ghost use Rattle.scj_rules.specs.Classes.{field_named, framework_row_named, method_above, method_named, superclass_in};
ghost use Rattle.scj_rules.specs.Contexts.{declarations_of};
ghost use Rattle.method_rows.specs.Methods.{found_method};
ghost use Rattle.class_rows.specs.Fields.{found_field};

use crate::table::SymbolTable;
use class_rows::FieldRef;
use class_rows::nearest::as_method;
use method_rows::MethodRef;
use scj_base::Name;
use scj_builtins::FRAMEWORK_CLASS_COUNT;

impl<'a> SymbolTable<'a> {
    /// The field of a name that the superclass has, its own or the nearest above.
    #[tactic(auto, using(crate::proofs::LookLemmas::field_is))]
    pub fn field_above(&self, name: &Name) -> Option<FieldRef>
        ensures { option_map (found_field self.now.forest.nodes) result
            ≡ option_and_then (λ above. field_named (declarations_of self.now.forest).classes above name.now)
            (superclass_in (declarations_of self.now.forest).classes self.now.class) }
    {
        self.scope.above.fields.nearest_of(name)
    }

    /// The framework's own method of the name, where the class stands under the framework class or implements it.
    pub fn framework_row_named(&self, name: &Name) -> Option<MethodRef>
        ensures { option_map (found_method self.now.forest.nodes) result
            ≡ framework_row_named (declarations_of self.now.forest).classes self.now.class name.now }
    {
        self.classes.framework_row_named(self.class(), name)
    }

    /// What a declaration of the name in the class overrides.
    #[tactic(auto, using(crate::proofs::LookLemmas::above_is))]
    pub fn method_above(&self, name: &Name) -> Option<MethodRef>
        ensures { option_map (found_method self.now.forest.nodes) result
            ≡ method_above (declarations_of self.now.forest).classes self.now.class name.now }
    {
        let class = self.scope.level.class;
        if class.number() < FRAMEWORK_CLASS_COUNT {
            return self.classes.method_above(class, name);
        }
        match self.scope.above.methods.nearest_of(name) {
            Some(member) => Some(as_method(member)),
            None => self.framework_row_named(name),
        }
    }

    /// The method of a name that the class has: the nearest declaration above, or else an interface's.
    #[tactic(auto, using(crate::proofs::LookLemmas::named_is))]
    pub fn method_named(&self, name: &Name) -> Option<MethodRef>
        ensures { option_map (found_method self.now.forest.nodes) result
            ≡ method_named (declarations_of self.now.forest).classes self.now.class name.now }
    {
        match self.classes.own_method(self.scope.level.class, name) {
            Some(method) => Some(method),
            None => self.method_above(name),
        }
    }
}
