//! Abstract methods that user classes declare and that stay open.

ghost use Rattle.std.specs.Prelude.{◌≡◌};
ghost use Rattle.std.specs.List.{list_any};
ghost use Rattle.std.specs.BTreeMap.{values};
ghost use Rattle.scj_rules.specs.Contexts.{declarations_of};
ghost use Rattle.class_rows.specs.declared.fields.FieldRef.{FieldRef as Row};
ghost use Rattle.class_rows.specs.Tables.{members_in};
ghost use Rattle.symbol_table.specs.Scopes.{is_left, leaves_at, rows_of};
ghost use Rattle.symbol_table.specs.Symbols.{leaves_declared_open};

use crate::table::SymbolTable;
use class_rows::FieldRef as Member;
use class_rows::nearest::as_method;
use method_rows::declared;
use node_views::{is_abstract_method, method_name};
use scj_base::{Name, NodeId};
use scj_builtins::FRAMEWORK_CLASS_COUNT;
use std::collections::BTreeMap;

impl<'a> SymbolTable<'a> {
    /// Whether the method of a name that the user classes of the chain give the class is abstract.
    #[tactic(auto, using(crate::proofs::LookLemmas::user_method, crate::proofs::LookLemmas::framework_method))]
    fn is_left(&self, name: &Name) -> bool
        ensures { result ≡ is_left (rows_of self.now.forest) self.now.class name.now }
    {
        let program = self.classes.program();
        if self.scope.level.class.number() >= FRAMEWORK_CLASS_COUNT {
            if let Some(method) = self.classes.own_method(self.scope.level.class, name) {
                return declared(program, &method).modifiers.is_abstract;
            }
        }
        match self.scope.above.methods.nearest_of(name) {
            Some(member) => declared(program, &as_method(member)).modifiers.is_abstract,
            None => false,
        }
    }

    /// Whether a member is an abstract method, and the one of its name that the class has is abstract, too.
    fn leaves_at(&self, node: NodeId) -> bool
        ensures { result ≡ leaves_at self.now.forest.nodes (rows_of self.now.forest) self.now.class node }
    {
        if !is_abstract_method(self.classes.program(), node) {
            return false;
        }
        match method_name(self.classes.program(), node) {
            Some(name) => self.is_left(&name),
            None => false,
        }
    }

    /// Whether one of the class's own abstract methods is left open.
    fn leaves_own(&self) -> bool
        ensures { result ≡ list_any (leaves_at self.now.forest.nodes (rows_of self.now.forest) self.now.class)
            (members_in (declarations_of self.now.forest) self.now.class) }
    {
        let members = self.classes.members(self.scope.level.class);
        members.iter().any(|id| self.leaves_at(*id))
    }

    /// Whether one of these members is left open.
    fn leaves_one(&self, members: &BTreeMap<Name, Member>) -> bool
        ensures { result ≡ list_any (λ (m : Row). leaves_at self.now.forest.nodes
            (rows_of self.now.forest) self.now.class m.node) (values members.now) }
    {
        members.values().any(|member| self.leaves_at(member.node))
    }

    /// Whether an abstract method that a user class of the chain declares isn't implemented on the chain. Each name
    /// that is open above and that the class doesn't leave open is one that it declares: so this costs no more than its
    /// members.
    #[tactic(auto, using(crate::proofs::OpenLemmas::leaves_by_own))]
    pub fn leaves_declared_open(&self) -> bool
        ensures { result ≡ leaves_declared_open (declarations_of self.now.forest) self.now.class }
    {
        self.leaves_own() || self.leaves_one(self.scope.above.methods.abstracts())
    }
}
