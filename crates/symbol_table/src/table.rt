//! The members in scope at one class after another.

ghost use Rattle.std.specs.Prelude.{◌≡◌, ◌<◌, length, OnErr, OnOk};
ghost use Rattle.scj_builtins.specs.Framework.{object};
ghost use Rattle.scj_rules.specs.Classes.{instance_fields};
ghost use Rattle.scj_rules.specs.Contexts.{declarations_of};
ghost use Rattle.class_rows.specs.declared.members.MemberKind.TheVariants.{Field, Method};
ghost use Rattle.class_rows.specs.Members.{AreNearest};
ghost use Rattle.symbol_table.specs.Symbols.{at_class};

use crate::scopes::{Entered, Scope};
use crate::ways::go;
use class_rows::{ClassTable, NearestMembers};
use scj_base::{ClassId, Memory};
use std::alloc::Global;
use std::marker::Model;

/// The members in scope at one class after another. A contract sees the program and the class.
#[derive(Drop)]
pub struct SymbolTable<'a> {
    alloc: Global,
    pub(crate) classes: &'a ClassTable<'a>,
    pub(crate) scope: Scope,
}

impl<'a> Model for SymbolTable<'a> {
    ghost use Rattle.symbol_table.specs.Symbols.{AtClass, at_class};
    ghost use Rattle.symbol_table.specs.Scopes.{IsScope};

    ghost Value = { AtClass };

    ghost view = { λ a. at_class a.classes.now a.scope.level.class };

    ghost invariant = { λ a. IsScope a.classes.now a.scope };
}

impl<'a> SymbolTable<'a> {
    /// The table at `Object`.
    pub fn new(alloc: Global, classes: &'a ClassTable<'a>) -> SymbolTable<'a>
        ensures { result ≡ at_class classes.now object }
    {
        SymbolTable {
            alloc,
            classes,
            scope: Scope::new(alloc),
        }
    }

    /// Goes to a class: it costs the members of the classes above that are left and entered, which is little where the
    /// superclass is in scope. After an `Err` it is at `Object`. `Err` also comes where the class above isn't the one
    /// in scope, where a chain is longer than there are classes, and where a framework class stands under another one
    /// than `Object`; no program has any of these.
    pub fn go_to(&mut self, class: ClassId) -> Result<(), Memory>
        requires { class < length (declarations_of self.old.forest).classes }
        ensures at { OnOk result (self.new ≡ at_class self.old.forest class) }
        ensures left { OnErr result (self.new ≡ at_class self.old.forest object) }
    {
        if go(self.alloc, &mut self.scope, self.classes, class).is_err() {
            self.scope = Scope::new(self.alloc);
            return Err(Memory);
        }
        Ok(())
    }

    /// The classes of the program.
    pub fn classes(&self) -> &'a ClassTable<'a>
        ensures { result.now ≡ self.now.forest }
    {
        self.classes
    }

    /// The class that the table is at.
    pub fn class(&self) -> ClassId
        ensures { result ≡ self.now.class }
    {
        self.scope.level.class
    }

    /// What was told of the fields and of the methods above the classes at which it was.
    pub fn into_nearest(self) -> (NearestMembers, NearestMembers)
        ensures { AreNearest Field self.entry.forest result.0 × AreNearest Method self.entry.forest result.1 }
    {
        let SymbolTable { scope, .. } = self;
        let Scope { above, .. } = scope;
        let Entered {
            fields,
            methods,
            ..
        } = above;
        (fields, methods)
    }

    /// How many instance fields an object of the class has.
    pub fn instance_field_count(&self) -> usize
        ensures { result ≡ length (instance_fields (declarations_of self.now.forest).classes self.now.class) }
    {
        self.scope.level.field_count
    }
}
