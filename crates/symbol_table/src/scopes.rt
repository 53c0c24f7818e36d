//! What a table keeps of the classes that are in scope.

ghost use Rattle.std.specs.Prelude.{◌≡◌, ◌<◌, ◌∷◌, true, not, ℕ, List, drop, length, OnOk};
ghost use Rattle.scj_builtins.specs.Framework.{object};
ghost use Rattle.scj_tree.specs.Forest.{Forest};
ghost use Rattle.scj_rules.specs.Classes.{classes_above};
ghost use Rattle.class_rows.specs.Members.{is_reported, nearest_in, AreNearest};
ghost use Rattle.symbol_table.specs.Scopes.{classes_of, rows_of, with_class, AreNamed, IsEntered, IsScope, IsUnder};

use crate::levels::{Level, Path, object_level};
use class_rows::members::{MemberKind, name_at};
use class_rows::{ClassTable, FieldRef, NearestMembers};
use scj_base::{ClassId, Memory, Name};
use std::alloc::Global;

/// The classes of a chain, with their members.
#[derive(Drop)]
pub struct Entered {
    /// The classes.
    pub path: Path,
    /// The nearest of their fields.
    pub fields: NearestMembers,
    /// The nearest of their methods.
    pub methods: NearestMembers,
}

/// What a name stands for above a class of which that is told, or with its members, where it is entered.
#[tactic(auto, using(crate::proofs::LookLemmas::standing_is))]
fn standing(
    nearest: &NearestMembers,
    classes: &ClassTable<'_>,
    kind: MemberKind,
    class: ClassId,
    name: &Name,
    is_entered: bool,
) -> Option<FieldRef>
    requires { is_reported nearest.now class ≡ true }
    ensures { AreNearest kind classes.now nearest.now → result ≡ nearest_in kind classes.now name.now
        (with_class is_entered class (classes_above (rows_of classes.now) class)) }
{
    let Some(above) = nearest.nearest_above(class, name) else {
        unreachable!()
    };
    if !is_entered {
        return above;
    }
    match classes.member_like(kind, class, &classes.first_declared(kind, name)) {
        Some(node) => Some(FieldRef { on: class, node }),
        None => above,
    }
}

/// Notes what the names of a class's members stand for once it is entered or left. What stands above it is told before,
/// and nothing that is told is forgotten, after an `Err` either.
fn renew(
    nearest: &mut NearestMembers,
    classes: &ClassTable<'_>,
    kind: MemberKind,
    level: &Level,
    is_entered: bool,
) -> Result<(), Memory>
    requires { is_reported nearest.old level.now.class ≡ true }
    ensures named { OnOk result ((path : List ℕ) → IsUnder (rows_of classes.now) level.now path →
        AreNamed kind classes.now nearest.old (with_class (not is_entered) level.now.class path) →
        AreNamed kind classes.now nearest.new (with_class is_entered level.now.class path)) }
    ensures kept { (class : ℕ) → is_reported nearest.new class ≡ is_reported nearest.old class }
{
    let program = classes.program();
    let mut others = classes.members(level.class);
    while let [id, rest @ ..] = others {
        others = rest;
        if let Some(name) = name_at(program, kind, *id) {
            let member = standing(nearest, classes, kind, level.class, &name, is_entered);
            nearest.note(program, &name, &member)?;
        }
    }
    Ok(())
}

impl Entered {
    /// Enters a class under the nearest, and tells what stands above it.
    pub fn push(&mut self, classes: &ClassTable<'_>, level: Level) -> Result<(), Memory>
        requires entered { IsEntered classes.now self.old }
        requires level { IsUnder (rows_of classes.now) level (classes_of self.old.path) }
        ensures entered { OnOk result (IsEntered classes.now self.new) }
        ensures path { OnOk result (self.new.path ≡ level ∷ self.old.path) }
    {
        self.fields.report(level.class)?;
        self.methods.report(level.class)?;
        renew(&mut self.fields, classes, MemberKind::Field, &level, true)?;
        renew(&mut self.methods, classes, MemberKind::Method, &level, true)?;
        self.path.push(level)?;
        Ok(())
    }

    /// Leaves the nearest class.
    pub fn pop(&mut self, classes: &ClassTable<'_>) -> Result<(), Memory>
        requires entered { IsEntered classes.now self.old }
        requires nearest { 0 < length self.old.path }
        ensures entered { OnOk result (IsEntered classes.now self.new) }
        ensures path { OnOk result (self.new.path ≡ drop 1 self.old.path) }
    {
        let Some(left) = self.path.pop() else {
            unreachable!()
        };
        renew(&mut self.fields, classes, MemberKind::Field, &left, false)?;
        renew(&mut self.methods, classes, MemberKind::Method, &left, false)?;
        Ok(())
    }
}

/// The members in scope at a class.
#[derive(Drop)]
pub struct Scope {
    /// The class.
    pub level: Level,
    /// Those above it.
    pub above: Entered,
}

impl Scope {
    /// The scope at `Object`.
    pub fn new(alloc: Global) -> Scope
        ensures class { result.level.class ≡ object }
        ensures scope { (forest : Forest) → IsScope forest result }
    {
        Scope {
            level: object_level(),
            above: Entered {
                path: Path::new(alloc),
                fields: NearestMembers::new(alloc),
                methods: NearestMembers::new(alloc),
            },
        }
    }
}
