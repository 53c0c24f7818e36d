//! The nearest members of names above classes, as a tour of the classes finds them: each change of what a name stands
//! for is kept, and of each class how many there were. So a binary search tells later what a name stood for there.

ghost use Rattle.std.specs.Prelude.{◌≡◌, ◌==◌, ◌||◌, [], ◌∷◌, ℕ, List, is_some, IfSome, OnOk, if◌then◌else◌};
ghost use Rattle.scj_base.specs.Bytes.{is_same};
ghost use Rattle.scj_tree.specs.Forest.{Forest};
ghost use Rattle.scj_rules.specs.Classes.{classes_above, superclasses};
ghost use Rattle.class_rows.specs.declared.members.MemberKind.{MemberKind};
ghost use Rattle.class_rows.specs.Members.{as_method, change, changes_under, if_abstract, is_reported, kept_under, latest, nearest_before, nearest_now, rows_of, with_change, AreInOrder, AreNamed, AreNearest, IsNearestAbove, IsSplit};

use crate::fields::FieldRef;
use method_rows::{MethodRef, MethodSource};
use node_views::is_abstract_method;
use scj_base::{ClassId, Memory, Name};
use scj_tree::Program;
use std::alloc::Global;
use std::collections::{BTreeMap, HashMap};

/// A change of what a name stands for.
#[derive(Clone, Copy, Debug)]
pub struct Change {
    /// How many changes, of whatever names, came before it.
    pub before: u32,
    /// The nearest member of the name from then on. A method stands in a row like that of a field.
    pub nearest: Option<FieldRef>,
}

/// The nearest members of names, now and earlier. The names stand in trees: mostly few members are entered, and names
/// that collide in a hash table would cost more.
#[derive(Drop)]
pub struct NearestMembers {
    alloc: Global,
    /// How many changes there were.
    count: u32,
    /// Those of each name, the last one last.
    changes: BTreeMap<Name, Vec<Change>>,
    /// How many there were when it was told what stands above a class.
    reported: HashMap<u32, u32>,
    /// The nearest members now that are abstract methods.
    abstracts: BTreeMap<Name, FieldRef>,
}

/// A method among members as a look-up gives it.
pub fn as_method(member: FieldRef) -> MethodRef
    ensures { result ≡ as_method member }
{
    MethodRef {
        on: member.on,
        source: MethodSource::Declared(member.node),
    }
}

/// A member, where it is an abstract method.
fn if_abstract(program: &Program, member: &Option<FieldRef>) -> Option<FieldRef>
    ensures { result ≡ if_abstract program.now.nodes member.now }
{
    match member {
        Some(member) if is_abstract_method(program, member.node) => Some(*member),
        _ => None,
    }
}

/// Keeps a member under a name, or none.
fn keep(
    members: &mut BTreeMap<Name, FieldRef>,
    name: &Name,
    member: &Option<FieldRef>,
) -> Result<(), Memory>
    ensures { OnOk result ((other : List ℕ) → kept_under members.new other
        ≡ (if is_same name.now other then member.now else kept_under members.old other)) }
{
    match member {
        Some(member) => {
            members.insert(*name, *member)?;
            Ok(())
        }
        None => {
            members.remove(name);
            Ok(())
        }
    }
}

/// Puts a change behind those of its name.
fn put(
    changes: &mut BTreeMap<Name, Vec<Change>>,
    alloc: Global,
    name: &Name,
    before: u32,
    nearest: &Option<FieldRef>,
) -> Result<(), Memory>
    ensures { OnOk result ((other : List ℕ) → changes_under changes.new other
        ≡ with_change (is_same name.now other) (change before nearest.now) (changes_under changes.old other)) }
{
    let mut theirs = match changes.remove(name) {
        Some(earlier) => earlier,
        None => Vec::new(alloc),
    };
    let nearest = *nearest;
    theirs.push(Change { before, nearest })?;
    changes.insert(*name, theirs)?;
    Ok(())
}

/// What a name stands for after the last of these changes.
fn latest(changes: &[Change]) -> Option<FieldRef>
    ensures { result ≡ latest changes.now }
{
    changes.last()?.nearest
}

/// What a name stood for before there were so many changes.
fn nearest_before(changes: &[Change], count: u32) -> Option<FieldRef>
    ensures { (total : ℕ) → AreInOrder total changes.now → result ≡ nearest_before count changes.now }
{
    let behind = changes.partition_point(|change| change.before < count);
    latest(&changes[..behind])
}

impl NearestMembers {
    /// No members, before there are changes.
    pub fn new(alloc: Global) -> NearestMembers
        ensures { (kind : MemberKind) (forest : Forest) → AreNamed kind forest result [] }
    {
        NearestMembers {
            alloc,
            count: 0,
            changes: BTreeMap::new(alloc),
            reported: HashMap::new(alloc),
            abstracts: BTreeMap::new(alloc),
        }
    }

    /// The changes of a name.
    fn changes_of(&self, name: &Name) -> &[Change]
        ensures { result.now ≡ changes_under self.now.changes name.now }
    {
        match self.changes.get(name) {
            Some(changes) => changes.as_slice(),
            None => &[],
        }
    }

    /// The nearest member of a name now.
    pub fn nearest_of(&self, name: &Name) -> Option<FieldRef>
        ensures { result ≡ nearest_now self.now name.now }
    {
        latest(self.changes_of(name))
    }

    /// The nearest members now that are abstract methods, each under its name.
    pub fn abstracts(&self) -> &BTreeMap<Name, FieldRef>
        ensures { result.now ≡ self.now.abstracts }
    {
        &self.abstracts
    }

    /// Notes the nearest member of a name from now on. The classes of which it is told what stands above them stay the
    /// same, after an `Err` too.
    pub fn note(
        &mut self,
        program: &Program,
        name: &Name,
        nearest: &Option<FieldRef>,
    ) -> Result<(), Memory>
        ensures now { OnOk result ((other : List ℕ) → nearest_now self.new other
            ≡ (if is_same name.now other then nearest.now else nearest_now self.old other)) }
        ensures reported { OnOk result ((kind : MemberKind) → AreNearest kind program.now self.old →
            AreNearest kind program.now self.new) }
        ensures kept { (class : ℕ) → is_reported self.new class ≡ is_reported self.old class }
    {
        if self.count == u32::MAX {
            return Err(Memory);
        }
        put(&mut self.changes, self.alloc, name, self.count, nearest)?;
        keep(&mut self.abstracts, name, &if_abstract(program, nearest))?;
        self.count += 1;
        Ok(())
    }

    /// Tells what stands above a class: the nearest members now.
    pub fn report(&mut self, class: ClassId) -> Result<(), Memory>
        ensures reported { OnOk result ((other : ℕ) → is_reported self.new other
            ≡ ((class == other) || is_reported self.old other)) }
        ensures nearest { OnOk result ((kind : MemberKind) (forest : Forest) (path : List ℕ) →
            superclasses (rows_of forest) class ≡ class ∷ path → classes_above (rows_of forest) class ≡ path →
            IsSplit (superclasses (rows_of forest) class) → AreNamed kind forest self.old path →
            AreNamed kind forest self.new path) }
    {
        self.reported.insert(class.number(), self.count)?;
        Ok(())
    }

    /// The nearest member of a name above a class, where it is told.
    pub fn nearest_above(&self, class: ClassId, name: &Name) -> Option<Option<FieldRef>>
        ensures reported { is_some result ≡ is_reported self.now class }
        ensures nearest { (kind : MemberKind) (forest : Forest) → AreNearest kind forest self.now →
            IfSome result (λ nearest. IsNearestAbove kind forest class name.now nearest) }
    {
        let count = self.reported.get(&class.number()).copied()?;
        Some(nearest_before(self.changes_of(name), count))
    }
}
