//! What a class has of its own and of those above.

ghost use Rattle.std.specs.Prelude.{◌≡◌, ◌+◌, [], ◌∷◌, length, filter, filter_map, IfOk, MatchOption, OnOk};
ghost use Rattle.std.specs.Bool.{OnTrue};
ghost use Rattle.scj_rules.specs.Views.{field_at};
ghost use Rattle.scj_rules.specs.Classes.{own_instance_fields};
ghost use Rattle.symbol_table.specs.Scopes.{classes_of, is_instance, nearest_level, object_level, rows_of, IsNext, IsPath, IsUnder};

use class_rows::ClassTable;
use node_views::field_at;
use scj_base::ids::OBJECT;
use scj_base::{ClassId, Memory, NodeId};
use scj_builtins::FRAMEWORK_CLASS_COUNT;
use scj_tree::Program;
use std::alloc::Global;
use std::marker::Model;

/// A class, with what it has of its own and of those above.
#[derive(Clone, Copy, Debug)]
pub struct Level {
    /// The class.
    pub class: ClassId,
    /// How many instance fields an object has.
    pub field_count: usize,
}

/// The classes of a chain. A contract sees the nearest first.
#[derive(Drop)]
pub struct Path {
    levels: Vec<Level>,
}

impl Model for Path {
    ghost use Rattle.std.specs.Prelude.{List, reverse};
    ghost use Rattle.symbol_table.specs.declared.levels.Level.{Level};

    ghost Value = { List Level };

    ghost view = { λ a. reverse a.levels.items };
}

impl Path {
    /// A path of no class.
    pub fn new(alloc: Global) -> Path
        ensures { result ≡ [] }
    {
        Path {
            levels: Vec::new(alloc),
        }
    }

    /// Puts a class under the nearest.
    pub fn push(&mut self, level: Level) -> Result<(), Memory>
        ensures { OnOk result (self.new ≡ level ∷ self.old) }
    {
        self.levels.push(level)?;
        Ok(())
    }

    /// Takes the nearest class away, if there is one.
    pub fn pop(&mut self) -> Option<Level>
        ensures { MatchOption result (self.old ≡ [] × self.new ≡ []) (λ level. self.old ≡ level ∷ self.new) }
    {
        self.levels.pop()
    }

    /// The nearest class.
    pub fn nearest(&self) -> Option<Level>
        ensures { result ≡ nearest_level self.now }
    {
        self.levels.last().copied()
    }

    /// How many classes there are.
    pub fn len(&self) -> usize
        ensures { result ≡ length self.now }
    {
        self.levels.len()
    }
}

/// How many instance fields stand among members.
fn instance_count(program: &Program, members: &[NodeId]) -> usize
    ensures { result ≡ length (filter is_instance (filter_map (field_at program.now.nodes) members.now)) }
{
    members
        .iter()
        .filter_map(|id| field_at(program, *id))
        .filter(|field| !field.modifiers.is_static)
        .count()
}

/// How many instance fields an object of a class has under another one.
#[tactic(auto, using(crate::proofs::LevelLemmas::fields_of_class))]
fn field_count(classes: &ClassTable<'_>, above: usize, class: ClassId) -> Result<usize, Memory>
    ensures { IfOk result (λ count. count ≡ length (own_instance_fields (rows_of classes.now) class) + above) }
{
    let own = instance_count(classes.program(), classes.members(class));
    if own > usize::MAX - above {
        return Err(Memory);
    }
    Ok(own + above)
}

/// Whether a class stands right under another one, which is the last of so many, and is `Object` where the class is the
/// framework's.
fn is_next(classes: &ClassTable<'_>, above: ClassId, count: usize, class: ClassId) -> bool
    ensures { OnTrue result (IsNext (rows_of classes.now) above count class) }
{
    if count >= classes.count() || (class.number() < FRAMEWORK_CLASS_COUNT && above != OBJECT) {
        return false;
    }
    classes.superclass(class) == Some(above)
}

/// `Object`.
pub fn object_level() -> Level
    ensures { result ≡ object_level }
{
    Level {
        class: OBJECT,
        field_count: 0,
    }
}

/// A class with what it has of those above, where it stands right under the nearest of a path, or is `Object` under
/// none. A chain is shorter than there are classes, and forbidden headers don't count: so it is there for each class of a
/// program.
pub fn level_under(classes: &ClassTable<'_>, path: &Path, class: ClassId) -> Result<Level, Memory>
    requires { IsPath (rows_of classes.now) path.now }
    ensures class { IfOk result (λ level. level.class ≡ class) }
    ensures under { IfOk result (λ level. IsUnder (rows_of classes.now) level (classes_of path.now)) }
{
    let Some(above) = path.nearest() else {
        if class != OBJECT {
            return Err(Memory);
        }
        return Ok(object_level());
    };
    if !is_next(classes, above.class, path.len(), class) {
        return Err(Memory);
    }
    let field_count = field_count(classes, above.field_count, class)?;
    Ok(Level { class, field_count })
}
