//! What is told of the classes above each, once it is told of its superclass: the framework class that it stands under,
//! and a long step up its chain. Where the two long steps from its superclass on are of one length, its own is as long
//! as both and one more, or else it leads to the superclass alone: so few steps lead along a chain.

ghost use Rattle.std.specs.Prelude.{◌≡◌, ◌∷◌, List, IfOk, IfSome};
ghost use Rattle.scj_rules.specs.Words.{is_among};
ghost use Rattle.scj_rules.specs.Classes.{ClassRow, superclasses};
ghost use Rattle.scj_rules.specs.Contexts.{declarations_of};
ghost use Rattle.class_rows.specs.Walks.{AreAncestries, IsAncestry, IsRoot};

use crate::tables::ClassTable;
use scj_base::ids::OBJECT;
use scj_base::{ClassId, Memory};
use scj_builtins::FRAMEWORK_CLASS_COUNT;
use std::alloc::Global;

/// What is told of the classes above one.
#[derive(Clone, Copy)]
pub struct Ancestry {
    /// The nearest framework class that it is or stands under.
    pub root: ClassId,
    /// How many classes its chain has.
    pub depth: u32,
    /// The class to which its long step leads, and how many classes up that is.
    pub ancestor: ClassId,
    pub distance: u32,
}

/// The nearest framework class that a class is or stands under, from that of its superclass. None for a framework class
/// right under a user class, which no program has.
fn root_under(class: ClassId, above: ClassId, root: ClassId) -> Option<ClassId>
    ensures { (rows : List ClassRow) → superclasses rows class ≡ class ∷ superclasses rows above →
        IsRoot rows above root → IfSome result (λ own. IsRoot rows class own) }
{
    if class.number() >= FRAMEWORK_CLASS_COUNT {
        return Some(root);
    }
    if root == above { Some(class) } else { None }
}

impl<'a> ClassTable<'a> {
    /// What is told of the classes above a class.
    pub(crate) fn ancestry(&self, class: ClassId) -> Option<Ancestry>
        ensures { IfSome result (λ reported. IsAncestry (declarations_of self.now).classes class reported) }
    {
        match self.ancestries.get(class.number() as usize) {
            Some(Some(reported)) => Some(*reported),
            _ => None,
        }
    }

    /// What is to be told of a class, where it is told of its superclass; `Object` has none.
    fn next_ancestry(&self, class: ClassId) -> Option<Ancestry>
        ensures { IfSome result (λ reported. IsAncestry (declarations_of self.now).classes class reported) }
    {
        let Some(above) = self.superclass(class) else {
            if class != OBJECT {
                return None;
            }
            return Some(Ancestry {
                root: class,
                depth: 1,
                ancestor: class,
                distance: 0,
            });
        };
        let near = self.ancestry(above)?;
        let far = self.ancestry(near.ancestor)?;
        let root = root_under(class, above, near.root)?;
        if near.depth >= self.class_count() {
            return None;
        }
        if near.distance != far.distance {
            return Some(Ancestry {
                root,
                depth: near.depth + 1,
                ancestor: above,
                distance: 1,
            });
        }
        Some(Ancestry {
            root,
            depth: near.depth + 1,
            ancestor: far.ancestor,
            distance: 1 + near.distance + far.distance,
        })
    }

    /// Whether a class is the other one or stands under it, by long steps. None where one on the way isn't told.
    pub(crate) fn is_reported_under(&self, class: ClassId, above: ClassId) -> Option<bool>
        ensures { IfSome result (λ reported. reported ≡ is_among above (superclasses (declarations_of self.now).classes class)) }
    {
        let depth = self.ancestry(above)?.depth;
        let mut at = class;
        while let Some(reported) = self.ancestry(at) {
            if reported.depth <= depth {
                return Some(above == at);
            }
            if reported.distance > 0 && reported.distance <= reported.depth - depth {
                at = reported.ancestor;
                continue;
            }
            at = self.superclass(at)?;
        }
        None
    }
}

/// Rows of so many classes, of which nothing is told.
fn no_ancestries(alloc: Global, count: u32) -> Result<Vec<Option<Ancestry>>, Memory>
    ensures { IfOk result (λ reported. (rows : List ClassRow) → AreAncestries rows reported.items) }
{
    let reported = vec![in alloc; None; count as usize]?;
    Ok(reported)
}

/// Notes what is told of a class.
fn note_ancestry(reported: &mut Vec<Option<Ancestry>>, class: ClassId, ancestry: Option<Ancestry>)
    ensures { (rows : List ClassRow) → IfSome ancestry (λ own. IsAncestry rows class own) →
        AreAncestries rows reported.old.items → AreAncestries rows reported.new.items }
{
    let at = class.number() as usize;
    if at < reported.len() {
        reported[at] = ancestry;
    }
}

impl<'a> ClassTable<'a> {
    /// Tells of the classes above each of these, a superclass before those under it. Where a superclass comes later,
    /// nothing is told.
    pub fn report_ancestries(&mut self, alloc: Global, classes: &[ClassId]) -> Result<(), Memory>
        ensures { self.new ≡ self.old }
    {
        self.ancestries = no_ancestries(alloc, self.count)?;
        for class in classes {
            let ancestry = self.next_ancestry(*class);
            note_ancestry(&mut self.ancestries, *class, ancestry);
        }
        Ok(())
    }
}
