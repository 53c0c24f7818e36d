//! Walks along superclasses.

ghost use Rattle.std.specs.Prelude.{◌≡◌, [], ◌∷◌, IfSome, IfNone};
ghost use Rattle.scj_rules.specs.Classes.{superclasses, classes_above};
ghost use Rattle.scj_rules.specs.Contexts.{declarations_of};

use crate::tables::ClassTable;
use scj_base::ClassId;
use std::marker::Model;

/// A walk from class to superclass. A contract sees the classes that are left.
#[derive(Drop)]
pub struct Chain<'a> {
    classes: &'a ClassTable<'a>,
    at: Option<ClassId>,
    left: usize,
}

impl<'a> Model for Chain<'a> {
    ghost use Rattle.std.specs.Prelude.{List, ℕ};
    ghost use Rattle.scj_rules.specs.Classes.{superclass_in};
    ghost use Rattle.scj_rules.specs.Contexts.{declarations_of};

    ghost Value = { List ℕ };

    ghost use Rattle.class_rows.specs.Walks.{chain_from};

    ghost view = { λ a. chain_from (superclass_in (declarations_of a.classes.now).classes) a.left a.at };
}

impl<'a> Chain<'a> {
    /// The next class, which is left no more.
    #[tactic(auto, using(crate::proofs::WalkLemmas::chain_here, crate::proofs::WalkLemmas::chain_ended))]
    pub fn next(&mut self) -> Option<ClassId>
        ensures more { IfSome result (λ class. self.old ≡ class ∷ self.new) }
        ensures end { IfNone result (self.old ≡ [] × self.new ≡ []) }
    {
        if self.left == 0 {
            return None;
        }
        let class = self.at?;
        self.at = self.classes.superclass(class);
        self.left -= 1;
        Some(class)
    }
}

impl<'a> ClassTable<'a> {
    /// The class, its superclass and so on.
    #[tactic(auto, unfolding(scj_rules::specs::Classes::superclasses))]
    pub fn superclasses(&self, class: ClassId) -> Chain<'_>
        ensures { result ≡ superclasses (declarations_of self.now).classes class }
    {
        Chain {
            classes: self,
            at: Some(class),
            left: self.count(),
        }
    }

    /// What comes behind a class on its chain.
    #[tactic(auto, unfolding(scj_rules::specs::Classes::classes_above, scj_rules::specs::Words::chain_behind))]
    pub fn classes_above(&self, class: ClassId) -> Chain<'_>
        ensures { result ≡ classes_above (declarations_of self.now).classes class }
    {
        Chain {
            classes: self,
            at: self.superclass(class),
            left: self.count(),
        }
    }
}
