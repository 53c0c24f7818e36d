//! The areas that a job has open.

ghost use Rattle.std.specs.Prelude.{◌≡◌, [], ◌∷◌, reverse, IfOk, OnErr};
ghost use Rattle.scj_model.specs.Apply.{without};
ghost use Rattle.scj_model.specs.Sequencer.{innermost, without_innermost};

use scj_base::{AreaId, Memory};
use std::alloc::Global;
use std::marker::Model;

/// The areas that a job has open. A contract sees the last opened one first.
#[derive(Drop)]
pub struct OpenAreas {
    items: Vec<AreaId>,
}

impl Model for OpenAreas {
    ghost use Rattle.std.specs.Prelude.{ℕ, List, reverse};

    ghost Value = { List ℕ };

    ghost view = { λ a. reverse a.items.items };
}

impl OpenAreas {
    /// No areas.
    pub fn new(alloc: Global) -> OpenAreas
        ensures { result ≡ [] }
    {
        OpenAreas {
            items: Vec::new(alloc),
        }
    }

    /// Notes an area that is opened.
    pub fn push(&mut self, area: AreaId) -> Result<(), Memory>
        ensures pushed { IfOk result (λ _. self.new ≡ area ∷ self.old) }
        ensures err { OnErr result (self.new ≡ self.old) }
    {
        self.items.push(area)?;
        Ok(())
    }

    /// The area that was opened last.
    #[tactic(auto, unfolding(scj_model::specs::Sequencer::innermost))]
    pub fn innermost(&self) -> Option<AreaId>
        ensures { result ≡ innermost self.now }
    {
        self.items.last().copied()
    }

    /// Takes the area away that was opened last.
    #[tactic(auto, unfolding(scj_model::specs::Sequencer::without_innermost))]
    pub fn drop_innermost(&mut self)
        ensures { self.new ≡ without_innermost self.old }
    {
        let _ = self.items.pop();
    }

    /// Takes the area away that a frame opened, if it opened one.
    pub fn remove(&mut self, opened: Option<AreaId>)
        ensures { self.new ≡ without opened self.old }
    {
        if let Some(area) = opened {
            self.items.retain(|other| *other != area);
        }
    }

    /// The areas in the order in which they were opened.
    pub fn in_order(&self) -> &[AreaId]
        ensures { reverse result.now ≡ self.now }
    {
        self.items.as_slice()
    }
}
