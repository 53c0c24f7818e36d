//! The stack of the parser.

ghost use Rattle.std.specs.Prelude.{◌≡◌, ◌∷◌, [], OnOk, MatchOption};
ghost use Rattle.std.specs.Prelude.{true, false};
ghost use Rattle.parser_machine.specs.Operands.{awaits_target};
ghost use Rattle.parser_machine.specs.declared.entries.Entry.TheVariants.{Target};

use parser_machine::Entry;
use scj_base::Memory;
use std::alloc::Global;
use std::marker::Model;

/// The least that is given back, a quarter of what there is: below it, giving back costs more than it spares.
const LEAST_GIVEN: usize = 1024;

/// What was put aside, seen as a list with the last first.
#[derive(Drop)]
pub struct Stack {
    items: Vec<Entry>,
}

impl Model for Stack {
    ghost use Rattle.std.specs.Prelude.{List, reverse};
    ghost use Rattle.parser_machine.specs.declared.entries.Entry.{Entry};

    ghost Value = { List Entry };

    ghost view = { λ a. reverse a.items.items };
}

impl Stack {
    /// Nothing.
    pub fn new(alloc: Global) -> Stack
        ensures { result ≡ [] }
    {
        Stack {
            items: Vec::new(alloc),
        }
    }

    /// Puts an entry on top.
    pub fn push(&mut self, entry: Entry) -> Result<(), Memory>
        ensures { OnOk result (self.new ≡ entry ∷ self.old) }
    {
        self.items.push(entry)?;
        Ok(())
    }

    /// Whether a target is due: its entry lies on top.
    #[tactic(auto, unfolding(parser_machine::specs::Operands::awaits_target))]
    pub fn is_target(&self) -> bool
        ensures { result ≡ awaits_target self.now }
    {
        match self.items.last() {
            Some(Entry::Target) => true,
            _ => false,
        }
    }

    /// Takes the top where a target is due, and tells whether one is.
    #[tactic(auto, using(crate::proofs::Tops::target_due), unfolding(parser_machine::specs::Operands::awaits_target))]
    pub fn pop_target(&mut self) -> bool
        ensures due { result ≡ true → self.old ≡ Target ∷ self.new }
        ensures not_due { result ≡ false → awaits_target self.old ≡ false }
        ensures same { result ≡ false → self.new ≡ self.old }
    {
        if !self.is_target() {
            return false;
        }
        let Some(_entry) = self.pop() else {
            return false;
        };
        true
    }

    /// Takes the top, if there is one.
    pub fn pop(&mut self) -> Option<Entry>
        ensures { MatchOption result (self.old ≡ []) (λ entry. self.old ≡ entry ∷ self.new) }
    {
        let entry = self.items.pop();
        self.give_back();
        entry
    }

    /// Gives memory back where three quarters of it are free: the nodes grow while a long row of operators is taken off
    /// the stack, so it isn't to keep what it took.
    fn give_back(&mut self)
        ensures { self.new ≡ self.old }
    {
        let quarter = self.items.capacity() / 4;
        if quarter >= LEAST_GIVEN && self.items.len() < quarter {
            self.items.shrink_to(2 * quarter);
        }
    }
}
