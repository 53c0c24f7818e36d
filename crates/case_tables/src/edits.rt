//! A change of a source.

ghost use Rattle.std.specs.Prelude.{◌≡◌, IfErr, IfOk};
ghost use Rattle.case_tables.specs.Edits.{first_word, other_words, number_of, changed, LiesWithin, RefusesPlaces};

use crate::lines::add_text;
use crate::stops::TableError;
use std::alloc::Global;

/// The bytes that go, and the text that comes in their place.
#[derive(Clone, Copy)]
pub struct Edit<'a> {
    pub from: usize,
    pub to: usize,
    pub text: &'a str,
}

impl<'a> Edit<'a> {
    /// Reads `FROM TO TEXT`.
    pub fn parse(words: &'a str) -> Result<Edit<'a>, TableError>
        ensures from { IfOk result (λ edit. edit.from ≡ number_of (first_word words.now)) }
        ensures to { IfOk result (λ edit. edit.to ≡ number_of (first_word (other_words words.now))) }
        ensures text { IfOk result (λ edit. edit.text.now ≡ other_words (other_words words.now)) }
    {
        let (from, rest) = words.split_once(' ').ok_or(TableError::BadLine)?;
        let (to, text) = rest.split_once(' ').ok_or(TableError::BadLine)?;
        let from = number(from)?;
        let to = number(to)?;
        Ok(Edit { from, to, text })
    }

    /// What the change makes of a source.
    #[tactic(auto, unfolding(crate::specs::Edits::RefusesPlaces))]
    pub fn changed(self, alloc: Global, source: &[u8]) -> Result<Vec<u8>, TableError>
        ensures within { IfOk result (λ bytes. LiesWithin source.now self.entry.from self.entry.to) }
        ensures bad { IfErr result (RefusesPlaces source.now self.entry.from self.entry.to) }
        ensures bytes { IfOk result
            (λ bytes. bytes.items ≡ changed source.now self.entry.from self.entry.to self.entry.text.now) }
    {
        let front = source.get(..self.from).ok_or(TableError::BadLine)?;
        let behind = source.get(self.to..).ok_or(TableError::BadLine)?;
        let mut bytes = Vec::from_slice(alloc, front)?;
        add_text(&mut bytes, self.text.as_bytes())?;
        bytes.extend_from_slice(behind)?;
        Ok(bytes)
    }
}

fn number(word: &str) -> Result<usize, TableError>
    ensures { IfOk result (λ number. number ≡ number_of word.now) }
{
    match word.parse() {
        Ok(number) => Ok(number),
        Err(_) => Err(TableError::BadLine),
    }
}
