//! The texts for which short forms stand.

use case_tables::TableError;
use std::alloc::Global;
use std::collections::BTreeMap;

/// A text for some of the bytes that may stand behind `$`.
#[derive(Drop)]
pub struct ShortForms {
    alloc: Global,
    texts: BTreeMap<u8, Vec<u8>>,
}

impl ShortForms {
    /// No short forms.
    pub fn new(alloc: Global) -> ShortForms {
        ShortForms {
            alloc,
            texts: BTreeMap::new(alloc),
        }
    }

    /// Takes the text of a short form: `X TEXT`, without the `$`.
    pub fn add(&mut self, line: &str) -> Result<(), TableError> {
        let (code, text) = line.split_once(' ').ok_or(TableError::BadLine)?;
        let [code] = code.as_bytes() else {
            return Err(TableError::BadLine);
        };
        let text = Vec::from_slice(self.alloc, text.as_bytes())?;
        self.texts.insert(*code, text)?;
        Ok(())
    }

    /// The line with the texts in the place of their short forms.
    pub fn whole(&self, line: &str) -> Result<Vec<u8>, TableError> {
        let mut whole = Vec::new(self.alloc);
        let mut is_short = false;
        for byte in line.as_bytes() {
            if is_short {
                let text = self.texts.get(byte).ok_or(TableError::BadLine)?;
                whole.extend_from_slice(text)?;
                is_short = false;
            } else if *byte == b'$' {
                is_short = true;
            } else {
                whole.push(*byte)?;
            }
        }
        Ok(whole)
    }
}
