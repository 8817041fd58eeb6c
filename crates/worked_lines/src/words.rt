//! The words of a line.
use crate::edits::listed_edit;
use crate::faults::LineFault;
use crate::spelled::{
    each_of, file_of, index_of, is, name_of, number_of, place_of, scope_of, spelled_name_of,
    text_of, writer_of,
};
use edit_sums::Content;
use replica_store::{Edit, FlatEdit, Place, Scope, Store};
use script_words::cut_word;
use std::alloc::Global;
use unit_name::UnitName;

/// The words of a line that are left.
pub struct Words<'a> {
    /// The allocator of a call's memory.
    pub alloc: Global,
    rest: &'a [u8],
}

impl<'a> Drop for Words<'a> {
    fn drop(self) {
        let Words { alloc: _, rest: _ } = self;
    }
}

impl<'a> Words<'a> {
    /// Returns the words of these bytes.
    pub fn new(alloc: Global, rest: &'a [u8]) -> Self {
        Words { alloc, rest }
    }

    /// An upper bound on how many words are left.
    pub fn most(&self) -> usize {
        self.rest.len()
    }

    /// Whether no word is left.
    pub fn is_over(&self) -> bool {
        cut_word(self.rest).is_none()
    }

    /// Returns the next word, if one is left.
    pub fn next_word(&mut self) -> Option<&'a [u8]> {
        let (word, rest) = cut_word(self.rest)?;
        self.rest = rest;
        Some(word)
    }

    /// Returns the next word as it is written.
    pub fn word(&mut self) -> Result<&'a [u8], LineFault> {
        self.next_word().ok_or(LineFault::Words)
    }

    /// Returns the next word of a list, which ends at the word `+` or at the end of the line.
    pub fn listed(&mut self) -> Option<&'a [u8]> {
        let word = self.next_word()?;
        if is(word, b"+") { None } else { Some(word) }
    }

    /// Returns all words of a list.
    pub fn list(&mut self) -> Result<Vec<&'a [u8]>, LineFault> {
        let mut list = Vec::new(self.alloc);
        for _ in 0..self.most() {
            let Some(word) = self.listed() else {
                break;
            };
            list.push(word)?;
        }
        Ok(list)
    }

    /// Returns the text that the next word spells.
    pub fn text(&mut self) -> Result<Vec<u8>, LineFault> {
        text_of(self.alloc, self.word()?)
    }

    /// Returns the next word as a number.
    pub fn number(&mut self) -> Result<u64, LineFault> {
        number_of(self.word()?)
    }

    /// Returns the next word as an index or count.
    pub fn index(&mut self) -> Result<usize, LineFault> {
        index_of(self.word()?)
    }

    /// Returns the next word as a writer's number.
    pub fn writer(&mut self) -> Result<u32, LineFault> {
        writer_of(self.word()?)
    }

    /// Returns the next word as a place.
    pub fn place(&mut self) -> Result<Place, LineFault> {
        place_of(self.alloc, self.word()?)
    }

    /// Returns the next word as a scope: `*` for the fleet, otherwise a host's name.
    pub fn scope(&mut self) -> Result<Scope, LineFault> {
        scope_of(self.alloc, self.word()?)
    }

    /// Returns the next word as the content of a file.
    pub fn file(&mut self) -> Result<Content, LineFault> {
        file_of(self.alloc, self.word()?)
    }

    /// Returns the unit's name that the next word spells.
    pub fn name(&mut self) -> Result<UnitName, LineFault> {
        spelled_name_of(self.alloc, self.word()?)
    }

    /// Returns the names that a list of words writes.
    pub fn names(&mut self) -> Result<Vec<UnitName>, LineFault> {
        each_of(self.alloc, &self.list()?, name_of)
    }

    /// Returns the names that a list of words spells.
    pub fn spelled_names(&mut self) -> Result<Vec<UnitName>, LineFault> {
        each_of(self.alloc, &self.list()?, spelled_name_of)
    }

    /// Returns the places that a list of words writes.
    pub fn places(&mut self) -> Result<Vec<Place>, LineFault> {
        each_of(self.alloc, &self.list()?, place_of)
    }

    /// Returns the numbers that a list of words writes.
    pub fn numbers(&mut self) -> Result<Vec<usize>, LineFault> {
        each_of(self.alloc, &self.list()?, |_, word| index_of(word))
    }

    /// Returns the edits that a list of words writes.
    pub fn edits(&mut self) -> Result<Vec<Edit>, LineFault> {
        let mut edits = Vec::new(self.alloc);
        for (place, word) in self.list()?.iter().enumerate() {
            edits.push(listed_edit(self.alloc, word, place)?)?;
        }
        Ok(edits)
    }

    /// Returns the edits that a list of words writes, as a store without hosts had them: what the words say of hosts is
    /// left out.
    pub fn flat_edits(&mut self) -> Result<Vec<FlatEdit>, LineFault> {
        let mut edits = Vec::new(self.alloc);
        for edit in self.edits()? {
            let (place, version, content) = edit.into_parts();
            let (_, path) = place.into_parts();
            edits.push(FlatEdit {
                path,
                version,
                content,
            })?;
        }
        Ok(edits)
    }

    /// Returns the store of the edits that a list of words writes.
    pub fn store(&mut self) -> Result<Store, LineFault> {
        Ok(Store::from_edits(self.alloc, &self.edits()?)?)
    }

    /// Checks that no word is left.
    pub fn end(&mut self) -> Result<(), LineFault> {
        match self.next_word() {
            None => Ok(()),
            Some(_) => Err(LineFault::Words),
        }
    }
}
