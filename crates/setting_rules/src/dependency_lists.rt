//! The dependencies of a unit, by kind.
ghost use Rattle.std.specs.{Prelude.{◌≡◌, ◌++◌, ◌∷◌, [], IfOk, OnOk, map}, List.{flat_map}};
ghost use Rattle.setting_rules.specs.{Dependencies.{key_for, in_byte_order, names_by, faults_by}, Settings.{note_on}, Words.{words_of}};

use crate::kinds::DepKind;
use crate::notes::{SettingNote, SettingNoteKind};
use crate::word_lists::words;
use crate::word_names::named_by;
use plain_values::{Bytes, Items, TryClone};
use std::alloc::{AllocError, Global};
use unit_name::UnitName;

/// The section whose keys set dependencies.
pub(crate) const UNIT: &[u8] = b"Unit";

/// The units that a unit depends on, for one kind of dependency.
#[derive(Debug, PartialEq, Eq)]
pub struct DependencyList {
    /// The kind of dependency.
    pub kind: DepKind,
    /// The names of the units in byte order, without duplicates.
    pub names: Items<UnitName>,
}

impl Drop for DependencyList {
    fn drop(self) {
        let DependencyList { kind: _, names: _ } = self;
    }
}

/// Copies share the bytes of the names.
impl TryClone for DependencyList {
    fn try_clone(&self) -> Result<DependencyList, AllocError> {
        Ok(DependencyList {
            kind: self.kind,
            names: self.names.try_clone()?,
        })
    }
}

/// The units that a unit's settings name.
#[derive(Debug, PartialEq, Eq, Drop)]
pub struct Dependencies {
    /// One list for each kind by which a unit may name another, in the order of the kinds. A list may be empty.
    pub lists: Items<DependencyList>,
    /// What is wrong with words, in the order of the kinds and then of the words.
    pub notes: Items<SettingNote>,
}

impl Dependencies {
    /// Returns no lists, with capacity for `lists`. Fails only if memory runs out.
    pub(crate) fn with_room(alloc: Global, lists: usize) -> Result<Dependencies, AllocError>
        ensures lists { IfOk result (λ all. all.lists ≡ []) }
        ensures notes { IfOk result (λ all. all.notes ≡ []) }
    {
        let lists = Vec::with_capacity(alloc, lists)?;
        Ok(Dependencies {
            lists: Items::from_vec(lists),
            notes: Items::new(alloc),
        })
    }

    /// Adds the list of a kind, given the values of its key. Fails only if memory runs out.
    pub(crate) fn add_kind(
        &mut self,
        alloc: Global,
        kind: DepKind,
        values: &[Bytes],
        unit: &UnitName,
    ) -> Result<(), AllocError>
        ensures lists { OnOk result
            (self.new.lists ≡ self.old.lists ++ record {
              kind = kind;
              names = in_byte_order (names_by unit.now (flat_map words_of values.now));
            } ∷ []) }
        ensures notes { OnOk result (self.new.notes ≡ self.old.notes
            ++ map (note_on (key_for kind)) (faults_by unit.now (flat_map words_of values.now))) }
    {
        let mut names = Vec::new(alloc);
        for value in values {
            self.add_words(
                alloc,
                &mut names,
                kind,
                &words(alloc, value.as_slice())?,
                unit,
            )?;
        }
        self.lists.push(DependencyList {
            kind,
            names: in_byte_order(names),
        })
    }

    // Adds the names that words give, and a note on each word that gives none.
    fn add_words(
        &mut self,
        alloc: Global,
        names: &mut Vec<UnitName>,
        kind: DepKind,
        words: &[&[u8]],
        unit: &UnitName,
    ) -> Result<(), AllocError>
        ensures names { OnOk result
            (names.new.items
            ≡ names.old.items ++ names_by unit.now (map (λ word. word.now) words.now)) }
        ensures notes { OnOk result
            (self.new.notes ≡ self.old.notes ++ map (note_on (key_for kind))
            (faults_by unit.now (map (λ word. word.now) words.now))) }
        ensures lists { OnOk result (self.new.lists ≡ self.old.lists) }
    {
        for word in words {
            self.add_word(alloc, names, kind, word, unit)?;
        }
        Ok(())
    }

    // Adds the name that a word gives, or a note on it.
    fn add_word(
        &mut self,
        alloc: Global,
        names: &mut Vec<UnitName>,
        kind: DepKind,
        word: &[u8],
        unit: &UnitName,
    ) -> Result<(), AllocError>
        ensures names { OnOk result
            (names.new.items ≡ names.old.items ++ names_by unit.now (word.now ∷ [])) }
        ensures notes { OnOk result (self.new.notes ≡ self.old.notes
            ++ map (note_on (key_for kind)) (faults_by unit.now (word.now ∷ []))) }
        ensures lists { OnOk result (self.new.lists ≡ self.old.lists) }
    {
        match named_by(alloc, word, unit)? {
            Ok(name) => names.push(name)?,
            Err(fault) => self.add_note(alloc, kind, fault)?,
        }
        Ok(())
    }

    // Adds a note on a word of a kind's key.
    fn add_note(
        &mut self,
        alloc: Global,
        kind: DepKind,
        fault: SettingNoteKind,
    ) -> Result<(), AllocError>
        ensures notes { OnOk result
            (self.new.notes ≡ self.old.notes ++ note_on (key_for kind) fault ∷ []) }
        ensures lists { OnOk result (self.new.lists ≡ self.old.lists) }
    {
        self.notes.push(SettingNote {
            section: Bytes::from_slice(alloc, UNIT)?,
            key: Bytes::from_slice(alloc, kind.word().as_bytes())?,
            kind: fault,
        })
    }
}

/// Sorts names in byte order and removes duplicates. O(n log n). Allocates nothing.
pub fn in_byte_order(mut names: Vec<UnitName>) -> Items<UnitName>
    ensures names { result ≡ in_byte_order names.items }
{
    if names.len() < 2 {
        return Items::from_vec(names);
    }
    names.sort_unstable();
    names.dedup();
    Items::from_vec(names)
}
