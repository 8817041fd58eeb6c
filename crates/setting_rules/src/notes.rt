//! What is wrong with values.
ghost use Rattle.std.specs.Prelude.{◌≡◌};
ghost use Rattle.setting_rules.specs.Notes.{code_of};

use crate::keys::SettingKey;
use plain_values::{Bytes, TryClone};
use std::alloc::AllocError;
use std::fmt;

/// Why a value, or a word of one, doesn't count.
#[derive(Clone, Copy, Debug, PartialEq, Eq)]
pub enum SettingNoteKind {
    /// K4: it should be a boolean and isn't.
    BadBoolean,
    /// K5: one of its specifiers needs a part of the unit's name that isn't a valid escaped text.
    BadEscape,
    /// K6: it should be a unit's name and isn't, or the name would have more than 255 bytes.
    BadName,
}

impl SettingNoteKind {
    /// Returns the code alone: `K4`, `K5` or `K6`.
    pub fn code(self) -> &'static str
        ensures code { result.now ≡ code_of self }
    {
        match self {
            SettingNoteKind::BadBoolean => "K4",
            SettingNoteKind::BadEscape => "K5",
            SettingNoteKind::BadName => "K6",
        }
    }
}

/// Prints the code and the name, for example `K4 BadBoolean`.
impl fmt::Display for SettingNoteKind {
    ghost use Rattle.std.specs.Prelude.{Some};
    ghost use Rattle.setting_rules.specs.Notes.{words_of};

    ghost output = { λ kind. Some (words_of kind) };

    fn fmt<W: fmt::Write>(&self, f: &mut fmt::Formatter<W>) -> fmt::Result {
        f.write_str(match self {
            SettingNoteKind::BadBoolean => "K4 BadBoolean",
            SettingNoteKind::BadEscape => "K5 BadEscape",
            SettingNoteKind::BadName => "K6 BadName",
        })
    }
}

/// A value, or a word of one, that doesn't count.
#[derive(Debug, PartialEq, Eq)]
pub struct SettingNote {
    /// The section of the key.
    pub section: Bytes,
    /// The key that has the value.
    pub key: Bytes,
    /// What is wrong with it.
    pub kind: SettingNoteKind,
}

impl Drop for SettingNote {
    fn drop(self) {
        let SettingNote {
            section: _,
            key: _,
            kind: _,
        } = self;
    }
}

/// Copies share the bytes of the texts.
impl TryClone for SettingNote {
    fn try_clone(&self) -> Result<SettingNote, AllocError> {
        Ok(SettingNote {
            section: self.section.try_clone()?,
            key: self.key.try_clone()?,
            kind: self.kind,
        })
    }
}

impl SettingNote {
    ghost use Rattle.setting_rules.specs.Settings.{note_on};

    /// Makes a note on a value of a key. Allocates nothing.
    pub(crate) fn on(key: SettingKey, kind: SettingNoteKind) -> SettingNote
        ensures note { result ≡ note_on key kind }
    {
        let SettingKey { section, key } = key;
        SettingNote { section, key, kind }
    }
}
