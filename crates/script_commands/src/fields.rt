//! The fields of a line, read from left to right.
ghost use Rattle.std.specs.Prelude.{◌≡◌, ◌≢◌, ◌≤◌, [], ◌∷◌, true, OnOk, MatchResult};
ghost use Rattle.script_words.specs.{Names.{is_name}, Words.{words_of, after_word, text_after}};
ghost use Rattle.script_commands.specs.declared.commands.LineRefusal.TheVariants.{Arguments};
ghost use Rattle.script_commands.specs.Fields.{AreNotOne, AreNotOneEditCount, AreNotOneName, AreNotOneNumber, AreNotOneProfile, BeginsWithNoName, BeginsWithNoNode, BeginsWithNoNumber, BeginsWithNode, BeginsWithNumber, IsOneProfile};

use crate::commands::{LineRefusal, Word, Words};
use crate::edit_counts::EditCount;
use crate::host_words::cut_host;
use crate::profile_words::profile_of;
use profiles::Profile;
use script_words::{cut_word, is_name, parse_number, text_of_rest};
use std::marker::Model;

/// The remaining text of a line. A field that is missing, or isn't of the expected kind, is refused.
#[derive(Drop)]
pub(crate) struct Fields<'a> {
    rest: &'a [u8],
}

impl<'a> Model for Fields<'a> {
    ghost use Rattle.std.specs.Prelude.{ℕ, List};

    ghost Value = { List ℕ };

    ghost view = { λ f. f.rest.now };
}

impl<'a> Fields<'a> {
    /// Returns the fields of a line.
    pub(crate) fn new(line: &'a [u8]) -> Self
        ensures line { result ≡ line.now }
    {
        Fields { rest: line }
    }

    /// Reads the next word.
    pub(crate) fn word(&mut self) -> Result<Word<'a>, LineRefusal>
        ensures word { MatchResult result (λ word. words_of self.old ≡ word ∷ words_of self.new)
            (λ refusal. (refusal ≡ Arguments) × (words_of self.old ≡ [])) }
        ensures rest { OnOk result (self.new ≡ after_word self.old) }
    {
        let Some((word, rest)) = cut_word(self.rest) else {
            return Err(LineRefusal::Arguments);
        };
        self.rest = rest;
        Ok(Word::new(word))
    }

    /// Reads the next word, which must be a name.
    pub(crate) fn name(&mut self) -> Result<Word<'a>, LineRefusal>
        ensures name { MatchResult result
            (λ name. (words_of self.old ≡ name ∷ words_of self.new) × (is_name name ≡ true))
            (λ refusal. (refusal ≡ Arguments) × BeginsWithNoName (words_of self.old)) }
        ensures rest { OnOk result (self.new ≡ after_word self.old) }
    {
        let name = self.word()?;
        if !is_name(name.as_slice()) {
            return Err(LineRefusal::Arguments);
        }
        Ok(name)
    }

    /// Reads the next word, which must be a node's name, alone or followed by an at sign and a host. The host isn't
    /// parsed.
    pub(crate) fn node_and_host(&mut self) -> Result<(Word<'a>, Option<Word<'a>>), LineRefusal>
        ensures cut { MatchResult result
            (λ cut. BeginsWithNode cut.0 cut.1 (words_of self.old) (words_of self.new))
            (λ refusal. (refusal ≡ Arguments) × BeginsWithNoNode (words_of self.old)) }
    {
        let word = self.word()?;
        let (node, host) = cut_host(word.as_slice());
        if !is_name(node.as_slice()) {
            return Err(LineRefusal::Arguments);
        }
        Ok((node, host))
    }

    /// Checks that no word remains.
    pub(crate) fn end(self) -> Result<(), LineRefusal>
        ensures end { MatchResult result (λ _. words_of self.entry ≡ [])
            (λ refusal. (refusal ≡ Arguments) × (words_of self.entry ≢ [])) }
    {
        match cut_word(self.rest) {
            None => Ok(()),
            Some(_) => Err(LineRefusal::Arguments),
        }
    }

    /// Reads the only remaining word.
    pub(crate) fn last_word(mut self) -> Result<Word<'a>, LineRefusal>
        ensures word { MatchResult result (λ word. words_of self.entry ≡ word ∷ [])
            (λ refusal. (refusal ≡ Arguments) × AreNotOne (words_of self.entry)) }
    {
        let word = self.word()?;
        self.end()?;
        Ok(word)
    }

    /// Reads the only remaining word, which must be a name.
    pub(crate) fn last_name(mut self) -> Result<Word<'a>, LineRefusal>
        ensures name { MatchResult result
            (λ name. (words_of self.entry ≡ name ∷ []) × (is_name name ≡ true))
            (λ refusal. (refusal ≡ Arguments) × AreNotOneName (words_of self.entry)) }
    {
        let name = self.name()?;
        self.end()?;
        Ok(name)
    }

    /// Reads the next word as a number.
    pub(crate) fn number(&mut self) -> Result<u32, LineRefusal>
        ensures number { MatchResult result
            (λ number. BeginsWithNumber number (words_of self.old) (words_of self.new))
            (λ refusal. (refusal ≡ Arguments) × BeginsWithNoNumber (words_of self.old)) }
    {
        let word = self.word()?;
        parse_number(word.as_slice()).ok_or(LineRefusal::Arguments)
    }

    /// Reads the only remaining word as a number.
    pub(crate) fn last_number(mut self) -> Result<u32, LineRefusal>
        ensures number { MatchResult result
            (λ number. BeginsWithNumber number (words_of self.entry) [])
            (λ refusal. (refusal ≡ Arguments) × AreNotOneNumber (words_of self.entry)) }
    {
        let number = self.number()?;
        self.end()?;
        Ok(number)
    }

    /// Reads the only remaining word as a number of edits.
    pub(crate) fn last_edit_count(self) -> Result<EditCount, LineRefusal>
        ensures edits { MatchResult result
            (λ edits. BeginsWithNumber edits (words_of self.entry) [] × (edits ≤ 1000))
            (λ refusal. (refusal ≡ Arguments) × AreNotOneEditCount (words_of self.entry)) }
    {
        EditCount::of(self.last_number()?).ok_or(LineRefusal::Arguments)
    }

    /// Reads the only remaining word, which must name a profile.
    pub(crate) fn last_profile(self) -> Result<Profile, LineRefusal>
        ensures profile { MatchResult result
            (λ profile. IsOneProfile profile (words_of self.entry))
            (λ refusal. (refusal ≡ Arguments) × AreNotOneProfile (words_of self.entry)) }
    {
        let word = self.last_word()?;
        profile_of(word.as_slice()).ok_or(LineRefusal::Arguments)
    }

    /// Returns all remaining words.
    pub(crate) fn rest(self) -> Words<'a>
        ensures words { result ≡ words_of self.entry }
    {
        Words::new(self.rest)
    }

    /// Returns the text after the last word read and one space.
    pub(crate) fn text(self) -> Word<'a>
        ensures text { result ≡ text_after 0 self.entry }
    {
        Word::new(text_of_rest(self.rest))
    }
}
