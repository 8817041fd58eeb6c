//! The words of values.
ghost use Rattle.std.specs.Prelude.{◌≡◌, IfOk, map};
ghost use Rattle.section_reader.specs.Parts.{is_white, has_bytes};
ghost use Rattle.setting_rules.specs.Words.{words_of};

use std::alloc::{AllocError, Global};

/// Returns the words of a value, split at whitespace. They borrow the value's bytes.
#[tactic(auto, unfolding(crate::specs::Words::words_of))]
pub fn words(alloc: Global, value: &[u8]) -> Result<Vec<&[u8]>, AllocError>
    ensures words { IfOk result (λ words. map (λ word. word.now) words.items ≡ words_of value.now) }
{
    value
        .split(|b| is_white(*b))
        .filter(|word| has_bytes(word))
        .collect(alloc)
}

fn is_white(b: u8) -> bool
    ensures test { result ≡ is_white b }
{
    matches!(b, b' ' | b'\t' | b'\r')
}

fn has_bytes(word: &[u8]) -> bool
    ensures test { result ≡ has_bytes word.now }
{
    !word.is_empty()
}
