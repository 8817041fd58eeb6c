//! Expanding the specifiers of a unit's name in values (systemd.unit(5), "Specifiers").
ghost use Rattle.std.specs.Prelude.{◌≡◌, ◌++◌, IfOk, IfErr, OnOk, MatchOption, Some, None, IsSome, is_some};
ghost use Rattle.unit_name.specs.{Escapes.{unescape}, Specifiers.{specifier, last_part, expand, IsExpandFault}};

use crate::UnitName;
use crate::escapes::{push_unescaped, spells_bytes};
use crate::parts::{after_last, stem_of};
use std::alloc::{AllocError, Global};
use thiserror::Error;

/// Why a value isn't expanded: `BadEscape` exactly if it can't be, and `Memory` only if it can.
#[derive(Clone, Copy, Debug, PartialEq, Eq, Error)]
pub enum ExpandFault {
    #[error("S1 BadEscape: the part of the name is no escaped text")]
    BadEscape,
    #[error("out of memory")]
    Memory,
}

/// Returns the value with each specifier replaced: `%n` by the name, `%N` by the name without its suffix, `%p` by the
/// prefix, `%i` by the instance (which may be empty), `%j` by the part of the prefix after its last `-` (the whole
/// prefix if there is none), `%P`, `%I` and `%J` by the unescaped `%p`, `%i` and `%j`, and `%%` by a single `%`. Any
/// other pair, and a `%` at the end, are kept.
///
/// Returns `BadEscape` exactly if one of `%P`, `%I` and `%J` needs a text for which `unescape` returns `None`. This is
/// checked first, so `Memory` comes only for a value that can be expanded. Linear in the value and the replacements.
pub fn expand(alloc: Global, value: &[u8], name: &UnitName) -> Result<Vec<u8>, ExpandFault>
    ensures expanded { IfOk result (λ bytes. expand value.now name.now ≡ Some bytes.items) }
    ensures fault { IfErr result (IsExpandFault value.now name.now) }
{
    if !can_expand(value, name) {
        return Err(ExpandFault::BadEscape);
    }
    match expanded(alloc, value, name) {
        Ok(bytes) => Ok(bytes),
        Err(AllocError) => Err(ExpandFault::Memory),
    }
}

// The same for a value that can be expanded. Fails only if memory runs out.
fn expanded(alloc: Global, value: &[u8], name: &UnitName) -> Result<Vec<u8>, AllocError>
    requires possible { IsSome (expand value.now name.now) }
    ensures expanded { IfOk result (λ bytes. expand value.now name.now ≡ Some bytes.items) }
{
    let mut expanded = Vec::with_capacity(alloc, value.len())?;
    let mut rest = value;
    while let Some((byte, after)) = rest.split_first() {
        rest = after;
        match after.split_first() {
            Some((letter, beyond)) if *byte == b'%' => {
                push_specifier(&mut expanded, *letter, name)?;
                rest = beyond;
            }
            _ => expanded.push(*byte)?,
        }
    }
    Ok(expanded)
}

// Returns whether each specifier of a value can be replaced.
fn can_expand(value: &[u8], name: &UnitName) -> bool
    ensures test { result ≡ is_some (expand value.now name.now) }
{
    let mut rest = value;
    while let Some((byte, after)) = rest.split_first() {
        let Some((letter, beyond)) = after.split_first() else {
            return true;
        };
        if *byte != b'%' {
            rest = after;
        } else if stands(*letter, name) {
            rest = beyond;
        } else {
            return false;
        }
    }
    true
}

// Returns the part of the prefix after its last dash, or the whole prefix.
fn last_part(name: &UnitName) -> &[u8]
    ensures part { result.now ≡ last_part name.now }
{
    after_last(name.prefix(), b'-')
}

// Returns whether the specifier with this letter can be replaced.
#[tactic(auto, unfolding(crate::specs::Specifiers::specifier))]
fn stands(letter: u8, name: &UnitName) -> bool
    ensures test { result ≡ is_some (specifier letter name.now) }
{
    match letter {
        b'P' => spells_bytes(name.prefix()),
        b'I' => spells_bytes(name.instance()),
        b'J' => spells_bytes(last_part(name)),
        _ => true,
    }
}

// Appends the replacement of the specifier with this letter.
#[tactic(auto, unfolding(crate::specs::Specifiers::specifier))]
fn push_specifier(out: &mut Vec<u8>, letter: u8, name: &UnitName) -> Result<(), AllocError>
    requires some { IsSome (specifier letter name.now) }
    ensures pushed { OnOk result (MatchOption (specifier letter name.now) ⊥
        (λ bytes. out.new.items ≡ out.old.items ++ bytes)) }
{
    match letter {
        b'n' => out.extend_from_slice(name.bytes())?,
        b'N' => out.extend_from_slice(stem_of(name.bytes()))?,
        b'p' => out.extend_from_slice(name.prefix())?,
        b'i' => out.extend_from_slice(name.instance())?,
        b'j' => out.extend_from_slice(last_part(name))?,
        b'P' => push_spelled(out, name.prefix())?,
        b'I' => push_spelled(out, name.instance())?,
        b'J' => push_spelled(out, last_part(name))?,
        b'%' => out.push(b'%')?,
        _ => out.extend_from_slice(&[b'%', letter])?,
    }
    Ok(())
}

// Appends the bytes that an escaped text spells.
fn push_spelled(out: &mut Vec<u8>, text: &[u8]) -> Result<(), AllocError>
    requires some { IsSome (unescape text.now) }
    ensures pushed { OnOk result (MatchOption (unescape text.now) ⊥ (λ bytes.
        out.new.items ≡ out.old.items ++ bytes)) }
{
    push_unescaped(out, text)?;
    Ok(())
}
