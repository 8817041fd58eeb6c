//! The source names of a load.
ghost use Rattle.std.specs.{List.{filter_map}, Prelude.{◌++◌, ◌≡◌, IfOk, OnOk}};
ghost use Rattle.parallel_load.specs.{Sources.{AreSourcesBy, whole_name}, Universe.{asked_by}};

use crate::words::CachedLinkTargets;
use plain_values::{append_copies, copied};
use profiles::Profile;
use std::alloc::{AllocError, Global};
use unit_name::{NameFault, UnitName};
use unit_values::perpetual_units;

/// The names that are asked for, for a manager also the perpetual units, and then all names at which something is visible; a
/// name may occur more than once. One pass over the latter. Fails only if memory runs out.
#[tactic(auto, using(crate::proofs::Rows::sources_are))]
pub(crate) fn sources(
    alloc: Global,
    profile: Profile,
    words: &CachedLinkTargets,
    extra: &[UnitName],
) -> Result<Vec<UnitName>, AllocError>
    ensures sources { IfOk result (λ names. AreSourcesBy profile words.now extra.now names.items) }
{
    let mut names = asked_by(alloc, profile, extra)?;
    add_visible(alloc, words, &mut names)?;
    Ok(names)
}

// Adds all names at which something is visible.
fn add_visible(
    alloc: Global,
    words: &CachedLinkTargets,
    names: &mut Vec<UnitName>,
) -> Result<(), AllocError>
    ensures added { OnOk result
        (names.new.items ≡ names.old.items ++ filter_map (λ p. whole_name p.0) words.now) }
{
    for (name, _) in words.names() {
        if let Some(name) = whole_name(alloc, name.as_slice())? {
            names.push(name)?;
        }
    }
    Ok(())
}

// The names that are asked for, for a manager after the perpetual units.
fn asked_by(
    alloc: Global,
    profile: Profile,
    extra: &[UnitName],
) -> Result<Vec<UnitName>, AllocError>
    ensures names { IfOk result (λ names. names.items ≡ asked_by profile extra.now) }
{
    match profile {
        Profile::Files => copied(alloc, extra),
        Profile::Manager => {
            let mut names = perpetual_units(alloc)?;
            append_copies(&mut names, extra)?;
            Ok(names)
        }
    }
}

// These bytes as a unit name. None if they are none, or a template's.
fn whole_name(alloc: Global, bytes: &[u8]) -> Result<Option<UnitName>, AllocError>
    ensures name { IfOk result (λ name. name ≡ whole_name bytes.now) }
{
    match UnitName::parse(alloc, bytes) {
        Ok(name) if name.is_template() => Ok(None),
        Ok(name) => Ok(Some(name)),
        Err(NameFault::Memory) => Err(AllocError),
        Err(_) => Ok(None),
    }
}
