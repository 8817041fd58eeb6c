//! Which links count under a unit's own name (systemd.unit(5), "Description").
ghost use Rattle.std.specs.{Prelude.{◌≡◌, ◌≤◌, ◌-◌, length, not, is_some, IfOk}, List.{suffix_len}};
ghost use Rattle.fragment_choice.specs.Choices.{is_self, is_slash, last_component, link_says};

use std::alloc::{AllocError, Global};
use unit_name::{NameFault, UnitName};

/// Returns whether a link under a unit's own name, to a target with this last component, counts. Only a link to itself
/// doesn't. Fails only if memory runs out.
pub(crate) fn link_counts(
    alloc: Global,
    own: &UnitName,
    component: &[u8],
) -> Result<bool, AllocError>
    ensures counts { IfOk result
        (λ counts. counts ≡ is_some (link_says own.now own.now component.now)) }
{
    match UnitName::parse(alloc, component) {
        Ok(target) => Ok(!is_self(own, &target)?),
        Err(NameFault::Memory) => Err(AllocError),
        Err(_) => Ok(true),
    }
}

// Returns whether a link points to its own name or to that name's template.
fn is_self(own: &UnitName, target: &UnitName) -> Result<bool, AllocError>
    ensures test { IfOk result (λ it. it ≡ is_self own.now target.now) }
{
    if own == target {
        return Ok(true);
    }
    match own.template_of()? {
        Some(template) => Ok(template == *target),
        None => Ok(false),
    }
}

/// Returns the part of a link's target after its last slash, or all of it.
pub(crate) fn last_component(target: &[u8]) -> &[u8]
    ensures part { result.now ≡ last_component target.now }
{
    &target[after_slash(target)..]
}

// Returns the index after the last slash, or 0.
fn after_slash(target: &[u8]) -> usize
    ensures within { result ≤ length target.now }
    ensures place { result ≡ length target.now - suffix_len (λ b. not (is_slash b)) target.now }
{
    let mut end = target.len();
    while end > 0 && target[end - 1] != b'/' {
        end -= 1;
    }
    end
}
