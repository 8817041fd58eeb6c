//! What a link to a unit says of a name.
ghost use Rattle.std.specs.{Prelude.{◌≡◌, ◌≤◌, ◌-◌, length, not, Some, IfOk}, List.{suffix_len}};
ghost use Rattle.unit_name.specs.Names.{kind, shape, instance};
ghost use Rattle.fragment_choice.specs.Choices.{alias_of, has_no_alias, is_bad_kind, is_self, is_slash, last_component, shapes_agree, target_says};

use crate::choices::{Cause, Choice};
use std::alloc::AllocError;
use unit_name::{Kind, Shape, UnitName};

/// Returns what a link of the own name to this unit says of the name; `None` if the link is ignored.
pub(crate) fn target_says(
    name: &UnitName,
    own: &UnitName,
    target: UnitName,
) -> Result<Option<Choice>, AllocError>
    ensures said { IfOk result (λ said. said ≡ target_says name.now own.now target) }
{
    if is_self(own, &target)? {
        return Ok(None);
    }
    if is_bad_kind(own.kind(), target.kind()) {
        return Ok(Some(Choice::Bad(Cause::Kind)));
    }
    if !shapes_agree(own, &target) {
        return Ok(Some(Choice::Bad(Cause::Shape)));
    }
    Ok(Some(alias_of(name, target)?))
}

// Returns whether a link points to its own name or to that name's template.
fn is_self(own: &UnitName, target: &UnitName) -> Result<bool, AllocError>
    ensures test { IfOk result (λ it. it ≡ is_self own.now target.now) }
{
    if own == target {
        return Ok(true);
    }
    match own.template_of()? {
        Some(template) => Ok(template == *target),
        None => Ok(false),
    }
}

// Returns whether the kinds differ, or are a kind without aliases.
fn is_bad_kind(own: Kind, target: Kind) -> bool
    ensures test { result ≡ is_bad_kind (Some own) (Some target) }
{
    own != target || has_no_alias(target)
}

// Returns whether units of this kind have no aliases (systemd.unit(5), "Description").
fn has_no_alias(kind: Kind) -> bool
    ensures test { result ≡ has_no_alias kind }
{
    matches!(
        kind,
        Kind::Mount | Kind::Slice | Kind::Swap | Kind::Automount
    )
}

// Returns whether a link may point from the one shape to the other.
fn shapes_agree(own: &UnitName, target: &UnitName) -> bool
    ensures test { result ≡ shapes_agree (shape own.now) (instance own.now) (shape target.now)
        (instance target.now) }
{
    match (own.shape(), target.shape()) {
        (Shape::Plain, Shape::Plain) => true,
        (Shape::Template, Shape::Template) => true,
        (Shape::Instance, Shape::Template) => true,
        (Shape::Instance, Shape::Instance) => own.instance() == target.instance(),
        _ => false,
    }
}

// Returns the alias that a link to the target makes of the name.
fn alias_of(name: &UnitName, target: UnitName) -> Result<Choice, AllocError>
    ensures alias { IfOk result
        (λ said. said ≡ alias_of (shape name.now) name.now (shape target) target) }
{
    match (name.shape(), target.shape()) {
        (Shape::Instance, Shape::Template) => match target.with_instance(name.instance())? {
            Some(alias) => Ok(Choice::Alias(alias)),
            None => Ok(Choice::Bad(Cause::Target)),
        },
        _ => Ok(Choice::Alias(target)),
    }
}

/// Returns the part of a link's target after its last slash, or all of it.
pub(crate) fn last_component(target: &[u8]) -> &[u8]
    ensures part { result.now ≡ last_component target.now }
{
    &target[after_slash(target)..]
}

// Returns the index after the last slash, or 0.
fn after_slash(target: &[u8]) -> usize
    ensures within { result ≤ length target.now }
    ensures place { result ≡ length target.now - suffix_len (λ b. not (is_slash b)) target.now }
{
    let mut end = target.len();
    while end > 0 && target[end - 1] != b'/' {
        end -= 1;
    }
    end
}
