//! What a name's own paths say of aliases: the targets of its links.
ghost use Rattle.std.specs.{Prelude.{◌≡◌, [], None, false, true, IfOk}, Option.{option_copied}};
ghost use Rattle.path_maps.specs.HostViews.{viewed_at};
ghost use Rattle.unit_name.specs.Names.{Name};
ghost use Rattle.fragment_choice.specs.{Choices.{own_path}, LinkTargets.{lead_of, link_targets, own_alias}};

use crate::choices::{Choice, link_says};
use crate::links::last_component;
use load_places::LEVELS;
use plain_values::{Bytes, Items};
use replica_store::{Content, HostView};
use std::alloc::{AllocError, Global};
use std::marker::Model;
use unit_name::UnitName;

/// The link targets at a name's own paths, level by level, up to a file or a link to `/dev/null`, which ends the list.
#[derive(Debug)]
pub struct LinkTargets {
    links: Items<Bytes>,
    ends: bool,
}

impl Drop for LinkTargets {
    fn drop(self) {
        let LinkTargets { links: _, ends: _ } = self;
    }
}

impl Model for LinkTargets {
    ghost use Rattle.std.specs.Prelude.{List};
    ghost use Rattle.fragment_choice.specs.LinkTargets.{Target, coded_link_targets, link_targets_with};

    ghost Value = { List Target };

    ghost coded = { coded_link_targets };

    ghost view = { λ w. link_targets_with w.links w.ends };
}

impl LinkTargets {
    /// Returns the link targets of a name. At most eight searches. Fails only if memory runs out; allocates nothing if
    /// there is no link.
    pub fn of(alloc: Global, view: &HostView, name: &[u8]) -> Result<LinkTargets, AllocError>
        ensures words { IfOk result (λ words. words ≡ link_targets view.now name.now) }
    {
        let mut links = Items::new(alloc);
        for level in 0..LEVELS {
            match visible_at(view, level, name) {
                None => {}
                Some(Content::Gone) => {}
                Some(Content::File(_)) => return Ok(LinkTargets { links, ends: true }),
                Some(Content::Link(target)) => {
                    if target.bytes() == b"/dev/null".as_slice() {
                        return Ok(LinkTargets { links, ends: true });
                    }
                    links.push(Bytes::from_slice(alloc, target.bytes())?)?;
                }
            }
        }
        Ok(LinkTargets { links, ends: false })
    }

    /// Returns whether the two are the same. Allocates nothing.
    pub fn is(&self, other: &LinkTargets) -> bool
        ensures same { result ≡ true → self.now ≡ other.now }
    {
        self.ends == other.ends && self.links == other.links
    }

    /// Returns whether there are none. Allocates nothing.
    pub fn are_none(&self) -> bool
        ensures none { result ≡ true → self.now ≡ [] }
    {
        !self.ends && self.links.as_slice().is_empty()
    }

    // Returns whether a link comes first. Without one they make no alias.
    pub(crate) fn begin_with_link(&self) -> bool
        ensures test { (n : Name) → result ≡ false → own_alias n self.now ≡ None }
    {
        !self.links.as_slice().is_empty()
    }

    // Returns what these link targets of a name make it an alias of, if they do.
    pub(crate) fn alias(
        &self,
        alloc: Global,
        name: &UnitName,
    ) -> Result<Option<UnitName>, AllocError>
        ensures alias { IfOk result (λ alias. alias ≡ own_alias name.now self.now) }
    {
        for target in self.links.as_slice() {
            if let Some(said) = link_says(alloc, name, name, last_component(target.as_slice()))? {
                return Ok(lead_of(said));
            }
        }
        Ok(None)
    }
}

// Returns the name that a choice makes a name an alias of.
fn lead_of(choice: Choice) -> Option<UnitName>
    ensures lead { result ≡ lead_of choice }
{
    match choice {
        Choice::Alias(name) => Some(name),
        _ => None,
    }
}

// Returns what is visible at a name's path of a level.
fn visible_at<'a>(view: &HostView<'a>, level: u8, name: &[u8]) -> Option<&'a Content>
    ensures visible { option_copied result ≡ viewed_at view.now (own_path name.now level) }
{
    view.entry_at(level, b"", name)?.visible()
}
