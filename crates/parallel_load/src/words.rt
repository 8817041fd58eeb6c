//! What a load caches of the paths of one component: the link targets of each visible name. By these a load can tell
//! whether another store has the same aliases.
ghost use Rattle.std.specs.{Prelude.{◌≡◌, ◌↔◌, ◌++◌, true, IfOk, OnOk, map}, List.Sorted.{IsStrictlySortedBy}};
ghost use Rattle.list_laws.specs.Members.{IsAmong};
ghost use Rattle.unit_name.specs.Names.{name_cmp};
ghost use Rattle.fragment_choice.specs.LinkTargetLaws.{IsShown};
ghost use Rattle.parallel_load.specs.{OwnLinkTargets.{AreOwnLinkTargets, with_own_link_targets, words_in}, Sources.{shown_names}};

use fragment_choice::LinkTargets;
use load_places::LEVELS;
use plain_values::Bytes;
use replica_store::HostView;
use sorted_pairs::seek;
use std::alloc::{AllocError, Global};
use std::marker::Model;

/// Names in byte order, each with its link targets.
#[derive(Debug)]
pub struct CachedLinkTargets {
    names: Vec<(Bytes, LinkTargets)>,
}

impl Drop for CachedLinkTargets {
    fn drop(self) {
        let CachedLinkTargets { names: _ } = self;
    }
}

impl Model for CachedLinkTargets {
    ghost use Rattle.std.specs.{Prelude.{IsTrue}, FinMap.{is_sorted}};
    ghost use Rattle.unit_name.specs.Names.{name_cmp};
    ghost use Rattle.fragment_choice.specs.LinkTargets.{NamedWords};
    ghost use Rattle.parallel_load.specs.OwnLinkTargets.{coded_named_words};

    ghost Value = { NamedWords };

    ghost coded = { coded_named_words };

    ghost view = { λ w. w.names.items };

    ghost invariant = { λ w. IsTrue (is_sorted name_cmp w.names.items) };
}

impl CachedLinkTargets {
    /// The link targets of all visible names. One pass over the store's paths of one component, and up to eight
    /// searches for each name. Fails only if memory runs out.
    pub(crate) fn of(alloc: Global, view: &HostView) -> Result<CachedLinkTargets, AllocError>
        ensures words { IfOk result (AreOwnLinkTargets view.now) }
    {
        let shown = shown_names(alloc, view)?;
        let names = with_words(alloc, view, shown)?;
        Ok(CachedLinkTargets { names })
    }

    /// The names with their link targets. Allocates nothing.
    pub(crate) fn names(&self) -> &[(Bytes, LinkTargets)]
        ensures names { result.now ≡ self.now }
    {
        self.names.as_slice()
    }

    /// Whether a name has these link targets. O(log n). Allocates nothing.
    pub(crate) fn have(&self, name: &Bytes, words: &LinkTargets) -> bool
        ensures same { result ≡ true → words_in self.now name.now ≡ words.now }
    {
        match seek(&self.names, name) {
            Ok(at) => self.names[at].1.is(words),
            Err(_) => words.are_none(),
        }
    }
}

// The names at which something is visible, each once, in byte order.
fn shown_names(alloc: Global, view: &HostView) -> Result<Vec<Bytes>, AllocError>
    ensures ascending { IfOk result (λ names. IsStrictlySortedBy name_cmp names.items) }
    ensures shown { IfOk result (λ names. (n : _) → IsAmong n names.items ↔ IsShown view.now n) }
{
    let mut names = Vec::new(alloc);
    for level in 0..LEVELS {
        add_shown(&mut names, view, level)?;
    }
    names.sort_unstable();
    names.dedup();
    Ok(names)
}

// Adds the names at which something is visible at this level.
fn add_shown(names: &mut Vec<Bytes>, view: &HostView, level: u8) -> Result<(), AllocError>
    ensures added { OnOk result (names.new.items ≡ names.old.items ++ shown_names view.now level) }
{
    let mut entries = view.entries_in(level, b"");
    while let Some(placed) = entries.next_entry() {
        if placed.visible().is_some() {
            names.push(placed.name().try_clone()?)?;
        }
    }
    Ok(())
}

// Names with the link targets of each.
fn with_words(
    alloc: Global,
    view: &HostView,
    shown: Vec<Bytes>,
) -> Result<Vec<(Bytes, LinkTargets)>, AllocError>
    ensures words { IfOk result
        (λ names. names.items ≡ map (with_own_link_targets view.now) shown.items) }
{
    let mut names = Vec::with_capacity(alloc, shown.len())?;
    for name in shown {
        let words = LinkTargets::of(alloc, view, name.as_slice())?;
        names.push((name, words))?;
    }
    Ok(names)
}
