//! An index of a store's aliases, by the name that they are aliases of.
ghost use Rattle.std.specs.{Prelude.{◌≡◌, Some, IfOk, OnOk}, BTreeMap.{Updates}, List.{All}, Map.{keys_of}};
ghost use Rattle.edit_sums.specs.Sums.{shown};
ghost use Rattle.path_maps.specs.HostViews.{host_view_of};
ghost use Rattle.unit_name.specs.Names.{name_cmp};
ghost use Rattle.fragment_choice.specs.Indexes.{AreMapsOf, AreOwners, Collects, HaveLinks, IsOwnAt, IsOwnEntry, Puts, alias_in, aliases_in};
ghost use Rattle.fragment_choice.specs.{LinkTargets.{HasOwnLinkTargets}, LinkedNames.{is_link, unit_of}};

use crate::choices::{Choice, Chooses};
use crate::link_targets::LinkTargets;
use load_places::LEVELS;
use plain_values::Bytes;
use replica_store::{Content, HostView, HostViewEntry, Store, Viewer};
use std::alloc::{AllocError, Global};
use std::collections::BTreeMap;
use std::marker::Model;
use unit_name::{NameFault, UnitName};

// For each name, the names whose own links make them aliases of it.
type Owners = BTreeMap<UnitName, Vec<UnitName>>;

// For each name that its own links make an alias, what it is an alias of.
type OwnAliases = BTreeMap<UnitName, UnitName>;

/// An index of the aliases that a host sees of a store, or that are seen without a host, by the name that they are
/// aliases of, and of what each name's own links make it an alias of.
///
/// It borrows the store. Made once, it resolves names of the store and finds the names of each unit. In contracts it is
/// what is seen of the store.
pub struct AliasIndex<'a> {
    view: HostView<'a>,
    aliases: OwnAliases,
    owners: Owners,
}

impl<'a> Drop for AliasIndex<'a> {
    fn drop(self) {
        let AliasIndex {
            view: _,
            aliases: _,
            owners: _,
        } = self;
    }
}

impl<'a> Model for AliasIndex<'a> {
    ghost use Rattle.path_maps.specs.HostViews.{HostViewMap, coded_host_view};
    ghost use Rattle.fragment_choice.specs.Indexes.{IsIndexOf};

    ghost Value = { HostViewMap };

    ghost coded = { coded_host_view };

    ghost view = { λ index. index.view };

    ghost invariant = { λ index. IsIndexOf index.view index.aliases index.owners };
}

impl<'a> AliasIndex<'a> {
    /// Makes the index of a store for a host, or without one. Passes once over the places that are seen and whose path
    /// has one component; then reads the link targets of each name with a link there. Fails only if memory runs out.
    pub fn of(
        alloc: Global,
        store: &'a Store,
        viewer: &'a Viewer,
    ) -> Result<AliasIndex<'a>, AllocError>
        ensures view { IfOk result (λ index. index ≡ host_view_of store.now viewer.now) }
    {
        let view = store.host_view(viewer);
        let targets = linked_targets(alloc, &view)?;
        AliasIndex::of_targets(alloc, view, &targets)
    }

    /// Makes the index from the link targets of names, where all names with a visible link of their own are among them.
    /// One pass over these, without a look at the store. Fails only if memory runs out.
    pub fn of_targets(
        alloc: Global,
        view: HostView<'a>,
        targets: &[(Bytes, LinkTargets)],
    ) -> Result<AliasIndex<'a>, AllocError>
        requires targets { HaveLinks view targets.now }
        ensures view { IfOk result (λ index. index ≡ view.entry) }
    {
        let (aliases, owners) = indexed(alloc, targets)?;
        Ok(AliasIndex {
            view,
            aliases,
            owners,
        })
    }

    /// Returns what is seen of the store. Allocates nothing.
    pub fn view(&self) -> &HostView<'a>
        ensures view { result.now ≡ self.now }
    {
        &self.view
    }

    // Returns the names whose own links make them aliases of this one.
    pub(crate) fn owners_of(&self, target: &UnitName) -> &[UnitName]
        ensures owners { AreOwners self.now target.now result.now }
    {
        match self.owners.get(target) {
            Some(owners) => owners.as_slice(),
            None => &[],
        }
    }
}

impl<'a> Chooses for AliasIndex<'a> {
    ghost in_view = { λ index. index };

    fn choose(&self, alloc: Global, name: &UnitName) -> Result<Choice, AllocError> {
        match self.aliases.get(name) {
            Some(alias) => Ok(Choice::Alias(alias.try_clone()?)),
            None => self.view.choose(alloc, name),
        }
    }
}

// Returns what each of these names is an alias of by its link targets, and the same by what they are aliases of.
fn indexed(
    alloc: Global,
    targets: &[(Bytes, LinkTargets)],
) -> Result<(OwnAliases, Owners), AllocError>
    ensures index { IfOk result (λ it. AreMapsOf (aliases_in targets.now) it.0 it.1) }
{
    let mut aliases = BTreeMap::new(alloc);
    let mut owners = BTreeMap::new(alloc);
    for (name, links) in targets {
        if let Some((own, alias)) = alias_in(alloc, name, links)? {
            put_under(alloc, &mut owners, alias.try_clone()?, own.try_clone()?)?;
            put_alias(&mut aliases, own, alias)?;
        }
    }
    Ok((aliases, owners))
}

// Returns the unit name that these bytes are, and what its link targets make it an alias of, if they are one and do.
fn alias_in(
    alloc: Global,
    name: &Bytes,
    targets: &LinkTargets,
) -> Result<Option<(UnitName, UnitName)>, AllocError>
    ensures alias { IfOk result (λ alias. alias ≡ alias_in (name.now, targets.now)) }
{
    if !targets.begin_with_link() {
        return Ok(None);
    }
    let Some(own) = unit_of(alloc, name.as_slice())? else {
        return Ok(None);
    };
    match targets.alias(alloc, &own)? {
        Some(alias) => Ok(Some((own, alias))),
        None => Ok(None),
    }
}

// Stores what a name is an alias of.
fn put_alias(aliases: &mut OwnAliases, own: UnitName, alias: UnitName) -> Result<(), AllocError>
    ensures put { OnOk result (Updates name_cmp aliases.old aliases.new own (Some alias)) }
{
    match aliases.insert(own, alias) {
        Ok(_) => Ok(()),
        Err(_) => Err(AllocError),
    }
}

// Stores a name under another.
fn put_under(
    alloc: Global,
    owners: &mut Owners,
    target: UnitName,
    own: UnitName,
) -> Result<(), AllocError>
    ensures put { OnOk result (Puts own target owners.old owners.new) }
{
    let mut names = owners.remove(&target).unwrap_or(Vec::new(alloc));
    names.push(own)?;
    match owners.insert(target, names) {
        Ok(_) => Ok(()),
        Err(_) => Err(AllocError),
    }
}

// Returns the names that have a visible link of their own at some level, each with its link targets; a name with links
// at several levels comes as often.
fn linked_targets(alloc: Global, view: &HostView) -> Result<Vec<(Bytes, LinkTargets)>, AllocError>
    ensures targets { IfOk result (λ targets. HaveLinks view.now targets.items) }
{
    let mut targets = Vec::new(alloc);
    for level in 0..LEVELS {
        add_linked(alloc, &mut targets, view, level)?;
    }
    Ok(targets)
}

// Adds the names that have one at this level.
fn add_linked(
    alloc: Global,
    targets: &mut Vec<(Bytes, LinkTargets)>,
    view: &HostView,
    level: u8,
) -> Result<(), AllocError>
    ensures added { OnOk result
        (Collects (IsOwnAt view.now level) (keys_of targets.old.items)
        (keys_of targets.new.items)) }
    ensures own { OnOk result (All (HasOwnLinkTargets view.now) targets.old.items
        → All (HasOwnLinkTargets view.now) targets.new.items) }
{
    let mut entries = view.entries_in(level, b"");
    while let Some(placed) = entries.next_entry() {
        add_entry(alloc, targets, view, &placed)?;
    }
    Ok(())
}

// Adds the name of an entry with its link targets, if the entry is a link.
fn add_entry(
    alloc: Global,
    targets: &mut Vec<(Bytes, LinkTargets)>,
    view: &HostView,
    placed: &HostViewEntry,
) -> Result<(), AllocError>
    ensures added { OnOk result
        (Collects (IsOwnEntry placed.now) (keys_of targets.old.items) (keys_of targets.new.items)) }
    ensures own { OnOk result (All (HasOwnLinkTargets view.now) targets.old.items
        → All (HasOwnLinkTargets view.now) targets.new.items) }
{
    if !is_link(placed) {
        return Ok(());
    }
    let name = placed.name();
    let own = LinkTargets::of(alloc, view, name.as_slice())?;
    targets.push((name.try_clone()?, own))?;
    Ok(())
}

// Returns whether an entry is a link.
fn is_link(placed: &HostViewEntry) -> bool
    ensures test { result ≡ is_link (shown placed.now.1) }
{
    matches!(placed.visible(), Some(Content::Link(_)))
}

// Returns the unit name that these bytes are, or `None` if they are none.
fn unit_of(alloc: Global, bytes: &[u8]) -> Result<Option<UnitName>, AllocError>
    ensures unit { IfOk result (λ unit. unit ≡ unit_of bytes.now) }
{
    match UnitName::parse(alloc, bytes) {
        Ok(name) => Ok(Some(name)),
        Err(NameFault::Memory) => Err(AllocError),
        Err(_) => Ok(None),
    }
}
