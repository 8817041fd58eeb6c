//! All names of a unit, found by walking back from it along aliases.
ghost use Rattle.std.specs.{Prelude.{◌≡◌, Some, [], ◌∷◌, ◌↔◌, IsTrue, IfOk, OnOk}, BTreeSet.{insert_key}, List.Sorted.{IsStrictlySortedBy}};
ghost use Rattle.list_laws.specs.Members.{IsAmong};
ghost use Rattle.path_maps.specs.HostViews.{host_view_of};
ghost use Rattle.unit_name.specs.Names.{name_cmp};
ghost use Rattle.fragment_choice.specs.{Choices.{choice}, Resolutions.{Leads, main}, UnitNames.{AreNames}};
ghost use Rattle.fragment_choice.specs.Indexes.{Adds, AreAliasesWithin, Gathers, IsLeadingInstance, IsLeadingInstanceOfAny, LeadsToAny, is_alias};

use crate::aliases::AliasIndex;
use crate::choices::{Choice, Chooses};
use plain_values::copied;
use replica_store::{Store, Viewer};
use std::alloc::{AllocError, Global};
use std::collections::BTreeSet;
use std::slice::from_ref;
use unit_name::UnitName;

/// Returns the names of a unit, as a host sees it or as it is seen without a host (systemd.unit(5), "Description"):
/// first `name`, which has to be its main name, and then in byte order all other names with this main name. These
/// include names that exist only by a link of their template.
///
/// Makes an index of the whole store; for the names of several units, make an `AliasIndex` and ask it. Fails only if
/// memory runs out.
pub fn names_of(
    alloc: Global,
    store: &Store,
    viewer: &Viewer,
    name: &UnitName,
) -> Result<Vec<UnitName>, AllocError>
    requires main { main (host_view_of store.now viewer.now) name.now ≡ name.now }
    ensures names { IfOk result
        (λ names. AreNames (host_view_of store.now viewer.now) name.now names.items) }
{
    AliasIndex::of(alloc, store, viewer)?.names_of(alloc, name)
}

impl<'a> AliasIndex<'a> {
    /// Returns the names of a unit of the index's store, as the function `names_of` does.
    ///
    /// Names that are aliases by their own links are found in the index, without a choice. Makes one choice for each
    /// instance that a link of its template may make an alias of one of the names, and one for a unit that has other
    /// names. Fails only if memory runs out.
    pub fn names_of(&self, alloc: Global, name: &UnitName) -> Result<Vec<UnitName>, AllocError>
        requires main { main self.now name.now ≡ name.now }
        ensures names { IfOk result (λ names. AreNames self.now name.now names.items) }
    {
        let others = self.all_after(alloc, name)?;
        if others.is_empty() {
            return copied(alloc, from_ref(name));
        }
        // an alias that more than eight others follow is its own main name, but has no other names
        if self.is_alias(alloc, name)? {
            return copied(alloc, from_ref(name));
        }
        listed(alloc, name, others)
    }

    // Returns the names from which one to eight aliases lead to this one.
    fn all_after(&self, alloc: Global, name: &UnitName) -> Result<BTreeSet<UnitName>, AllocError>
        ensures after { IfOk result (λ others. AreAliasesWithin self.now name.now 8 others.keys) }
    {
        let mut others = BTreeSet::new(alloc);
        let mut level = copied(alloc, from_ref(name))?;
        for depth in 0..8u8 {
            let next = self.after(alloc, &level)?;
            level = add_all(alloc, &mut others, next)?;
        }
        Ok(others)
    }

    // Returns the names that are aliases of one of these.
    fn after(&self, alloc: Global, level: &[UnitName]) -> Result<BTreeSet<UnitName>, AllocError>
        ensures gathered { IfOk result
            (λ next. Gathers (LeadsToAny self.now level.now) [] next.keys) }
    {
        let mut next = BTreeSet::new(alloc);
        for name in level {
            self.gather_after(alloc, &mut next, name)?;
        }
        Ok(next)
    }

    // Adds the names that are aliases of this one.
    fn gather_after(
        &self,
        alloc: Global,
        others: &mut BTreeSet<UnitName>,
        name: &UnitName,
    ) -> Result<(), AllocError>
        ensures gathered { OnOk result (Gathers (λ n. Leads self.now n name.now) others.old.keys
            others.new.keys) }
    {
        gather_owners(others, self.owners_of(name))?;
        match name.template_of()? {
            Some(template) => {
                self.gather_instances(alloc, others, name, self.owners_of(&template))
            }
            None => Ok(()),
        }
    }

    // Adds the names that these templates give with the instance of `name`, if they are aliases of `name`.
    fn gather_instances(
        &self,
        alloc: Global,
        others: &mut BTreeSet<UnitName>,
        name: &UnitName,
        owners: &[UnitName],
    ) -> Result<(), AllocError>
        ensures gathered { OnOk result
            (Gathers
            (IsLeadingInstanceOfAny self.now name.now owners.now) others.old.keys others.new.keys) }
    {
        for owner in owners {
            self.add_instance(alloc, others, name, owner)?;
        }
        Ok(())
    }

    // Adds the template with the instance of `name`, if there is such a name and it is an alias of `name`.
    fn add_instance(
        &self,
        alloc: Global,
        others: &mut BTreeSet<UnitName>,
        name: &UnitName,
        template: &UnitName,
    ) -> Result<(), AllocError>
        ensures gathered { OnOk result (Gathers (IsLeadingInstance self.now name.now template.now)
            others.old.keys others.new.keys) }
    {
        let Some(instance) = template.with_instance(name.instance())? else {
            return Ok(());
        };
        if !self.leads(alloc, &instance, name)? {
            return Ok(());
        }
        put(others, instance)
    }

    // Returns whether a name is an alias of another.
    fn leads(&self, alloc: Global, from: &UnitName, to: &UnitName) -> Result<bool, AllocError>
        ensures test { IfOk result (λ it. IsTrue it ↔ Leads self.now from.now to.now) }
    {
        match self.choose(alloc, from)? {
            Choice::Alias(alias) => Ok(alias == *to),
            _ => Ok(false),
        }
    }

    // Returns whether a name is an alias.
    fn is_alias(&self, alloc: Global, name: &UnitName) -> Result<bool, AllocError>
        ensures test { IfOk result (λ it. it ≡ is_alias (choice self.now name.now)) }
    {
        match self.choose(alloc, name)? {
            Choice::Alias(_) => Ok(true),
            _ => Ok(false),
        }
    }
}

// Adds names to others, and returns the added names as a list.
fn add_all(
    alloc: Global,
    others: &mut BTreeSet<UnitName>,
    names: BTreeSet<UnitName>,
) -> Result<Vec<UnitName>, AllocError>
    ensures list { IfOk result (λ list. list.items ≡ names.keys) }
    ensures added { OnOk result (Adds names.keys others.old.keys others.new.keys) }
{
    let mut list = Vec::new(alloc);
    for name in names {
        put(others, name.try_clone()?)?;
        list.push(name)?;
    }
    Ok(list)
}

// Returns a list of the name and then the others.
fn listed(
    alloc: Global,
    name: &UnitName,
    others: BTreeSet<UnitName>,
) -> Result<Vec<UnitName>, AllocError>
    ensures list { IfOk result (λ names. names.items ≡ name.now ∷ others.keys) }
    ensures ascending { OnOk result (IsStrictlySortedBy name_cmp others.keys) }
{
    let mut names = Vec::new(alloc);
    names.push(name.try_clone()?)?;
    for other in others {
        names.push(other)?;
    }
    Ok(names)
}

// Adds these names.
fn gather_owners(others: &mut BTreeSet<UnitName>, owners: &[UnitName]) -> Result<(), AllocError>
    ensures added { OnOk result (Adds owners.now others.old.keys others.new.keys) }
{
    for owner in owners {
        put(others, owner.try_clone()?)?;
    }
    Ok(())
}

// Adds a name to a set.
fn put(others: &mut BTreeSet<UnitName>, name: UnitName) -> Result<(), AllocError>
    ensures put { OnOk result (others.new.keys ≡ insert_key name_cmp others.old.keys name) }
{
    match others.insert(name) {
        Ok(_) => Ok(()),
        Err(_) => Err(AllocError),
    }
}
