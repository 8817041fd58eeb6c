//! What a node writes.
ghost use Rattle.std.specs.Prelude.{◌≡◌, ◌↔◌, ◌++◌, ◌∷◌, ◌^◌, ◌≤◌, ◌+◌, [], IfErr, IfOk, IsErrOf, IsOk, IsSome, None, OnErr, OnOk};
ghost use Rattle.edit_sums.specs.declared.contents.Content.TheVariants.{Gone};
ghost use Rattle.edit_sums.specs.Sums.{high_of, visible_at};
ghost use Rattle.replica_store.specs.Replicas.{next_version, with_put};

use crate::nodes::{NodeFile, next_version};
use edit_log::EditLog;
use edit_sums::{Content, Edit};
use join_law::Version;
use load_places::Place;
use replica_store::EditFault;
use std::alloc::AllocError;

// A copy of an edit of this place, version and content.
fn copied(place: &Place, version: Version, content: &Content) -> Result<Edit, AllocError>
    ensures edit { IfOk result
        (λ edit. edit ≡ record { place = place.now; version = version; content = content.now }) }
{
    Ok(Edit {
        place: place.try_clone()?,
        version,
        content: content.try_clone()?,
    })
}

// Adds an edit at the end of a list, or changes nothing.
fn noted(list: &mut Vec<Edit>, made: Result<Edit, AllocError>) -> Result<(), EditFault>
    ensures ok { OnOk result (IfOk made (λ edit. list.new.items ≡ list.old.items ++ edit ∷ [])) }
    ensures made { OnOk result (IsOk made) }
    ensures err { OnErr result (list.new.items ≡ list.old.items) }
    ensures memory { IfErr result (λ fault. fault ≡ EditFault.Memory) }
{
    let Ok(edit) = made else {
        return Err(EditFault::Memory);
    };
    match list.push(edit) {
        Ok(()) => Ok(()),
        Err(_) => Err(EditFault::Memory),
    }
}

impl<L: EditLog> NodeFile<L> {
    /// Writes a content at a place under the next version, in the replica alone: the next commit logs it.
    ///
    /// Fails with `VersionsSpent` exactly if the next counter is 2^63 or more, and with `Memory` only if memory runs out.
    /// Then it changes nothing.
    pub fn put(&mut self, place: Place, content: Content) -> Result<Version, EditFault>
        ensures version { IfOk result (λ version. version ≡ next_version self.old.replica) }
        ensures joined { OnOk result (self.new.replica ≡ with_put self.old.replica (record
            { place = place; version = next_version self.old.replica; content = content })) }
        ensures unsaved { OnOk result (self.new.unsaved ≡ self.old.unsaved ++ record
            { place = place; version = next_version self.old.replica; content = content } ∷ []) }
        ensures spent { IsErrOf result EditFault.VersionsSpent
            ↔ (2 ^ 63 ≤ high_of self.old.replica.store + 1) }
        ensures always { IsErrOf result EditFault.Nothing → ⊥ }
        ensures err { OnErr result (self.new ≡ self.old) }
        ensures log { self.new.log ≡ self.old.log }
        ensures whole { self.new.is_spent ≡ self.old.is_spent }
    {
        let Some(version) = next_version(&self.replica) else {
            return Err(EditFault::VersionsSpent);
        };
        let before = self.unsaved.len();
        noted(&mut self.unsaved, copied(&place, version, &content))?;
        match self.replica.put(place, content) {
            Ok(version) => Ok(version),
            Err(fault) => {
                self.unsaved.truncate(before);
                Err(fault)
            }
        }
    }

    /// Removes what is visible at a place under the next version, in the replica alone: the next commit logs the removal,
    /// which is an entry that stays.
    ///
    /// Fails with `Nothing` exactly if nothing is visible, else with `VersionsSpent` exactly if the next counter is 2^63 or
    /// more, and with `Memory` only if memory runs out. Then it changes nothing.
    pub fn remove(&mut self, place: Place) -> Result<Version, EditFault>
        ensures version { IfOk result (λ version. version ≡ next_version self.old.replica) }
        ensures joined { OnOk result (self.new.replica ≡ with_put self.old.replica (record
            { place = place; version = next_version self.old.replica; content = Gone })) }
        ensures unsaved { OnOk result (self.new.unsaved ≡ self.old.unsaved ++ record
            { place = place; version = next_version self.old.replica; content = Gone } ∷ []) }
        ensures nothing { IsErrOf result EditFault.Nothing
            ↔ (visible_at self.old.replica.store place ≡ None) }
        ensures spent { IsErrOf result EditFault.VersionsSpent
            ↔ (IsSome (visible_at self.old.replica.store place)
            × (2 ^ 63 ≤ high_of self.old.replica.store + 1)) }
        ensures err { OnErr result (self.new ≡ self.old) }
        ensures log { self.new.log ≡ self.old.log }
        ensures whole { self.new.is_spent ≡ self.old.is_spent }
    {
        if self.replica.store().visible(&place).is_none() {
            return Err(EditFault::Nothing);
        }
        let Some(version) = next_version(&self.replica) else {
            return Err(EditFault::VersionsSpent);
        };
        let before = self.unsaved.len();
        noted(&mut self.unsaved, copied(&place, version, &Content::Gone))?;
        match self.replica.remove(place) {
            Ok(version) => Ok(version),
            Err(fault) => {
                self.unsaved.truncate(before);
                Err(fault)
            }
        }
    }
}
