//! Maps from keys to their values.
ghost use Rattle.std.specs.Prelude.{◌≡◌, ◌↔◌, ◌<◌, ◌++◌, [], ◌∷◌, IsTrue, IfOk, OnOk, Some, length, slice_get};
ghost use Rattle.setting_rules.specs.Maps.{place_of, with_key, changed, values_at};

use crate::keys::SettingKey;
use indexmap::IndexMap;
use plain_values::{Bytes, Items};
use std::alloc::{AllocError, Global};
use std::marker::Model;

/// A map from keys to their values, in the order in which the keys were entered. Contracts see a list of pairs.
pub struct SettingMap {
    entries: IndexMap<SettingKey, Items<Bytes>>,
}

impl Drop for SettingMap {
    fn drop(self) {
        let SettingMap { entries: _ } = self;
    }
}

impl Model for SettingMap {
    ghost use Rattle.std.specs.Prelude.{List, ℕ};
    ghost use Rattle.setting_rules.specs.declared.keys.SettingKey.{SettingKey};

    ghost Value = { List (SettingKey × List (List ℕ)) };

    ghost view = { λ m. m.entries.entries };
}

impl SettingMap {
    /// Returns an empty map with capacity for `keys`. Fails only if memory runs out.
    pub(crate) fn with_room(alloc: Global, keys: usize) -> Result<SettingMap, AllocError>
        ensures empty { IfOk result (λ map. map ≡ []) }
    {
        let entries = IndexMap::with_capacity(alloc, keys)?;
        Ok(SettingMap { entries })
    }

    /// Returns the number of keys. Allocates nothing.
    pub fn len(&self) -> usize
        ensures len { result ≡ length self.now }
    {
        self.entries.len()
    }

    /// Returns whether there are no keys. Allocates nothing.
    pub fn is_empty(&self) -> bool
        ensures test { IsTrue result ↔ (self.now ≡ []) }
    {
        self.entries.is_empty()
    }

    /// Returns the key at an index and its values. Allocates nothing.
    pub fn entry(&self, place: usize) -> (&SettingKey, &[Bytes])
        requires within { place < length self.now }
        ensures entry { slice_get self.now place ≡ Some (result.0.now, result.1.now) }
    {
        let (key, values) = self.entries.get_index(place).unwrap();
        (key, values.as_slice())
    }

    /// Returns the values of a key, or an empty slice if it is absent. Linear in the keys. Allocates nothing.
    pub fn values_of(&self, section: &[u8], key: &[u8]) -> &[Bytes]
        ensures values { result.now
            ≡ values_at self.now (record { section = section.now; key = key.now }) }
    {
        for place in 0..self.len() {
            let (entered, values) = self.entry(place);
            if entered.is(section, key) {
                return values;
            }
        }
        &[]
    }

    // Returns the index of a key. An absent key is entered first, with no values.
    fn place(&mut self, alloc: Global, key: SettingKey) -> Result<usize, AllocError>
        ensures entered { OnOk result (self.new ≡ with_key self.old key) }
        ensures place { IfOk result (λ place. place ≡ place_of self.old key) }
    {
        match self.entries.get_index_of(&key) {
            Some(place) => Ok(place),
            None => {
                let place = self.entries.len();
                self.entries.insert(key, Items::new(alloc))?;
                Ok(place)
            }
        }
    }

    /// Enters a key, unless it is present. Fails only if memory runs out.
    pub(crate) fn enter(&mut self, alloc: Global, key: SettingKey) -> Result<(), AllocError>
        ensures map { OnOk result (self.new ≡ changed (λ values. values) self.old key) }
    {
        self.place(alloc, key)?;
        Ok(())
    }

    /// Appends a value to those of a key, which is entered if absent. Fails only if memory runs out.
    pub(crate) fn add(
        &mut self,
        alloc: Global,
        key: SettingKey,
        value: Bytes,
    ) -> Result<(), AllocError>
        ensures map { OnOk result
            (self.new ≡ changed (λ values. values ++ value ∷ []) self.old key) }
    {
        let place = self.place(alloc, key)?;
        self.entries[place].push(value)?;
        Ok(())
    }

    /// Removes the values of a key, which is entered if absent. Fails only if memory runs out.
    pub(crate) fn clear(&mut self, alloc: Global, key: SettingKey) -> Result<(), AllocError>
        ensures map { OnOk result (self.new ≡ changed (λ _. []) self.old key) }
    {
        let place = self.place(alloc, key)?;
        self.entries[place].clear();
        Ok(())
    }

    /// Replaces the values of a key by this one; the key is entered if absent. Fails only if memory runs out.
    pub(crate) fn replace(
        &mut self,
        alloc: Global,
        key: SettingKey,
        value: Bytes,
    ) -> Result<(), AllocError>
        ensures map { OnOk result (self.new ≡ changed (λ _. value ∷ []) self.old key) }
    {
        let place = self.place(alloc, key)?;
        let values = &mut self.entries[place];
        values.clear();
        values.push(value)?;
        Ok(())
    }
}
