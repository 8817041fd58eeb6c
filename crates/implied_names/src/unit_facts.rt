//! A unit as the tables ask it: its name, its values, and what mounts and swaps are named after.
ghost use Rattle.std.specs.{Option.{option_copied}, Prelude.{codes, IfOk, map, Some, ◌||◌, ◌≡◌}};
ghost use Rattle.unit_name.specs.Names.{kind};
ghost use Rattle.unit_values.specs.{Facts.{has, last, section_word, values_of, words, words_in, yes, yes_in}, Defaults.{has_defaults}};
ghost use Rattle.implied_names.specs.{Paths.{place}, Roles.{is_private, options, takes, what}};

use crate::mounts::{options_of, place_of, what_of};
use setting_rules::Row;
use std::alloc::{AllocError, Global};
use std::marker::Model;
use unit_name::{Kind, UnitName};
use unit_values::{
    has_defaults, has_in, is_among, last_in, section_of, values_in, words_in, yes_in,
};

/// A unit's name and its effective values.
#[derive(Drop)]
pub(crate) struct Facts<'a> {
    unit: &'a UnitName,
    kind: Kind,
    rows: &'a [Row],
    // The options of a mount, each without what it is set to.
    options: Vec<&'a [u8]>,
    // The path that a mount, an automount or a swap is named after.
    place: Option<Vec<u8>>,
    // The path that is mounted or swapped to.
    what: Option<Vec<u8>>,
    // Whether it has temporary directories of its own.
    is_private: bool,
    // Whether it has default dependencies.
    has_defaults: bool,
}

impl<'a> Model for Facts<'a> {
    ghost use Rattle.std.specs.{Option.{option_map}, Prelude.{◌≡◌, Some, map}};
    ghost use Rattle.unit_name.specs.Names.{kind as kind_of};
    ghost use Rattle.unit_values.specs.{Facts.{Facts as FactsOf, coded_facts}, Defaults.{has_defaults as defaults_said}};
    ghost use Rattle.implied_names.specs.{Paths.{place as place_named}, Roles.{is_private as private_said, options as options_said, what as what_said}};

    ghost Value = { FactsOf };

    ghost coded = { coded_facts };

    ghost view = { λ f. record { unit = f.unit.now; rows = f.rows.now } };

    ghost invariant = { λ f. (kind_of f.unit.now ≡ Some f.kind)
        × (map (λ option. option.now) f.options.items
        ≡ options_said (record { unit = f.unit.now; rows = f.rows.now }))
        × (option_map (λ path. path.items) f.place ≡ place_named f.unit.now)
        × (option_map (λ path. path.items) f.what
        ≡ what_said (record { unit = f.unit.now; rows = f.rows.now }))
        × (f.is_private ≡ private_said (record { unit = f.unit.now; rows = f.rows.now }))
        × (f.has_defaults ≡ defaults_said (record { unit = f.unit.now; rows = f.rows.now })) };
}

impl<'a> Facts<'a> {
    /// Reads what is asked more than once, and what is asked of mounts and swaps. Fails only if memory runs out.
    pub fn of(alloc: Global, unit: &'a UnitName, rows: &'a [Row]) -> Result<Facts<'a>, AllocError>
        ensures facts { IfOk result (λ facts. facts ≡ record { unit = unit.now; rows = rows.now }) }
    {
        let kind = unit.kind();
        let options = options_of(alloc, last_in(alloc, rows, section_of(kind), b"Options")?)?;
        let place = place_of(alloc, unit, kind)?;
        let what = what_of(alloc, unit, kind, rows)?;
        let is_private = is_private(alloc, kind, rows)?;
        let has_defaults = has_defaults(alloc, unit, rows)?;
        Ok(Facts {
            unit,
            kind,
            rows,
            options,
            place,
            what,
            is_private,
            has_defaults,
        })
    }

    /// Returns the unit's name.
    pub fn unit(&self) -> &'a UnitName
        ensures unit { result.now ≡ self.now.unit }
    {
        self.unit
    }

    /// Returns the unit's type.
    pub fn kind(&self) -> Kind
        ensures kind { kind self.now.unit ≡ Some result }
    {
        self.kind
    }

    /// Returns the path that a mount, an automount or a swap is named after.
    pub fn place(&self) -> Option<&[u8]>
        ensures place { option_copied result ≡ place self.now.unit }
    {
        self.place.as_deref()
    }

    /// Returns the path that is mounted or swapped to.
    pub fn what(&self) -> Option<&[u8]>
        ensures what { option_copied result ≡ what self.now }
    {
        self.what.as_deref()
    }

    /// Returns whether a key has a value.
    pub fn has(&self, key: &[u8]) -> bool
        ensures test { result ≡ has self.now key.now }
    {
        has_in(self.rows, section_of(self.kind), key)
    }

    /// Returns the values of a key.
    pub fn values(&self, alloc: Global, key: &[u8]) -> Result<Vec<&'a [u8]>, AllocError>
        ensures values { IfOk result
            (λ values. map (λ value. value.now) values.items ≡ values_of self.now key.now) }
    {
        values_in(alloc, self.rows, section_of(self.kind), key)
    }

    /// Returns the last of them.
    pub fn last(&self, alloc: Global, key: &[u8]) -> Result<Option<&'a [u8]>, AllocError>
        ensures last { IfOk result (λ value. option_copied value ≡ last self.now key.now) }
    {
        last_in(alloc, self.rows, section_of(self.kind), key)
    }

    /// Returns whether the last of them that spells a boolean is true.
    pub fn yes(&self, alloc: Global, key: &[u8]) -> Result<bool, AllocError>
        ensures test { IfOk result (λ test. test ≡ yes self.now key.now) }
    {
        yes_in(alloc, self.rows, section_of(self.kind), key)
    }

    /// Returns the words of the values of a key.
    pub fn words(&self, alloc: Global, key: &[u8]) -> Result<Vec<&'a [u8]>, AllocError>
        ensures words { IfOk result
            (λ found. map (λ word. word.now) found.items ≡ words self.now key.now) }
    {
        words_in(alloc, self.rows, section_of(self.kind), key)
    }

    /// Returns the words that say which paths the unit needs.
    pub fn required(&self, alloc: Global) -> Result<Vec<&'a [u8]>, AllocError>
        ensures words { IfOk result
            (λ found. map (λ word. word.now) found.items
            ≡ words_in self.now.rows (codes "Unit") (codes "RequiresMountsFor")) }
    {
        words_in(alloc, self.rows, b"Unit", b"RequiresMountsFor")
    }

    /// Returns whether the unit has temporary directories of its own.
    pub fn is_private(&self) -> bool
        ensures test { result ≡ is_private self.now }
    {
        self.is_private
    }

    /// Returns whether the unit has default dependencies: what it says, and else not if it is perpetual.
    pub fn has_defaults(&self) -> bool
        ensures test { result ≡ has_defaults self.now }
    {
        self.has_defaults
    }

    /// Returns the options of a mount, each without what it is set to.
    pub fn options(&self) -> &[&'a [u8]]
        ensures options { map (λ option. option.now) result.now ≡ options self.now }
    {
        &self.options
    }

    /// Returns whether one of a mount's options is this one.
    pub fn takes(&self, option: &[u8]) -> bool
        ensures test { result ≡ takes self.now option.now }
    {
        is_among(option, &self.options)
    }
}

// Returns whether a unit of a type has temporary directories of its own.
fn is_private(alloc: Global, kind: Kind, rows: &[Row]) -> Result<bool, AllocError>
    ensures test { IfOk result
        (λ test. test
        ≡ (yes_in rows.now (section_word kind) (codes "PrivateTmp")
        || yes_in rows.now (section_word kind) (codes "DynamicUser"))) }
{
    let section = section_of(kind);
    Ok(
        yes_in(alloc, rows, section, b"PrivateTmp")?
            || yes_in(alloc, rows, section, b"DynamicUser")?,
    )
}
