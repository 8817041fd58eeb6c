//! A loaded unit.
ghost use Rattle.std.specs.{Option.{option_copied}, Prelude.{◌≡◌, IfOk}};
ghost use Rattle.unit_loads.specs.Units.{fragment_by, is_loaded_by};

use fragment_choice::Cause;
use plain_values::{Items, TryClone};
use replica_store::Place;
use section_reader::Note;
use setting_rules::{DependencyList, Row, SettingNote};
use std::alloc::AllocError;
use unit_name::UnitName;

/// What was found for a unit (systemd.unit(5), "Unit File Load Path").
#[derive(Debug, PartialEq, Eq)]
pub enum Status {
    /// The file at this place, which is the unit's fragment.
    Loaded(Place),
    /// No file, but a manager has the unit nevertheless: a device, a slice, or the root mount.
    BuiltIn,
    /// Nothing.
    NotFound,
    /// An empty file or a link to `/dev/null`.
    Masked,
    /// A link that a unit can't have, or too many aliases in a chain.
    Bad(Cause),
}

impl Drop for Status {
    fn drop(self) {
        match self {
            Status::Loaded(_) => (),
            Status::BuiltIn => (),
            Status::NotFound => (),
            Status::Masked => (),
            Status::Bad(_) => (),
        }
    }
}

impl TryClone for Status {
    fn try_clone(&self) -> Result<Status, AllocError> {
        Ok(match self {
            Status::Loaded(place) => Status::Loaded(place.try_clone()?),
            Status::BuiltIn => Status::BuiltIn,
            Status::NotFound => Status::NotFound,
            Status::Masked => Status::Masked,
            Status::Bad(cause) => Status::Bad(*cause),
        })
    }
}

impl Status {
    /// Returns whether the unit is loaded, from a file or without one.
    pub fn is_loaded(&self) -> bool
        ensures test { result ≡ is_loaded_by self.now }
    {
        match self {
            Status::Loaded(_) => true,
            Status::BuiltIn => true,
            _ => false,
        }
    }

    /// Returns the place of the unit's fragment, if it has one.
    pub fn fragment(&self) -> Option<&Place>
        ensures fragment { option_copied result ≡ fragment_by self.now }
    {
        match self {
            Status::Loaded(place) => Some(place),
            _ => None,
        }
    }
}

/// What is wrong in a unit's files, or with what they set.
#[derive(Debug, PartialEq, Eq)]
pub enum UnitNote {
    /// A fault in a line of the file at this place.
    File(Place, Note),
    /// A fault in a value, in a word of one, or in the name of a link.
    Setting(SettingNote),
}

impl Drop for UnitNote {
    fn drop(self) {
        match self {
            UnitNote::File(_, _) => (),
            UnitNote::Setting(_) => (),
        }
    }
}

impl TryClone for UnitNote {
    fn try_clone(&self) -> Result<UnitNote, AllocError> {
        Ok(match self {
            UnitNote::File(place, note) => UnitNote::File(place.try_clone()?, *note),
            UnitNote::Setting(note) => UnitNote::Setting(note.try_clone()?),
        })
    }
}

/// A unit of a store. A unit that isn't loaded has no drop-ins, values or notes, and names no other unit.
#[derive(Debug, PartialEq, Eq)]
pub struct Unit {
    /// The main name.
    pub name: UnitName,
    /// All names: the main name, and then the others in byte order.
    pub names: Items<UnitName>,
    /// Whether it is loaded, and from which place, or why it isn't.
    pub status: Status,
    /// The drop-ins, in the order of their file names.
    pub dropins: Items<Place>,
    /// The values of keys that set no dependencies, in the order of the keys.
    pub values: Items<Row>,
    /// For each kind by which a unit may name another, in the order of the kinds, the names that words and links give,
    /// and those that a manager adds, in byte order.
    pub deps: Items<DependencyList>,
    /// What is wrong with lines, file by file; then with booleans, with other values, with words, and with links.
    pub notes: Items<UnitNote>,
    /// Whether it refuses to be started by hand.
    pub manual: bool,
    /// Whether it has default dependencies; by files none has.
    pub has_defaults: bool,
    /// The mounts that it comes after where they are units, in byte order; by files none.
    pub mounts: Items<UnitName>,
}

impl Drop for Unit {
    fn drop(self) {
        let Unit {
            name: _,
            names: _,
            status: _,
            dropins: _,
            values: _,
            deps: _,
            notes: _,
            manual: _,
            has_defaults: _,
            mounts: _,
        } = self;
    }
}

/// Returns an equal unit, whose texts share their bytes. Linear in its lists.
impl TryClone for Unit {
    fn try_clone(&self) -> Result<Unit, AllocError> {
        let (name, names, status) = self.identity()?;
        let (dropins, values) = self.contents()?;
        let (deps, notes, mounts) = self.findings()?;
        Ok(Unit {
            name,
            names,
            status,
            dropins,
            values,
            deps,
            notes,
            manual: self.manual,
            has_defaults: self.has_defaults,
            mounts,
        })
    }
}

// Copies of the parts of a unit, a few at a time, so that few are given up where memory runs out.
impl Unit {
    fn identity(&self) -> Result<(UnitName, Items<UnitName>, Status), AllocError>
        ensures copies { IfOk result
            (λ copies. copies ≡ (self.now.name, self.now.names, self.now.status)) }
    {
        let name = self.name.try_clone()?;
        let names = self.names.try_clone()?;
        Ok((name, names, self.status.try_clone()?))
    }

    fn contents(&self) -> Result<(Items<Place>, Items<Row>), AllocError>
        ensures copies { IfOk result (λ copies. copies ≡ (self.now.dropins, self.now.values)) }
    {
        let dropins = self.dropins.try_clone()?;
        Ok((dropins, self.values.try_clone()?))
    }

    fn findings(
        &self,
    ) -> Result<(Items<DependencyList>, Items<UnitNote>, Items<UnitName>), AllocError>
        ensures copies { IfOk result
            (λ copies. copies ≡ (self.now.deps, self.now.notes, self.now.mounts)) }
    {
        let deps = self.deps.try_clone()?;
        let notes = self.notes.try_clone()?;
        Ok((deps, notes, self.mounts.try_clone()?))
    }
}
