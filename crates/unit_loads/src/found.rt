//! What a loaded unit has besides its names.
ghost use Rattle.std.specs.{Option.{option_copied}, Prelude.{◌≡◌, IfOk}};
ghost use Rattle.unit_loads.specs.{Steps.{EvaluatesTo, unit_of_parts}, Units.{HasSettings}};

use crate::effective::EffectiveSettings;
use crate::files::UnitText;
use crate::links::LinkNames;
use crate::units::{Status, Unit};
use dropins::{UnitFolders, places_of};
use plain_values::Items;
use replica_store::{HostView, HostViewEntry, Place};
use std::alloc::{AllocError, Global};
use unit_name::UnitName;

/// The drop-ins of a loaded unit, and the effective settings of its files and links, with what a manager adds.
#[derive(Drop)]
pub(crate) struct UnitParts {
    /// The drop-ins, in the order of their file names.
    pub dropins: Items<Place>,
    /// The effective settings of the fragment, the drop-ins and the links.
    pub effective: EffectiveSettings,
}

impl UnitParts {
    /// Loads the drop-ins and settings of the unit with these names and this fragment, if it has one, by the profile of
    /// the view. Its folders are listed once, for drop-ins and for links. Fails only if memory runs out.
    pub fn of(
        alloc: Global,
        view: &HostView,
        name: &UnitName,
        names: &[UnitName],
        fragment: Option<&Place>,
    ) -> Result<UnitParts, AllocError>
        ensures settings { IfOk result
            (λ found. (status : Status)
            → HasSettings view.now (option_copied fragment.entry)
            (unit_of_parts name.now names.now status found)) }
    {
        let folders = UnitFolders::of(alloc, names)?;
        let dropins = folders.drop_ins(alloc, view)?;
        let links = LinkNames::of(alloc, view, &folders)?;
        Self::of_files(alloc, view, name, fragment, &dropins, links)
    }

    /// Returns the unit with these names, this status, and these drop-ins and settings.
    pub fn into_unit(self, name: UnitName, names: Vec<UnitName>, status: Status) -> Unit
        ensures unit { result ≡ unit_of_parts name names.items status self }
    {
        let UnitParts { dropins, effective } = self;
        Unit {
            name,
            names: Items::from_vec(names),
            status,
            dropins,
            values: effective.values,
            deps: effective.deps,
            notes: effective.notes,
            manual: effective.manual,
            has_defaults: effective.has_defaults,
            mounts: effective.mounts,
        }
    }

    // Evaluates these drop-ins and links of the unit.
    fn of_files(
        alloc: Global,
        view: &HostView,
        name: &UnitName,
        fragment: Option<&Place>,
        dropins: &[HostViewEntry],
        links: LinkNames,
    ) -> Result<UnitParts, AllocError>
        ensures found { IfOk result
            (EvaluatesTo view.now (option_copied fragment.entry) dropins.now name.now links) }
    {
        let text = UnitText::of(alloc, view, fragment, dropins)?;
        let effective = EffectiveSettings::of(alloc, view.profile(), name, text, links)?;
        let dropins = places_of(alloc, view, dropins)?;
        Ok(UnitParts {
            dropins: Items::from_vec(dropins),
            effective,
        })
    }
}
