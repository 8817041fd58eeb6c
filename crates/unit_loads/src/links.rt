//! The names that a unit's link folders give.
ghost use Rattle.std.specs.Prelude.{IfOk};
ghost use Rattle.unit_loads.specs.Steps.{AreLinkNamesFrom};

use dropins::{Folder, UnitFolders};
use plain_values::Items;
use replica_store::HostView;
use std::alloc::{AllocError, Global};
use unit_name::UnitName;

/// Names for the two kinds of dependencies to which link folders add.
#[derive(Drop)]
pub(crate) struct LinkNames {
    /// From folders that end in `.wants`.
    pub wanted: Items<UnitName>,
    /// From folders that end in `.requires`.
    pub required: Items<UnitName>,
}

impl LinkNames {
    /// Returns the names that the link folders of a unit with these folders give. Fails only if memory runs out.
    pub fn of(
        alloc: Global,
        view: &HostView,
        folders: &UnitFolders,
    ) -> Result<LinkNames, AllocError>
        ensures links { IfOk result (AreLinkNamesFrom view.now folders.now) }
    {
        let wanted = folders.links(alloc, view, Folder::Wants)?;
        let required = folders.links(alloc, view, Folder::Requires)?;
        Ok(LinkNames {
            wanted: Items::from_vec(wanted),
            required: Items::from_vec(required),
        })
    }
}
