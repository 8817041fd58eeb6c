//! Finds the drop-ins of units and the dependencies that their link folders add (systemd.unit(5), "Description"). Of
//! all entries with the same file name in a unit's folders, at most one is taken.
//!
//! Promise: units are exact.
//!
//! A unit's drop-ins are in the folders of its names: `NAME.d`, the same for the template of an instance, and the same
//! for each prefix that is cut after a dash. Folders with these names and `.wants` or `.requires` in place of `.d` have
//! links to units that the unit depends on. Only if no folder of a name has a drop-in with some file name, the folder
//! of the unit's type, such as `service.d`, decides for this file name.
//!
//! - `folders` and `UnitFolders`: the folders of a unit, listed once for its drop-ins and its links.
//! - `order` and `UnitFolders::drop_ins`: the drop-ins of a unit; `places_of`: the places of seen entries.
//! - `links` and `UnitFolders::links`: the units that the link folders of a unit give; `UnitFolders::link_entries`: the
//!   links themselves; `Folder`: the two kinds of link folder.
//! - `name_dirs` and `type_dirs`: the names of folders with an ending.
//! - `drop_in_laws` and `folder_laws`: what the definitions imply.
#![tactic(auto)]

mod dirs;
mod folder_lists;
mod laws;
mod precedence;

pub use dirs::{name_dirs, type_dirs};
pub use folder_lists::{Folder, UnitFolders, folders, links, order, places_of};
pub use laws::{drop_in_laws, folder_laws};
