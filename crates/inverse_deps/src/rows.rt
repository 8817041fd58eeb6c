//! The dependencies of each unit by index: what it names, and for a manager what it and another unit make.
ghost use Rattle.std.specs.Prelude.{◌≡◌, IfOk};
ghost use Rattle.inverse_deps.specs.{Dependencies.{NamesUnit}, Edges.{DependsOn}, Rows.{AreRowsBy}};

use crate::following::with_following;
use crate::mounts::given_rows;
use parallel_load::{Dependency, Loaded};
use plain_values::{Items, Shared, append_copies};
use profiles::Profile;
use std::alloc::{AllocError, Global};

// For each name of a load, in byte order, the dependencies of its unit by the load's profile; none of an alias. A row to
// which nothing is added is shared with the load. O((n + m) log n), for n names with m dependencies and mounts.
pub(crate) fn rows_of(
    alloc: Global,
    loaded: &Loaded,
) -> Result<Vec<Shared<Items<Dependency>>>, AllocError>
    ensures rows { IfOk result (λ rows. AreRowsBy loaded.now (DependsOn loaded.now) rows.items) }
{
    match loaded.viewer().profile {
        Profile::Files => own_rows(alloc, loaded),
        Profile::Manager => {
            let given = given_rows(alloc, loaded)?;
            with_following(alloc, loaded, &given)
        }
    }
}

// What each unit names.
fn own_rows(alloc: Global, loaded: &Loaded) -> Result<Vec<Shared<Items<Dependency>>>, AllocError>
    ensures rows { IfOk result
        (λ rows. AreRowsBy loaded.now (NamesUnit loaded.now.names) rows.items) }
{
    let mut rows = Vec::with_capacity(alloc, loaded.names().len())?;
    append_copies(&mut rows, loaded.dependencies())?;
    Ok(rows)
}
