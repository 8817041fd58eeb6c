//! The end of a unit's aliases.
ghost use Rattle.std.specs.{Prelude.{◌≡◌, IfOk}};
ghost use Rattle.path_maps.specs.HostViews.{host_view_of};
ghost use Rattle.fragment_choice.specs.Resolutions.{IsEnd, Resolves, resolution};

use crate::aliases::AliasIndex;
use crate::choices::{Cause, Choice, Chooses};
use replica_store::{Store, Viewer};
use std::alloc::{AllocError, Global};
use unit_name::UnitName;

/// A unit's main name and its choice, which is never an alias.
#[derive(Debug, Drop)]
pub struct Resolution {
    pub main: UnitName,
    pub choice: Choice,
}

/// Follows a name's aliases, at most eight of them, as a host sees them or as they are seen without a host
/// (systemd.unit(5), "Description"). The main name is the first one that isn't an alias, even if it isn't found, is
/// masked or has a bad link. If more than eight aliases follow, the main name is the name itself, with the choice
/// `Bad(Loop)`.
///
/// Makes at most nine choices. Fails only if memory runs out.
pub fn resolve(
    alloc: Global,
    store: &Store,
    viewer: &Viewer,
    name: &UnitName,
) -> Result<Resolution, AllocError>
    ensures resolution { IfOk result
        (λ it. it ≡ resolution (host_view_of store.now viewer.now) name.now) }
    ensures chain { IfOk result (Resolves (host_view_of store.now viewer.now) name.now) }
    ensures no_alias { IfOk result (λ it. IsEnd it.choice) }
{
    follow_aliases(alloc, &store.host_view(viewer), name)
}

impl<'a> AliasIndex<'a> {
    /// Follows a name's aliases in the index's store, as the function `resolve` does.
    ///
    /// Makes as many choices, but what a name's own links make it an alias of comes from the index, without asking the
    /// store. Fails only if memory runs out.
    pub fn resolve(&self, alloc: Global, name: &UnitName) -> Result<Resolution, AllocError>
        ensures resolution { IfOk result (λ it. it ≡ resolution self.now name.now) }
        ensures chain { IfOk result (Resolves self.now name.now) }
        ensures no_alias { IfOk result (λ it. IsEnd it.choice) }
    {
        follow_aliases(alloc, self, name)
    }
}

// Follows a name's aliases, with choices by `chooser`.
fn follow_aliases<C: Chooses>(
    alloc: Global,
    chooser: &C,
    name: &UnitName,
) -> Result<Resolution, AllocError>
    ensures resolution { IfOk result (λ it. it ≡ resolution (C.in_view chooser.now) name.now) }
    ensures chain { IfOk result (Resolves (C.in_view chooser.now) name.now) }
    ensures no_alias { IfOk result (λ it. IsEnd it.choice) }
{
    let mut main = name.try_clone()?;
    for step in 0..9u8 {
        match chooser.choose(alloc, &main)? {
            Choice::Alias(alias) => main = alias,
            choice => return Ok(Resolution { main, choice }),
        }
    }
    Ok(Resolution {
        main: name.try_clone()?,
        choice: Choice::Bad(Cause::Loop),
    })
}
