//! The tree of a host, made from a store.
ghost use Rattle.std.specs.{Prelude.{◌≡◌, IfOk, List, map, Option, ℕ}, Option.{option_copied, option_map}};
ghost use Rattle.load_places.specs.declared.places.Scope.TheVariants.{Host};
ghost use Rattle.edit_sums.specs.Sums.{EntryMap, sum_of};
ghost use Rattle.host_trees.specs.{Reads.{edit_at_fleet, ShowsTree}, Trees.{IsTree}};

use crate::merged::MergedPaths;
use replica_store::{Content, Edit, HostName, Path, Place, Scope, Store, Version};
use std::alloc::{AllocError, Global};

// The version of all entries of a tree's store.
const VERSION: Version = Version {
    counter: 1,
    writer: 0,
};

/// Returns the tree of a host, or the tree without a host (systemd.unit(5), "Unit File Load Path"): in path order each
/// path at which the host's own place or the fleet's shows something, with what stands there. That is the first of the
/// host's own content and the fleet's which isn't passed over in the part that the path plays; where there is none, the
/// first of those that there are. `part_laws` says what is passed over.
///
/// Goes through all entries of the store twice, those of other hosts too: once for the host's own places, once for the
/// fleet's. Paths and contents share their bytes with the store. Fails only if memory runs out.
pub fn tree(
    alloc: Global,
    store: &Store,
    host: Option<&HostName>,
) -> Result<Vec<(Path, Content)>, AllocError>
    ensures tree { IfOk result (λ tree. IsTree store.now (option_copied host.entry) tree.items) }
{
    let own = own_scope(host)?;
    MergedPaths::of(store, own.as_ref())?.tree(alloc)
}

// Returns the scope of a host's own places, if there is a host.
fn own_scope(host: Option<&HostName>) -> Result<Option<Scope>, AllocError>
    ensures scope { IfOk result (λ scope. scope ≡ option_map Host (option_copied host.entry)) }
{
    match host {
        Some(host) => Ok(Some(Scope::Host(host.try_clone()?))),
        None => Ok(None),
    }
}

/// Returns a store that holds just these pairs, each at the fleet's place of its path and all under one version. So of
/// the tree of a host it makes a store that shows just that tree.
///
/// A pair that comes in path order moves nothing. Paths and contents are shared. Fails only if memory runs out.
pub fn tree_store(alloc: Global, tree: &[(Path, Content)]) -> Result<Store, AllocError>
    ensures sum { IfOk result (λ store. store ≡ sum_of (map edit_at_fleet tree.now)) }
    ensures tree { IfOk result (λ store. (s : EntryMap) (host : Option (List ℕ))
        → IsTree s host tree.now → ShowsTree store s host) }
{
    let edits = edits_at_fleet(alloc, tree)?;
    Store::from_edits(alloc, edits.as_slice())
}

// Returns the edits that write these pairs at the fleet's places.
fn edits_at_fleet(alloc: Global, tree: &[(Path, Content)]) -> Result<Vec<Edit>, AllocError>
    ensures edits { IfOk result (λ edits. edits.items ≡ map edit_at_fleet tree.now) }
{
    let mut edits = Vec::new(alloc);
    for pair in tree {
        let place = Place {
            scope: Scope::Fleet,
            path: pair.0.try_clone()?,
        };
        let content = pair.1.try_clone()?;
        edits.push(Edit {
            place,
            version: VERSION,
            content,
        })?;
    }
    Ok(edits)
}
