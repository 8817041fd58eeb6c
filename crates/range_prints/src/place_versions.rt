//! Versions of a store, borrowed.
ghost use Rattle.std.specs.{Prelude.{◌≡◌, IfOk, IsTrue}, FinMap.{is_sorted}};
ghost use Rattle.load_places.specs.Places.{place_cmp};
ghost use Rattle.range_prints.specs.{Prints.{hashed, scope_words, version_print}, Ranges.{is_below, versions_of}};

use join_law::Version;
use load_places::{Place, Scope};
use path_maps::{Placed, Store};
use std::alloc::{AllocError, Global};
use std::hash::{FoldHasher, Hasher};
use std::marker::Model;

/// The version of an entry at its place, borrowed from a store.
#[derive(Drop)]
pub struct PlaceVersion<'a> {
    placed: Placed<'a>,
}

impl<'a> Model for PlaceVersion<'a> {
    ghost use Rattle.join_law.specs.declared.versions.Version.{Version};
    ghost use Rattle.load_places.specs.Places.{PlaceParts};

    ghost Value = { PlaceParts × Version };

    ghost view = { λ v. (v.placed.0, v.placed.1.version) };
}

impl<'a> PlaceVersion<'a> {
    /// Returns the place. Fails only if memory runs out. Copies no bytes.
    pub fn place(&self) -> Result<Place, AllocError>
        ensures place { IfOk result (λ place. place ≡ self.now.0) }
    {
        self.placed.place()
    }

    /// Returns the version. Allocates nothing.
    pub fn version(&self) -> Version
        ensures version { result ≡ self.now.1 }
    {
        self.placed.entry().version
    }

    // Returns whether its place is before this one.
    pub(crate) fn is_below(&self, bound: &Place) -> bool
        ensures below { result ≡ is_below bound.now self.now.0 }
    {
        self.placed.order_of(bound).is_gt()
    }

    // Returns its print: a hash of the seed, the version and the place.
    #[tactic(auto, unfolding(crate::specs::Prints::version_print))]
    pub(crate) fn print(&self, seed: u64) -> u64
        ensures print { result ≡ version_print seed self.now }
    {
        let version = self.version();
        let mut hasher = FoldHasher::default();
        hasher.write_u64(seed);
        hasher.write_u64(version.counter);
        hasher.write_u32(version.writer);
        write_scope(&mut hasher, self.placed.scope());
        hasher.write_u8(self.placed.rank());
        hasher.write(self.placed.folder().as_slice());
        hasher.write(self.placed.name().as_slice());
        hasher.finish()
    }
}

// Feeds the scope to a hash: whether it is a host's, and its name.
fn write_scope(hasher: &mut FoldHasher, scope: &Scope)
    ensures fed { hasher.new ≡ hashed hasher.old (scope_words scope.now) }
{
    match scope {
        Scope::Fleet => {
            hasher.write_u8(0);
            hasher.write(b"");
        }
        Scope::Host(host) => {
            hasher.write_u8(1);
            hasher.write(host.bytes());
        }
    }
}

/// Returns the versions of all entries of a store, removals included, in place order. One pass. Fails only if memory runs
/// out. Copies nothing.
pub fn versions<'a>(alloc: Global, store: &'a Store) -> Result<Vec<PlaceVersion<'a>>, AllocError>
    ensures versions { IfOk result (λ versions. versions.items ≡ versions_of store.now) }
    ensures sorted { IfOk result (λ versions. IsTrue (is_sorted place_cmp versions.items)) }
{
    let mut versions = Vec::with_capacity(alloc, store.len())?;
    let mut entries = store.entries();
    while let Some(placed) = entries.next_entry() {
        versions.push(PlaceVersion { placed })?;
    }
    Ok(versions)
}
