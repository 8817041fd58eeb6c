//! Look-ups by borrowed bytes: no owned key is built for the search.
ghost use Rattle.std.specs.{Prelude.{◌≡◌, [], Some, None, IsTrue, MatchOption}, Option.{option_copied}};
ghost use Rattle.std.specs.{Ordering.{nat_cmp}, FinMap.{find, is_sorted}};
ghost use Rattle.join_law.specs.Maps.{or_empty};
ghost use Rattle.load_places.specs.{Places.{scope_cmp}, declared.places.Scope.TheVariants.{Host}};
ghost use Rattle.path_maps.specs.PathMaps.{bytes_cmp};

use crate::folders::NameMap;
use crate::stores::{RankMap, ScopeMap};
use join_law::Join;
use join_maps::{JoinMap, Pairs, Sought};
use load_places::{HostName, Scope};
use plain_values::{Bytes, order};
use std::cmp::Ordering;

// Borrowed bytes that are looked for among owned keys.
#[derive(Drop)]
struct SoughtBytes<'a> {
    bytes: &'a [u8],
}

impl<'a> Sought<Bytes> for SoughtBytes<'a> {
    ghost key = { λ s. s.bytes.now };

    #[inline(always)]
    fn order(&self, held: &Bytes) -> Ordering {
        order(held.as_slice(), self.bytes)
    }
}

// A host's name that is looked for among scopes.
#[derive(Drop)]
struct SoughtHost<'a> {
    host: &'a HostName,
}

impl<'a> Sought<Scope> for SoughtHost<'a> {
    ghost use Rattle.load_places.specs.declared.places.Scope.TheVariants.{Host};

    ghost key = { λ s. Host s.host.now };

    #[inline(always)]
    fn order(&self, held: &Scope) -> Ordering {
        held.cmp_host(self.host)
    }
}

// Returns the pair with the empty key, which is the first of all keys. O(1). Allocates nothing.
fn unnamed_pair<'a, V>(mut pairs: Pairs<'a, Bytes, V>) -> Option<&'a (Bytes, V)>
    requires sorted { IsTrue (is_sorted bytes_cmp pairs) }
    ensures found { MatchOption result (find bytes_cmp [] pairs.entry ≡ None)
        (λ pair. (pair.now.0 ≡ []) × (find bytes_cmp [] pairs.entry ≡ Some pair.now.1)) }
{
    let first = pairs.next()?;
    if first.0.as_slice().is_empty() {
        Some(first)
    } else {
        None
    }
}

// Returns the pair with this key. O(log n). Allocates nothing.
pub fn pair_at<'a, V: Join>(map: &'a JoinMap<Bytes, V>, key: &[u8]) -> Option<&'a (Bytes, V)>
    ensures found { MatchOption result (find bytes_cmp key.now map.now ≡ None)
        (λ pair. (pair.now.0 ≡ key.now) × (find bytes_cmp key.now map.now ≡ Some pair.now.1)) }
{
    if key.is_empty() {
        return unnamed_pair(map.pairs());
    }
    map.find(&SoughtBytes { bytes: key })
}

// Returns the folder with this name in the directory of a rank, and the names in it; `None` also where `ranks` is
// `None`. O(log n). Allocates nothing.
pub fn folder_at<'a>(
    ranks: Option<&'a RankMap>,
    rank: u8,
    folder: &[u8],
) -> Option<(&'a Bytes, &'a NameMap)>
    ensures found { MatchOption result
        (find bytes_cmp folder.now
        (or_empty (find nat_cmp rank (or_empty (option_copied ranks.entry)))) ≡ None)
        (λ pair. (pair.0.now ≡ folder.now)
        × (find bytes_cmp folder.now
        (or_empty (find nat_cmp rank (or_empty (option_copied ranks.entry)))) ≡ Some pair.1.now)) }
{
    let folders = ranks?.get(&rank)?;
    let (folder, names) = pair_at(folders.map(), folder)?;
    Some((folder, names))
}

// Returns what a host has for itself, if it has anything. O(log n). Allocates nothing.
pub fn host_at<'a>(scopes: &'a ScopeMap, host: &HostName) -> Option<&'a RankMap>
    ensures ranks { option_copied result ≡ find scope_cmp (Host host.now) scopes.now }
{
    let (_, ranks) = scopes.find(&SoughtHost { host })?;
    Some(ranks)
}
