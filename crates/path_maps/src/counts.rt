//! Counts of what nested maps hold.
ghost use Rattle.std.specs.Prelude.{◌≡◌, ◌≤◌, length};
ghost use Rattle.edit_sums.specs.Sums.{greatest_counter};
ghost use Rattle.path_maps.specs.{Kept.{HasWellFormedPaths}, PlaceMaps.{all_listed}};

use crate::places::Entries;
use crate::stores::ScopeMap;

/// How many places are held, and the greatest counter among their entries.
#[derive(Clone, Copy)]
pub struct Counts {
    pub len: usize,
    pub high: u64,
}

/// Counts what nested maps hold. O(n). Allocates nothing.
pub fn count_entries(scopes: &ScopeMap) -> Counts
    requires paths { HasWellFormedPaths scopes.now }
    requires fits { length (all_listed scopes.now) ≤ usize.MAX }
    ensures len { result.len ≡ length (all_listed scopes.now) }
    ensures within { result.len ≤ usize.MAX }
    ensures high { result.high ≡ greatest_counter (all_listed scopes.now) }
{
    let mut entries = Entries::of_scopes(scopes);
    let mut counts = Counts { len: 0, high: 0 };
    while let Some(placed) = entries.next_entry() {
        counts.len += 1;
        counts.high = counts.high.max(placed.entry().version.counter);
    }
    counts
}
