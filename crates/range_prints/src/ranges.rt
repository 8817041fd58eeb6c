//! Ranges.
ghost use Rattle.std.specs.{Prelude.{◌≡◌, ◌≤◌, All, drop, IfOk, IsTrue, length, not, take, true}, FinMap.{is_sorted}};
ghost use Rattle.load_places.specs.Places.{place_cmp};
ghost use Rattle.range_prints.specs.Ranges.{everything, is_below, is_before, is_within, those, within};

use crate::place_versions::PlaceVersion;
use load_places::Place;
use std::alloc::AllocError;

/// A range of places, in place order.
#[derive(Debug)]
pub struct Range {
    /// The first place that may be in it. Without one it begins at the first of all.
    pub from: Option<Place>,
    /// The first place behind it. Without one it ends behind the last of all.
    pub until: Option<Place>,
}

impl Drop for Range {
    fn drop(self) {
        let Range { from: _, until: _ } = self;
    }
}

impl Range {
    /// Returns the range of all places. Allocates nothing.
    pub fn everything() -> Range
        ensures all { result ≡ everything }
    {
        Range {
            from: None,
            until: None,
        }
    }

    /// Takes the range apart: its lower bound and its upper one.
    pub fn into_bounds(self) -> (Option<Place>, Option<Place>)
        ensures from { result.0 ≡ self.from }
        ensures until { result.1 ≡ self.until }
    {
        let Range { from, until } = self;
        (from, until)
    }
}

// How many versions are at places before this one.
fn count_below(versions: &[PlaceVersion<'_>], place: &Place) -> usize
    requires sorted { IsTrue (is_sorted place_cmp versions.now) }
    ensures most { result ≤ length versions.now }
    ensures below { take result versions.now ≡ those (is_below place.now) versions.now }
    ensures others { drop result versions.now
        ≡ those (λ p. not (is_below place.now p)) versions.now }
{
    versions.partition_point(|version| version.is_below(place))
}

// The versions before an upper bound.
fn before<'s, 'a>(versions: &'s [PlaceVersion<'a>], until: &Option<Place>) -> &'s [PlaceVersion<'a>]
    requires sorted { IsTrue (is_sorted place_cmp versions.now) }
    ensures before { result.now ≡ those (is_before until.now) versions.now }
    ensures sorted { IsTrue (is_sorted place_cmp result.now) }
{
    match until {
        None => versions,
        Some(place) => &versions[..count_below(versions, place)],
    }
}

/// Returns of these versions, in place order, those whose places are in the range. O(log n). Allocates nothing.
pub fn within<'s, 'a>(versions: &'s [PlaceVersion<'a>], range: &Range) -> &'s [PlaceVersion<'a>]
    requires sorted { IsTrue (is_sorted place_cmp versions.now) }
    ensures within { result.now ≡ within range.now versions.now }
    ensures sorted { IsTrue (is_sorted place_cmp result.now) }
    ensures inside { All (λ v. is_within range.now v.0 ≡ true) result.now }
{
    let before = before(versions, &range.until);
    match &range.from {
        None => before,
        Some(place) => &before[count_below(before, place)..],
    }
}
