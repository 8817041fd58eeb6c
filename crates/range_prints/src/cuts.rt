//! Parts of ranges.
ghost use Rattle.std.specs.{Prelude.{◌≡◌, ◌<◌, ◌≤◌, All, drop, IfOk, IsTrue, length, true}, FinMap.{is_sorted}};
ghost use Rattle.load_places.specs.Places.{place_cmp};
ghost use Rattle.range_prints.specs.Ranges.{ArePartsOf, is_within};

use crate::place_versions::PlaceVersion;
use crate::ranges::Range;
use load_places::Place;
use std::alloc::{AllocError, Global};

/// Cuts a range into at most `count` parts, of which each but the last has as many of these versions, which are in the
/// range in place order. The bounds between parts are places of versions. A range without versions, or with a single one, is
/// its only part.
///
/// Copies a place for each bound; copies share their bytes. Fails only if memory runs out.
pub fn parts(
    alloc: Global,
    range: Range,
    versions: &[PlaceVersion<'_>],
    count: usize,
) -> Result<Vec<Range>, AllocError>
    requires sorted { IsTrue (is_sorted place_cmp versions.now) }
    requires within { All (λ v. is_within range v.0 ≡ true) versions.now }
    requires some { 0 < count }
    ensures parts { IfOk result (λ parts. ArePartsOf range parts.items) }
    ensures few { IfOk result (λ parts. length parts.items ≤ count) }
    ensures several { IfOk result
        (λ parts. 1 < count → 1 < length versions.now → 1 < length parts.items) }
{
    let share = versions.len().div_ceil(count).max(1);
    let (mut from, last) = range.into_bounds();
    let mut parts = Vec::new(alloc);
    let mut left = after(versions, share);
    while let Some((next, _)) = left.split_first() {
        let until = Some(next.place()?);
        parts.push(Range { from, until })?;
        from = Some(next.place()?);
        left = after(left, share);
    }
    parts.push(Range { from, until: last })?;
    Ok(parts)
}

// The versions after so many.
fn after<'s, 'a>(versions: &'s [PlaceVersion<'a>], count: usize) -> &'s [PlaceVersion<'a>]
    ensures after { result.now ≡ drop count versions.now }
{
    &versions[count.min(versions.len())..]
}
