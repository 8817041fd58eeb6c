//! Prints of a peer, compared with one's own.
ghost use Rattle.std.specs.{Prelude.{◌≡◌, ◌∷◌, [], All, IfOk, IsTrue, map}, FinMap.{is_sorted}};
ghost use Rattle.load_places.specs.Places.{place_cmp};
ghost use Rattle.range_prints.specs.{Prints.{print}, Ranges.{within}};
ghost use Rattle.exchange_session.specs.Answered.{own_ask};
ghost use Rattle.exchange_session.specs.Told.{IsOwnAsk, IsOwnPrint, IsPursued, own_print, StaysUnequal};

use crate::messages::{RangeAsk, RangePrint};
use delta_pieces::Digest;
use join_law::Version;
use load_places::Place;
use range_prints::{PlaceVersion, Range, parts, print, within};
use std::alloc::{AllocError, Global};

// The most versions in a range that are told one by one.
const FEW: usize = 4;

// The most parts into which a range is cut.
const PARTS: usize = 4;

/// What is told and asked of ranges in which prints are unequal.
pub struct Compared {
    pub prints: Vec<RangePrint>,
    pub asks: Vec<RangeAsk>,
}

impl Drop for Compared {
    fn drop(self) {
        let Compared { prints: _, asks: _ } = self;
    }
}

impl Compared {
    /// Takes it apart.
    pub fn into_parts(self) -> (Vec<RangePrint>, Vec<RangeAsk>)
        ensures prints { result.0 ≡ self.prints }
        ensures asks { result.1 ≡ self.asks }
    {
        let Compared { prints, asks } = self;
        (prints, asks)
    }

    // Returns what is told of equal prints: nothing.
    fn none(alloc: Global) -> Compared
        ensures prints { result.prints.items ≡ [] }
        ensures asks { result.asks.items ≡ [] }
    {
        Compared {
            prints: Vec::new(alloc),
            asks: Vec::new(alloc),
        }
    }
}

/// Returns the ask for a range: all of these versions that are in it.
pub fn ask_for(
    alloc: Global,
    own: &[PlaceVersion<'_>],
    range: Range,
) -> Result<RangeAsk, AllocError>
    requires sorted { IsTrue (is_sorted place_cmp own.now) }
    ensures ask { IfOk result (λ ask. ask ≡ own_ask own.now range) }
{
    let versions = Digest::from_versions(owned(alloc, within(own, &range))?);
    Ok(RangeAsk { range, versions })
}

// Returns these versions at places of their own. Copies no bytes.
fn owned(alloc: Global, versions: &[PlaceVersion<'_>]) -> Result<Vec<(Place, Version)>, AllocError>
    ensures versions { IfOk result (λ owned. owned.items ≡ versions.now) }
{
    let mut owned = Vec::with_capacity(alloc, versions.len())?;
    for version in versions {
        owned.push((version.place()?, version.version()))?;
    }
    Ok(owned)
}

/// Returns the print of each range.
pub fn prints_of(
    alloc: Global,
    seed: u64,
    own: &[PlaceVersion<'_>],
    ranges: Vec<Range>,
) -> Result<Vec<RangePrint>, AllocError>
    requires sorted { IsTrue (is_sorted place_cmp own.now) }
    ensures prints { IfOk result
        (λ prints. prints.items ≡ map (own_print seed own.now) ranges.items) }
{
    let mut prints = Vec::with_capacity(alloc, ranges.len())?;
    for range in ranges {
        let print = print(seed, within(own, &range));
        prints.push(RangePrint { range, print })?;
    }
    Ok(prints)
}

/// Compares a print of a peer with that of one's own versions. Where they are unequal, the range is asked for if few
/// versions are in it, and else cut into parts, of which the prints are told.
pub fn compare(
    alloc: Global,
    seed: u64,
    own: &[PlaceVersion<'_>],
    told: RangePrint,
) -> Result<Compared, AllocError>
    requires sorted { IsTrue (is_sorted place_cmp own.now) }
    ensures prints { IfOk result (λ compared. All (IsOwnPrint seed own.now) compared.prints.items) }
    ensures asks { IfOk result (λ compared. All (IsOwnAsk own.now) compared.asks.items) }
    ensures covered { IfOk result
        (λ compared. IsPursued seed own.now compared.prints.items compared.asks.items told) }
    ensures agreed { IfOk result (λ compared. IsOwnPrint seed own.now told →
        (compared.prints.items ≡ []) × (compared.asks.items ≡ [])) }
    ensures stays { IfOk result
        (λ compared. StaysUnequal seed own.now
        (told ∷ []) compared.prints.items compared.asks.items) }
{
    let mut compared = Compared::none(alloc);
    let here = within(own, &told.range);
    if print(seed, here) == told.print {
        return Ok(compared);
    }
    if here.len() <= FEW {
        compared.asks.push(ask_for(alloc, own, told.into_range())?)?;
        return Ok(compared);
    }
    let ranges = parts(alloc, told.into_range(), here, PARTS)?;
    compared.prints = prints_of(alloc, seed, own, ranges)?;
    Ok(compared)
}

/// Compares all prints of a peer with those of one's own versions.
pub fn compare_all(
    alloc: Global,
    seed: u64,
    own: &[PlaceVersion<'_>],
    told: Vec<RangePrint>,
) -> Result<Compared, AllocError>
    requires sorted { IsTrue (is_sorted place_cmp own.now) }
    ensures prints { IfOk result (λ compared. All (IsOwnPrint seed own.now) compared.prints.items) }
    ensures asks { IfOk result (λ compared. All (IsOwnAsk own.now) compared.asks.items) }
    ensures covered { IfOk result
        (λ compared. All
        (IsPursued seed own.now compared.prints.items compared.asks.items) told.items) }
    ensures agreed { IfOk result (λ compared. All (IsOwnPrint seed own.now) told.items →
        (compared.prints.items ≡ []) × (compared.asks.items ≡ [])) }
    ensures stays { IfOk result
        (λ compared.
        StaysUnequal seed own.now told.items compared.prints.items compared.asks.items) }
{
    let mut all = Compared::none(alloc);
    for print in told {
        let mut compared = compare(alloc, seed, own, print)?;
        all.prints.append(&mut compared.prints)?;
        all.asks.append(&mut compared.asks)?;
    }
    Ok(all)
}
