//! The versions of a digest, read one by one.
ghost use Rattle.std.specs.{Option.{option_copied}, Prelude.{◌<◌, ◌≡◌, IfErr, IfOk, IfSome, OnErr}};
ghost use Rattle.load_places.specs.Places.{place_cmp};
ghost use Rattle.byte_fields.specs.Reading.{Fails, Gives};
ghost use Rattle.store_bytes.specs.{Bytes.{versions_in}, ListReading.{is_above, pair_above_at}, Reading.{place_at, version_at}};
ghost use Rattle.store_bytes.specs.Streams.{versions_begun, versions_to_come, Yields};

use crate::heads::open;
use crate::reading::{place_of, version_of};
use byte_fields::{DecodeFault, SpellingFault, number_of};
use join_law::Version;
use load_places::Place;
use std::alloc::Global;
use std::marker::Model;

/// The versions that the bytes of a digest have still to give, in place order. The bytes are borrowed.
pub struct VersionReader<'a> {
    alloc: Global,
    // How many versions follow.
    count: u64,
    // The last place.
    last: Option<Place>,
    rest: &'a [u8],
}

impl<'a> Drop for VersionReader<'a> {
    fn drop(self) {
        let VersionReader {
            alloc: _,
            count: _,
            last: _,
            rest: _,
        } = self;
    }
}

impl<'a> Model for VersionReader<'a> {
    ghost use Rattle.store_bytes.specs.Streams.{VersionsLeft};

    ghost Value = { VersionsLeft };

    ghost view = { λ d. record { count = d.count; last = d.last; rest = d.rest.now } };
}

impl<'a> VersionReader<'a> {
    // Begins to read the bytes of a digest. The faults are those of the head, the checksum and the number of versions.
    // Allocates nothing.
    pub(crate) fn open(alloc: Global, bytes: &'a [u8]) -> Result<VersionReader<'a>, DecodeFault>
        ensures all { IfOk result (λ reader. versions_to_come reader ≡ versions_in bytes.now) }
        ensures fault { IfErr result (λ e. Fails e (versions_in bytes.now)) }
    {
        VersionReader::begin(alloc, bytes)
    }

    #[tactic(auto, unfolding(crate::specs::Streams::versions_begun))]
    fn begin(alloc: Global, bytes: &'a [u8]) -> Result<VersionReader<'a>, DecodeFault>
        ensures begun { Gives (λ reader. reader) result (versions_begun bytes.now) }
    {
        let inner = open(3, bytes)?;
        let (count, rest) = number_of(inner)?;
        Ok(VersionReader {
            alloc,
            count,
            last: None,
            rest,
        })
    }

    /// Reads the next version with its place, or returns `None` after the last one. `Memory` if memory runs out, else the
    /// first fault in the bytes that are left, which then comes at each call; an error changes nothing.
    pub fn next(&mut self) -> Result<Option<(Place, Version)>, DecodeFault>
        ensures next { IfOk result
            (λ next. Yields next (versions_to_come self.old) (versions_to_come self.new)) }
        ensures fewer { IfOk result (λ next. IfSome next (λ _. self.new.count < self.old.count)) }
        ensures fault { IfErr result (λ e. Fails e (versions_to_come self.old)) }
        ensures err { OnErr result (self.new ≡ self.old) }
    {
        if self.count == 0 {
            if !self.rest.is_empty() {
                return Err(DecodeFault::Fault(SpellingFault::Trailing));
            }
            return Ok(None);
        }
        let (pair, rest) = version_above(self.alloc, self.last.as_ref(), self.rest)?;
        let last = pair.0.try_clone()?;
        self.count -= 1;
        self.last = Some(last);
        self.rest = rest;
        Ok(Some(pair))
    }
}

// Returns whether a place is above the one before it, if there is one.
fn is_place_above(last: Option<&Place>, place: &Place) -> bool
    ensures above { result ≡ is_above place_cmp (option_copied last.entry) place.now }
{
    match last {
        None => true,
        Some(last) => last.cmp(place).is_lt(),
    }
}

/// Reads the place at the start of bytes, which is above the last one, and its version, and returns both with the bytes
/// after them. `Order` if the place isn't above the last one, `Number` if the version's writer isn't below 2^32; else the
/// faults are those of `place_of`.
#[tactic(auto, unfolding(crate::specs::ListReading::pair_above_at, crate::specs::ListReading::key_above_at))]
pub fn version_above<'a>(
    alloc: Global,
    last: Option<&Place>,
    bytes: &'a [u8],
) -> Result<((Place, Version), &'a [u8]), DecodeFault>
    ensures read { Gives (λ x. (x.0, x.1.now)) result
        (pair_above_at place_cmp place_at version_at (option_copied last.entry) bytes.now) }
{
    let (place, rest) = place_of(alloc, bytes)?;
    if !is_place_above(last, &place) {
        return Err(DecodeFault::Fault(SpellingFault::Order));
    }
    let (version, rest) = version_of(rest)?;
    Ok(((place, version), rest))
}
