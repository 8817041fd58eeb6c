//! Prints.
ghost use Rattle.std.specs.Prelude.{◌≡◌};
ghost use Rattle.range_prints.specs.Prints.{print};

use crate::place_versions::PlaceVersion;

/// Returns the print of some versions at places: the sum of theirs, modulo 2^64, of which each is a hash of the seed, the
/// version and the place.
///
/// If the hash mixes well, two lists of versions that differ have the same print for about one seed in 2^64; that isn't
/// proved. It isn't cryptographic: whoever picks places or versions and knows the seed can make prints equal. Linear.
/// Allocates nothing.
pub fn print(seed: u64, versions: &[PlaceVersion<'_>]) -> u64
    ensures print { result ≡ print seed versions.now }
{
    let mut sum = 0_u64;
    for version in versions {
        sum = sum.wrapping_add(version.print(seed));
    }
    sum
}
