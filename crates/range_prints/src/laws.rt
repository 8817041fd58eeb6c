//! Laws of ranges and prints.
ghost use Rattle.std.specs.Prelude.{◌≡◌, ◌++◌, ◌+◌, ◌%◌, ◌^◌, ◌<◌, List, ℕ};
ghost use Rattle.edit_sums.specs.Sums.{EntryMap};
ghost use Rattle.join_law.specs.declared.versions.Version.{Version};
ghost use Rattle.load_places.specs.Places.{PlaceParts};
ghost use Rattle.range_prints.specs.{Asked.{IsSameCut}, Prints.{print}, declared.ranges.Range.{Range}};

/// A print is the sum of those of parts, modulo 2^64, whatever the parts (`sum`), and is below that (`bits`). At places of
/// a range the same piece is cut for the part of an ask that the range has as for the whole ask (`same_cut`): so an ask that
/// is told of a range alone is an ask of the world.
pub fn range_laws()
    ensures sum { (seed : ℕ) (vs ws : List (PlaceParts × Version))
        → print seed (vs ++ ws) ≡ (print seed vs + print seed ws) % 2 ^ 64 }
    ensures bits { (seed : ℕ) (vs : List (PlaceParts × Version)) → print seed vs < 2 ^ 64 }
    ensures same_cut { (range : Range) (s t : EntryMap) (places : List PlaceParts)
        → IsSameCut range s t places }
{}
