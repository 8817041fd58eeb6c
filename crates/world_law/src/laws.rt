//! Laws of worlds, for all lists of events.
ghost use Rattle.std.specs.Prelude.{◌≡◌, ◌++◌, ℕ, None, List};
ghost use Rattle.edit_sums.specs.{declared.entries.Edit.{Edit}, Sums.{EntryMap, IsHonest, edits_of, join}};
ghost use Rattle.world_law.specs.{declared.events.Event.{Event}, Cuts.{AreToldApart, cut, digest_of}, Worlds.{EachStoreIsItsSum, EachStoreIsLeast, SameTookSameStore}, Took.{HoldsTheSum, TookByEvents}};

/// Convergence. If versions tell apart the edits that are put (no two different ones of one place have one version), each
/// node's store is the sum of what the node took, the least one above these edits, and nodes that took the same edits hold
/// the same store, at one moment or at two. `took` and `by_events` say what a node took from the events alone. The full
/// answer to one's own ask has everything that one's store lacks (`whole`). Honest edits, of which no two different ones
/// have one version at any places, are told apart (`honest`).
pub fn converges()
    ensures sums { (nodes : ℕ) (events : List Event) → EachStoreIsItsSum nodes events }
    ensures least { (nodes : ℕ) (events : List Event) → EachStoreIsLeast nodes events }
    ensures by_events { (nodes : ℕ) (events : List Event) → HoldsTheSum nodes events }
    ensures same { (nodes : ℕ) (before later : List Event) → SameTookSameStore nodes before later }
    ensures took { (nodes : ℕ) (events : List Event) → TookByEvents nodes events }
    ensures whole { (s t : EntryMap) → AreToldApart (edits_of s ++ edits_of t) →
        join s (cut t (digest_of s) None) ≡ join s t }
    ensures honest { (edits : List Edit) → IsHonest edits → AreToldApart edits }
{}
