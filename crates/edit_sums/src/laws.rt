//! Laws of sums and joins, for all lists of edits and all stores.
ghost use Rattle.std.specs.Prelude.{◌≡◌, ◌↔◌, ◌++◌, List};
ghost use Rattle.list_laws.specs.Members.{IsAmong};
ghost use Rattle.edit_sums.specs.{declared.entries.Edit.{Edit}, Sums.{EntryMap, IsAboveEdits, IsSum, IsStoreBelow, sum_of, join, high_of, high_among}, WinnerLaws.{CountersDecide, WritersDecide, SortsDecide}};

/// The sum of edits holds at each place the greatest edit there, and nothing else: it depends only on the set of edits. The
/// greater counter wins, then the greater writer, then a file before a link before a removal. Stores are ordered, and the
/// join is their least upper bound: that of two sums is the sum of both lists.
pub fn sum_laws()
    ensures sum { (es : List Edit) → IsSum es (sum_of es) }
    ensures members { (xs ys : List Edit) → ((e : Edit) → IsAmong e xs → IsAmong e ys)
        → ((e : Edit) → IsAmong e ys → IsAmong e xs) → sum_of xs ≡ sum_of ys }
    ensures above { (es : List Edit) (s : EntryMap) → IsStoreBelow (sum_of es) s
        ↔ IsAboveEdits es s }
    ensures append { (xs ys : List Edit) → sum_of (xs ++ ys) ≡ join (sum_of xs) (sum_of ys) }
    ensures counters { CountersDecide }
    ensures writers { WritersDecide }
    ensures sorts { SortsDecide }
    ensures high { (es : List Edit) → high_of (sum_of es) ≡ high_among es }
{}

/// `IsStoreBelow` is a partial order, and the join of two stores is their least upper bound, commutative, associative and
/// idempotent.
pub fn joins_of_stores()
    ensures reflexive { (s : EntryMap) → IsStoreBelow s s }
    ensures transitive { (s t u : EntryMap) → IsStoreBelow s t → IsStoreBelow t u
        → IsStoreBelow s u }
    ensures antisymmetric { (s t : EntryMap) → IsStoreBelow s t → IsStoreBelow t s → s ≡ t }
    ensures left { (s t : EntryMap) → IsStoreBelow s (join s t) }
    ensures right { (s t : EntryMap) → IsStoreBelow t (join s t) }
    ensures least { (s t u : EntryMap) → IsStoreBelow s u → IsStoreBelow t u
        → IsStoreBelow (join s t) u }
    ensures commutative { (s t : EntryMap) → join s t ≡ join t s }
    ensures associative { (s t u : EntryMap) → join (join s t) u ≡ join s (join t u) }
    ensures idempotent { (s : EntryMap) → join s s ≡ s }
{}
