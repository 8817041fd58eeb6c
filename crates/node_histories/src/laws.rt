//! Laws of histories.
ghost use Rattle.std.specs.Prelude.{◌≡◌, ◌≢◌, ℕ, List, ◌∷◌, ◌++◌, Some, slice_get};
ghost use Rattle.edit_sums.specs.declared.entries.Edit.{Edit};
ghost use Rattle.replica_store.specs.Replicas.{Replicated};
ghost use Rattle.world_law.specs.Worlds.{after, blank};
ghost use Rattle.node_histories.specs.{declared.events.HistoryEvent.{HistoryEvent}, declared.events.HistoryEvent.TheVariants.{Edited}, Histories.{IsLegal, IsAbove, all_edits, store_of}, HistoryWorlds.{world_of, nodes_of}};

/// In a valid history each of the node's edits has a counter greater than those of all edits before it, so edits of nodes
/// with different numbers have different versions. Each history is an execution: its node 0 puts each edit of the history
/// and is given each piece, in order; it took the edits of the history, and holds the store that the history gives.
pub fn history_laws()
    ensures above { (start : Replicated) (before after : List HistoryEvent) (seat : ℕ) (e : Edit)
        → IsLegal start (before ++ Edited seat e ∷ after)
        → IsAbove start.writer (all_edits before) e }
    ensures apart { (r q : Replicated) (before after : List HistoryEvent) (seat : ℕ) (e : Edit)
        (others later : List HistoryEvent) (other : ℕ) (f : Edit)
        → IsLegal r (before ++ Edited seat e ∷ after) → IsLegal q (others ++ Edited other f ∷ later)
        → r.writer ≢ q.writer → e.version ≢ f.version }
    ensures stands { (h : List HistoryEvent)
        → slice_get (after (world_of h) (blank (nodes_of h))).nodes 0
        ≡ Some (record { store = store_of h; took = all_edits h }) }
{}
