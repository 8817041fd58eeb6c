//! The law of the join of many stores.
ghost use Rattle.std.specs.Prelude.{List};
ghost use Rattle.edit_sums.specs.Sums.{EntryMap};
ghost use Rattle.delta_gossip.specs.Sweeps.{join_all, IsLeastAbove};

/// The join of all stores of a list, which every replica holds after a sweep, is their least upper bound.
pub fn joins_of_all()
    ensures least { (stores : List EntryMap) → IsLeastAbove stores (join_all stores) }
{}
