//! The input of planning over indexed units.
ghost use Rattle.std.specs.Prelude.{◌≡◌, ◌<◌, length};
ghost use Rattle.index_rows.specs.{Adjacency.{AreAdjacencyOf, AreTransposed, neighbors as neighbors_of}, Successors.{AreOpposite, AreSuccessorsOf, successors_from}};

use index_rows::{AdjacencyLists, Successors};
use profiles::Profile;

/// What is known of units given by indices from 0, and the target. Each vector has one element for each unit. The
/// adjacency lists are borrowed; they have units in any order, possibly repeated.
#[derive(Drop)]
pub struct IndexedCase<'a> {
    /// By which rules it is planned.
    pub profile: Profile,
    pub target: usize,
    pub loaded: Vec<bool>,
    pub refuses_manual_start: Vec<bool>,
    pub running: Vec<bool>,
    /// The units that always run, and never stop.
    pub perpetual: Vec<bool>,
    /// What each unit requires or binds to.
    pub needs: Successors<'a>,
    /// What requires each unit or binds to it.
    pub needed_by: Successors<'a>,
    pub wants: Successors<'a>,
    pub requisites: Successors<'a>,
    /// What each unit's own settings conflict with.
    pub conflicts: &'a AdjacencyLists,
    /// The units whose own settings conflict with each unit.
    pub conflicted_by: &'a AdjacencyLists,
    /// What is to start before each unit.
    pub predecessors: &'a AdjacencyLists,
    /// What is to start after each unit.
    pub successors: &'a AdjacencyLists,
    /// What each unit requires, has as requisite, binds to or is part of.
    pub stops_with: Successors<'a>,
    /// What requires each unit, has it as requisite, binds to it or is part of it.
    pub takes_along: Successors<'a>,
    pub ghost valid_target: { target < length loaded.items },
    pub ghost valid_refuses: { length refuses_manual_start.items ≡ length loaded.items },
    pub ghost valid_running: { length running.items ≡ length loaded.items },
    pub ghost valid_perpetual: { length perpetual.items ≡ length loaded.items },
    pub ghost valid_needs: { AreSuccessorsOf (length loaded.items) needs },
    pub ghost valid_needed_by: { AreSuccessorsOf (length loaded.items) needed_by },
    pub ghost valid_wants: { AreSuccessorsOf (length loaded.items) wants },
    pub ghost valid_requisites: { AreSuccessorsOf (length loaded.items) requisites },
    pub ghost valid_conflicts: { AreAdjacencyOf (length loaded.items) conflicts.now },
    pub ghost valid_conflicted_by: { AreAdjacencyOf (length loaded.items) conflicted_by.now },
    pub ghost valid_predecessors: { AreAdjacencyOf (length loaded.items) predecessors.now },
    pub ghost valid_successors: { AreAdjacencyOf (length loaded.items) successors.now },
    pub ghost valid_takes: { AreSuccessorsOf (length loaded.items) takes_along },
    pub ghost needs_transposed: { AreOpposite (successors_from needs) (successors_from needed_by) },
    pub ghost conflicts_transposed: { AreOpposite (neighbors_of conflicts.now)
        (neighbors_of conflicted_by.now) },
    pub ghost predecessors_transposed: { AreTransposed predecessors.now successors.now },
    pub ghost stops_transposed: { AreOpposite (successors_from stops_with)
        (successors_from takes_along) },
}
