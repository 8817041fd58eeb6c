//! Commands between nodes, which bring to one node what another holds.
ghost use Rattle.std.specs.Prelude.{◌≡◌, ◌<◌, ◌-◌, map, vec_len, IfOk, OnOk, slice_index_or};
ghost use Rattle.edit_sums.specs.Sums.{changed_places};
ghost use Rattle.replica_store.specs.Replicas.{Replicated};
ghost use Rattle.world_law.specs.Cuts.{cut, digest_of};
ghost use Rattle.script_commands.specs.declared.commands.Command.TheVariants.{Merge, Part, Send, Sweep};
ghost use Rattle.script_worlds.specs.Worlds.{numbers_from};
ghost use Rattle.fleet_script.specs.{Does.{if_any}, Holds.{AreMerged, Executes, into_first, IsGivenAt, kept_in, out_of_first}};

use crate::states::{Rendered, Shell};
use delta_pieces::{Piece, delta_between, delta_between_at};
use load_places::Place;
use plain_values::Bytes;
use script_answers::{merge_done, part_done};
use script_commands::{Fault, LineRefusal, Words, read_places};
use std::alloc::{AllocError, Global};

impl Shell {
    /// Gives a node all that it lacks of another.
    pub(super) fn merge(&mut self, alloc: Global, from: &[u8], to: &[u8]) -> Rendered
        ensures done { Executes self.old self.new (Merge from.now to.now) result }
        ensures worker_count { self.new.workers ≡ self.old.workers }
    {
        let from = self.node_at(alloc, from)?;
        let to = self.node_at(alloc, to)?;
        let changed = self.merge_nodes(alloc, from, to)?;
        Ok(merge_done(alloc, changed)?)
    }

    /// Cuts at one node for the ask of another, and stores the piece under a name.
    pub(super) fn part(
        &mut self,
        alloc: Global,
        piece: &[u8],
        from: &[u8],
        to: &[u8],
        places: Words<'_>,
    ) -> Rendered
        ensures done { Executes self.old self.new
            (Part piece.now from.now to.now places.entry) result }
        ensures worker_count { self.new.workers ≡ self.old.workers }
    {
        let from = self.node_at(alloc, from)?;
        let to = self.node_at(alloc, to)?;
        let places = read_places(alloc, places)?;
        let cut = self.cut(alloc, from, to, &places)?;
        let text = part_done(alloc, cut.len())?;
        self.pieces.insert(Bytes::from_slice(alloc, piece)?, cut)?;
        Ok(text)
    }

    /// Gives a piece to a node. The shell still has the piece, which may be given again.
    pub(super) fn send(&mut self, alloc: Global, piece: &[u8], node: &[u8]) -> Rendered
        ensures done { Executes self.old self.new (Send piece.now node.now) result }
        ensures worker_count { self.new.workers ≡ self.old.workers }
    {
        let name = Bytes::from_slice(alloc, piece)?;
        let to = self.node_at(alloc, node);
        let Some(piece) = self.pieces.get(&name) else {
            return Err(Fault::Refused(LineRefusal::UnknownPiece));
        };
        let changed = self.nodes[to?].merge(piece.store())?;
        Ok(merge_done(alloc, changed)?)
    }

    /// Merges all nodes: each into the first, and then the first into each.
    pub(super) fn sweep(&mut self, alloc: Global) -> Rendered
        ensures done { Executes self.old self.new Sweep result }
        ensures worker_count { self.new.workers ≡ self.old.workers }
    {
        let text = Vec::from_slice(alloc, b"ok\n")?;
        self.gather(alloc)?;
        self.spread(alloc)?;
        Ok(text)
    }
}

impl Shell {
    // Gives a node what it lacks of another, and returns how many places changed. A node lacks nothing of itself. Versions
    // are compared, and no contents.
    fn merge_nodes(&mut self, alloc: Global, from: usize, to: usize) -> Result<u64, AllocError>
        requires from_within { from < vec_len self.old.nodes }
        requires to_within { to < vec_len self.old.nodes }
        ensures given { OnOk result (IsGivenAt (kept_in self.old) from to (kept_in self.new)) }
        ensures changed { IfOk result
            (λ changed. (d : Replicated)
            → changed ≡ changed_places (slice_index_or self.old.nodes.items to d).store
            (slice_index_or self.new.nodes.items to d).store) }
        ensures worker_count { self.new.workers ≡ self.old.workers }
    {
        if from == to {
            return Ok(0);
        }
        let piece = delta_between(alloc, self.nodes[from].replica(), self.nodes[to].replica())?;
        match self.nodes[to].absorb(piece.into_store()) {
            Ok(changed) => Ok(changed),
            Err(_) => Err(AllocError),
        }
    }

    // Merges each of the other nodes into the first.
    fn gather(&mut self, alloc: Global) -> Result<(), AllocError>
        ensures merged { OnOk result (AreMerged (kept_in self.old) (kept_in self.new)
            (map into_first (numbers_from 1 (vec_len self.old.nodes - 1)))) }
        ensures count { OnOk result (vec_len self.new.nodes ≡ vec_len self.old.nodes) }
        ensures worker_count { self.new.workers ≡ self.old.workers }
    {
        for from in 1..self.nodes.len() {
            self.merge_nodes(alloc, from, 0)?;
        }
        Ok(())
    }

    // Merges the first node into each of the others.
    fn spread(&mut self, alloc: Global) -> Result<(), AllocError>
        ensures merged { OnOk result (AreMerged (kept_in self.old) (kept_in self.new)
            (map out_of_first (numbers_from 1 (vec_len self.old.nodes - 1)))) }
        ensures worker_count { self.new.workers ≡ self.old.workers }
    {
        for to in 1..self.nodes.len() {
            self.merge_nodes(alloc, 0, to)?;
        }
        Ok(())
    }

    // What one node cuts for the ask of another, at these places, or at all if none are given.
    fn cut(
        &self,
        alloc: Global,
        from: usize,
        to: usize,
        places: &[Place],
    ) -> Result<Piece, AllocError>
        requires from_within { from < vec_len self.now.nodes }
        requires to_within { to < vec_len self.now.nodes }
        ensures cut { IfOk result (λ piece. (d : Replicated) → piece ≡ cut
            (slice_index_or self.now.nodes.items from d).store
            (digest_of (slice_index_or self.now.nodes.items to d).store) (if_any places.now)) }
    {
        let from = self.nodes[from].replica();
        let to = self.nodes[to].replica();
        if places.is_empty() {
            return delta_between(alloc, from, to);
        }
        delta_between_at(alloc, from, to, places)
    }
}
