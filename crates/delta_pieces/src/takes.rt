//! Taking pieces.
ghost use Rattle.std.specs.Prelude.{◌≡◌, IfOk, OnOk, OnErr, IfErr};
ghost use Rattle.std.specs.FinMap as finmap;
ghost use Rattle.edit_sums.specs.Sums.{changed_places, join, IsStoreBelow};

use crate::pieces::Piece;
use join_law::Rest;
use replica_store::Replica;

/// Memory ran out, and the replica took part of the piece or nothing.
#[derive(Debug, Drop)]
pub struct TakeFault {
    /// What is still to be taken.
    pub rest: Piece,
}

/// Joins a piece into a replica, and returns how many places changed. Reads both side by side; joining then costs a
/// search for each entry.
///
/// If memory runs out, the replica's store lies between its old state and the join, and taking the returned rest
/// completes the join; if the piece has one entry, the replica is unchanged.
pub fn take(replica: &mut Replica, piece: Piece) -> Result<u64, TakeFault>
    ensures ok { OnOk result
        (replica.new ≡ record replica.old { store = join replica.old.store piece }) }
    ensures changed { IfOk result
        (λ changed. changed ≡ changed_places replica.old.store replica.new.store) }
    ensures kept { OnErr result (IsStoreBelow replica.old.store replica.new.store) }
    ensures within { OnErr result (IsStoreBelow replica.new.store (join replica.old.store piece)) }
    ensures rest { IfErr result
        (λ fault. join replica.new.store fault.rest ≡ join replica.old.store piece) }
    ensures single { OnErr result (finmap.len piece ≡ 1 → replica.new ≡ replica.old) }
    ensures writer { replica.new.writer ≡ replica.old.writer }
{
    match replica.absorb(piece.into_store()) {
        Ok(changed) => Ok(changed),
        Err(Rest { rest }) => Err(TakeFault {
            rest: Piece::from_store(rest),
        }),
    }
}
