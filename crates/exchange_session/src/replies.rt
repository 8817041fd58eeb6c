//! Replies to messages.
ghost use Rattle.std.specs.Prelude.{◌≡◌, ◌++◌, ◌∷◌, ◌⊎◌, [], All, IfOk, List, map, OnOk};
ghost use Rattle.std.specs.FinMap as finmap;
ghost use Rattle.load_places.specs.Places.{PlaceParts};
ghost use Rattle.edit_sums.specs.Sums.{IsStoreBelow, join};
ghost use Rattle.world_law.specs.Cuts.{digest_of};
ghost use Rattle.exchange_session.specs.{Answered.{piece_for}, Joined.{joined}, Told.{IsAskedBack, IsNewerAt, IsNothingNew, IsOwnAsk, IsOwnPrint, IsPursued, IsTold, IsUnequalAt, own_print}};
ghost use Rattle.range_prints.specs.Ranges.{everything, versions_of};
ghost use Rattle.exchange_session.specs.declared.messages.RangeAsk.{RangeAsk};

use crate::asking::{asks_back, pieces_for};
use crate::comparing::{compare_all, prints_of};
use crate::messages::{Message, RangeAsk, RangePrint};
use delta_pieces::{Piece, take};
use range_prints::{Range, versions};
use replica_store::Replica;
use std::alloc::{AllocError, Global};

/// Takes a piece. If memory runs out, some of it may be taken.
pub fn take_one(node: &mut Replica, piece: Piece) -> Result<(), AllocError>
    ensures taken { OnOk result (node.new.store ≡ join node.old.store piece) }
    ensures writer { node.new.writer ≡ node.old.writer }
    ensures kept { IsStoreBelow node.old.store node.new.store }
{
    match take(node, piece) {
        Ok(_) => (),
        Err(_) => return Err(AllocError),
    }
    Ok(())
}

/// Takes pieces one after another. If memory runs out, some of them may be taken.
pub fn take_all(node: &mut Replica, pieces: Vec<Piece>) -> Result<(), AllocError>
    ensures taken { OnOk result (node.new.store ≡ joined node.old.store pieces.items) }
    ensures writer { node.new.writer ≡ node.old.writer }
    ensures kept { IsStoreBelow node.old.store node.new.store }
{
    for piece in pieces {
        take_one(node, piece)?;
    }
    Ok(())
}

/// Returns what a replica says to the prints and the asks of a message, whose pieces it has taken.
///
/// Where a print isn't its own, it asks for the range if few of its versions are in it, and else cuts it into parts and
/// tells their prints. It answers each ask with a piece of what it has newer, or what isn't told of, at its places in the
/// range; and if the ask tells of something newer, it asks for the range itself, in parts of at most a thousand versions.
/// Where all prints are its own, it tells none: so between equal replicas the reply to the first message ends the exchange.
/// Every piece is a cut for an ask that was made, and every ask is told of what the replica holds: so whatever is lost,
/// repeated or cut off, what comes to a replica is what pieces of a world bring.
///
/// One pass over the replica, and a search for each place of a piece. Fails only if memory runs out.
pub fn answer(
    alloc: Global,
    node: &Replica,
    seed: u64,
    prints: Vec<RangePrint>,
    asks: Vec<RangeAsk>,
) -> Result<Message, AllocError>
    ensures prints { IfOk result
        (λ told. All (IsOwnPrint seed (versions_of node.now.store)) told.prints.items) }
    ensures asks { IfOk result
        (λ told. All (IsOwnAsk (versions_of node.now.store)) told.asks.items) }
    ensures pieces { IfOk result
        (λ told. told.pieces.items ≡ map (piece_for node.now.store) asks.items) }
    ensures pursued { IfOk result
        (λ told. All (IsPursued seed (versions_of node.now.store) told.prints.items told.asks.items)
        prints.items) }
    ensures asked_back { IfOk result
        (λ told. All (IsAskedBack (digest_of node.now.store) told.asks.items) asks.items) }
    ensures agreed { IfOk result
        (λ told. All (IsOwnPrint seed (versions_of node.now.store)) prints.items
        → told.prints.items ≡ []) }
    ensures quiet { IfOk result
        (λ told. All (IsOwnPrint seed (versions_of node.now.store)) prints.items
        → All (IsNothingNew (digest_of node.now.store)) asks.items → told.asks.items ≡ []) }
    ensures stays { IfOk result
        (λ told. (p : PlaceParts) → IsTold p told.prints.items told.asks.items
        → IsUnequalAt seed (versions_of node.now.store) prints.items p
        ⊎ IsNewerAt (digest_of node.now.store) asks.items p) }
{
    let own = versions(alloc, node.store())?;
    let compared = compare_all(alloc, seed, &own, prints)?;
    let (prints, mut told) = compared.into_parts();
    let pieces = pieces_for(alloc, node, &own, &asks)?;
    let mut back = asks_back(alloc, node, &own, asks)?;
    told.append(&mut back)?;
    Ok(Message {
        prints,
        asks: told,
        pieces,
    })
}

/// Takes the pieces of a message, and returns what the replica says to the rest of it, as `answer` does. Fails only if memory
/// runs out: then the replica has taken some of the pieces, and lost nothing.
pub fn reply(
    alloc: Global,
    node: &mut Replica,
    seed: u64,
    message: Message,
) -> Result<Message, AllocError>
    ensures taken { OnOk result (node.new.store ≡ joined node.old.store message.pieces.items) }
    ensures writer { node.new.writer ≡ node.old.writer }
    ensures kept { IsStoreBelow node.old.store node.new.store }
    ensures prints { IfOk result
        (λ told. All (IsOwnPrint seed (versions_of node.new.store)) told.prints.items) }
    ensures asks { IfOk result
        (λ told. All (IsOwnAsk (versions_of node.new.store)) told.asks.items) }
    ensures pieces { IfOk result
        (λ told. told.pieces.items ≡ map (piece_for node.new.store) message.asks.items) }
    ensures pursued { IfOk result
        (λ told. All (IsPursued seed (versions_of node.new.store) told.prints.items told.asks.items)
        message.prints.items) }
    ensures asked_back { IfOk result
        (λ told. All (IsAskedBack (digest_of node.new.store) told.asks.items) message.asks.items) }
    ensures agreed { IfOk result
        (λ told. All (IsOwnPrint seed (versions_of node.new.store)) message.prints.items
        → told.prints.items ≡ []) }
    ensures quiet { IfOk result
        (λ told. All (IsOwnPrint seed (versions_of node.new.store)) message.prints.items
        → All (IsNothingNew (digest_of node.new.store)) message.asks.items → told.asks.items ≡ []) }
    ensures stays { IfOk result
        (λ told. (p : PlaceParts) → IsTold p told.prints.items told.asks.items
        → IsUnequalAt seed (versions_of node.new.store) message.prints.items p
        ⊎ IsNewerAt (digest_of node.new.store) message.asks.items p) }
{
    let (prints, asks, pieces) = message.into_parts();
    take_all(node, pieces)?;
    Ok(answer(alloc, node, seed, prints, asks)?)
}

/// Returns what a side says first: the print of all that its replica holds. One pass. Fails only if memory runs out.
pub fn open(alloc: Global, node: &Replica, seed: u64) -> Result<Message, AllocError>
    ensures print { IfOk result
        (λ told. told.prints.items ≡ own_print seed (versions_of node.now.store) everything ∷ []) }
    ensures asks { IfOk result (λ told. told.asks.items ≡ []) }
    ensures pieces { IfOk result (λ told. told.pieces.items ≡ []) }
{
    let own = versions(alloc, node.store())?;
    let mut ranges = Vec::new(alloc);
    ranges.push(Range::everything())?;
    Ok(Message {
        prints: prints_of(alloc, seed, &own, ranges)?,
        asks: Vec::new(alloc),
        pieces: Vec::new(alloc),
    })
}
