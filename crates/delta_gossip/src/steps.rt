//! The effect of each event in a world. An event that names something that doesn't exist does nothing.
ghost use Rattle.std.specs.Prelude.{◌≡◌, map, IfOk, OnOk};
ghost use Rattle.edit_sums.specs.Sums.{join};
ghost use Rattle.world_law.specs.{Cuts.{cut}, Worlds.{EventWorld, happens}, declared.events.Event.TheVariants.{Put, Ask, Cut, Give}};
ghost use Rattle.delta_gossip.specs.Shows.{IsWorld};

use crate::worlds::World;
use delta_pieces::{Digest, Piece, delta_at, delta_for, digest};
use edit_sums::Edit;
use replica_store::{Replica, Store};
use std::alloc::{AllocError, Global};
use std::slice::from_ref;
use world_law::{Event, Places};

/// Applies one event. If the world corresponds to a model world before, it corresponds to the next model world after.
pub fn step(alloc: Global, world: &mut World, event: &Event) -> Result<(), AllocError>
    ensures writers { OnOk result (map (λ r. r.writer) world.new.replicas.items ≡ map
        (λ r. r.writer) world.old.replicas.items) }
    ensures model { OnOk result ((w : EventWorld) → IsWorld w world.old →
        IsWorld (happens w event.now) world.new) }
{
    match event {
        Event::Put { node, edit } => put_edit(alloc, world, *node, edit),
        Event::Ask { node } => ask_as(alloc, world, *node),
        Event::Cut { node, ask, places } => cut_piece(alloc, world, *node, *ask, places),
        Event::Give { piece, node } => give_piece(world, *piece, *node),
    }
}

// A node writes a copy of an edit into its store.
fn put_edit(alloc: Global, world: &mut World, node: usize, edit: &Edit) -> Result<(), AllocError>
    ensures writers { OnOk result (map (λ r. r.writer) world.new.replicas.items ≡ map
        (λ r. r.writer) world.old.replicas.items) }
    ensures model { OnOk result ((w : EventWorld) → IsWorld w world.old →
        IsWorld (happens w (Put node edit.now)) world.new) }
{
    let Some(replica) = world.replicas.get_mut(node) else {
        return Ok(());
    };
    join_store(replica, Store::from_edits(alloc, from_ref(edit))?)?;
    Ok(())
}

// Joins a store into that of a replica.
fn join_store(replica: &mut Replica, store: Store) -> Result<(), AllocError>
    ensures ok { OnOk result
        (replica.new ≡ record replica.old { store = join replica.old.store store }) }
{
    match replica.absorb(store) {
        Ok(_) => Ok(()),
        Err(_) => Err(AllocError),
    }
}

// A node makes an ask.
fn ask_as(alloc: Global, world: &mut World, node: usize) -> Result<(), AllocError>
    ensures writers { OnOk result (map (λ r. r.writer) world.new.replicas.items ≡ map
        (λ r. r.writer) world.old.replicas.items) }
    ensures model { OnOk result ((w : EventWorld) → IsWorld w world.old →
        IsWorld (happens w (Ask node)) world.new) }
{
    let Some(replica) = world.replicas.get(node) else {
        return Ok(());
    };
    let asked = digest(alloc, replica)?;
    world.asks.push(asked)?;
    Ok(())
}

// A node cuts a piece for an ask.
fn cut_piece(
    alloc: Global,
    world: &mut World,
    node: usize,
    ask: usize,
    places: &Option<Places>,
) -> Result<(), AllocError>
    ensures writers { OnOk result (map (λ r. r.writer) world.new.replicas.items ≡ map
        (λ r. r.writer) world.old.replicas.items) }
    ensures model { OnOk result ((w : EventWorld) → IsWorld w world.old →
        IsWorld (happens w (Cut node ask places.now)) world.new) }
{
    let Some(replica) = world.replicas.get(node) else {
        return Ok(());
    };
    let Some(asked) = world.asks.get(ask) else {
        return Ok(());
    };
    let piece = cut_for(alloc, replica, asked, places)?;
    world.pieces.push(piece)?;
    Ok(())
}

// Returns what a replica has for an ask, at these places or at all.
fn cut_for(
    alloc: Global,
    replica: &Replica,
    asked: &Digest,
    places: &Option<Places>,
) -> Result<Piece, AllocError>
    ensures cut { IfOk result (λ piece. piece ≡ cut replica.now.store asked.now places.now) }
{
    match places {
        None => delta_for(alloc, replica, asked),
        Some(places) => delta_at(alloc, replica, asked, places.as_slice()),
    }
}

// A node is given a piece, which stays in the world.
fn give_piece(world: &mut World, piece: usize, node: usize) -> Result<(), AllocError>
    ensures writers { OnOk result (map (λ r. r.writer) world.new.replicas.items ≡ map
        (λ r. r.writer) world.old.replicas.items) }
    ensures model { OnOk result ((w : EventWorld) → IsWorld w world.old →
        IsWorld (happens w (Give piece node)) world.new) }
{
    let Some(piece) = world.pieces.get(piece) else {
        return Ok(());
    };
    let Some(replica) = world.replicas.get_mut(node) else {
        return Ok(());
    };
    replica.merge(piece.store())?;
    Ok(())
}
