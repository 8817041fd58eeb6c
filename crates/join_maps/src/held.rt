//! What a map holds: one pair that stands alone, or runs.
ghost use Rattle.std.specs.{Prelude.{◌≡◌, ◌++◌, ◌<◌, [], ◌∷◌, length, IsOk, IsSome, IsTrue, OnErr, OnOk, ◌↔◌}, Option.{option_to_list, IfNone}};
ghost use Rattle.std.specs.FinMap.{find};
ghost use Rattle.join_maps.specs.Held.{AreRuns, HasSeat, HaveSeats, held_pairs, IsForOne, IsHeldMap};
ghost use Rattle.join_law.specs.Maps.{IsMap, MapBelow};

use chunked_pairs::Chunks;
use join_law::Join;
use plain_values::Key;
use std::alloc::{AllocError, Global};
use std::mem;

// How many pairs there is room for where one that stood alone goes.
const ROOM: usize = 2;

/// The pairs of a map. A pair that stands alone is in the map itself, and takes no memory besides.
#[derive(Debug, Drop)]
pub enum Held<K, V> {
    /// One pair.
    Alone(Global, [(K, V); 1]),
    /// Any number of pairs.
    Runs(Chunks<K, V>),
}

impl<K: Key, V: Join> Held<K, V> {
    /// The allocator that memory is taken from.
    #[inline(always)]
    pub fn allocator(&self) -> Global {
        match self {
            Held::Alone(alloc, _) => *alloc,
            Held::Runs(chunks) => chunks.allocator(),
        }
    }

    // Puts a pair that stands alone into a run. A refusal changes nothing.
    pub fn spread(&mut self) -> Result<(), AllocError>
        requires map { IsHeldMap K.cmp V.below V.is_valid self.old }
        ensures map { IsHeldMap K.cmp V.below V.is_valid self.new }
        ensures same { held_pairs self.new ≡ held_pairs self.old }
        ensures runs { OnOk result (AreRuns self.new) }
        ensures err { OnErr result (self.new ≡ self.old) }
    {
        let Held::Alone(alloc, _) = self else {
            return Ok(());
        };
        let alloc = *alloc;
        let mut run = Vec::with_capacity(alloc, ROOM)?;
        match mem::replace(self, Held::Runs(Chunks::new(alloc))) {
            Held::Runs(_) => unreachable!(),
            Held::Alone(_, alone) => {
                run.push_reserved(only(alone));
                *self = Held::Runs(Chunks::of_run(run));
                Ok(())
            }
        }
    }

    // Gives a key a seat: a pair that stands alone with another key goes into a run. A refusal changes nothing, and comes
    // only if the key isn't held.
    #[inline(always)]
    pub fn seat(&mut self, key: &K) -> Result<(), AllocError>
        requires map { IsHeldMap K.cmp V.below V.is_valid self.old }
        ensures map { IsHeldMap K.cmp V.below V.is_valid self.new }
        ensures same { held_pairs self.new ≡ held_pairs self.old }
        ensures seat { OnOk result (HasSeat K.cmp key.now self.new) }
        ensures err { OnErr result (self.new ≡ self.old) }
        ensures known { IsSome (find K.cmp key.now (held_pairs self.old)) → IsOk result }
    {
        if self.has_seat(key) {
            return Ok(());
        }
        self.spread()
    }

    // Returns whether a key has a seat.
    #[inline(always)]
    fn has_seat(&self, key: &K) -> bool
        ensures seat { IsTrue result ↔ HasSeat K.cmp key.now self.now }
    {
        match self {
            Held::Alone(_, alone) => key.cmp(&alone[0].0).is_eq(),
            Held::Runs(_) => true,
        }
    }

    // Gives the keys of sorted pairs seats: a pair that stands alone stays only where one pair comes, with its key. A
    // refusal changes nothing, and comes only if there is more than what is held.
    pub fn seat_all(&mut self, pairs: &[(K, V)]) -> Result<(), AllocError>
        requires map { IsHeldMap K.cmp V.below V.is_valid self.old }
        requires pairs_map { IsMap K.cmp V.below V.is_valid pairs.now }
        requires some { 0 < length pairs.now }
        ensures map { IsHeldMap K.cmp V.below V.is_valid self.new }
        ensures same { held_pairs self.new ≡ held_pairs self.old }
        ensures seats { OnOk result (HaveSeats K.cmp pairs.now self.new) }
        ensures err { OnErr result (self.new ≡ self.old) }
        ensures known { MapBelow K.cmp V.below pairs.now (held_pairs self.old) → IsOk result }
    {
        if self.has_seats(pairs) {
            return Ok(());
        }
        self.spread()
    }

    // Returns whether the keys of some pairs have seats.
    fn has_seats(&self, pairs: &[(K, V)]) -> bool
        ensures seats { IsTrue result ↔ HaveSeats K.cmp pairs.now self.now }
    {
        match self {
            Held::Alone(_, alone) => is_for_one(pairs, &alone[0].0),
            Held::Runs(_) => true,
        }
    }

    // Takes the last pair, if there is one.
    pub fn pop_last(&mut self) -> Option<(K, V)>
        requires map { IsHeldMap K.cmp V.below V.is_valid self.old }
        ensures map { IsHeldMap K.cmp V.below V.is_valid self.new }
        ensures pairs { held_pairs self.old ≡ held_pairs self.new ++ option_to_list result }
        ensures none { IfNone result (held_pairs self.old ≡ []) }
    {
        let alloc = match self {
            Held::Alone(alloc, _) => *alloc,
            Held::Runs(chunks) => return chunks.pop_last(),
        };
        match mem::replace(self, Held::Runs(Chunks::new(alloc))) {
            Held::Alone(_, alone) => Some(only(alone)),
            Held::Runs(_) => unreachable!(),
        }
    }
}

// Returns whether this is one pair, which has the key.
fn is_for_one<K: Key, V>(pairs: &[(K, V)], key: &K) -> bool
    ensures one { IsTrue result ↔ IsForOne K.cmp pairs.now key.now }
{
    let Some((pair, others)) = pairs.split_first() else {
        return false;
    };
    others.is_empty() && pair.0.cmp(key).is_eq()
}

// The only item of an array.
pub fn only<T>(array: [T; 1]) -> T
    ensures only { array ≡ result ∷ [] }
{
    let [item] = array;
    item
}
