//! Cursors that read something from each item of another cursor, as from each pair of a map.
ghost use Rattle.std.specs.{Prelude.{◌≡◌, ◌∷◌, [], List}, List.{flat_map}};
ghost use Rattle.path_maps.specs.Cursors.{IsReadable};

use crate::cursors::Cursor;
use join_maps::Pairs;
use std::marker::Model;

/// A borrowed pair of a map.
#[derive(Drop)]
pub struct Pair<'a, K, V> {
    /// Its key.
    pub key: &'a K,
    /// Its value.
    pub value: &'a V,
}

impl<'a, K, V> Model for Pair<'a, K, V> {
    ghost Value = { K × V };

    ghost view = { λ p. (p.key.now, p.value.now) };
}

impl<'a, K: Ord, V> Cursor for Pairs<'a, K, V> {
    type Item = Pair<'a, K, V>;

    ghost left = { λ p. p };

    #[inline(always)]
    fn next(&mut self) -> Option<Pair<'a, K, V>> {
        let (key, value) = self.next()?;
        Some(Pair { key, value })
    }
}

/// Reads something from each of the items that it is given in ascending order.
pub trait Reading<P>: Drop {
    /// What it reads.
    type Read;

    // Whether it can read an item.
    ghost can: { Self → P → Type 0 };

    // Whether an item comes before another.
    ghost before: { P → P → Type 0 };

    // What it reads from an item.
    ghost part: { Self → P → List Self.Read };

    /// Reads an item. What it reads from later items stays the same.
    fn read(&mut self, item: P) -> Self::Read
        requires can { can self.old item }
        ensures part { part self.old item ≡ result ∷ [] }
        ensures later { (p : P) → before item p → part self.new p ≡ part self.old p }
        ensures can { (p : P) → can self.old p → can self.new p };
}

/// Yields what is read from each item of a cursor.
#[derive(Drop)]
pub struct Level<S: Cursor, R: Reading<S::Item>> {
    source: S,
    reading: R,
}

impl<S: Cursor, R: Reading<S::Item>> Model for Level<S, R> {
    ghost Value = { List R.Read };

    ghost view = { λ l. flat_map (R.part l.reading) (S.left l.source) };

    ghost invariant = { λ l. IsReadable R.before (R.can l.reading) (S.left l.source) };
}

impl<S: Cursor, R: Reading<S::Item>> Level<S, R> {
    /// Returns a cursor over what is read from the items of a cursor.
    #[inline(always)]
    pub fn new(source: S, reading: R) -> Self
        requires readable { IsReadable R.before (R.can reading) (S.left source) }
        ensures left { result ≡ flat_map (R.part reading) (S.left source) }
    {
        Level { source, reading }
    }
}

impl<S: Cursor, R: Reading<S::Item>> Cursor for Level<S, R> {
    type Item = R::Read;

    ghost left = { λ l. l };

    #[inline(always)]
    fn next(&mut self) -> Option<R::Read> {
        let item = self.source.next()?;
        Some(self.reading.read(item))
    }
}
