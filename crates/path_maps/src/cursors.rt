//! Cursors over lists, and over lists of lists to any depth.
ghost use Rattle.std.specs.Prelude.{◌≡◌, ◌∷◌, [], List, MatchOption};
ghost use Rattle.path_maps.specs.Cursors.{in_hand};

/// Yields the items of a list one after another.
pub trait Cursor: Drop {
    /// The items.
    type Item;

    // What is left of the list.
    ghost left: { Self → List Self.Item };

    /// Takes the next item, if one is left.
    fn next(&mut self) -> Option<Self::Item>
        ensures first { MatchOption result ((left self.old ≡ []) × (left self.new ≡ []))
            (λ item. left self.old ≡ item ∷ left self.new) };
}

/// Yields the items of all lists whose cursors the outer cursor yields.
#[derive(Drop)]
pub struct Nested<C, O> {
    /// The cursor of the list that is being read, if any.
    pub inner: Option<C>,
    /// The cursor that yields the cursors of the lists after it.
    pub outer: O,
}

impl<C: Cursor, O: Cursor<Item = C>> Cursor for Nested<C, O> {
    ghost use Rattle.std.specs.{Prelude.{◌++◌}, List.{flat_map}};
    ghost use Rattle.path_maps.specs.Cursors.{in_hand};

    type Item = C::Item;

    ghost left = { λ n. in_hand C.left n.inner ++ flat_map C.left (O.left n.outer) };

    #[inline(always)]
    fn next(&mut self) -> Option<C::Item> {
        // Each cursor is called in one place: inlining would double what it copies at each depth otherwise.
        loop {
            if let Some(item) = next_of(&mut self.inner) {
                return Some(item);
            }
            self.inner = Some(self.outer.next()?);
        }
    }
}

/// Takes the next item of the list that is being read, if there is such a list and it has one left.
#[inline(always)]
pub fn next_of<C: Cursor>(cursor: &mut Option<C>) -> Option<C::Item>
    ensures first { MatchOption result
        ((in_hand C.left cursor.old ≡ []) × (in_hand C.left cursor.new ≡ []))
        (λ item. in_hand C.left cursor.old ≡ item ∷ in_hand C.left cursor.new) }
{
    match cursor {
        None => None,
        Some(cursor) => cursor.next(),
    }
}
