//! Lists whose model is their elements.
ghost use Rattle.std.specs.Prelude.{◌≡◌, OnOk, OnErr, [], ◌∷◌, ◌++◌};

use crate::keys::TryClone;
use crate::lists::copied;
use std::alloc::{AllocError, Global};
use std::marker::Model;

/// A list that contracts see as its elements alone, without a capacity.
#[derive(Debug, Drop)]
pub struct Items<T: Drop> {
    elements: Vec<T>,
}

impl<T: Drop> Model for Items<T> {
    ghost use Rattle.std.specs.Prelude.{List};

    ghost Value = { List T };

    ghost view = { λ i. i.elements.items };
}

impl<T: Drop> Items<T> {
    /// Returns an empty list. Allocates nothing.
    pub fn new(alloc: Global) -> Self
        ensures empty { result ≡ [] }
    {
        Items {
            elements: Vec::new(alloc),
        }
    }

    /// Makes a list of a vector, without copying the elements. Allocates nothing.
    pub fn from_vec(elements: Vec<T>) -> Self
        ensures elements { result ≡ elements.items }
    {
        Items { elements }
    }

    /// Appends an element. Fails only if memory runs out, and then changes nothing.
    pub fn push(&mut self, element: T) -> Result<(), AllocError>
        ensures ok { OnOk result (self.new ≡ self.old ++ element ∷ []) }
        ensures err { OnErr result (self.new ≡ self.old) }
    {
        self.elements.push(element)?;
        Ok(())
    }

    /// Moves the elements of another list to the end of this one. Fails only if memory runs out, and then changes
    /// nothing.
    pub fn append(&mut self, other: Items<T>) -> Result<(), AllocError>
        ensures ok { OnOk result (self.new ≡ self.old ++ other) }
        ensures err { OnErr result (self.new ≡ self.old) }
    {
        let mut elements = other.elements;
        self.elements.append(&mut elements)
    }

    /// Removes all elements, but keeps the capacity. Allocates nothing.
    pub fn clear(&mut self)
        ensures empty { self.new ≡ [] }
    {
        self.elements.clear();
    }

    /// Returns the elements as a vector, without copying them. Allocates nothing.
    pub fn into_vec(self) -> Vec<T>
        ensures elements { result.items ≡ self }
    {
        let Items { elements } = self;
        elements
    }

    /// Borrows the elements. Allocates nothing.
    pub fn as_slice(&self) -> &[T]
        ensures elements { result.now ≡ self.now }
    {
        &self.elements
    }
}

impl<T: TryClone> TryClone for Items<T> {
    fn try_clone(&self) -> Result<Items<T>, AllocError> {
        let elements = copied(*self.elements.allocator(), &self.elements)?;
        Ok(Items { elements })
    }
}

impl<T: PartialEq + Drop> PartialEq for Items<T> {
    ghost use Rattle.std.specs.Cmp.Lexicographic.{lists_per, pointwise};

    ghost eq = { pointwise T.eq };

    ghost laws = { lists_per T.laws };

    fn eq(&self, other: &Self) -> bool {
        self.elements == other.elements
    }
}

impl<T: Eq + Drop> Eq for Items<T> {
    ghost use Rattle.std.specs.Cmp.Lexicographic.{lists_equiv};

    ghost laws = { lists_equiv T.Eq.laws };
}
