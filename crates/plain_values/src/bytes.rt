//! Byte strings. Short ones are stored inline, longer ones are shared by their copies.
ghost use Rattle.std.specs.Prelude.{◌≡◌, ◌++◌, IfOk};

use crate::keys::{Key, TryClone};
use crate::orders::{order, same};
use crate::shared::SharedBytes;
use crate::short::ShortBytes;
use std::alloc::{AllocError, Global};
use std::cmp::Ordering;
use std::hash::{Hash, Hasher};
use std::marker::Model;

// The most bytes that are stored inline.
const SHORT: usize = 22;

// Where the bytes are stored.
#[derive(Debug)]
enum Held {
    Short(ShortBytes<SHORT>),
    Shared(SharedBytes),
}

impl Drop for Held {
    fn drop(self) {
        match self {
            Held::Short(_) => (),
            Held::Shared(_) => (),
        }
    }
}

/// A byte string, not necessarily UTF-8, in lexicographic order of its bytes.
///
/// Up to 22 bytes are stored inline, without an allocation; a longer string is shared by all its copies. So a copy
/// allocates nothing and copies at most 22 bytes.
#[derive(Debug)]
pub struct Bytes {
    held: Held,
}

impl Drop for Bytes {
    fn drop(self) {
        let Bytes { held: _ } = self;
    }
}

impl Model for Bytes {
    ghost use Rattle.std.specs.Prelude.{List, ℕ};
    ghost use Rattle.plain_values.specs.Holding.{held_bytes};

    ghost Value = { List ℕ };

    ghost view = { λ b. held_bytes b.held };
}

impl Bytes {
    /// Returns a copy of `bytes`. Allocates only for more than 22 bytes. Fails only if memory runs out.
    pub fn from_slice(alloc: Global, bytes: &[u8]) -> Result<Self, AllocError>
        ensures copy { IfOk result (λ copy. copy ≡ bytes.now) }
    {
        if bytes.len() <= SHORT {
            let held = Held::Short(ShortBytes::of(alloc, bytes));
            return Ok(Bytes { held });
        }
        let shared = SharedBytes::from_slice(alloc, bytes)?;
        Ok(Bytes {
            held: Held::Shared(shared),
        })
    }

    /// Returns the concatenation of two byte strings. Allocates only if together they have more than 22 bytes. Fails
    /// only if memory runs out.
    pub fn joined(alloc: Global, prefix: &[u8], back: &[u8]) -> Result<Self, AllocError>
        ensures joined { IfOk result (λ joined. joined ≡ prefix.now ++ back.now) }
    {
        let len = prefix.len() + back.len();
        if len <= SHORT {
            let held = Held::Short(ShortBytes::joined(alloc, prefix, back));
            return Ok(Bytes { held });
        }
        let mut bytes = Vec::with_capacity(alloc, len)?;
        bytes.extend_from_slice(prefix)?;
        bytes.extend_from_slice(back)?;
        let shared = SharedBytes::from_vec(bytes)?;
        Ok(Bytes {
            held: Held::Shared(shared),
        })
    }

    /// Makes a byte string of a vector. More than 22 bytes are moved, not copied. Fails only if memory runs out; the
    /// bytes are then dropped.
    pub fn from_vec(bytes: Vec<u8>) -> Result<Self, AllocError>
        ensures bytes { IfOk result (λ made. made ≡ bytes.items) }
    {
        let held = if bytes.len() <= SHORT {
            Held::Short(ShortBytes::of(*bytes.allocator(), &bytes))
        } else {
            Held::Shared(SharedBytes::from_vec(bytes)?)
        };
        Ok(Bytes { held })
    }

    /// Borrows the bytes. Allocates nothing.
    #[inline(always)]
    pub fn as_slice(&self) -> &[u8]
        ensures bytes { result.now ≡ self.now }
    {
        match &self.held {
            Held::Short(short) => short.as_slice(),
            Held::Shared(shared) => shared.as_slice(),
        }
    }

    /// Returns the allocator that the bytes came from.
    pub fn allocator(&self) -> Global {
        match &self.held {
            Held::Short(short) => short.allocator(),
            Held::Shared(shared) => shared.allocator(),
        }
    }

    /// Returns an equal byte string, without an allocation. Fails only if shared bytes already have too many copies.
    pub fn try_clone(&self) -> Result<Bytes, AllocError>
        ensures copy { IfOk result (λ copy. copy ≡ self.now) }
    {
        let held = match &self.held {
            Held::Short(short) => Held::Short(short.copy()),
            Held::Shared(shared) => Held::Shared(shared.try_clone()?),
        };
        Ok(Bytes { held })
    }
}

impl PartialEq for Bytes {
    ghost use Rattle.std.specs.{Ordering.{nat_cmp, eq_by_cmp}, Cmp.{eq_by_cmp_equiv, partial_equiv_from_equiv}};
    ghost use Rattle.std.specs.Cmp.Lexicographic.{slice_cmp, nat_list_cmp_total};

    ghost eq = { eq_by_cmp (slice_cmp nat_cmp) };

    ghost laws = { partial_equiv_from_equiv (eq_by_cmp_equiv nat_list_cmp_total) };

    fn eq(&self, other: &Self) -> bool {
        same(self.as_slice(), other.as_slice())
    }
}

impl Eq for Bytes {
    ghost use Rattle.std.specs.{Cmp.{eq_by_cmp_equiv}, Cmp.Lexicographic.{nat_list_cmp_total}};

    ghost laws = { eq_by_cmp_equiv nat_list_cmp_total };
}

impl PartialOrd for Bytes {
    ghost use Rattle.std.specs.{Ordering.{nat_cmp, as_partial_cmp}, Cmp.{partial_order_from_total}};
    ghost use Rattle.std.specs.Cmp.Lexicographic.{slice_cmp, nat_list_cmp_total};

    ghost partial_cmp = { as_partial_cmp (slice_cmp nat_cmp) };

    ghost laws = { partial_order_from_total nat_list_cmp_total };

    fn partial_cmp(&self, other: &Self) -> Option<Ordering> {
        Some(self.cmp(other))
    }
}

impl Ord for Bytes {
    ghost use Rattle.std.specs.{Ordering.{nat_cmp}, Prelude.{refl}, Cmp.Lexicographic.{slice_cmp, nat_list_cmp_total}};

    ghost cmp = { slice_cmp nat_cmp };

    ghost total = { nat_list_cmp_total };

    ghost matches_partial_cmp = { λ x y. refl };

    ghost matches_eq = { λ x y. refl };

    fn cmp(&self, other: &Self) -> Ordering {
        order(self.as_slice(), other.as_slice())
    }
}

impl Hash for Bytes {
    ghost use Rattle.std.specs.Hash as fed;
    ghost use Rattle.plain_values.specs.BytesLaws.{hashed_alike};

    ghost hash_input = { fed.slice fed.u8 };

    ghost respects_eq = { hashed_alike };

    fn hash<H: Hasher>(&self, state: &mut H) {
        self.as_slice().hash(state);
    }
}

impl TryClone for Bytes {
    fn try_clone(&self) -> Result<Bytes, AllocError> {
        Bytes::try_clone(self)
    }
}

impl Key for Bytes {
    ghost use Rattle.std.specs.FinMap.{slice_cmp-IsAntisymmetric, nat_cmp-IsAntisymmetric};

    ghost exact = { slice_cmp-IsAntisymmetric nat_cmp-IsAntisymmetric };
}
