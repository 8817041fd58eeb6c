//! Short byte strings, stored inline.
ghost use Rattle.std.specs.Prelude.{◌≡◌, ◌≤◌, ◌+◌, ◌++◌, length};

use std::alloc::Global;
use std::marker::Model;

/// At most `N` bytes, stored inline, where `N` is at most 255.
#[derive(Debug)]
pub struct ShortBytes<const N: usize> {
    alloc: Global,
    len: u8,
    bytes: [u8; N],
}

impl<const N: usize> Drop for ShortBytes<N> {
    fn drop(self) {
        let ShortBytes {
            alloc: _,
            len: _,
            bytes: _,
        } = self;
    }
}

impl<const N: usize> Model for ShortBytes<N> {
    ghost use Rattle.std.specs.Prelude.{List, ℕ, ◌≤◌, take};

    ghost Value = { List ℕ };

    ghost view = { λ s. take s.len s.bytes };

    ghost invariant = { λ s. s.len ≤ N };
}

impl<const N: usize> ShortBytes<N> {
    /// Returns a copy of `bytes`. Allocates nothing.
    pub fn of(alloc: Global, bytes: &[u8]) -> Self
        requires few { length bytes.now ≤ N }
        requires byte { N ≤ 255 }
        ensures copy { result ≡ bytes.now }
    {
        let mut held = [0; N];
        held[..bytes.len()].copy_from_slice(bytes);
        ShortBytes {
            alloc,
            len: bytes.len() as u8,
            bytes: held,
        }
    }

    /// Returns the concatenation of two byte strings. Allocates nothing.
    pub fn joined(alloc: Global, prefix: &[u8], back: &[u8]) -> Self
        requires few { length prefix.now + length back.now ≤ N }
        requires byte { N ≤ 255 }
        ensures joined { result ≡ prefix.now ++ back.now }
    {
        let len = prefix.len() + back.len();
        let mut held = [0; N];
        let room = &mut held[..];
        room[..prefix.len()].copy_from_slice(prefix);
        room[prefix.len()..len].copy_from_slice(back);
        ShortBytes {
            alloc,
            len: len as u8,
            bytes: held,
        }
    }

    /// Borrows the bytes.
    #[inline(always)]
    pub fn as_slice(&self) -> &[u8]
        ensures bytes { result.now ≡ self.now }
    {
        &self.bytes[..self.len as usize]
    }

    /// Returns the allocator for values made from these bytes.
    pub fn allocator(&self) -> Global {
        self.alloc
    }

    /// Returns an equal byte string.
    pub fn copy(&self) -> Self
        ensures copy { result ≡ self.now }
    {
        ShortBytes {
            alloc: self.alloc,
            len: self.len,
            bytes: self.bytes,
        }
    }
}
