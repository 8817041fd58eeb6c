//! Byte strings with shared bytes.
ghost use Rattle.std.specs.Prelude.{◌≡◌, IfOk};

use crate::short::ShortBytes;
use std::alloc::{AllocError, Global};
use std::marker::Model;
use std::sync::Arc;

// The most bytes that stand in the block that copies share: as many as take no more room there than a vector's header.
const NEAR: usize = 30;

// What copies share.
#[derive(Debug)]
enum Block {
    // The bytes.
    Near(ShortBytes<NEAR>),
    // A vector of the bytes, which stand elsewhere.
    Far(Vec<u8>),
}

impl Drop for Block {
    fn drop(self) {
        match self {
            Block::Near(_) => (),
            Block::Far(_) => (),
        }
    }
}

/// A byte string whose copies all share its bytes, so that a copy takes constant time and no memory.
///
/// Up to 30 bytes stand in the block that the copies share; for more, that block has a pointer to them.
#[derive(Debug)]
pub struct SharedBytes {
    shared: Arc<Block, Global>,
}

impl Drop for SharedBytes {
    fn drop(self) {
        let SharedBytes { shared: _ } = self;
    }
}

impl Model for SharedBytes {
    ghost use Rattle.std.specs.{Prelude.{List, ℕ}, Arc.{arc_value}};
    ghost use Rattle.plain_values.specs.Blocks.{block_bytes};

    ghost Value = { List ℕ };

    ghost view = { λ b. block_bytes (arc_value b.shared) };
}

impl SharedBytes {
    /// Makes a shared byte string of a vector. More than 30 bytes are moved, not copied. Fails only if memory runs out;
    /// the bytes are then dropped.
    pub fn from_vec(bytes: Vec<u8>) -> Result<Self, AllocError>
        ensures bytes { IfOk result (λ made. made ≡ bytes.items) }
    {
        let alloc = *bytes.allocator();
        let block = if bytes.len() <= NEAR {
            Block::Near(ShortBytes::of(alloc, &bytes))
        } else {
            Block::Far(bytes)
        };
        Ok(SharedBytes {
            shared: Arc::new(alloc, block)?,
        })
    }

    /// Makes a shared byte string of copied bytes. Takes one allocation for up to 30 bytes, two for more. Fails only if
    /// memory runs out.
    pub fn from_slice(alloc: Global, bytes: &[u8]) -> Result<Self, AllocError>
        ensures copy { IfOk result (λ made. made ≡ bytes.now) }
    {
        let block = if bytes.len() <= NEAR {
            Block::Near(ShortBytes::of(alloc, bytes))
        } else {
            Block::Far(Vec::from_slice(alloc, bytes)?)
        };
        Ok(SharedBytes {
            shared: Arc::new(alloc, block)?,
        })
    }

    /// Borrows the bytes. Allocates nothing.
    #[inline(always)]
    pub fn as_slice(&self) -> &[u8]
        ensures bytes { result.now ≡ self.now }
    {
        match &*self.shared {
            Block::Near(near) => near.as_slice(),
            Block::Far(far) => far,
        }
    }

    /// Returns the allocator that the bytes came from.
    pub fn allocator(&self) -> Global {
        match &*self.shared {
            Block::Near(near) => near.allocator(),
            Block::Far(far) => *far.allocator(),
        }
    }

    /// Returns an equal byte string that shares the bytes. Fails only if there are too many copies already.
    pub fn try_clone(&self) -> Result<SharedBytes, AllocError>
        ensures copy { IfOk result (λ copy. copy ≡ self.now) }
    {
        Ok(SharedBytes {
            shared: Arc::try_clone(&self.shared)?,
        })
    }
}
