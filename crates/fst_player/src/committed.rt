//! What is committed of each block: what a crash leaves of it where no write of it finishes.

ghost use Rattle.std.specs.Prelude.{◌≡◌, ◌<◌, IfOk, [], length, replicate, slice_index_or, slice_set, if◌then◌else◌};

use fst_device::{Done, MemorySlot, Outcome};
use std::alloc::{AllocError, Global};
use std::marker::Model;

/// The bytes that are committed of each block. All memory for them is taken by `zeros`.
#[derive(Drop)]
pub struct Committed {
    blocks: Vec<Vec<u8>>,
}

impl Model for Committed {
    ghost use Rattle.std.specs.Prelude.{ℕ, List, map};

    ghost Value = { List (List ℕ) };

    ghost view = { λ c. map (λ b. b.items) c.blocks.items };
}

impl Committed {
    /// So many blocks of so many zero bytes.
    pub fn zeros(alloc: Global, blocks: u32, size: u32) -> Result<Committed, AllocError>
        ensures { IfOk result (λ committed. committed ≡ replicate blocks (replicate size 0)) }
    {
        let mut zeros = Vec::with_capacity(alloc, blocks as usize)?;
        for _ in 0..blocks {
            zeros.push_reserved(vec![in alloc; 0u8; size as usize]?);
        }
        Ok(Committed { blocks: zeros })
    }

    /// What is committed of a block.
    pub fn of(&self, block: u32) -> &[u8]
        requires { block < length self.now }
        ensures { result.now ≡ slice_index_or self.now block [] }
    {
        &self.blocks[block as usize]
    }

    /// Takes in a write that was tried: where it worked, its image is what is committed of its block from now on. It takes
    /// no memory.
    pub fn take_in(&mut self, done: &Done<MemorySlot>)
        requires inside { done.now.block < length self.old }
        requires same_size { length done.now.image ≡ length (slice_index_or self.old done.now.block []) }
        ensures { self.new ≡ (if done.now.written then slice_set self.old done.now.block done.now.image else self.old) }
    {
        if done.outcome() == Outcome::Written {
            self.blocks[done.block().0 as usize].copy_from_slice(done.image());
        }
    }
}
