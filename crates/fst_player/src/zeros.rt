//! Slots of zero bytes, which a play and a crew begin with.

ghost use Rattle.std.specs.Prelude.{◌≡◌, IfOk, map};
ghost use Rattle.std.specs.List.{range_with_len};
ghost use Rattle.fst_player.specs.Zeros.{zero_slot};

use fst_device::MemorySlot;
use fst_types::BlockNo;
use std::alloc::{AllocError, Global};

// A block's slot of zero bytes.
fn zero_slot(alloc: Global, block: u32, size: u32) -> Result<MemorySlot, AllocError>
    ensures { IfOk result (λ slot. slot ≡ zero_slot size block) }
{
    let bytes = vec![in alloc; 0u8; size as usize]?;
    Ok(MemorySlot::new(BlockNo(block), bytes))
}

/// A slot of zero bytes for each block.
pub fn zero_slots(alloc: Global, blocks: u32, size: u32) -> Result<Vec<MemorySlot>, AllocError>
    ensures { IfOk result (λ slots. slots.items ≡ map (zero_slot size) (range_with_len 0 blocks)) }
{
    let mut slots = Vec::new(alloc);
    for block in 0..blocks {
        slots.push(zero_slot(alloc, block, size)?)?;
    }
    Ok(slots)
}
