//! Slots in memory. The contracts here say nothing, so that a test carries no facts from call to call, and nothing here or
//! in the tests answers with a `Result`: after each `?` a proof has one more path, on which all that is held is dropped.

use crate::list::push;
use fst_device::MemorySlot;
use fst_types::BlockNo;
use std::alloc::Global;
use std::process::Abort;

/// A slot of so many zeros.
pub fn zero_slot(rt: &impl Abort, alloc: Global, block: u32, size: u32) -> MemorySlot {
    let zeros = vec![in alloc; 0u8; size as usize].expect(rt, "there is memory");
    MemorySlot::new(BlockNo(block), zeros)
}

/// A slot of so many zeros for each of so many blocks.
pub fn zero_slots(rt: &impl Abort, alloc: Global, blocks: u32, size: u32) -> Vec<MemorySlot> {
    let mut slots = Vec::new(alloc);
    for block in 0..blocks {
        push(rt, &mut slots, zero_slot(rt, alloc, block, size));
    }
    slots
}
