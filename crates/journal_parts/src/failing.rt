//! Accounts on a device that fails.

use crate::accounts::{Accounts, BLOCKS, new_block};
use crate::fault::StoreFault;
use crate::flaky_slot::FlakySlot;
use fst_types::BlockNo;
use std::alloc::Global;
use std::io::Write;

// A slot for each block of a new store.
fn flaky_slots(alloc: Global) -> Result<Vec<FlakySlot>, StoreFault> {
    let mut slots = Vec::new(alloc);
    for block in 0..BLOCKS {
        let bytes = Vec::from_slice(alloc, &new_block(block))?;
        slots.push(FlakySlot::new(BlockNo(block), bytes))?;
    }
    Ok(slots)
}

// Two transfers, of which the second needs what the first brings.
fn make<W: Write>(accounts: &mut Accounts<FlakySlot>, out: &mut W) -> Result<(), StoreFault> {
    accounts.transfer(0, 1, 30)?;
    let done = accounts.transfer(1, 2, 130)?;
    accounts.sync(done)?;
    writeln!(out, "transfer {} is on disk", accounts.transfers())?;
    Ok(())
}

/// Transfers between accounts, on a device of which every other write fails.
pub fn transfers<W: Write>(alloc: Global, out: &mut W) -> Result<(), StoreFault> {
    let slots = flaky_slots(alloc)?;
    let mut accounts = Accounts::open(alloc, slots)?;
    let made = make(&mut accounts, out);
    drop(accounts);
    made
}
