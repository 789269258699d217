//! What the main thread does when the file threads have ended.

use crate::crews::taking::take_in;
use crate::plan::CREW_BLOCKS;
use fst_device::BlockSlot;
use fst_pairs::Desk;
use fst_types::{BlockNo, Fault};
use std::sync::{Mutex, Wait};
use std::thread;

// Whether every write that is in flight is of a lost block.
fn only_lost_left<S: BlockSlot>(desk: &Desk<S>) -> bool {
    for block in 0..CREW_BLOCKS {
        if let Some(flight) = desk.flight(BlockNo(block)) {
            if !flight.lost {
                return false;
            }
        }
    }
    true
}

// Takes in what came, and sends the next write and one that failed. Answers whether anything is not on disk yet, or
// `Lost` where that is so for good: nothing may be written, and every write in flight is of a lost block.
fn turn<S: BlockSlot>(desk: &mut Desk<S>) -> Result<bool, Fault> {
    take_in(desk)?;
    desk.submit()?;
    if let Some(block) = desk.stalled() {
        desk.resubmit(block)?;
    }
    if desk.stat().live == 0 {
        return Ok(false);
    }
    if desk.pick().is_none() && only_lost_left(desk) {
        return Err(Fault::Lost);
    }
    Ok(true)
}

/// Collects, submits and resubmits until all is on disk.
pub fn drain<S: BlockSlot, R: Wait>(rt: &R, desk: &Mutex<Desk<S>>) -> Result<(), Fault> {
    for _ in rt.forever() {
        let mut guard = desk.lock(rt);
        if !turn(&mut guard)? {
            return Ok(());
        }
        drop(guard);
        thread::yield_now();
    }
    unreachable!()
}
