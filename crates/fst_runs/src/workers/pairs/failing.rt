//! Writes that fail: stalled, sent again, and lost.

use crate::list::push;
use crate::slots::zero_slot;
use crate::store::Store;
use crate::workers::failing::{Failing, Habit};
use crate::workers::pairs::checked::Checked;
use crate::workers::pairs::opens;
use fst_device::{Arm, BlockSlot, MemorySlot};
use fst_types::{BlockNo, Fault, Shape, Ticket};
use std::alloc::Global;
use std::process::Abort;

// A cache of one block, over this slot.
fn alone<S: BlockSlot>(rt: &impl Abort, alloc: Global, slot: S) -> Store<S> {
    let mut slots = Vec::new(alloc);
    push(rt, &mut slots, slot);
    Store::over(rt, alloc, slots, Shape::new(1, 4, 1).ok())
}

// A desk with one worker over one block, the next write of which fails so.
fn armed(rt: &impl Abort, alloc: Global, arm: Arm) -> Checked<MemorySlot> {
    let mut slot = zero_slot(rt, alloc, 0, 4);
    slot.arm(arm);
    Checked::open(rt, alloc, alone(rt, alloc, slot))
}

// A stalled write counts as settled: the desk closes.
#[test]
fn only_write_stalls(rt: HostRuntime) {
    let mut desk = armed(&rt, rt.alloc(), Arm::WriteFailsBefore);
    desk.patch_all(&rt, 1);
    desk.submits(&rt, Some(Ticket(1)));
    desk.write_one(&rt, 1);
    let store = desk.closes(&rt, rt.alloc(), (1, 1, 0, 1));
    store.is_stalled(&rt, 0);
    store.end();
}

// A write that failed is sent again under a new ticket.
#[test]
fn stalled_write_goes_again(rt: HostRuntime) {
    let mut desk = armed(&rt, rt.alloc(), Arm::WriteFailsAfter);
    desk.patch_all(&rt, 1);
    desk.submits(&rt, Some(Ticket(1)));
    desk.resubmits(&rt, 0, Err(Fault::NotStalled));
    desk.write_one(&rt, 1);
    desk.stalled(&rt, Some(BlockNo(0)));
    desk.resubmits(&rt, 1, Err(Fault::NoBlock));
    desk.resubmits(&rt, 0, Ok(Some(Ticket(2))));
    desk.write_one(&rt, 2);
    desk.closes(&rt, rt.alloc(), (1, 2, 1, 1)).end();
}

// A desk with one worker over one block whose writes all fail.
fn all_fail(rt: &impl Abort, alloc: Global) -> Checked<Failing> {
    let slot = Failing::new(zero_slot(rt, alloc, 0, 4), Habit::AlwaysBefore);
    Checked::open(rt, alloc, alone(rt, alloc, slot))
}

// A write that fails at each of three tries.
fn tries(rt: &impl Abort, desk: &mut Checked<Failing>) {
    for ticket in 1..4 {
        desk.write_one(rt, ticket);
        if ticket < 3 {
            desk.stalled(rt, Some(BlockNo(0)));
            desk.resubmits(rt, 0, Ok(Some(Ticket(ticket + 1))));
        }
    }
}

// Its block is lost, and counts as stalled where the desk is closed. Another desk may be opened over it.
#[test]
fn lost_write_counts_as_stalled(rt: HostRuntime) {
    let mut desk = all_fail(&rt, rt.alloc());
    desk.patch_all(&rt, 1);
    desk.submits(&rt, Some(Ticket(1)));
    tries(&rt, &mut desk);
    desk.stalled(&rt, None);
    desk.resubmits(&rt, 0, Err(Fault::Lost));
    desk.patch_refused(&rt, 0, Fault::Lost);
    let store = desk.closes(&rt, rt.alloc(), (1, 3, 0, 3));
    opens(&rt, rt.alloc(), store, 1);
}
