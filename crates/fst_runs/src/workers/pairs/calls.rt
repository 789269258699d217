//! Every call of a desk once, with what it answers.

use crate::same::{same, same_text};
use crate::workers::pairs::checked::Checked;
use crate::workers::pairs::with_one;
use fst_cache::{Share, Stat};
use fst_device::MemorySlot;
use fst_pairs::Desk;
use fst_types::{BlockNo, Fault, Grade, PatchNo, Place, Ticket};
use std::process::Abort;

// A gate, a change, an empty patch after the change, after which the gate is put before it is sealed.
fn makes(rt: &impl Abort, desk: &mut Desk<MemorySlot>, share: &mut Share) {
    same(rt, &desk.gate(share), &Ok(PatchNo(1)));
    let change = desk.patch(share, BlockNo(0), 0, b"A", &[]);
    same(rt, &change, &Ok((PatchNo(2), Grade::Hard)));
    same(rt, &desk.empty(share, &[PatchNo(2)]), &Ok(PatchNo(3)));
    same(rt, &desk.depend(PatchNo(3), &[]), &Err(Fault::NotGate));
    same(rt, &desk.depend(PatchNo(1), &[PatchNo(3)]), &Ok(()));
    same(rt, &desk.seal(PatchNo(1)), &Ok(()));
    same(rt, &desk.seal(PatchNo(1)), &Err(Fault::Sealed));
    same(rt, &share.made(), &3);
}

// What is told of them: where the first is, and which may be written.
fn looks_at_patches(rt: &impl Abort, desk: &mut Desk<MemorySlot>) {
    same(rt, &desk.place(PatchNo(1)), &Some(Place::Memory));
    let numbers = desk.choose(BlockNo(0)).expect(rt, "there is memory");
    same(rt, &numbers.as_slice(), &[PatchNo(2)].as_slice());
}

// What is told of the blocks.
fn looks_at_blocks(rt: &impl Abort, desk: &mut Desk<MemorySlot>) {
    same(rt, &desk.pick(), &Some(BlockNo(0)));
    same(rt, &desk.stalled(), &None);
    assert!(rt; desk.flight(BlockNo(0)).is_none());
}

// The first block stays in memory, and the second leaves it.
fn evicts(rt: &impl Abort, desk: &mut Desk<MemorySlot>) {
    same(rt, &desk.evict(BlockNo(0)), &Err(Fault::Dirty));
    same(rt, &desk.evict(BlockNo(1)), &Ok(()));
}

// The first block has the first byte of its change.
fn shows(rt: &impl Abort, desk: &mut Desk<MemorySlot>) {
    let bytes = desk.show(BlockNo(0)).expect(rt, "it is shown");
    same_text(rt, bytes, "A\0\0\0");
}

// What is counted, and what the desk keeps is at hand.
fn counts(rt: &impl Abort, desk: &Desk<MemorySlot>) {
    let counted = Stat {
        made: 3,
        live: 3,
        undo: 0,
        flights: 0,
    };
    same(rt, &desk.stat(), &counted);
    desk.headline();
    desk.keeps_order();
}

// The write of the first block that is out.
fn looks_at_flight(rt: &impl Abort, desk: &Desk<MemorySlot>) {
    let flight = desk
        .flight(BlockNo(0))
        .expect(rt, "a write of the block is out");
    same(rt, &flight.ticket, &Ticket(1));
    same_text(rt, flight.image, "A\0\0\0");
}

// What the worker and the desk keep is at hand, and all patches are forgotten.
fn forgets(rt: &impl Abort, checked: &mut Checked<MemorySlot>) {
    checked.worker.keeps_order();
    same(rt, &checked.desk.forget(), &3);
}

#[test]
fn each_call_answers(rt: HostRuntime) {
    let mut checked = with_one(&rt, rt.alloc(), 2);
    makes(&rt, &mut checked.desk, &mut checked.share);
    looks_at_patches(&rt, &mut checked.desk);
    looks_at_blocks(&rt, &mut checked.desk);
    evicts(&rt, &mut checked.desk);
    shows(&rt, &mut checked.desk);
    counts(&rt, &checked.desk);
    checked.submits(&rt, Some(Ticket(1)));
    looks_at_flight(&rt, &checked.desk);
    checked.resubmits(&rt, 0, Err(Fault::NotStalled));
    checked.write_one(&rt, 1);
    forgets(&rt, &mut checked);
    checked.submits(&rt, None);
    checked.closes(&rt, rt.alloc(), (3, 1, 1, 0)).end();
}
