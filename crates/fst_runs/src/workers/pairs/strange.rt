//! A completion that belongs to no write that is out.

ghost use Rattle.std.specs.Prelude.{◌≡◌};
ghost use Rattle.fst_pairs.specs.Desking.{new_worker};

use crate::same::{same, same_text};
use crate::workers::pairs::zeros;
use fst_device::{Done, MemorySlot, carry};
use fst_pairs::{Desk, Worker};
use fst_types::{Fault, Ticket};
use std::alloc::Global;
use std::process::Abort;

// The completion of ticket 1 of another cache, with another image.
fn stranger(rt: &impl Abort, alloc: Global) -> Done<MemorySlot> {
    let mut other = zeros(rt, alloc, 1);
    let job = other.first_job(rt, b"B");
    other.end();
    carry(job)
}

// A desk over one block, and its worker, which has sent nothing.
fn fresh(rt: &impl Abort, alloc: Global) -> (Desk<MemorySlot>, Worker<MemorySlot>)
    ensures { result.1 ≡ new_worker }
{
    let Ok((desk, mut workers)) = Desk::open(alloc, zeros(rt, alloc, 1).into_cache(), 1) else {
        rt.panic("the desk opens")
    };
    let Some(worker) = workers.pop() else {
        rt.panic("there is a worker")
    };
    (desk, worker)
}

// A desk over one block, to which this completion was sent in place of its worker's.
fn told(rt: &impl Abort, alloc: Global, done: Done<MemorySlot>) -> Desk<MemorySlot> {
    let (desk, worker) = fresh(rt, alloc);
    let (_jobs, mut dones, _standing) = worker.into_ends();
    let sent = dones.push(done);
    assert!(rt; sent.is_ok(), "the ring has a free place");
    desk
}

// The stray is that completion.
fn is_stranger(rt: &impl Abort, stray: Option<Done<MemorySlot>>) {
    let stray = stray.expect(rt, "there is a stray");
    same(rt, &stray.ticket(), &Ticket(1));
    same_text(rt, stray.image(), "B\0\0\0");
}

// It is handed out as the stray.
fn hands_out(rt: &impl Abort, desk: &mut Desk<MemorySlot>) {
    let collected = desk.collect();
    same(rt, &collected.settled, &0);
    is_stranger(rt, collected.stray);
}

// The desk is not closed, for this reason.
fn stays_open(rt: &impl Abort, alloc: Global, desk: Desk<MemorySlot>, expected: Fault) {
    let refused = desk
        .close(Vec::new(alloc))
        .err()
        .expect(rt, "it does not close");
    same(rt, &refused.fault, &expected);
}

// It is handed out as the stray, and the desk is not closed any more.
#[test]
fn stray_is_handed_out(rt: HostRuntime) {
    let mut desk = told(&rt, rt.alloc(), stranger(&rt, rt.alloc()));
    hands_out(&rt, &mut desk);
    stays_open(&rt, rt.alloc(), desk, Fault::Stranger);
}
