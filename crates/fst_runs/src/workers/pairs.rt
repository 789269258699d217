//! A desk and its workers on one thread: who gets a job, and rings that are full.

mod calls;
pub mod checked;
mod closing;
mod failing;
mod strange;

use crate::list::push;
use crate::same::same;
use crate::store::Store;
use crate::workers::pairs::checked::Checked;
use fst_cache::Share;
use fst_device::{BlockSlot, MemorySlot};
use fst_pairs::{Desk, Step, Worker};
use fst_types::{BlockNo, Ticket};
use std::alloc::{Allocator, Global};
use std::process::Abort;

// A cache of so many blocks of four zeros.
fn zeros(rt: &impl Abort, alloc: Global, blocks: u32) -> Store<MemorySlot> {
    Store::zeros(rt, alloc, blocks, 4)
}

// A desk over this cache, and its workers.
pub fn opened<S: BlockSlot>(
    rt: &impl Abort,
    alloc: Global,
    store: Store<S>,
    workers: u32,
) -> (Desk<S>, Vec<Worker<S>>) {
    Desk::open(alloc, store.into_cache(), workers)
        .ok()
        .expect(rt, "the desk opens")
}

// A desk opens over this cache. It is let go of here, and not in each test.
fn opens<S: BlockSlot>(rt: &impl Abort, alloc: Global, store: Store<S>, workers: u32) {
    opened(rt, alloc, store, workers);
}

// The last of these workers.
fn last<S: BlockSlot>(rt: &impl Abort, workers: &mut Vec<Worker<S>>) -> Worker<S> {
    workers.pop().expect(rt, "there is a worker")
}

// A desk over blocks of zeros with one worker.
fn with_one(rt: &impl Abort, alloc: Global, blocks: u32) -> Checked<MemorySlot> {
    Checked::open(rt, alloc, zeros(rt, alloc, blocks))
}

// A change of the first byte of each block.
pub fn patch_all<S: BlockSlot>(
    rt: &impl Abort,
    desk: &mut Desk<S>,
    share: &mut Share,
    blocks: u32,
) {
    for block in 0..blocks {
        let made = desk.patch(share, BlockNo(block), 0, b"A", &[]);
        assert!(rt; made.is_ok(), "block {block} has a change");
    }
}

pub fn submits<S: BlockSlot, A: Allocator>(
    rt: &impl Abort,
    desk: &mut Desk<S, A>,
    expected: Option<Ticket>,
) {
    let sent = desk.submit().expect(rt, "no refusal");
    same(rt, &sent, &expected);
}

// Writes are sent under these tickets, each the next one.
fn submits_each<S: BlockSlot>(rt: &impl Abort, desk: &mut Desk<S>, first: u64, end: u64) {
    for ticket in first..end {
        submits(rt, desk, Some(Ticket(ticket)));
    }
}

fn steps<S: BlockSlot>(rt: &impl Abort, worker: &mut Worker<S>, expected: Step) {
    same(rt, &worker.step(), &expected);
}

// The desk takes in so many completions, and no stray.
fn collects<S: BlockSlot>(rt: &impl Abort, desk: &mut Desk<S>, settled: u32) {
    let collected = desk.collect();
    same(rt, &collected.settled, &settled);
    assert!(rt; collected.stray.is_none());
}

// This share, in a list.
pub fn only(rt: &impl Abort, alloc: Global, share: Share) -> Vec<Share> {
    let mut shares = Vec::new(alloc);
    push(rt, &mut shares, share);
    shares
}

// A worker that makes no room for completions holds the ninth, until the desk collects.
#[test]
fn held_completion(rt: HostRuntime) {
    let mut desk = with_one(&rt, rt.alloc(), 17);
    desk.patch_all(&rt, 17);
    desk.submits_each(&rt, 1, 9);
    desk.submits(&rt, None);
    desk.writes_each(&rt, 1, 9);
    desk.submits_each(&rt, 9, 17);
    desk.steps(&rt, Step::Held(Ticket(9)));
    desk.submits(&rt, Some(Ticket(17)));
    desk.collects(&rt, 8);
    desk.steps(&rt, Step::Wrote(Ticket(9)));
    desk.end();
}

// Two workers make the writes of three tickets, and the desk takes them in.
fn share_three<S: BlockSlot>(
    rt: &impl Abort,
    desk: &mut Desk<S>,
    first: &mut Worker<S>,
    second: &mut Worker<S>,
) {
    let mut share = desk.share();
    patch_all(rt, desk, &mut share, 3);
    submits_each(rt, desk, 1, 4);
    steps(rt, second, Step::Wrote(Ticket(2)));
    steps(rt, second, Step::Idle);
    steps(rt, first, Step::Wrote(Ticket(1)));
    steps(rt, first, Step::Wrote(Ticket(3)));
    collects(rt, desk, 3);
}

// The second worker gets the second job, and the first the third.
#[test]
fn jobs_go_to_the_roomiest(rt: HostRuntime) {
    let store = zeros(&rt, rt.alloc(), 3);
    let (mut desk, mut workers) = opened(&rt, rt.alloc(), store, 2);
    let mut second = last(&rt, &mut workers);
    let mut first = last(&rt, &mut workers);
    share_three(&rt, &mut desk, &mut first, &mut second);
}
