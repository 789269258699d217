//! A desk with one worker, each call of which is compared with the answer that the test names. Contracts see nothing of it,
//! so that a long test carries no facts from call to call.

use crate::same::same;
use crate::store::Store;
use crate::workers::pairs::{
    collects, last, only, opened, patch_all, steps, submits, submits_each,
};
use fst_cache::Share;
use fst_device::BlockSlot;
use fst_pairs::{Desk, Step, Totals, Worker};
use fst_types::{BlockNo, Fault, Ticket};
use std::alloc::Global;
use std::marker::Model;
use std::process::Abort;

/// A desk, its worker, and the share of the one thread that makes its patches.
#[derive(Drop)]
pub struct Checked<S: BlockSlot> {
    pub desk: Desk<S>,
    pub worker: Worker<S>,
    pub share: Share,
}

impl<S: BlockSlot> Model for Checked<S> {
    ghost Value = { Unit {0} };

    ghost view = { λ _. tt };
}

// What was made, sent and landed, and what stalled or was lost.
fn counts<S: BlockSlot>(rt: &impl Abort, totals: &Totals<S>, expected: (u64, u64, u64, u64)) {
    let counted = (totals.made, totals.sent, totals.landed, totals.stalled);
    same(rt, &counted, &expected);
}

// What a desk that closes adds up.
fn closed<S: BlockSlot>(rt: &impl Abort, alloc: Global, desk: Desk<S>, share: Share) -> Totals<S> {
    desk.close(only(rt, alloc, share))
        .ok()
        .expect(rt, "the desk closes")
}

impl<S: BlockSlot> Checked<S> {
    /// Over this cache.
    pub fn open(rt: &impl Abort, alloc: Global, store: Store<S>) -> Checked<S> {
        let (mut desk, mut workers) = opened(rt, alloc, store, 1);
        let worker = last(rt, &mut workers);
        let share = desk.share();
        Checked {
            desk,
            worker,
            share,
        }
    }

    /// Lets go of it. What that takes is proved here, and not in each test.
    pub fn end(self) {}

    /// A change of the first byte of each of the first blocks.
    pub fn patch_all(&mut self, rt: &impl Abort, blocks: u32) {
        patch_all(rt, &mut self.desk, &mut self.share, blocks);
    }

    /// No change of the block is made, for this reason.
    pub fn patch_refused(&mut self, rt: &impl Abort, block: u32, expected: Fault) {
        let made = self
            .desk
            .patch(&mut self.share, BlockNo(block), 0, b"B", &[]);
        same(rt, &made.err(), &Some(expected));
    }

    /// The next write is sent under this ticket, or none is.
    pub fn submits(&mut self, rt: &impl Abort, expected: Option<Ticket>) {
        submits(rt, &mut self.desk, expected);
    }

    /// Writes are sent under these tickets, each the next one.
    pub fn submits_each(&mut self, rt: &impl Abort, first: u64, end: u64) {
        submits_each(rt, &mut self.desk, first, end);
    }

    /// What a step of the worker does.
    pub fn steps(&mut self, rt: &impl Abort, expected: Step) {
        steps(rt, &mut self.worker, expected);
    }

    /// The worker makes the writes of these tickets.
    pub fn writes_each(&mut self, rt: &impl Abort, first: u64, end: u64) {
        for ticket in first..end {
            self.steps(rt, Step::Wrote(Ticket(ticket)));
        }
    }

    /// The desk takes in so many completions, and no stray.
    pub fn collects(&mut self, rt: &impl Abort, settled: u32) {
        collects(rt, &mut self.desk, settled);
    }

    /// The worker makes the write of this ticket, and the desk takes it in.
    pub fn write_one(&mut self, rt: &impl Abort, ticket: u64) {
        self.steps(rt, Step::Wrote(Ticket(ticket)));
        self.collects(rt, 1);
    }

    /// The block that waits for a retry.
    pub fn stalled(&self, rt: &impl Abort, expected: Option<BlockNo>) {
        same(rt, &self.desk.stalled(), &expected);
    }

    /// What it answers where the write of a block is to be sent again.
    pub fn resubmits(
        &mut self,
        rt: &impl Abort,
        block: u32,
        expected: Result<Option<Ticket>, Fault>,
    ) {
        same(rt, &self.desk.resubmit(BlockNo(block)), &expected);
    }

    /// The desk closes: what was made, sent and landed, and what stalled or was lost. The cache is handed out.
    pub fn closes(
        self,
        rt: &impl Abort,
        alloc: Global,
        expected: (u64, u64, u64, u64),
    ) -> Store<S> {
        let Checked {
            desk,
            worker: _,
            share,
        } = self;
        let totals = closed(rt, alloc, desk, share);
        counts(rt, &totals, expected);
        Store::new(totals.cache)
    }
}
