//! A cache over slots in memory, each call of which is compared with the answer that the test names. The contracts here
//! say nothing, so that a long test carries no facts from call to call, and nothing here answers with a `Result`: after
//! each `?` a test's proof has one more path, on which all that the test holds is dropped.

use crate::same::{
    same, same_answer, same_block, same_bytes, same_change, same_count, same_fault, same_patches,
    same_stat, same_ticket,
};
use fst_cache::{Cache, Flight, Share, Stat};
use fst_device::{Done, Job, MemorySlot, carry};
use fst_types::{BlockNo, Fault, Grade, PatchNo, Place, Settled, Shape};
use std::alloc::Global;
use std::marker::Model;
use std::process::Abort;

// The completion is of no write that is out.
fn is_stranger(rt: &impl Abort, fault: Fault) {
    same_fault(rt, Some(fault), Fault::Stranger);
    same_count(rt, fault.number() as usize, 14);
}

// The ticket, the block and the image of a completion.
fn is_done(rt: &impl Abort, done: &Done<MemorySlot>, ticket: u64, block: u32, image: &[u8]) {
    same_ticket(rt, done.ticket(), ticket);
    same_block(rt, Some(done.block()), Some(BlockNo(block)));
    same_bytes(rt, done.image(), image);
}

/// A cache, and the share of the one thread that makes its patches.
#[derive(Drop)]
pub struct Checked {
    cache: Cache<MemorySlot>,
    share: Share,
}

impl Model for Checked {
    ghost Value = { Unit {0} };

    ghost view = { λ _. tt };
}

impl Checked {
    fn new(rt: &impl Abort, opened: Option<Cache<MemorySlot>>) -> Checked {
        let mut cache = opened.expect(rt, "the cache opens");
        let share = cache.share();
        Checked { cache, share }
    }

    /// Over these slots.
    pub fn open(
        rt: &impl Abort,
        alloc: Global,
        shape: Option<Shape>,
        slots: Vec<MemorySlot>,
    ) -> Checked {
        let shape = shape.expect(rt, "the shape is within its limits");
        Checked::new(rt, Cache::open(alloc, shape, slots).ok())
    }

    /// Over these slots, with so many numbers and tickets used.
    pub fn open_at(
        rt: &impl Abort,
        alloc: Global,
        shape: Option<Shape>,
        slots: Vec<MemorySlot>,
        numbers: u32,
        tickets: u64,
    ) -> Checked {
        let shape = shape.expect(rt, "the shape is within its limits");
        Checked::new(
            rt,
            Cache::open_at(alloc, shape, slots, numbers, tickets).ok(),
        )
    }

    /// Lets go of it, by a call: where it is let go of in place, that is proved field by field.
    pub fn end(self) {
        drop(self);
    }

    /// What the cache's type keeps is at hand.
    pub fn headline(&self) {
        self.cache.headline();
    }

    /// A change of some bytes.
    pub fn patch(
        &mut self,
        rt: &impl Abort,
        block: u32,
        at: u32,
        bytes: &[u8],
        after: &[PatchNo],
        expected: Result<(PatchNo, Grade), Fault>,
    ) {
        let made = self
            .cache
            .patch(&mut self.share, BlockNo(block), at, bytes, after);
        same_change(rt, made, expected);
    }

    /// A new gate.
    pub fn gate(&mut self, rt: &impl Abort, expected: Result<PatchNo, Fault>) {
        same(rt, &self.cache.gate(&mut self.share), &expected);
    }

    /// A new empty patch.
    pub fn empty(&mut self, rt: &impl Abort, after: &[PatchNo], expected: Result<PatchNo, Fault>) {
        same(rt, &self.cache.empty(&mut self.share, after), &expected);
    }

    /// A gate gains names.
    pub fn depend(
        &mut self,
        rt: &impl Abort,
        gate: u32,
        on: &[PatchNo],
        expected: Result<(), Fault>,
    ) {
        same_answer(rt, self.cache.depend(PatchNo(gate), on), expected);
    }

    /// Seals a gate.
    pub fn seal(&mut self, rt: &impl Abort, gate: u32, expected: Result<(), Fault>) {
        same_answer(rt, self.cache.seal(PatchNo(gate)), expected);
    }

    /// A block leaves memory.
    pub fn evict(&mut self, rt: &impl Abort, block: u32, expected: Result<(), Fault>) {
        same_answer(rt, self.cache.evict(BlockNo(block)), expected);
    }

    /// How many patches the share counts.
    pub fn made(&self, rt: &impl Abort, expected: usize) {
        same_count(rt, self.share.made() as usize, expected);
    }

    /// Where a patch is.
    pub fn place(&self, rt: &impl Abort, no: u32, expected: Option<Place>) {
        same(rt, &(no, self.cache.place(PatchNo(no))), &(no, expected));
    }

    /// The block that waits for a retry.
    pub fn stalled(&self, rt: &impl Abort, expected: Option<BlockNo>) {
        same_block(rt, self.cache.stalled(), expected);
    }

    /// The least writable block.
    pub fn pick(&mut self, rt: &impl Abort, expected: Option<BlockNo>) {
        same_block(rt, self.cache.pick(), expected);
    }

    /// How many blocks there are.
    pub fn blocks(&self, rt: &impl Abort, expected: usize) {
        same_count(rt, self.cache.blocks() as usize, expected);
    }

    /// Forgets so many patches.
    pub fn forget(&mut self, rt: &impl Abort, expected: usize) {
        same_count(rt, self.cache.forget() as usize, expected);
    }

    /// What the cache counts.
    pub fn stat(&self) -> Stat {
        self.cache.stat()
    }

    /// What the cache counts is this.
    pub fn counts(&self, rt: &impl Abort, expected: Stat) {
        same_stat(rt, self.cache.stat(), expected);
    }

    /// The block's writable set.
    pub fn chosen(&mut self, rt: &impl Abort, block: u32, expected: &[PatchNo]) {
        let chosen = self
            .cache
            .choose(BlockNo(block))
            .expect(rt, "there is memory");
        same_patches(rt, BlockNo(block), &chosen, expected);
    }

    /// The block has these bytes.
    pub fn shows(&mut self, rt: &impl Abort, block: u32, expected: &[u8]) {
        let shown = self.cache.show(BlockNo(block)).expect(rt, "it is shown");
        same_bytes(rt, shown, expected);
    }

    /// The block is not shown, for this reason.
    pub fn show_refused(&mut self, rt: &impl Abort, block: u32, expected: Fault) {
        same_fault(rt, self.cache.show(BlockNo(block)).err(), expected);
    }

    /// A write that is sent out.
    pub fn issue(&mut self, rt: &impl Abort, block: u32) -> Job<MemorySlot> {
        self.cache
            .issue(BlockNo(block))
            .ok()
            .expect(rt, "it goes out")
    }

    /// A write is sent out, and is of no use any more.
    pub fn goes_out(&mut self, rt: &impl Abort, block: u32) {
        drop(self.issue(rt, block));
    }

    /// A write is not sent out, for this reason.
    pub fn issue_refused(&mut self, rt: &impl Abort, block: u32, expected: Fault) {
        same_fault(rt, self.cache.issue(BlockNo(block)).err(), expected);
    }

    /// A write that is sent out again, under this ticket.
    pub fn retry(&mut self, rt: &impl Abort, block: u32) -> Job<MemorySlot> {
        self.cache
            .retry(BlockNo(block))
            .ok()
            .expect(rt, "it goes out again")
    }

    /// The write of the block that is out.
    pub fn flight(&self, rt: &impl Abort, block: u32) -> Flight<'_> {
        self.cache
            .flight(BlockNo(block))
            .expect(rt, "a write of the block is out")
    }

    /// Carries a job, and the cache settles it.
    pub fn settle(&mut self, rt: &impl Abort, job: Job<MemorySlot>, expected: Settled) {
        same(rt, &self.cache.settle(carry(job)).ok(), &Some(expected));
    }

    /// The cache hands a completion back as a stranger, as it came: of this ticket, block and image.
    pub fn hand_back(
        &mut self,
        rt: &impl Abort,
        done: Done<MemorySlot>,
        ticket: u64,
        block: u32,
        image: &[u8],
    ) {
        let (done, fault) = self
            .cache
            .settle(done)
            .err()
            .expect(rt, "a stranger is not accepted");
        is_stranger(rt, fault);
        is_done(rt, &done, ticket, block, image);
        drop(done);
    }
}
