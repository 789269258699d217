//! A cache over slots in memory, each call of which is compared with the answer that the test names. Contracts see nothing
//! of it: a test that held a `Cache` would be proved at each call with all that a cache keeps.

use crate::same::same;
use crate::slots::zero_slots;
use fst_cache::{Cache, Share, Stat};
use fst_device::{BlockSlot, Job, MemorySlot, carry};
use fst_types::{BlockNo, Shape};
use std::alloc::Global;
use std::marker::Model;
use std::process::Abort;

/// A cache, and the share of the one thread that makes its patches.
#[derive(Drop)]
pub struct Store<S: BlockSlot> {
    pub cache: Cache<S>,
    pub share: Share,
}

impl<S: BlockSlot> Model for Store<S> {
    ghost Value = { Unit {0} };

    ghost view = { λ _. tt };
}

impl<S: BlockSlot> Store<S> {
    /// This cache.
    pub fn new(cache: Cache<S>) -> Store<S> {
        let mut cache = cache;
        let share = cache.share();
        Store { cache, share }
    }

    /// Over these slots.
    pub fn over(rt: &impl Abort, alloc: Global, slots: Vec<S>, shape: Option<Shape>) -> Store<S> {
        let shape = shape.expect(rt, "the shape is within its limits");
        let cache = Cache::open(alloc, shape, slots)
            .ok()
            .expect(rt, "the cache opens");
        Store::new(cache)
    }

    /// Lets go of it. What that takes is proved here, and not in each test.
    pub fn end(self) {}

    /// The cache.
    pub fn into_cache(self) -> Cache<S> {
        self.cache
    }

    /// What it counts.
    pub fn stat(&self) -> Stat {
        self.cache.stat()
    }

    /// What it counts is this.
    pub fn counts(&self, rt: &impl Abort, expected: Stat) {
        same(rt, &self.cache.stat(), &expected);
    }

    /// It counts so many live patches.
    pub fn has_live(&self, rt: &impl Abort, expected: u32) {
        same(rt, &self.cache.stat().live, &expected);
    }

    /// This block waits for a retry.
    pub fn is_stalled(&self, rt: &impl Abort, block: u32) {
        same(rt, &self.cache.stalled(), &Some(BlockNo(block)));
    }
}

impl Store<MemorySlot> {
    /// Over so many blocks of so many zeros.
    pub fn zeros(rt: &impl Abort, alloc: Global, blocks: u32, size: u32) -> Store<MemorySlot> {
        let slots = zero_slots(rt, alloc, blocks, size);
        Store::over(rt, alloc, slots, Shape::new(blocks, size, blocks).ok())
    }

    /// A change of the first block.
    pub fn change(&mut self, rt: &impl Abort, bytes: &[u8]) {
        let made = self.cache.patch(&mut self.share, BlockNo(0), 0, bytes, &[]);
        assert!(rt; made.is_ok(), "the block has a change");
    }

    /// The first write, that of this change of the first block.
    pub fn first_job(&mut self, rt: &impl Abort, bytes: &[u8]) -> Job<MemorySlot> {
        self.change(rt, bytes);
        self.cache.issue(BlockNo(0)).ok().expect(rt, "it goes out")
    }

    /// The write of a job is made, and settled.
    pub fn settles(&mut self, rt: &impl Abort, job: Job<MemorySlot>) {
        assert!(rt; self.cache.settle(carry(job)).is_ok());
    }
}
