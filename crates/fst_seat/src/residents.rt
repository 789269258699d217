//! Which blocks are in memory and which of those are dirty, so that a place for one more is found without a look at any
//! block.
//!
//! The blocks stand in their places in three runs: the dirty ones first, then the clean ones in memory, then those that are
//! not in memory. Two counts tell where each run ends. A hand goes around the clean ones (the clock algorithm): the one at
//! the hand is evicted next, and the block that comes into memory stands in the place of the one that left, which the hand
//! has passed. A block that becomes dirty goes from the clean ones to the dirty ones, and the others stay on their side of
//! the hand; one that becomes clean again comes to the clean ones where they begin, before the hand.
//!
//! Whether a block is in memory changes by a load or an eviction alone, and whether it is dirty where a change is put into
//! it or a write of it lands; all else changes seat by seat, in many ways: so this stands beside the seats, which it does
//! not own, and its value says of each block whether it is in memory and whether it is dirty.

ghost use Rattle.std.specs.Prelude.{◌≡◌, ℕ, true, false, Some, IfOk, IfErr, MatchOption, nat_lt, replicate, count_by, slice_get, slice_set};
ghost use Rattle.fst_types.specs.declared.fault.Fault.{Fault};
ghost use Rattle.fst_seat.specs.Places.{IsCleanResident};

use crate::places::Places;
use fst_types::Fault;
use std::alloc::Global;
use std::marker::Model;

/// The blocks in memory, and how many they may be.
#[derive(Drop)]
pub struct Residents {
    most: u32,
    places: Places,
    dirty: usize,
    count: usize,
    hand: usize,
}

impl Model for Residents {
    ghost use Rattle.fst_seat.specs.Places.{ResidentsView, are_first, StandInRuns};

    ghost Value = { ResidentsView };

    ghost view = { λ a. record { most = a.most; loaded = are_first a.count a.places; dirty = are_first a.dirty a.places } };

    ghost invariant = { λ a. StandInRuns a.places a.dirty a.hand a.count };
}

impl Residents {
    /// None of so many blocks is in memory. All memory is taken here.
    pub fn new(alloc: Global, most: u32, blocks: usize) -> Result<Residents, Fault>
        ensures none { IfOk result (λ residents. residents ≡ record { most = most; loaded = replicate blocks false; dirty = replicate blocks false }) }
        ensures only_memory { IfErr result (λ fault. fault ≡ Fault.Memory) }
    {
        let Ok(places) = Places::new(alloc, blocks) else {
            return Err(Fault::Memory);
        };
        Ok(Residents {
            most,
            places,
            dirty: 0,
            count: 0,
            hand: 0,
        })
    }

    /// Whether fewer blocks are dirty than may be in memory.
    pub fn has_room(&self) -> bool
        ensures { result ≡ nat_lt (count_by (λ dirty. dirty) self.now.dirty) self.now.most }
    {
        self.dirty < self.most as usize
    }

    /// Whether fewer blocks are in memory than may be.
    pub fn has_place(&self) -> bool
        ensures { result ≡ nat_lt (count_by (λ there. there) self.now.loaded) self.now.most }
    {
        self.count < self.most as usize
    }

    /// The next clean block in memory, as the hand goes around. No block is looked at.
    pub fn clean(&self) -> Option<usize>
        ensures { MatchOption result
            ((block : ℕ) → IsCleanResident self.now block → ⊥)
            (λ block. IsCleanResident self.now block) }
    {
        if self.dirty >= self.count {
            return None;
        }
        let place = if self.hand < self.count {
            self.hand
        } else {
            self.dirty
        };
        Some(self.places.block_at(place))
    }

    /// The block comes into memory, clean, in the place that the hand is at, and the hand goes on to the next: it comes to
    /// all others before this one.
    fn add(&mut self, block: usize)
        requires { slice_get self.old.loaded block ≡ Some false }
        ensures { self.new ≡ record self.old { loaded = slice_set self.old.loaded block true } }
    {
        let from = self.places.place_of(block);
        self.places.exchange(from, self.count);
        self.places.exchange(self.count, self.hand);
        self.count += 1;
        self.hand += 1;
    }

    /// The block, which is not dirty, leaves the memory, where it is there. The hand stops at its place.
    pub fn remove(&mut self, block: usize)
        requires { slice_get self.old.dirty block ≡ Some false }
        ensures { self.new ≡ record self.old { loaded = slice_set self.old.loaded block false } }
    {
        let from = self.places.place_of(block);
        if from >= self.count {
            return;
        }
        self.count -= 1;
        self.places.exchange(from, self.count);
        self.hand = from;
    }

    /// Whether the block, which was not in memory, is there now.
    pub fn note(&mut self, block: usize, there: bool)
        requires { slice_get self.old.loaded block ≡ Some false }
        ensures { self.new ≡ record self.old { loaded = slice_set self.old.loaded block there } }
    {
        if there {
            self.add(block);
        }
    }

    /// The block, which is in memory, is dirty now. Of the other clean ones those that the hand has passed stay before it,
    /// and those that it has not stay after it.
    fn mark_dirty(&mut self, block: usize)
        requires { slice_get self.old.loaded block ≡ Some true }
        ensures { self.new ≡ record self.old { dirty = slice_set self.old.dirty block true } }
    {
        let from = self.places.place_of(block);
        if from < self.dirty {
            return;
        }
        let passed = from.min(self.hand);
        self.places.exchange(from, passed);
        self.places.exchange(passed, self.dirty);
        self.dirty += 1;
        self.hand = self.hand.max(passed + 1);
    }

    /// The block, which is in memory, is clean now. Where it was dirty, the hand has passed it: it comes to all others that
    /// it has not passed before this one.
    fn mark_clean(&mut self, block: usize)
        requires { slice_get self.old.loaded block ≡ Some true }
        ensures { self.new ≡ record self.old { dirty = slice_set self.old.dirty block false } }
    {
        let from = self.places.place_of(block);
        if from >= self.dirty {
            return;
        }
        self.dirty -= 1;
        self.places.exchange(from, self.dirty);
    }

    /// Whether the block, which is in memory, is dirty now.
    pub fn note_dirty(&mut self, block: usize, is_dirty: bool)
        requires { slice_get self.old.loaded block ≡ Some true }
        ensures { self.new ≡ record self.old { dirty = slice_set self.old.dirty block is_dirty } }
    {
        if is_dirty {
            self.mark_dirty(block);
        } else {
            self.mark_clean(block);
        }
    }
}
