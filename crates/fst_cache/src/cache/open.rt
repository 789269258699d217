//! Opening a cache over its slots.

ghost use Rattle.std.specs.Prelude.{◌≡◌, ◌≢◌, ◌⊎◌, ◌↔◌, IsTrue, IfOk, IfErr, MatchOption, Some, None, false, length, map};
ghost use Rattle.fst_types.specs.declared.fault.Fault.{Fault};
ghost use Rattle.fst_types.specs.Order.{IsMisplaced, IsMissized, open_order};
ghost use Rattle.fst_types.specs.Refusals.{IsFirst, NoneHolds};
ghost use Rattle.fst_types.specs.Opening.{opening};

use crate::cache::Cache;
use crate::contents::Contents;
use crate::share::Share;
use fst_device::BlockSlot;
use fst_graph::Graph;
use fst_seat::seats::Seats;
use fst_types::{Fault, Shape};
use std::alloc::Global;

/// Whether the slots are not one for each block, or one does not stand at its place.
fn is_misplaced<S: BlockSlot>(slots: &[S], blocks: u32) -> bool
    ensures { IsTrue result ↔ ((length (map S.index slots.now) ≢ blocks) ⊎ IsMisplaced (map S.index slots.now)) }
{
    if slots.len() != blocks as usize {
        return true;
    }
    for (at, slot) in slots.iter().enumerate() {
        if slot.index().0 as usize != at {
            return true;
        }
    }
    false
}

/// Whether a slot has another size.
fn is_missized<S: BlockSlot>(slots: &[S], size: u32) -> bool
    ensures { IsTrue result ↔ IsMissized size (map S.size slots.now) }
{
    for slot in slots {
        if slot.size() != size {
            return true;
        }
    }
    false
}

/// Why no cache is opened over the slots.
fn open_fault<S: BlockSlot>(shape: Shape, slots: &[S]) -> Option<Fault>
    ensures { MatchOption result
        (NoneHolds (open_order shape.blocks shape.size (map S.index slots.now) (map S.size slots.now)))
        (λ fault. IsFirst (open_order shape.blocks shape.size (map S.index slots.now) (map S.size slots.now)) fault) }
{
    if is_misplaced(slots, shape.blocks) {
        return Some(Fault::NoBlock);
    }
    if is_missized(slots, shape.size) {
        return Some(Fault::BadSpan);
    }
    None
}

impl<S: BlockSlot> Cache<S> {
    /// A cache of these slots, in which nothing was made. It reads no slot, and keeps `alloc` for what it takes later.
    ///
    /// The slots come back with `NoBlock` where they are not one for each block, each at its place, with `BadSpan`
    /// where one has another size, and with `Memory` where a place for each could not be had.
    pub fn open(alloc: Global, shape: Shape, slots: Vec<S>) -> Result<Cache<S>, (Vec<S>, Fault)>
        ensures opened { IfOk result (λ cache. cache ≡ record {
          state = opening shape.size shape.resident 0 0 (map S.held slots.items);
          homes = map (λ slot. Some (S.held slot)) slots.items;
          faults = map S.faults slots.items;
          resident = map (λ slot. false) slots.items;
          back = map (λ slot. None) slots.items;
        }) }
        ensures fits { IfOk result (λ cache. NoneHolds (open_order shape.blocks shape.size (map S.index slots.items) (map S.size slots.items))) }
        ensures back { IfErr result (λ e. e.0.items ≡ slots.items) }
        ensures refused { IfErr result (λ e.
            IsFirst (open_order shape.blocks shape.size (map S.index slots.items) (map S.size slots.items)) e.1
            ⊎ (NoneHolds (open_order shape.blocks shape.size (map S.index slots.items) (map S.size slots.items)) × (e.1 ≡ Fault.Memory))) }
    {
        Cache::open_at(alloc, shape, slots, 0, 0)
    }

    /// The same, the numbers and the tickets up to the given ones counting as used: patches with those numbers are on
    /// disk and forgotten.
    pub fn open_at(
        alloc: Global,
        shape: Shape,
        slots: Vec<S>,
        numbers: u32,
        tickets: u64,
    ) -> Result<Cache<S>, (Vec<S>, Fault)>
        ensures opened { IfOk result (λ cache. cache ≡ record {
          state = opening shape.size shape.resident numbers tickets (map S.held slots.items);
          homes = map (λ slot. Some (S.held slot)) slots.items;
          faults = map S.faults slots.items;
          resident = map (λ slot. false) slots.items;
          back = map (λ slot. None) slots.items;
        }) }
        ensures fits { IfOk result (λ cache. NoneHolds (open_order shape.blocks shape.size (map S.index slots.items) (map S.size slots.items))) }
        ensures back { IfErr result (λ e. e.0.items ≡ slots.items) }
        ensures refused { IfErr result (λ e.
            IsFirst (open_order shape.blocks shape.size (map S.index slots.items) (map S.size slots.items)) e.1
            ⊎ (NoneHolds (open_order shape.blocks shape.size (map S.index slots.items) (map S.size slots.items)) × (e.1 ≡ Fault.Memory))) }
    {
        if let Some(fault) = open_fault(shape, &slots) {
            return Err((slots, fault));
        }
        let Ok(graph) = Graph::new(alloc, shape, numbers) else {
            return Err((slots, Fault::Memory));
        };
        match Seats::new(alloc, shape.resident, slots) {
            Err(slots) => Err((slots, Fault::Memory)),
            Ok(seats) => Ok(Cache {
                size: shape.size,
                tickets,
                made: 0,
                undo: 0,
                graph,
                contents: Contents::none(),
                seats,
            }),
        }
    }

    /// A count of one thread's patches, from 0. It takes no memory.
    pub fn share(&mut self) -> Share
        ensures share { result ≡ 0 }
        ensures same { self.new ≡ self.old }
    {
        Share::new()
    }
}
