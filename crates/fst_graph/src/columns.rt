//! The heads, and what has a place for each of them. It knows no block and no refusal.

ghost use Rattle.std.specs.Prelude.{◌≡◌, ◌≢◌, ◌≤◌, ◌<◌, ◌+◌, ◌∷◌, [], ℕ, Contains, OnOk, OnErr, count_by, length, map, vec_len, vec_capacity};
ghost use Rattle.std.specs.List.Sorted.{IsStrictlyIncreasing};
ghost use Rattle.fst_types.specs.Facts.{SparseAreLawful};
ghost use Rattle.fst_types.specs.Limits.{max_heads, max_number};
ghost use Rattle.fst_types.specs.Patches.{IsOpenGate, Patch};
ghost use Rattle.fst_heads.specs.Frames.{HasRoomBelow};
ghost use Rattle.fst_heads.specs.Heads.{kind_of, patches_of};
ghost use Rattle.fst_heads.specs.Nodes.{HasRoomAbove, nodes_of, pending_in};
ghost use Rattle.fst_heads.specs.Pendings.{joined, of_kind};
ghost use Rattle.fst_heads.specs.Spreading.{is_waiting};
ghost use Rattle.fst_graph.specs.Fresh.{patch_from, HasPlaces, AddsTwo, HasOneMore, IsAdded, IsNewest, IsRoomier};
ghost use Rattle.fst_levels.specs.Leveling.{IsLeveled, level_of, no_ancestry, top_level};

use crate::fresh::{Fresh, gate, pending_over, row_of};
use fst_heads::head::{Head, Kind};
use fst_heads::heads::Heads;
use fst_heads::links::{link, reserve_above};
use fst_heads::pending::Pending;
use fst_heads::row::row_sums;
use fst_levels::ancestors::ancestry_over;
use fst_levels::levels::{Ancestry, Levels, Rank, TOP, no_ancestry};
use fst_walks::ends::Ends;
use smallvec::SmallVec;
use std::alloc::{AllocError, Global};

/// The heads in order of number, and beside each of them a mark of either walk, its rank, and a place in the queue of those whose
/// dependants are to be notified.
#[derive(Drop)]
pub struct Columns {
    pub heads: Heads,
    pub ends: Ends,
    pub levels: Levels,
    pub queue: Vec<u32>,
}

// How high a new patch stands that is no change.
fn level_over(levels: &Levels, heads: &Heads, fresh: &Fresh) -> u32
    ensures over { (q : ℕ) → Contains fresh.now.dependencies.items q → level_of levels.now.ranks q ≤ top_level → level_of levels.now.ranks q ≤ result }
    ensures top { IsOpenGate (patch_from fresh.now) → result ≡ top_level }
{
    match fresh.kind {
        Kind::OpenGate => TOP,
        Kind::Change(_, _, _) | Kind::Empty | Kind::SealedGate => {
            levels.greatest(heads, fresh.dependencies.as_slice())
        }
    }
}

impl Columns {
    /// Room for so many heads more, and nothing else.
    pub fn reserve(&mut self, more: u32) -> Result<(), AllocError>
        ensures same { self.new.heads.list.items ≡ self.old.heads.list.items }
        ensures roomier { IsRoomier self.old self.new }
        ensures places { OnOk result (HasPlaces more self.new) }
        ensures queue { OnOk result (vec_len self.new.heads.list + more ≤ vec_capacity self.new.queue) }
    {
        self.heads.reserve(more)?;
        self.ends.reserve(more)?;
        self.levels.reserve(more)?;
        self.queue.reserve(self.heads.list.len() + more as usize)
    }

    /// Puts down the head of a new patch at that level and with that ancestry, for which there is room, and answers what is
    /// pending of it.
    pub fn put_down(
        &mut self,
        alloc: Global,
        fresh: Fresh,
        level: u32,
        ancestry: Ancestry,
    ) -> Pending
        requires newest { IsNewest fresh.number self.old }
        requires once { IsStrictlyIncreasing fresh.dependencies.items }
        requires above { HasRoomAbove self.old.heads.list.items fresh.dependencies.items }
        requires places { HasPlaces 1 self.old }
        requires few { count_by is_waiting (nodes_of self.old.heads.list.items) ≤ max_heads }
        ensures put { HasOneMore (patch_from fresh) level ancestry self.old self.new }
        ensures pending { result ≡ of_kind (kind_of fresh.kind) fresh.place (joined (pending_in (nodes_of self.old.heads.list.items)) fresh.dependencies.items) }
        ensures len { vec_len self.new.heads.list ≡ vec_len self.old.heads.list + 1 }
        ensures places { (more : ℕ) → HasPlaces (more + 1) self.old → HasPlaces more self.new }
        ensures below { (n : ℕ) → n ≢ fresh.number → HasRoomBelow self.old.heads.list.items n → HasRoomBelow self.new.heads.list.items n }
        ensures above { HasRoomAbove self.new.heads.list.items (fresh.number ∷ []) }
    {
        let row = fresh.dependencies.as_slice();
        let sums = row_sums(&self.heads, row);
        let pending = pending_over(&fresh, sums.joined());
        let rank = Rank {
            number: fresh.number,
            level,
            ancestry,
            hard_over: 0,
        };
        link(&mut self.heads, row, fresh.number);
        self.heads.push(Head {
            number: fresh.number,
            kind: fresh.kind,
            place: fresh.place,
            forgotten: false,
            dependencies: fresh.dependencies,
            sums,
            pending,
            dependants: SmallVec::new(alloc),
        });
        self.ends.grow();
        self.levels.grow(rank);
        pending
    }

    /// Makes room for a new patch that is no change, and puts its head down.
    pub fn add_one(&mut self, alloc: Global, fresh: Fresh) -> Result<(), AllocError>
        requires newest { IsNewest fresh.number self.old }
        requires once { IsStrictlyIncreasing fresh.dependencies.items }
        requires leveled { IsLeveled (patches_of self.old.heads.list.items) (length self.old.levels.floors) self.old.levels }
        requires given { 0 < fresh.number }
        requires few { count_by is_waiting (nodes_of self.old.heads.list.items) ≤ max_heads }
        ensures added { OnOk result (IsAdded (patch_from fresh) self.old self.new) }
        ensures roomier { OnErr result (IsRoomier self.old self.new) }
    {
        self.reserve(1)?;
        reserve_above(&mut self.heads, fresh.dependencies.as_slice())?;
        let level = level_over(&self.levels, &self.heads, &fresh);
        let row = fresh.dependencies.as_slice();
        let ancestry = ancestry_over(&self.levels, &self.heads, row, fresh.number);
        self.put_down(alloc, fresh, level, ancestry);
        Ok(())
    }

    /// Makes room for two new gates, and puts their heads down. They have the next two numbers, and the second depends on the
    /// first.
    pub fn add_two(&mut self, alloc: Global, numbers: u32) -> Result<(), AllocError>
        requires lawful { SparseAreLawful (patches_of self.old.heads.list.items) numbers }
        requires newest { IsNewest (numbers + 1) self.old }
        requires given { numbers + 2 ≤ max_number }
        requires few { count_by is_waiting (nodes_of self.old.heads.list.items) < max_heads }
        ensures added { OnOk result (AddsTwo numbers self.old self.new) }
        ensures roomier { OnErr result (IsRoomier self.old self.new) }
    {
        self.reserve(2)?;
        let number = numbers + 1;
        let head = gate(number, SmallVec::new(alloc));
        self.put_down(alloc, head, TOP, no_ancestry());
        let tail = gate(number + 1, row_of(alloc, number));
        self.put_down(alloc, tail, TOP, no_ancestry());
        Ok(())
    }
}
