//! The two walks of a search from both ends, which are over the same heads and blocks, and whether they meet.

ghost use Rattle.std.specs.Prelude.{◌≡◌, ◌≤◌, ◌<◌, ◌+◌, ◌++◌, ◌∷◌, [], ℕ, false, length, Contains, IfNone, IfOk, IfSome, OnOk, slice_index_or};
ghost use Rattle.fst_heads.specs.Indices.{HasIndex};
ghost use Rattle.fst_walks.specs.BothEnds.{IsOver};
ghost use Rattle.fst_walks.specs.Descending.{Visited};
ghost use Rattle.fst_levels.specs.Sights.{Sees};
ghost use Rattle.fst_levels.specs.Walks.{numbers_met};

use crate::block_walk::BlockWalk;
use fst_levels::sight::Sight;
use fst_levels::walk::Walk;
use std::alloc::{AllocError, Global};

/// The walk up and the walk down.
#[derive(Drop)]
pub struct Ends {
    pub up: BlockWalk,
    pub down: BlockWalk,
}

/// How many patches each of the two has looked at.
#[derive(Clone, Copy)]
pub struct Looked {
    pub up: usize,
    pub down: usize,
}

/// The index of what the walk met at that turn or later, and the other has met too.
pub(crate) fn meets(sight: &Sight<'_>, walk: &Walk, other: &Walk, from: usize) -> Option<usize>
    requires sees { Sees sight.now }
    requires walk { length walk.now.marks ≡ length sight.now.heads.now.list.items }
    requires other { Visited sight.now.heads.now.list.items other.now }
    ensures met { IfSome result (λ index. (n : ℕ) × HasIndex sight.now.heads.now.list.items n index × Contains (numbers_met sight.now.heads.now.list.items walk.now) n × Contains (numbers_met sight.now.heads.now.list.items other.now) n) }
    ensures apart { IfNone result ((at : ℕ) → from ≤ at → at < length walk.now.met → Contains (numbers_met sight.now.heads.now.list.items other.now) (slice_index_or (numbers_met sight.now.heads.now.list.items walk.now) at 0) → ⊥) }
{
    for at in from..walk.len() {
        let index = walk.index_at(at);
        if other.has_met(index) {
            return Some(index);
        }
    }
    None
}

/// At which turn a walk is looked at from its end: the one before `deep`, or the last where all from there on was looked at
/// from its beginning.
pub(crate) fn turn_from_end(deep: usize, first: usize, len: usize) -> usize
    requires first { first < len }
    requires deep { deep ≤ len }
    ensures { result < len }
{
    if deep <= first { len - 1 } else { deep - 1 }
}

// A walk over no head.
fn empty_walk(alloc: Global, blocks: u32) -> Result<BlockWalk, AllocError>
    ensures { IfOk result (IsOver [] blocks) }
{
    let crossed = vec![in alloc; false; blocks as usize]?;
    Ok(BlockWalk {
        walk: Walk::new(alloc),
        crossed,
    })
}

impl Ends {
    /// Walks over no head. They take a byte for each block, both.
    pub fn new(alloc: Global, blocks: u32) -> Result<Ends, AllocError>
        ensures { IfOk result (λ ends. IsOver [] blocks ends.up × IsOver [] blocks ends.down) }
    {
        let up = empty_walk(alloc, blocks)?;
        let down = empty_walk(alloc, blocks)?;
        Ok(Ends { up, down })
    }

    /// Room for so many heads more.
    pub fn reserve(&mut self, more: u32) -> Result<(), AllocError>
        ensures marks { (self.new.up.walk.marks ≡ self.old.up.walk.marks) × (self.new.down.walk.marks ≡ self.old.down.walk.marks) }
        ensures crossed { (self.new.up.crossed ≡ self.old.up.crossed) × (self.new.down.crossed ≡ self.old.down.crossed) }
        ensures room { OnOk result ((length self.new.up.walk.marks + more ≤ self.new.up.walk.room) × (length self.new.down.walk.marks + more ≤ self.new.down.walk.room)) }
    {
        self.up.walk.reserve(more)?;
        self.down.walk.reserve(more)
    }

    /// One head more, for which there is room.
    pub fn grow(&mut self)
        requires up { length self.old.up.walk.marks < self.old.up.walk.room }
        requires down { length self.old.down.walk.marks < self.old.down.walk.room }
        ensures marks { (self.new.up.walk.marks ≡ self.old.up.walk.marks ++ false ∷ []) × (self.new.down.walk.marks ≡ self.old.down.walk.marks ++ false ∷ []) }
        ensures crossed { (self.new.up.crossed ≡ self.old.up.crossed) × (self.new.down.crossed ≡ self.old.down.crossed) }
        ensures room { (self.new.up.walk.room ≡ self.old.up.walk.room) × (self.new.down.walk.room ≡ self.old.down.walk.room) }
    {
        self.up.walk.grow();
        self.down.walk.grow();
    }

    /// Only so many heads are left. Nothing was met then.
    pub fn shrink(&mut self, heads: usize)
        requires up { heads ≤ length self.old.up.walk.marks }
        requires down { heads ≤ length self.old.down.walk.marks }
        ensures marks { (length self.new.up.walk.marks ≡ heads) × (length self.new.down.walk.marks ≡ heads) }
        ensures crossed { (self.new.up.crossed ≡ self.old.up.crossed) × (self.new.down.crossed ≡ self.old.down.crossed) }
    {
        self.up.walk.shrink(heads);
        self.down.walk.shrink(heads);
    }
}
