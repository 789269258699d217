//! What the twin may write, and how it grades a new change.

use crate::graph::twin::{Kind, Patch, Twin};
use crate::list::push;
use fst_types::{BlockNo, Grade, PatchNo, Place};
use std::process::Abort;

impl Twin {
    // Whether an open gate is among these.
    fn has_open_gate(&self, under: &[PatchNo]) -> bool {
        for gate in &self.patches {
            if matches!(gate.kind, Kind::OpenGate) && under.contains(&gate.no) {
                return true;
            }
        }
        false
    }

    // Whether each change among these is on disk, or in memory on the block.
    fn needs_nothing_else(&self, under: &[PatchNo], block: BlockNo) -> bool {
        for need in &self.patches {
            if need.is_change()
                && need.is_live()
                && !need.is_in_memory_on(block)
                && under.contains(&need.no)
            {
                return false;
            }
        }
        true
    }

    fn is_in_writable_set(&self, rt: &impl Abort, patch: &Patch, block: BlockNo) -> bool {
        if !patch.is_in_memory_on(block) {
            return false;
        }
        let under = self.under(rt, patch.no);
        !self.has_open_gate(&under) && self.needs_nothing_else(&under, block)
    }

    /// The writable set of a block.
    pub fn chosen(&self, rt: &impl Abort, block: BlockNo) -> Vec<PatchNo> {
        let mut chosen = Vec::new(self.alloc);
        for patch in &self.patches {
            if self.is_in_writable_set(rt, patch, block) {
                push(rt, &mut chosen, patch.no);
            }
        }
        chosen
    }

    /// The least hard patch of a block in memory that is not in its writable set.
    pub fn hard_held(&self, rt: &impl Abort, block: BlockNo) -> Option<PatchNo> {
        for patch in &self.patches {
            if patch.is_in_memory_on(block)
                && patch.is_hard()
                && !self.is_in_writable_set(rt, patch, block)
            {
                return Some(patch.no);
            }
        }
        None
    }

    fn is_flying(&self, block: BlockNo) -> bool {
        for patch in &self.patches {
            if patch.is_on(block) && patch.place == Place::Flight {
                return true;
            }
        }
        false
    }

    fn is_writable(&self, rt: &impl Abort, block: BlockNo) -> bool {
        !self.is_flying(block)
            && !self.chosen(rt, block).is_empty()
            && self.hard_held(rt, block).is_none()
    }

    /// The least writable block.
    pub fn pick(&self, rt: &impl Abort) -> Option<BlockNo> {
        for block in 0..self.blocks {
            if self.is_writable(rt, BlockNo(block)) {
                return Some(BlockNo(block));
            }
        }
        None
    }

    // Whether a patch depends on a change of the block that is not on disk.
    fn has_live_need(&self, rt: &impl Abort, no: PatchNo, block: BlockNo) -> bool {
        let under = self.under(rt, no);
        for need in &self.patches {
            if need.is_on(block) && need.is_live() && under.contains(&need.no) {
                return true;
            }
        }
        false
    }

    // Whether the block graph has an edge: some hard patch of the one block in memory has a live need on the other.
    fn has_edge(&self, rt: &impl Abort, from: BlockNo, to: BlockNo) -> bool {
        if from == to {
            return false;
        }
        for hard in &self.patches {
            if hard.is_in_memory_on(from) && hard.is_hard() && self.has_live_need(rt, hard.no, to) {
                return true;
            }
        }
        false
    }

    // Puts the blocks with an edge to the block to those that were found.
    fn take_edges(&self, rt: &impl Abort, to: BlockNo, found: &mut Vec<BlockNo>) {
        for block in 0..self.blocks {
            let from = BlockNo(block);
            if !found.contains(&from) && self.has_edge(rt, from, to) {
                push(rt, found, from);
            }
        }
    }

    // The blocks from which edges lead to the block.
    pub(super) fn leading(&self, rt: &impl Abort, block: BlockNo) -> Vec<BlockNo> {
        let mut found = Vec::new(self.alloc);
        self.take_edges(rt, block, &mut found);
        for at in 0..self.blocks as usize {
            let Some(next) = found.get(at).copied() else {
                break;
            };
            self.take_edges(rt, next, &mut found);
        }
        found
    }

    // Whether a patch has a live need off the block, which has a live need on it.
    fn returns(&self, rt: &impl Abort, no: PatchNo, block: BlockNo) -> bool {
        let under = self.under(rt, no);
        for away in &self.patches {
            if away.is_change()
                && !away.is_on(block)
                && away.is_live()
                && under.contains(&away.no)
                && self.has_live_need(rt, away.no, block)
            {
                return true;
            }
        }
        false
    }

    // Whether one of these blocks, other than the patch's own, holds a live need of it.
    fn needs_one_of(
        &self,
        rt: &impl Abort,
        no: PatchNo,
        block: BlockNo,
        blocks: &[BlockNo],
    ) -> bool {
        for other in blocks {
            if *other != block && self.has_live_need(rt, no, *other) {
                return true;
            }
        }
        false
    }

    // The grade of a new patch. `leading` are the blocks from which edges led to its own before it came.
    pub(super) fn grade_of(
        &self,
        rt: &impl Abort,
        no: PatchNo,
        block: BlockNo,
        leading: &[BlockNo],
    ) -> Grade {
        if self.has_open_gate(&self.under(rt, no))
            || self.returns(rt, no, block)
            || self.needs_one_of(rt, no, block, leading)
        {
            return Grade::Soft;
        }
        Grade::Hard
    }
}
