//! A graph over blocks of four bytes. The contracts here say nothing, so that a long test carries no facts from call to call,
//! and nothing here answers with an error of its own: after each `?` a test's proof has one more path, on which all that the
//! test holds is dropped.

ghost use Rattle.std.specs.Prelude.{◌≡◌, ◌<◌};

use crate::same::same;
use fst_graph::Graph;
use fst_types::{BlockNo, Fault, Grade, GroupNo, PatchNo, Place, Shape, Span};
use std::alloc::Global;
use std::marker::Model;
use std::process::Abort;

// The number of one of so many blocks.
fn one_of(rt: &impl Abort, blocks: u32, block: u32) -> BlockNo
    ensures { result.0 < blocks }
{
    assert!(rt; block < blocks);
    BlockNo(block)
}

/// A graph over some blocks.
#[derive(Drop)]
pub struct Checked {
    graph: Graph,
    blocks: u32,
}

impl Model for Checked {
    ghost use Rattle.std.specs.Prelude.{◌≡◌};

    ghost Value = { Unit {0} };

    ghost view = { λ _. tt };

    ghost invariant = { λ c. c.graph.blocks ≡ c.blocks };
}

impl Checked {
    /// No patch, over so many blocks, the numbers up to the given one counting as on disk and forgotten.
    pub fn new(rt: &impl Abort, alloc: Global, blocks: u32, numbers: u32) -> Checked {
        Checked::made(alloc, blocks, numbers).expect(rt, "there is memory")
    }

    fn made(alloc: Global, blocks: u32, numbers: u32) -> Result<Checked, Fault> {
        let shape = Shape::new(blocks, 4, blocks)?;
        let graph = Graph::new(alloc, shape, numbers)?;
        Ok(Checked { graph, blocks })
    }

    /// Lets go of it, by a call: where it is let go of in place, that is proved field by field.
    pub fn end(self) {
        drop(self);
    }

    /// A new gate.
    pub fn gate(&mut self) -> Result<PatchNo, Fault> {
        self.graph.add_gate()
    }

    /// A new empty patch.
    pub fn empty(&mut self, after: &[PatchNo]) -> Result<PatchNo, Fault> {
        self.graph.add_empty(after)
    }

    /// So many empty patches, the first of all.
    pub fn empties(&mut self, rt: &impl Abort, count: u32) {
        for before in 0..count {
            same(rt, &self.empty(&[]), &Ok(PatchNo(before.saturating_add(1))));
        }
    }

    /// A change of some bytes.
    pub fn change(
        &mut self,
        rt: &impl Abort,
        block: u32,
        span: Span,
        after: &[PatchNo],
    ) -> Result<(PatchNo, Grade), Fault> {
        let block = one_of(rt, self.blocks, block);
        self.graph.add_data(block, span, after)
    }

    /// What `room` foresees.
    pub fn room(
        &mut self,
        rt: &impl Abort,
        block: u32,
        span: Span,
        after: &[PatchNo],
    ) -> Result<(PatchNo, Grade), Fault> {
        let block = one_of(rt, self.blocks, block);
        self.graph.room(block, span, after)
    }

    /// Seals a gate.
    pub fn seal(&mut self, gate: PatchNo) -> Result<(), Fault> {
        self.graph.seal(gate)
    }

    /// A gate gains names.
    pub fn depend(&mut self, gate: PatchNo, on: &[PatchNo]) -> Result<(), Fault> {
        self.graph.depend(gate, on)
    }

    /// A new group.
    pub fn group(&mut self) -> Result<GroupNo, Fault> {
        self.graph.group_new()
    }

    /// So many groups, the first of all.
    pub fn groups(&mut self, rt: &impl Abort, count: u32) {
        for before in 0..count {
            let head = before.saturating_mul(2).saturating_add(1);
            same(rt, &self.group(), &Ok(GroupNo(head)));
        }
    }

    /// A group comes after another.
    pub fn group_after(&mut self, group: GroupNo, on: GroupNo) -> Result<(), Fault> {
        self.graph.group_after(group, on)
    }

    /// A change of some bytes for a group.
    pub fn member(
        &mut self,
        rt: &impl Abort,
        group: GroupNo,
        block: u32,
        span: Span,
    ) -> Result<(PatchNo, Grade), Fault> {
        let block = one_of(rt, self.blocks, block);
        self.graph.group_patch(group, block, span)
    }

    /// What `group_room` foresees of a change for a group.
    pub fn group_room(
        &mut self,
        rt: &impl Abort,
        group: GroupNo,
        block: u32,
        span: Span,
    ) -> Result<(PatchNo, Grade), Fault> {
        let block = one_of(rt, self.blocks, block);
        self.graph.group_room(group, block, span)
    }

    /// Closes a group.
    pub fn group_close(&mut self, group: GroupNo) -> Result<(), Fault> {
        self.graph.group_close(group)
    }

    /// Where a patch is.
    pub fn place(&self, no: PatchNo) -> Option<Place> {
        self.graph.place(no)
    }

    // Some patches are all at one place.
    fn are_at(&self, rt: &impl Abort, patches: &[PatchNo], place: Place) {
        for no in patches {
            same(rt, &(*no, self.place(*no)), &(*no, Some(place)));
        }
    }

    /// How many patches are not on disk.
    pub fn live(&self) -> u32 {
        self.graph.live()
    }

    /// Forgets the patches on disk, and answers how many they were.
    pub fn forget(&mut self) -> u32 {
        self.graph.forget()
    }

    /// The least writable block.
    pub fn pick(&mut self) -> Option<BlockNo> {
        self.graph.pick()
    }

    /// The block's writable set.
    pub fn chosen(&mut self, rt: &impl Abort, block: u32) -> Vec<PatchNo> {
        self.graph
            .chosen(BlockNo(block))
            .expect(rt, "there is memory")
    }

    /// The least hard patch that the block holds.
    pub fn held(&mut self, block: u32) -> Option<PatchNo> {
        self.graph.hard_held(BlockNo(block))
    }

    /// Puts the least writable block in flight, and answers which it is, and with which patches.
    pub fn launch_next(&mut self, rt: &impl Abort) -> Option<(BlockNo, Vec<PatchNo>)> {
        let Some(block) = self.graph.pick() else {
            return None;
        };
        let chosen = self.graph.chosen(block).expect(rt, "there is memory");
        self.graph.launch(&chosen);
        Some((block, chosen))
    }

    /// Lands what is in flight of the block.
    pub fn land(&mut self, block: u32) {
        self.graph.land(BlockNo(block));
    }

    /// Puts the least writable block in flight, which is this one, with its writable set, and lands it. The set comes back.
    pub fn write(&mut self, rt: &impl Abort, block: u32) -> Vec<PatchNo> {
        let patches = self.chosen(rt, block);
        let Some((launched, chosen)) = self.launch_next(rt) else {
            rt.panic("a block may be written")
        };
        same(
            rt,
            &(launched, chosen.as_slice()),
            &(BlockNo(block), patches.as_slice()),
        );
        self.are_at(rt, &patches, Place::Flight);
        self.land(block);
        self.are_at(rt, &patches, Place::Disk);
        patches
    }
}
