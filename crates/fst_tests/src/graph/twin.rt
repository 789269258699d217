//! A plain twin of the graph, written from the definitions: it answers each question from all of its patches anew.

mod gates;
mod grading;
mod grouping;

use crate::graph::twin::grouping::Group;
use crate::list::push;
use fst_types::{
    BlockNo, Fault, Grade, MAX_HEADS, MAX_NAMES, MAX_NUMBER, PatchNo, Place, Span, What,
};
use std::alloc::Global;
use std::marker::Model;
use std::process::Abort;

#[derive(Clone, Copy)]
enum Kind {
    Change(BlockNo, Span, Grade),
    Empty,
    OpenGate,
    SealedGate,
}

#[derive(Drop)]
struct Patch {
    no: PatchNo,
    kind: Kind,
    place: Place,
    dependencies: Vec<PatchNo>,
}

impl Patch {
    fn is_change(&self) -> bool {
        matches!(self.kind, Kind::Change(_, _, _))
    }

    fn is_on(&self, block: BlockNo) -> bool {
        match self.kind {
            Kind::Change(on, _, _) => on == block,
            _ => false,
        }
    }

    fn is_hard(&self) -> bool {
        match self.kind {
            Kind::Change(_, _, grade) => grade == Grade::Hard,
            _ => false,
        }
    }

    fn is_live(&self) -> bool {
        self.place != Place::Disk
    }

    fn is_in_memory_on(&self, block: BlockNo) -> bool {
        self.is_on(block) && self.place == Place::Memory
    }

    fn shares_byte(&self, block: BlockNo, span: Span) -> bool {
        match self.kind {
            Kind::Change(on, own, _) => on == block
                && is_before_end(own, span)
                && is_before_end(span, own),
            _ => false,
        }
    }
}

// Whether the first span starts before the end of the second.
fn is_before_end(first: Span, second: Span) -> bool {
    u64::from(first.at) < u64::from(second.at) + u64::from(second.len)
}

/// The patches that are not forgotten, in order of number, and the groups.
#[derive(Drop)]
pub struct Twin {
    pub alloc: Global,
    patches: Vec<Patch>,
    groups: Vec<Group>,
    numbers: u32,
    pub blocks: u32,
}

impl Model for Twin {
    ghost Value = { Unit {0} };

    ghost view = { λ _. tt };
}

impl Twin {
    pub fn new(alloc: Global, blocks: u32) -> Twin {
        Twin {
            alloc,
            patches: Vec::new(alloc),
            groups: Vec::new(alloc),
            numbers: 0,
            blocks,
        }
    }

    /// Lets go of it, by a call: where it is let go of in place, that is proved field by field.
    pub fn end(self) {
        drop(self);
    }

    /// The greatest number given.
    pub fn numbers(&self) -> u32 {
        self.numbers
    }

    fn is_given(&self, no: PatchNo) -> bool {
        no.0 >= 1 && no.0 <= self.numbers
    }

    fn head(&self, no: PatchNo) -> Option<&Patch> {
        for patch in &self.patches {
            if patch.no == no {
                return Some(patch);
            }
        }
        None
    }

    /// Where a patch is.
    pub fn place(&self, no: PatchNo) -> Option<Place> {
        if !self.is_given(no) {
            return None;
        }
        match self.head(no) {
            Some(patch) => Some(patch.place),
            None => Some(Place::Disk),
        }
    }

    /// How many patches are not on disk.
    pub fn live(&self) -> usize {
        let mut live = 0usize;
        for patch in &self.patches {
            if patch.is_live() {
                live = live.saturating_add(1);
            }
        }
        live
    }

    // Puts the direct dependencies of a patch to those that were found.
    fn take_direct(&self, rt: &impl Abort, no: PatchNo, found: &mut Vec<PatchNo>) {
        if let Some(patch) = self.head(no) {
            gain(rt, found, &patch.dependencies);
        }
    }

    // All that a patch depends on: its direct dependencies, then theirs, and so on.
    fn under(&self, rt: &impl Abort, no: PatchNo) -> Vec<PatchNo> {
        let mut found = Vec::new(self.alloc);
        self.take_direct(rt, no, &mut found);
        for at in 0..self.numbers as usize {
            let Some(next) = found.get(at).copied() else {
                break;
            };
            self.take_direct(rt, next, &mut found);
        }
        found
    }

    // Why no patch can be made now.
    fn room_fault(&self) -> Option<Fault> {
        if self.patches.len() >= MAX_HEADS {
            return Some(Fault::Full(What::Heads));
        }
        if self.numbers == MAX_NUMBER {
            return Some(Fault::Full(What::Numbers));
        }
        None
    }

    // Why these cannot be named.
    fn names_fault(&self, names: &[PatchNo]) -> Option<Fault> {
        if names.len() > MAX_NAMES {
            return Some(Fault::BadField);
        }
        for no in names {
            if !self.is_given(*no) {
                return Some(Fault::NoPatch);
            }
        }
        None
    }

    // Why no patch that names these can be made now.
    fn make_fault(&self, names: &[PatchNo]) -> Option<Fault> {
        match self.names_fault(names) {
            Some(fault) => Some(fault),
            None => self.room_fault(),
        }
    }

    // A new patch in memory.
    fn push(&mut self, rt: &impl Abort, kind: Kind, dependencies: Vec<PatchNo>) -> PatchNo {
        self.numbers = self.numbers.saturating_add(1);
        let no = PatchNo(self.numbers);
        let patch = Patch {
            no,
            kind,
            place: Place::Memory,
            dependencies,
        };
        push(rt, &mut self.patches, patch);
        no
    }

    /// A new gate, or why there is none.
    pub fn try_gate(&mut self, rt: &impl Abort) -> Result<PatchNo, Fault> {
        match self.room_fault() {
            Some(fault) => Err(fault),
            None => Ok(self.add_gate(rt)),
        }
    }

    // A new gate.
    fn add_gate(&mut self, rt: &impl Abort) -> PatchNo {
        self.push(rt, Kind::OpenGate, Vec::new(self.alloc))
    }

    // The named patches that are not on disk.
    fn live_named(&self, rt: &impl Abort, names: &[PatchNo]) -> Vec<PatchNo> {
        let mut found = Vec::new(self.alloc);
        for patch in &self.patches {
            if patch.is_live() && names.contains(&patch.no) {
                push(rt, &mut found, patch.no);
            }
        }
        found
    }

    /// A new empty patch, or why there is none.
    pub fn try_empty(&mut self, rt: &impl Abort, names: &[PatchNo]) -> Result<PatchNo, Fault> {
        if let Some(fault) = self.make_fault(names) {
            return Err(fault);
        }
        let dependencies = self.live_named(rt, names);
        let no = self.push(rt, Kind::Empty, dependencies);
        self.cascade();
        Ok(no)
    }

    // The named patches that are not on disk, and the changes not on disk that share a byte.
    fn dependencies(
        &self,
        rt: &impl Abort,
        block: BlockNo,
        span: Span,
        names: &[PatchNo],
    ) -> Vec<PatchNo> {
        let mut found = Vec::new(self.alloc);
        for patch in &self.patches {
            if patch.is_live() && (names.contains(&patch.no) || patch.shares_byte(block, span)) {
                push(rt, &mut found, patch.no);
            }
        }
        found
    }

    fn set_kind(&mut self, no: PatchNo, kind: Kind) {
        for patch in &mut self.patches {
            if patch.no == no {
                patch.kind = kind;
            }
        }
    }

    /// A new change, or why there is none.
    pub fn try_data(
        &mut self,
        rt: &impl Abort,
        block: BlockNo,
        span: Span,
        names: &[PatchNo],
    ) -> Result<(PatchNo, Grade), Fault> {
        match self.make_fault(names) {
            Some(fault) => Err(fault),
            None => Ok(self.add_data(rt, block, span, names)),
        }
    }

    // A new change.
    fn add_data(
        &mut self,
        rt: &impl Abort,
        block: BlockNo,
        span: Span,
        names: &[PatchNo],
    ) -> (PatchNo, Grade) {
        let leading = self.leading(rt, block);
        let dependencies = self.dependencies(rt, block, span, names);
        let no = self.push(rt, Kind::Change(block, span, Grade::Soft), dependencies);
        let grade = self.grade_of(rt, no, block, &leading);
        self.set_kind(no, Kind::Change(block, span, grade));
        (no, grade)
    }

    /// Puts the chosen in flight.
    pub fn launch(&mut self, chosen: &[PatchNo]) {
        for patch in &mut self.patches {
            if chosen.contains(&patch.no) {
                patch.place = Place::Flight;
            }
        }
    }

    /// Puts on disk what is in flight of the block.
    pub fn land(&mut self, block: BlockNo) {
        for patch in &mut self.patches {
            if patch.is_on(block) && patch.place == Place::Flight {
                patch.place = Place::Disk;
            }
        }
        self.cascade();
    }

    // Whether this is an empty patch or a sealed gate in memory, and all its direct dependencies are on disk.
    fn may_rest(&self, patch: &Patch) -> bool {
        if !matches!(patch.kind, Kind::Empty | Kind::SealedGate) || !patch.is_live() {
            return false;
        }
        for no in &patch.dependencies {
            if self.place(*no) != Some(Place::Disk) {
                return false;
            }
        }
        true
    }

    fn next_to_rest(&self) -> Option<PatchNo> {
        for patch in &self.patches {
            if self.may_rest(patch) {
                return Some(patch.no);
            }
        }
        None
    }

    // Puts empty patches and sealed gates on disk, one after the other, until none may rest.
    fn cascade(&mut self) {
        for _ in 0..self.patches.len() {
            let Some(no) = self.next_to_rest() else {
                break;
            };
            for patch in &mut self.patches {
                if patch.no == no {
                    patch.place = Place::Disk;
                }
            }
        }
    }

    /// Forgets the patches on disk, and answers how many they were.
    pub fn forget(&mut self) -> usize {
        let before = self.patches.len();
        self.patches.retain(|patch| patch.is_live());
        before.saturating_sub(self.patches.len())
    }
}

// Puts to the row what it does not have yet.
fn gain(rt: &impl Abort, row: &mut Vec<PatchNo>, gained: &[PatchNo]) {
    for no in gained {
        if !row.contains(no) {
            push(rt, row, *no);
        }
    }
}
