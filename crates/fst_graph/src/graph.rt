//! The patches that are not forgotten, and the groups, as the definitions have them: each change names all that it depends
//! on. What is kept of the patches (`sparse`) names less, and `rows` carries the whole rows for contracts alone; what depends
//! on what is the same by either, as far as it is live. A call of a patch alone is that of the patches with sparse rows; it
//! leaves the groups as they were, and what holds of them.

ghost use Rattle.std.specs.Prelude.{◌≡◌, ◌↔◌, ◌<◌, [], ℕ, IsTrue, Some, None, IfOk, IfErr, OnErr, IfSome, IfNone, OnOk, option_map, MatchResult, count_by};
ghost use Rattle.fst_types.specs.Patches.{Patch};
ghost use Rattle.fst_types.specs.Groups.{IsGroupGate};
ghost use Rattle.fst_types.specs.Looks.{place_of, IsPick};
ghost use Rattle.fst_types.specs.Order.{room_order, make_order, seal_order, depend_order};
ghost use Rattle.fst_types.specs.Refusals.{IsFirst};
ghost use Rattle.fst_types.specs.Writable.{IsWritableSet, HasReady, IsHeld, IsLeastHeld};
ghost use Rattle.fst_types.specs.Tests.{is_live};
ghost use Rattle.fst_types.specs.declared.grade.Grade.{Grade};
ghost use Rattle.fst_graph.specs.Known.{unprepared, prepared_for, outside_groups, Foresees, Refuses, AddsGate, AddsEmpty, AddsChange, SealsGate, DependsGate, Launches, IsStuckByGates, LandsBlock, MayLaunch, NoneFlies, Forgets};
ghost use Rattle.fst_heads.specs.Names.{numbers_of};

mod grouping;

use crate::groups::Groups;
use crate::rows::Rows;
use crate::sparse::Sparse;
use fst_types::{BlockNo, Fault, Grade, PatchNo, Place, Shape, Span};
use std::alloc::Global;
use std::marker::Model;

/// The patches as they are kept, the whole rows of their changes, and their groups.
pub struct Graph {
    sparse: Sparse,
    rows: Rows,
    groups: Groups,
}

impl Model for Graph {
    ghost use Rattle.fst_graph.specs.Known.{Known, with_groups};
    ghost use Rattle.fst_graph.specs.Rows.{whole_known};
    ghost use Rattle.fst_graph.specs.Whole.{IsHeldWhole};

    ghost Value = { Known };

    ghost view = { λ g. with_groups (whole_known g.rows.items g.sparse) g.groups.items };

    ghost invariant = { λ g. IsHeldWhole g.rows.items g.sparse g.groups.items };
}

// Written by hand, so that where a graph is dropped this one function is called, and not a drop of each part.
impl Drop for Graph {
    fn drop(self) {
        let Graph {
            sparse: _,
            rows: _,
            groups: _,
        } = self;
    }
}

impl Graph {
    /// No patch and no group, the numbers up to the given one counting as on disk and forgotten. It takes a byte and a list
    /// for each block, and is refused as `Memory`.
    pub fn new(alloc: Global, shape: Shape, numbers: u32) -> Result<Graph, Fault>
        ensures { MatchResult result (λ g. g ≡ record { heads = []; numbers = numbers; blocks = shape.blocks; groups = []; prepared = None }) (λ f. f ≡ Fault.Memory) }
    {
        let sparse = match Sparse::new(alloc, shape, numbers) {
            Ok(sparse) => sparse,
            Err(fault) => return Err(fault),
        };
        Ok(Graph {
            sparse,
            rows: Rows::none(),
            groups: Groups::new(alloc),
        })
    }

    /// How many patches are not on disk. It takes no memory.
    pub fn live(&self) -> u32
        ensures { result ≡ count_by is_live self.now.heads }
    {
        self.sparse.live()
    }

    /// Where a patch is: none for a number that was not given, the disk for one that was forgotten. It takes no memory.
    pub fn place(&self, no: PatchNo) -> Option<Place>
        ensures { result ≡ place_of self.now.heads self.now.numbers no.0 }
    {
        self.sparse.place(no)
    }

    /// A new gate, open, without dependencies. It is refused as `Full(Heads)` where 65,535 patches are not forgotten, as
    /// `Full(Numbers)` where the last number was given, and as `Memory`.
    pub fn add_gate(&mut self) -> Result<PatchNo, Fault>
        ensures ok { IfOk result (λ no. AddsGate self.old no.0 self.new) }
        ensures refused { IfErr result (Refuses (room_order self.old.heads self.old.numbers)) }
        ensures same { OnErr result (self.new ≡ unprepared self.old) }
        ensures blocks { self.new.blocks ≡ self.old.blocks }
    {
        self.sparse.add_gate()
    }

    /// A new empty patch, which depends on the named patches that are not on disk. It is on disk at once where none is.
    /// It is refused as `BadField` where more than 64 are named, as `NoPatch` where one was never given, as `Full(Heads)`
    /// and `Full(Numbers)`, and as `Memory`.
    pub fn add_empty(&mut self, after: &[PatchNo]) -> Result<PatchNo, Fault>
        ensures ok { IfOk result (λ no. AddsEmpty self.old (numbers_of after.now) no.0 self.new) }
        ensures refused { IfErr result (Refuses (make_order self.old.heads self.old.numbers (numbers_of after.now))) }
        ensures same { OnErr result (self.new ≡ unprepared self.old) }
        ensures blocks { self.new.blocks ≡ self.old.blocks }
    {
        self.sparse.add_empty(after)
    }

    /// The writable set of the block, in order of number. `Memory` is answered only where it is not empty.
    pub fn chosen(&mut self, block: BlockNo) -> Result<Vec<PatchNo>, Fault>
        ensures ok { IfOk result (λ numbers. IsWritableSet self.old.heads block.0 (numbers_of numbers.items)) }
        ensures refused { IfErr result (λ f. HasReady self.old.heads block.0 × (f ≡ Fault.Memory)) }
        ensures same { self.new ≡ unprepared self.old }
    {
        self.sparse.chosen(block)
    }

    /// Seals an open gate, and puts on disk what now rests there. It is refused as `NoPatch` where the number was not
    /// given, as `NotGate` where it is a group's gate, no gate's or forgotten, and as `Sealed`. It takes no memory.
    pub fn seal(&mut self, gate: PatchNo) -> Result<(), Fault>
        ensures ok { OnOk result (SealsGate self.old gate.0 self.new) }
        ensures front { OnOk result (IsGroupGate self.old.groups gate.0 → ⊥) }
        ensures refused { IfErr result (IsFirst (outside_groups self.old.groups gate.0 (seal_order self.old.heads self.old.numbers gate.0))) }
        ensures same { OnErr result (self.new ≡ unprepared self.old) }
        ensures blocks { self.new.blocks ≡ self.old.blocks }
    {
        if self.groups.has_gate(gate.0) {
            self.sparse.unprepare();
            return Err(Fault::NotGate);
        }
        self.sparse.seal(gate)
    }

    /// The open gate gains the named patches that are not on disk and that it does not have yet. It is refused as `NoPatch`
    /// where the gate's number was not given, as `NotGate` where it is a group's gate, no gate's or forgotten, as `Sealed`,
    /// as `BadField` where more than 64 are named, as `NoPatch` where one was never given, as `Cycle` exactly where one is
    /// the gate or depends on it, and as `Memory`.
    pub fn depend(&mut self, gate: PatchNo, on: &[PatchNo]) -> Result<(), Fault>
        ensures ok { OnOk result (DependsGate self.old gate.0 (numbers_of on.now) self.new) }
        ensures front { OnOk result (IsGroupGate self.old.groups gate.0 → ⊥) }
        ensures refused { IfErr result (Refuses (outside_groups self.old.groups gate.0 (depend_order self.old.heads self.old.numbers gate.0 (numbers_of on.now)))) }
        ensures same { OnErr result (self.new ≡ unprepared self.old) }
        ensures blocks { self.new.blocks ≡ self.old.blocks }
    {
        if self.groups.has_gate(gate.0) {
            self.sparse.unprepare();
            return Err(Fault::NotGate);
        }
        self.sparse.depend(gate, on)
    }

    /// Puts the chosen in flight, which are the writable set of a writable block. It takes no memory.
    pub fn launch(&mut self, chosen: &[PatchNo])
        requires { MayLaunch self.old (numbers_of chosen.now) }
        ensures launched { Launches self.old (numbers_of chosen.now) self.new }
        ensures blocks { self.new.blocks ≡ self.old.blocks }
    {
        self.sparse.launch(chosen);
    }

    /// Puts on disk what is in flight of the block, and what now rests there. It takes no memory.
    pub fn land(&mut self, block: BlockNo)
        ensures landed { LandsBlock self.old block.0 self.new }
        ensures blocks { self.new.blocks ≡ self.old.blocks }
    {
        self.sparse.land(block);
    }

    /// Makes room for a new change, and answers the number and the grade that `add_data` with these arguments will answer.
    /// It is refused as `add_data` is. Where the patches near the change do not tell the grade, it looks at what the
    /// change depends on and at what may hold that back, at each patch once. What is prepared is gone after any other call
    /// that may change the graph, and after a refused `room`.
    pub fn room(
        &mut self,
        block: BlockNo,
        span: Span,
        after: &[PatchNo],
    ) -> Result<(PatchNo, Grade), Fault>
        requires { block.0 < self.old.blocks }
        ensures ok { IfOk result (λ made. Foresees (unprepared self.old) block.0 span.at span.len (numbers_of after.now) made.0.0 made.1) }
        ensures prepared { IfOk result (λ made. self.new ≡ record self.old { prepared = Some (prepared_for block.0 span.at span.len (numbers_of after.now) made.0.0 made.1) }) }
        ensures refused { IfErr result (Refuses (make_order self.old.heads self.old.numbers (numbers_of after.now))) }
        ensures same { OnErr result (self.new ≡ unprepared self.old) }
        ensures blocks { self.new.blocks ≡ self.old.blocks }
    {
        self.sparse.room(block, span, after)
    }

    /// A new change of the block, which depends on the named patches that are not on disk and on the changes not on disk
    /// with which it shares a byte. It is refused as `add_empty` is. Where `room` has prepared it for these arguments, it
    /// answers what `room` did, and takes no memory.
    pub fn add_data(
        &mut self,
        block: BlockNo,
        span: Span,
        after: &[PatchNo],
    ) -> Result<(PatchNo, Grade), Fault>
        requires { block.0 < self.old.blocks }
        ensures ok { IfOk result (λ made. AddsChange (unprepared self.old) block.0 span.at span.len (numbers_of after.now) made.0.0 made.1 self.new) }
        ensures prepared { (number : ℕ) (grade : Grade) → self.old.prepared ≡ Some (prepared_for block.0 span.at span.len (numbers_of after.now) number grade) → MatchResult result (λ made. (made.0.0 ≡ number) × (made.1 ≡ grade)) (λ f. ⊥) }
        ensures refused { IfErr result (Refuses (make_order self.old.heads self.old.numbers (numbers_of after.now))) }
        ensures same { OnErr result (self.new ≡ unprepared self.old) }
        ensures blocks { self.new.blocks ≡ self.old.blocks }
    {
        let made = match self.sparse.add_data(block, span, after) {
            Ok(made) => made,
            Err(fault) => return Err(fault),
        };
        self.rows = self.rows.with(&self.sparse, made.0, block, span, after);
        Ok(made)
    }

    /// Forgets the patches on disk, and answers how many they were. It takes no memory.
    pub fn forget(&mut self) -> u32
        ensures { Forgets self.old result self.new }
    {
        self.sparse.forget()
    }

    /// The least hard patch of the block in memory outside its writable set. It takes no memory.
    pub fn hard_held(&mut self, block: BlockNo) -> Option<PatchNo>
        ensures none { IfNone result ((p : Patch) → IsHeld self.old.heads block.0 p → ⊥) }
        ensures least { IfSome result (λ no. IsLeastHeld self.old.heads block.0 no.0) }
        ensures same { self.new ≡ unprepared self.old }
    {
        self.sparse.hard_held(block)
    }

    /// Whether the writable set of the block has a change, where nothing of the block is in flight. It takes no memory, and
    /// looks at a count.
    pub fn has_ready(&self, block: BlockNo) -> bool
        ensures { NoneFlies self.now.heads block.0 → IsTrue result ↔ HasReady self.now.heads block.0 }
    {
        self.sparse.has_ready(block)
    }

    /// The least writable block, or none where no block is writable. Where nothing is in flight either, each change in
    /// memory then waits for an open gate. It takes no memory, and looks at one mark for 64 blocks, and at those of 64.
    pub fn pick(&mut self) -> Option<BlockNo>
        ensures least { IsPick self.old.heads (option_map (λ b. b.0) result) }
        ensures never_stuck { IfNone result (IsStuckByGates self.old.heads) }
        ensures same { self.new ≡ unprepared self.old }
    {
        self.sparse.pick()
    }
}
