//! The patches that are not forgotten, without the groups. What stands beside them tells what may be written, so that most
//! calls look at the patches that they touch, and at those that depend on these. Between two calls of its own a call of a
//! group has no group as it should be, so that the groups and what holds of them stand a layer above, in the graph.

ghost use Rattle.std.specs.Prelude.{◌≡◌, ◌↔◌, [], None, length, IsTrue, IfOk, IfErr, OnErr, IfSome, IfNone, OnOk, option_map, MatchResult, count_by};
ghost use Rattle.fst_types.specs.Patches.{Patch};
ghost use Rattle.fst_types.specs.Looks.{place_of, IsPick};
ghost use Rattle.fst_types.specs.Order.{seal_order, depend_order};
ghost use Rattle.fst_types.specs.Refusals.{IsFirst};
ghost use Rattle.fst_types.specs.Writable.{IsWritableSet, HasReady, IsHeld, IsLeastHeld};
ghost use Rattle.fst_types.specs.Tests.{is_live};
ghost use Rattle.fst_graph.specs.Known.{unprepared, Refuses, SealsGate, DependsGate, Launches, NoneFlies, IsStuckByGates, LandsBlock, MayLaunch};
ghost use Rattle.fst_heads.specs.Names.{numbers_of};

mod adding;
mod forgetting;
mod grouping;
mod making;
mod pairs;
mod reserving;

use crate::columns::Columns;
use crate::gates::{depend_fault, gain_names, gate_index};
use crate::prepared::{Prepared, let_go};
use fst_heads::cascade::{cascade, seal_at};
use fst_heads::choice::{first_held, ready_set};
use fst_heads::cover::{Cover, clear_landed, empty_covers};
use fst_heads::heads::Heads;
use fst_heads::launch::launch;
use fst_heads::lists::{Listed, empty_lists, land_block};
use fst_heads::places::block_of;
use fst_heads::row::is_given;
use fst_heads::standings::Standings;
use fst_levels::ancestors::renew;
use fst_levels::levels::Levels;
use fst_levels::needs::Needs;
use fst_levels::sight::Sight;
use fst_levels::sink::{sink_floor, sink_over};
use fst_types::{BlockNo, Fault, PatchNo, Place, Shape};
use fst_walks::ends::Ends;
use std::alloc::{AllocError, Global};
use std::marker::Model;

/// `columns` has the heads: those of the patches that are not forgotten, and so many as `forgotten` says of patches that are, each
/// marked so; and what has a place for each of them. Its walks' marks have two places for each block, and its levels a floor.
/// `needs` has what each block needs, `lists` for each block its changes that are not on disk, and `standings` the mark of each.
/// `landed` has the numbers of the patches on disk that are not forgotten, and a place for each head.
/// Where a change is prepared, there is a free place for it in each. `live` is how many of the patches are not on disk.
#[derive(Drop)]
pub struct Sparse {
    alloc: Global,
    columns: Columns,
    needs: Needs,
    lists: Vec<Vec<Listed>>,
    covers: Vec<Cover>,
    standings: Standings,
    landed: Vec<u32>,
    live: usize,
    forgotten: usize,
    numbers: u32,
    blocks: u16,
    prepared: Option<Prepared>,
}

impl Model for Sparse {
    ghost use Rattle.fst_graph.specs.Known.{Known};

    ghost Value = { Known };

    ghost use Rattle.fst_graph.specs.Sound.{AreRemembered, AreSound, view_of};

    ghost view = { view_of };

    ghost invariant = { λ s. AreSound s × AreRemembered s.columns.heads.list.items s.landed s.forgotten s.prepared };
}

impl Sparse {
    /// No patch, the numbers up to the given one counting as on disk and forgotten. It takes a byte and a list for each
    /// block, and is refused as `Memory`.
    pub fn new(alloc: Global, shape: Shape, numbers: u32) -> Result<Sparse, Fault>
        ensures { MatchResult result (λ g. g ≡ record { heads = []; numbers = numbers; blocks = shape.blocks; groups = []; prepared = None }) (λ f. f ≡ Fault.Memory) }
    {
        // What is let go of in one piece comes first, since each refusal lets go of what is there.
        let Ok(standings) = Standings::new(alloc, shape.blocks) else {
            return Err(Fault::Memory);
        };
        let Ok(lists) = empty_lists(alloc, shape.blocks) else {
            return Err(Fault::Memory);
        };
        let Ok(covers) = empty_covers(alloc, shape.blocks) else {
            return Err(Fault::Memory);
        };
        let Ok(levels) = Levels::new(alloc, shape.blocks) else {
            return Err(Fault::Memory);
        };
        let Ok(needs) = Needs::new(alloc, shape.blocks) else {
            return Err(Fault::Memory);
        };
        let Ok(ends) = Ends::new(alloc, shape.blocks) else {
            return Err(Fault::Memory);
        };
        Ok(Sparse {
            alloc,
            columns: Columns {
                heads: Heads::new(alloc),
                ends,
                levels,
                queue: Vec::new(alloc),
            },
            needs,
            lists,
            covers,
            standings,
            landed: Vec::new(alloc),
            live: 0,
            forgotten: 0,
            numbers,
            blocks: shape.blocks as u16,
            prepared: None,
        })
    }

    /// What is prepared is prepared no more.
    pub fn unprepare(&mut self)
        ensures { self.new ≡ unprepared self.old }
    {
        let_go(&mut self.prepared);
    }

    // How many patches are not forgotten.
    pub(crate) fn standing(&self) -> usize
        ensures { result ≡ length self.now.heads }
    {
        self.columns.heads.list.len() - self.forgotten
    }

    /// How many patches are not on disk. It takes no memory.
    pub fn live(&self) -> u32
        ensures { result ≡ count_by is_live self.now.heads }
    {
        self.live as u32
    }

    /// Where a patch is: none for a number that was not given, the disk for one that was forgotten. It takes no memory.
    pub fn place(&self, no: PatchNo) -> Option<Place>
        ensures { result ≡ place_of self.now.heads self.now.numbers no.0 }
    {
        if !is_given(self.numbers, no.0) {
            return None;
        }
        match self.columns.levels.find(&self.columns.heads, no.0) {
            Some(index) => Some(self.columns.heads.list[index].place),
            None => Some(Place::Disk),
        }
    }

    /// The writable set of the block, in order of number. `Memory` is answered only where it is not empty.
    pub fn chosen(&mut self, block: BlockNo) -> Result<Vec<PatchNo>, Fault>
        ensures ok { IfOk result (λ numbers. IsWritableSet self.old.heads block.0 (numbers_of numbers.items)) }
        ensures refused { IfErr result (λ f. HasReady self.old.heads block.0 × (f ≡ Fault.Memory)) }
        ensures same { self.new ≡ unprepared self.old }
    {
        let_go(&mut self.prepared);
        let Some(list) = self.lists.get(block.0 as usize) else {
            return Ok(Vec::new(self.alloc));
        };
        let standing = self.standings.at(block.0);
        ready_set(self.alloc, &self.columns.heads, list, standing, block.0)
    }

    // As `seal`, but what was put behind the gate stays at the top.
    fn seal_alone(&mut self, gate: PatchNo) -> Result<(), Fault>
        ensures ok { OnOk result (SealsGate self.old gate.0 self.new) }
        ensures refused { IfErr result (IsFirst (seal_order self.old.heads self.old.numbers gate.0)) }
        ensures same { OnErr result (self.new ≡ unprepared self.old) }
        ensures blocks { self.new.blocks ≡ self.old.blocks }
    {
        let_go(&mut self.prepared);
        let index = match gate_index(&self.columns.heads, self.numbers, gate.0) {
            Ok(index) => index,
            Err(fault) => return Err(fault),
        };
        seal_at(
            &mut self.columns.heads,
            &mut self.columns.queue,
            gate.0,
            index,
        );
        let landed = cascade(
            &mut self.columns.heads,
            &mut self.columns.queue,
            &mut self.standings,
            &mut self.landed,
        );
        self.columns.levels.lower(&self.columns.heads, index);
        // The tail gate of a group gained its changes without a look at its ancestors, and gains no more.
        renew(&mut self.columns.levels, &self.columns.heads, gate.0);
        self.live -= landed;
        Ok(())
    }

    // What was put behind a gate comes down from the top, where the gate has: then levels tell of it again.
    pub(crate) fn come_down(&mut self, gate: u32)
        ensures { self.new ≡ self.old }
    {
        sink_over(
            &mut self.columns.levels,
            &self.columns.heads,
            &mut self.columns.ends.up.walk,
            gate,
        );
    }

    /// Seals an open gate, and puts on disk what now rests there. It is refused as `NoPatch` where the number was not
    /// given, as `NotGate` where it is no gate's or forgotten, and as `Sealed`. It takes no memory.
    pub fn seal(&mut self, gate: PatchNo) -> Result<(), Fault>
        ensures ok { OnOk result (SealsGate self.old gate.0 self.new) }
        ensures refused { IfErr result (IsFirst (seal_order self.old.heads self.old.numbers gate.0)) }
        ensures same { OnErr result (self.new ≡ unprepared self.old) }
        ensures blocks { self.new.blocks ≡ self.old.blocks }
    {
        let sealed = self.seal_alone(gate);
        if sealed.is_ok() {
            self.come_down(gate.0);
        }
        sealed
    }

    /// The open gate gains the named patches that are not on disk and that it does not have yet. It is refused as
    /// `NoPatch` where the gate's number was not given, as `NotGate` where it is no gate's or forgotten, as `Sealed`, as
    /// `BadField` where more than 64 are named, as `NoPatch` where one was never given, as `Cycle` exactly where one is
    /// the gate or depends on it, and as `Memory`.
    pub fn depend(&mut self, gate: PatchNo, on: &[PatchNo]) -> Result<(), Fault>
        ensures ok { OnOk result (DependsGate self.old gate.0 (numbers_of on.now) self.new) }
        ensures refused { IfErr result (Refuses (depend_order self.old.heads self.old.numbers gate.0 (numbers_of on.now))) }
        ensures same { OnErr result (self.new ≡ unprepared self.old) }
        ensures blocks { self.new.blocks ≡ self.old.blocks }
    {
        let_go(&mut self.prepared);
        let sight = Sight {
            heads: &self.columns.heads,
            lists: &self.lists,
            covers: &self.covers,
            levels: &self.columns.levels,
            needs: &self.needs,
        };
        if let Some(fault) = depend_fault(
            &sight,
            &mut self.columns.ends,
            self.numbers,
            gate.0,
            on,
        ) {
            return Err(fault);
        }
        let Ok(()) = gain_names(self.alloc, &mut self.columns.heads, gate.0, on) else {
            return Err(Fault::Memory);
        };
        renew(&mut self.columns.levels, &self.columns.heads, gate.0);
        Ok(())
    }

    /// Puts the chosen in flight, which are the writable set of a writable block. It takes no memory.
    pub fn launch(&mut self, chosen: &[PatchNo])
        requires { MayLaunch self.old (numbers_of chosen.now) }
        ensures launched { Launches self.old (numbers_of chosen.now) self.new }
        ensures blocks { self.new.blocks ≡ self.old.blocks }
    {
        let_go(&mut self.prepared);
        let Some(first) = chosen.first() else {
            return;
        };
        let Some(block) = block_of(&self.columns.heads, first.0) else {
            return;
        };
        launch(
            &mut self.columns.heads,
            &mut self.columns.queue,
            chosen,
            block,
        );
        self.standings.launch(block);
        self.needs.clear(block);
    }

    /// Puts on disk what is in flight of the block, and what now rests there. It takes no memory.
    pub fn land(&mut self, block: BlockNo)
        ensures landed { LandsBlock self.old block.0 self.new }
        ensures blocks { self.new.blocks ≡ self.old.blocks }
    {
        let_go(&mut self.prepared);
        land_block(
            &mut self.columns.heads,
            &mut self.lists,
            &mut self.columns.queue,
            self.standings.at(block.0),
            block.0,
        );
        clear_landed(&mut self.covers, &self.lists, block.0);
        self.standings.land(block.0);
        self.needs.land(block.0);
        let landed = cascade(
            &mut self.columns.heads,
            &mut self.columns.queue,
            &mut self.standings,
            &mut self.landed,
        );
        self.live -= landed;
        sink_floor(&mut self.columns.levels, &self.lists, block.0);
    }

    /// The least hard patch of the block in memory outside its writable set. It takes no memory.
    pub fn hard_held(&mut self, block: BlockNo) -> Option<PatchNo>
        ensures none { IfNone result ((p : Patch) → IsHeld self.old.heads block.0 p → ⊥) }
        ensures least { IfSome result (λ no. IsLeastHeld self.old.heads block.0 no.0) }
        ensures same { self.new ≡ unprepared self.old }
    {
        let_go(&mut self.prepared);
        let Some(list) = self.lists.get(block.0 as usize) else {
            return None;
        };
        let standing = self.standings.at(block.0);
        let Some(no) = first_held(&self.columns.heads, list, standing, block.0) else {
            return None;
        };
        self.standings.note_held(block.0, no.0);
        Some(no)
    }

    /// Whether the writable set of the block has a change, where nothing of the block is in flight. It takes no memory.
    pub fn has_ready(&self, block: BlockNo) -> bool
        ensures { NoneFlies self.now.heads block.0 → IsTrue result ↔ HasReady self.now.heads block.0 }
    {
        self.standings.at(block.0).ready > 0
    }

    /// The least writable block, or none where no block is writable. Where nothing is in flight either, each change in
    /// memory then waits for an open gate. It takes no memory, and looks at one mark for 64 blocks, and at those of 64.
    pub fn pick(&mut self) -> Option<BlockNo>
        ensures least { IsPick self.old.heads (option_map (λ b. b.0) result) }
        ensures never_stuck { IfNone result (IsStuckByGates self.old.heads) }
        ensures same { self.new ≡ unprepared self.old }
    {
        let_go(&mut self.prepared);
        self.standings.least_marked()
    }
}
