//! The change that `room` made room for. It is kept whole, so that `add_data` with the same arguments only puts it
//! down, which takes no memory and is not refused.

ghost use Rattle.std.specs.Prelude.{◌≡◌, ◌↔◌, ◌<◌, List, Some, None, option_map, IsTrue, IfOk, OnOk, length, map, slice_index_or, vec_len, vec_capacity};
ghost use Rattle.fst_types.specs.Patches.{Patch};
ghost use Rattle.fst_heads.specs.Covers.{AreCovered, Covering, HasRoomForRuns};
ghost use Rattle.fst_heads.specs.Grading.{MayBeHard};
ghost use Rattle.fst_heads.specs.Heads.{patches_of};
ghost use Rattle.fst_heads.specs.Lists.{entries_of, HasRoomInList};
ghost use Rattle.fst_heads.specs.Names.{numbers_of};
ghost use Rattle.fst_heads.specs.Rows.{IsSparseRow};
ghost use Rattle.fst_walks.specs.BothEnds.{IsOver};
ghost use Rattle.fst_levels.specs.Sights.{Sees};
ghost use Rattle.fst_walks.specs.Telling.{IsTold};

use fst_heads::cover::Cover;
use fst_heads::lists::Listed;
use fst_heads::row::Row;
use fst_heads::sparse::{Wanted, sparse_row};
use fst_levels::sight::Sight;
use fst_types::{Fault, PatchNo, Span};
use fst_walks::ends::Ends;
use fst_walks::grade::grade_of;
use fst_walks::graded::Graded;
use std::alloc::{AllocError, Global};

/// The gates of a group.
#[derive(Clone, Copy)]
pub struct Gates {
    pub head: u32,
    pub tail: u32,
}

/// A change that is not made yet: its arguments, what it will depend on, what is told of it, and the gates of the group for
/// which it is made, if there is one.
#[derive(Drop)]
pub struct Prepared {
    pub block: u32,
    pub span: Span,
    pub names: Vec<PatchNo>,
    pub dependencies: Row,
    pub told: Graded,
    pub gates: Option<Gates>,
}

impl Prepared {
    /// Whether it has these arguments, and is for no group.
    pub fn is_for(&self, block: u32, span: Span, names: &[PatchNo]) -> bool
        ensures { IsTrue result ↔ ((self.now.block ≡ block) × (self.now.span ≡ span) × (self.now.names.items ≡ names.now) × (self.now.gates ≡ None)) }
    {
        if self.gates.is_some() {
            return false;
        }
        self.block == block && self.span == span && self.names.as_slice() == names
    }

    /// Whether it has these arguments, and is for the group with that head.
    pub fn is_for_group(&self, head: u32, block: u32, span: Span) -> bool
        ensures { IsTrue result ↔ ((self.now.block ≡ block) × (self.now.span ≡ span) × (option_map (λ g. g.head) self.now.gates ≡ Some head)) }
    {
        match self.gates {
            Some(gates) => gates.head == head && self.block == block && self.span == span,
            None => false,
        }
    }
}

/// Nothing is prepared any more. What was is let go of here, and so nowhere else.
pub fn let_go(prepared: &mut Option<Prepared>)
    ensures { prepared.new ≡ None }
{
    *prepared = None;
}

/// That change is prepared.
pub fn keep(prepared: &mut Option<Prepared>, change: Prepared)
    ensures { prepared.new ≡ Some change }
{
    *prepared = Some(change);
}

/// The change is given up for want of memory.
pub fn given_up(change: Prepared) -> Fault
    ensures { result ≡ Fault.Memory }
{
    drop(change);
    Fault::Memory
}

/// The same names.
pub fn copy_of(alloc: Global, names: &[PatchNo]) -> Result<Vec<PatchNo>, AllocError>
    ensures { IfOk result (λ copy. copy.items ≡ names.now) }
{
    let mut copy = Vec::new(alloc);
    copy.extend_from_slice(names)?;
    Ok(copy)
}

/// The change of the span that these names and the heads make. What was met and crossed before does not matter.
pub fn prepare(
    alloc: Global,
    sight: &Sight<'_>,
    ends: &mut Ends,
    block: u32,
    span: Span,
    names: &[PatchNo],
) -> Result<Prepared, AllocError>
    requires sees { Sees sight.now }
    requires up { IsOver sight.now.heads.now.list.items (length sight.now.lists.now) ends.old.up }
    requires down { IsOver sight.now.heads.now.list.items (length sight.now.lists.now) ends.old.down }
    requires block { block < length sight.now.lists.now }
    ensures block { IfOk result (λ p. p.block ≡ block) }
    ensures span { IfOk result (λ p. p.span ≡ span) }
    ensures names { IfOk result (λ p. p.names.items ≡ names.now) }
    ensures depends { IfOk result (λ p. IsSparseRow (patches_of sight.now.heads.now.list.items) (numbers_of names.now) block span.at span.len p.dependencies.items) }
    ensures told { IfOk result (λ p. IsTold (patches_of sight.now.heads.now.list.items) block p.dependencies.items (MayBeHard (patches_of sight.now.heads.now.list.items) None block p.dependencies.items) p.told) }
    ensures gates { IfOk result (λ p. p.gates ≡ None) }
    ensures up { IsOver sight.now.heads.now.list.items (length sight.now.lists.now) ends.new.up }
    ensures down { IsOver sight.now.heads.now.list.items (length sight.now.lists.now) ends.new.down }
{
    let kept = match copy_of(alloc, names) {
        Ok(kept) => kept,
        Err(error) => return Err(error),
    };
    let list = &sight.lists[block as usize];
    let cover = &sight.covers[block as usize];
    let wanted = Wanted { block, span, names };
    let dependencies = match sparse_row(alloc, sight.heads, list, cover, &wanted) {
        Ok(dependencies) => dependencies,
        Err(error) => return Err(error),
    };
    let row = dependencies.as_slice();
    let told = grade_of(sight, ends, block, row, None);
    Ok(Prepared {
        block,
        span,
        names: kept,
        dependencies,
        told,
        gates: None,
    })
}

/// Room for one more change of the block.
pub fn reserve_on(
    lists: &mut Vec<Vec<Listed>>,
    covers: &mut Vec<Cover>,
    block: u32,
) -> Result<(), AllocError>
    requires list { block < length lists.old.items }
    requires cover { block < length covers.old.items }
    ensures entries { map (λ l. entries_of l.items) lists.new.items ≡ map (λ l. entries_of l.items) lists.old.items }
    ensures covered { (heads : List Patch) → AreCovered heads (length covers.old.items) covers.old.items → AreCovered heads (length covers.old.items) covers.new.items }
    ensures in_list { OnOk result (HasRoomInList (map (λ l. vec_len l) lists.new.items) (map (λ l. vec_capacity l) lists.new.items) block) }
    ensures runs { OnOk result ((d : Covering) → HasRoomForRuns (slice_index_or covers.new.items block d)) }
{
    lists[block as usize].reserve(1)?;
    covers[block as usize].reserve()
}
