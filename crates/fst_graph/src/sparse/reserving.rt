//! Room for a change: every growth that putting it down takes.

ghost use Rattle.std.specs.Prelude.{◌≡◌, ◌≤◌, ◌<◌, ℕ, List, Contains, OnOk, length, map, slice_index_or, vec_len, vec_capacity};
ghost use Rattle.fst_graph.specs.Fresh.{HasPlaces, IsRoomier};
ghost use Rattle.fst_graph.specs.Ready.{HasRoomAround};
ghost use Rattle.fst_heads.specs.Covers.{AreCovered, Covering, HasRoomForRuns};
ghost use Rattle.fst_heads.specs.Heads.{patches_of};
ghost use Rattle.fst_heads.specs.Lists.{entries_of, HasRoomInList};
ghost use Rattle.fst_heads.specs.Nodes.{nodes_of, AreSettled};
ghost use Rattle.fst_types.specs.Facts.{IsOnDiskWithAll};
ghost use Rattle.fst_types.specs.Patches.{Patch};
ghost use Rattle.fst_levels.specs.Needing.{IsPruned};
ghost use Rattle.fst_levels.specs.declared.needs.Way.{Way};

use crate::columns::Columns;
use crate::fresh::reserve_landed;
use crate::prepared::{Prepared, reserve_on};
use fst_heads::cover::Cover;
use fst_heads::heads::Heads;
use fst_heads::links::{reserve_above, reserve_below};
use fst_heads::lists::Listed;
use fst_levels::needs::Needs;
use std::alloc::AllocError;

/// Room for the head of the change, and around it: for one more dependant of each patch of its row, and for one more name of
/// the tail of its group.
pub fn reserve_around(
    columns: &mut Columns,
    landed: &mut Vec<u32>,
    prepared: &Prepared,
) -> Result<(), AllocError>
    ensures roomier { IsRoomier columns.old columns.new }
    ensures places { OnOk result (HasPlaces 1 columns.new) }
    ensures waits { OnOk result (vec_len columns.new.heads.list < vec_capacity columns.new.queue) }
    ensures same { landed.new.items ≡ landed.old.items }
    ensures wide { vec_capacity landed.old ≤ vec_capacity landed.new }
    ensures shelf { OnOk result (vec_len columns.new.heads.list < vec_capacity landed.new) }
    ensures around { OnOk result (HasRoomAround columns.new.heads.list.items prepared.now) }
{
    columns.reserve(1)?;
    reserve_landed(landed, columns.heads.list.len() + 1)?;
    reserve_above(&mut columns.heads, prepared.dependencies.as_slice())?;
    match prepared.gates {
        Some(gates) => reserve_below(&mut columns.heads, gates.tail),
        None => Ok(()),
    }
}

/// Room for the change in its block, and for what the block needs then.
pub fn reserve_in(
    lists: &mut Vec<Vec<Listed>>,
    covers: &mut Vec<Cover>,
    needs: &mut Needs,
    heads: &Heads,
    prepared: &Prepared,
) -> Result<(), AllocError>
    requires disk { IsOnDiskWithAll (patches_of heads.now.list.items) }
    requires settled { (blocks : ℕ) × AreSettled (nodes_of heads.now.list.items) blocks }
    requires list { prepared.now.block < length lists.old.items }
    requires cover { prepared.now.block < length covers.old.items }
    requires needs { prepared.now.block < length needs.old.lists }
    ensures entries { map (λ l. entries_of l.items) lists.new.items ≡ map (λ l. entries_of l.items) lists.old.items }
    ensures covered { (patches : List Patch) → AreCovered patches (length covers.old.items) covers.old.items → AreCovered patches (length covers.old.items) covers.new.items }
    ensures pruned { IsPruned (patches_of heads.now.list.items) prepared.now.block needs.old.lists needs.new.lists }
    ensures ways { (w : Way) → Contains needs.new.ways w → Contains needs.old.ways w }
    ensures in_list { OnOk result (HasRoomInList (map (λ l. vec_len l) lists.new.items) (map (λ l. vec_capacity l) lists.new.items) prepared.now.block) }
    ensures runs { OnOk result ((d : Covering) → HasRoomForRuns (slice_index_or covers.new.items prepared.now.block d)) }
    ensures needed { OnOk result ((needs.new.block ≡ prepared.now.block) × (length prepared.now.dependencies.items ≤ needs.new.room)) }
{
    reserve_on(lists, covers, prepared.block)?;
    needs.reserve(
        heads,
        prepared.block,
        prepared.dependencies.as_slice().len(),
    )
}
