//! The grade of a new change. A block is written only with all its hard changes, so a change is hard only where nothing
//! that it depends on can come to wait for its block: no open gate, no change of another block that needs one of its
//! block, and no block from which the block graph leads to its block. The first step that tells is the last that is taken:
//! docs/grades.md has them in their order, and for most a script that takes several times as long without it. A step that
//! finds a way back tells where it ends too, so that the way is known from then on (`fst_levels::needs`).
//!
//! A gate that is sealed with the change is taken as sealed already: that sets free what it alone blocks, and moves no
//! change and no dependency.

ghost use Rattle.std.specs.Prelude.{◌<◌, length};
ghost use Rattle.fst_heads.specs.Grading.{LeadsNowhere, MayBeHard};
ghost use Rattle.fst_heads.specs.Heads.{patches_of};
ghost use Rattle.fst_walks.specs.BothEnds.{IsOver};
ghost use Rattle.fst_levels.specs.Sights.{Sees};
ghost use Rattle.fst_walks.specs.Telling.{IsTold};

use crate::before::told_before;
use crate::below::grade_below;
use crate::both_ends::grade_between;
use crate::ends::Ends;
use crate::graded::{Graded, hard, soft};
use crate::other_gates::is_blocked;
use crate::skim::{grade_skimmed, meets_many};
use fst_levels::ancestors::leads_to_block;
use fst_levels::known::leads_over_known;
use fst_levels::shortcuts::{is_clean, stays_below, waits_for_own_block};
use fst_levels::sight::Sight;

// What is told of a new change of the block with that row but for open gates. What was met and crossed before does not
// matter.
fn grade_by_ways(sight: &Sight<'_>, ends: &mut Ends, block: u32, row: &[u32]) -> Graded
    requires sees { Sees sight.now }
    requires up { IsOver sight.now.heads.now.list.items (length sight.now.lists.now) ends.old.up }
    requires down { IsOver sight.now.heads.now.list.items (length sight.now.lists.now) ends.old.down }
    requires block { block < length sight.now.lists.now }
    ensures told { IsTold (patches_of sight.now.heads.now.list.items) block row.now (LeadsNowhere (patches_of sight.now.heads.now.list.items) block row.now) result }
    ensures up { IsOver sight.now.heads.now.list.items (length sight.now.lists.now) ends.new.up }
    ensures down { IsOver sight.now.heads.now.list.items (length sight.now.lists.now) ends.new.down }
{
    if is_clean(sight, block) {
        return hard();
    }
    if waits_for_own_block(sight, block, row) {
        return hard();
    }
    if stays_below(sight, block, row) {
        return hard();
    }
    if let Some(end) = leads_over_known(sight, block, row) {
        return soft(Some(end));
    }
    if let Some(told) = told_before(sight, block, row) {
        return told;
    }
    if let Some(end) = leads_to_block(sight, block, row) {
        return soft(Some(end));
    }
    if let Some(told) = grade_below(sight, &mut ends.down, block, row) {
        return told;
    }
    // Where the walk down came to no block that needs thousands, going over blocks rarely tells.
    if meets_many(sight, &ends.down.walk) {
        if let Some(told) = grade_skimmed(sight, &mut ends.down, block, row) {
            return told;
        }
    }
    grade_between(sight, ends, block, row)
}

/// What is told of a new change of the block that directly depends on the row, where that gate is taken as sealed. What was
/// met and crossed before does not matter.
pub fn grade_of(
    sight: &Sight<'_>,
    ends: &mut Ends,
    block: u32,
    row: &[u32],
    but: Option<u32>,
) -> Graded
    requires sees { Sees sight.now }
    requires up { IsOver sight.now.heads.now.list.items (length sight.now.lists.now) ends.old.up }
    requires down { IsOver sight.now.heads.now.list.items (length sight.now.lists.now) ends.old.down }
    requires block { block < length sight.now.lists.now }
    ensures told { IsTold (patches_of sight.now.heads.now.list.items) block row.now (MayBeHard (patches_of sight.now.heads.now.list.items) but block row.now) result }
    ensures up { IsOver sight.now.heads.now.list.items (length sight.now.lists.now) ends.new.up }
    ensures down { IsOver sight.now.heads.now.list.items (length sight.now.lists.now) ends.new.down }
{
    if is_blocked(sight, &mut ends.up.walk, row, but) {
        return soft(None);
    }
    grade_by_ways(sight, ends, block, row)
}
