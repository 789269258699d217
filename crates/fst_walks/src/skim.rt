//! A way back, looked for over blocks: by a walk down that goes, where it crosses a block, on to the newest of what this needs of
//! each other block, and nowhere else. So a block that needs thousands of soft changes is crossed by a look at a few. A way that
//! is found so is one, and none tells nothing.

ghost use Rattle.std.specs.Prelude.{◌≡◌, ◌⊎◌, ◌<◌, ℕ, length, Contains, IfSome, slice_index_or};
ghost use Rattle.fst_heads.specs.Grading.{LeadsNowhere};
ghost use Rattle.fst_heads.specs.Heads.{patches_of};
ghost use Rattle.fst_walks.specs.BothEnds.{ComesTo, IsHighNeed, IsOver, StepsHigh};
ghost use Rattle.fst_walks.specs.Descending.{Visited};
ghost use Rattle.fst_levels.specs.Leveling.{level_of};
ghost use Rattle.fst_levels.specs.Needing.{needs_of};
ghost use Rattle.fst_levels.specs.Sights.{Sees};
ghost use Rattle.fst_walks.specs.Telling.{IsTold};
ghost use Rattle.fst_levels.specs.Walks.{numbers_met};

use crate::block_walk::BlockWalk;
use crate::first_away::{FEW, visit_first_away};
use crate::graded::{Graded, soft};
use crate::way_down::{any_across, visit_high};
use fst_heads::head::Kind;
use fst_levels::sight::Sight;
use fst_levels::walk::Walk;

// A block that needs more is crossed so.
const LONG: usize = 512;

// At how many patches it looks, and at how many more once it comes to such a block.
const FEW_LOOKS: usize = 16;

const MORE_LOOKS: usize = 2048;

/// Whether the patch that was met there in turn is a change of a block that needs many.
pub(crate) fn needs_many(sight: &Sight<'_>, walk: &Walk, at: usize) -> bool
    requires sees { Sees sight.now }
    requires long { length walk.now.marks ≡ length sight.now.heads.now.list.items }
    requires at { at < length walk.now.met }
{
    match sight.heads.list[walk.index_at(at)].kind {
        Kind::Change(_, block, _) => sight.needs.count(u32::from(block)) > LONG,
        Kind::Empty | Kind::OpenGate | Kind::SealedGate => false,
    }
}

/// Whether the walk has met a change of a block that needs many.
pub(crate) fn meets_many(sight: &Sight<'_>, walk: &Walk) -> bool
    requires sees { Sees sight.now }
    requires long { length walk.now.marks ≡ length sight.now.heads.now.list.items }
{
    for at in 0..walk.len() {
        if needs_many(sight, walk, at) {
            return true;
        }
    }
    false
}

// Visits the newest of what the block needs of that other block, if it is no lower than `least`.
fn visit_newest(sight: &Sight<'_>, walk: &mut Walk, block: u32, turn: usize, least: u32)
    requires sees { Sees sight.now }
    requires visited { Visited sight.now.heads.now.list.items walk.old }
    requires block { block < length sight.now.lists.now }
    ensures visited { Visited sight.now.heads.now.list.items walk.new }
    ensures only { (n : ℕ) → Contains (numbers_met sight.now.heads.now.list.items walk.new) n → Contains (numbers_met sight.now.heads.now.list.items walk.old) n ⊎ IsHighNeed (patches_of sight.now.heads.now.list.items) (level_of sight.now.levels.now.ranks) least (needs_of sight.now.needs.now.lists) block n }
{
    if let Some(number) = sight.needs.newest_at(block, turn) {
        visit_high(sight, walk, number, least);
    }
}

// Visits the newest of what the block needs of each other block, as far as it is no lower than `least`. Answers how many that is.
fn visit_newest_needs(sight: &Sight<'_>, walk: &mut Walk, block: u32, least: u32) -> usize
    requires sees { Sees sight.now }
    requires visited { Visited sight.now.heads.now.list.items walk.old }
    requires block { block < length sight.now.lists.now }
    ensures visited { Visited sight.now.heads.now.list.items walk.new }
    ensures only { (n : ℕ) → Contains (numbers_met sight.now.heads.now.list.items walk.new) n → Contains (numbers_met sight.now.heads.now.list.items walk.old) n ⊎ IsHighNeed (patches_of sight.now.heads.now.list.items) (level_of sight.now.levels.now.ranks) least (needs_of sight.now.needs.now.lists) block n }
{
    let blocks = sight.needs.blocks(block);
    for turn in 0..blocks {
        visit_newest(sight, walk, block, turn, least);
    }
    blocks
}

// From the patch that was met there in turn, if it is a change, across its block so. Answers how many patches it looked at.
fn cross_newest(
    sight: &Sight<'_>,
    walk: &mut Walk,
    crossed: &[bool],
    at: usize,
    least: u32,
) -> usize
    requires sees { Sees sight.now }
    requires crossed { length crossed.now ≡ length sight.now.lists.now }
    requires visited { Visited sight.now.heads.now.list.items walk.old }
    requires at { at < length walk.old.met }
    ensures visited { Visited sight.now.heads.now.list.items walk.new }
    ensures only { (n : ℕ) → Contains (numbers_met sight.now.heads.now.list.items walk.new) n → Contains (numbers_met sight.now.heads.now.list.items walk.old) n ⊎ StepsHigh (patches_of sight.now.heads.now.list.items) (level_of sight.now.levels.now.ranks) least (needs_of sight.now.needs.now.lists) crossed.now (slice_index_or (numbers_met sight.now.heads.now.list.items walk.old) at 0) n }
{
    let Kind::Change(_, block, _) = sight.heads.list[walk.index_at(at)].kind else {
        return 0;
    };
    let block = u32::from(block);
    if crossed[block as usize] {
        return 0;
    }
    visit_newest_needs(sight, walk, block, least)
}

// Goes on so from what was met, until of a patch that was met the block needs one of the block, which it answers. It gives up
// after a while.
fn skim(sight: &Sight<'_>, down: &mut BlockWalk, block: u32, least: u32) -> Option<u32>
    requires sees { Sees sight.now }
    requires down { IsOver sight.now.heads.now.list.items (length sight.now.lists.now) down.old }
    requires visited { Visited sight.now.heads.now.list.items down.old.walk }
    ensures down { IsOver sight.now.heads.now.list.items (length sight.now.lists.now) down.new }
    ensures met { IfSome result (ComesTo (patches_of sight.now.heads.now.list.items) (level_of sight.now.levels.now.ranks) least (needs_of sight.now.needs.now.lists) down.old.crossed.items block (numbers_met sight.now.heads.now.list.items down.old.walk)) }
{
    let mut asked = 0;
    let mut looked: usize = 0;
    let mut most = FEW_LOOKS;
    for at in 0..MORE_LOOKS {
        let across = any_across(sight, &down.walk, &down.crossed, asked, least, block);
        if across.is_some() {
            return across;
        }
        if down.walk.len() <= at || looked > most {
            return None;
        }
        if needs_many(sight, &down.walk, at) {
            most = MORE_LOOKS;
        }
        asked = down.walk.len();
        let more = cross_newest(sight, &mut down.walk, &down.crossed, at, least);
        looked = looked.saturating_add(more);
    }
    None
}

/// The end of a way back, by which a new change of the block with that row is soft, where one is told by what blocks were last
/// found to need. What was met and crossed before does not matter.
pub fn grade_skimmed(
    sight: &Sight<'_>,
    down: &mut BlockWalk,
    block: u32,
    row: &[u32],
) -> Option<Graded>
    requires sees { Sees sight.now }
    requires down { IsOver sight.now.heads.now.list.items (length sight.now.lists.now) down.old }
    requires block { block < length sight.now.lists.now }
    ensures told { IfSome result (IsTold (patches_of sight.now.heads.now.list.items) block row.now (LeadsNowhere (patches_of sight.now.heads.now.list.items) block row.now)) }
    ensures down { IsOver sight.now.heads.now.list.items (length sight.now.lists.now) down.new }
{
    down.cross_only(block);
    let least = sight.levels.floor(block);
    visit_first_away(sight, &mut down.walk, block, row, least, FEW);
    let met = skim(sight, down, block, least);
    if met.is_some() { Some(soft(met)) } else { None }
}
