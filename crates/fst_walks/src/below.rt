//! The way back to a block, looked for from its upper end alone: by a walk down that ends where it meets a change of the
//! block, or comes to a block that needs one, and leaves out what is lower than the floor of the block. It gives up once it
//! has looked at some times as many patches as the list of the block has, which a search from both ends looks at first: where
//! a block has many changes and little lies between them and the new one, it tells the grade at less than that. Steps down
//! cross a block once for all of its hard changes, so that they come to an end sooner than steps up, and the walk goes on
//! longer while it has looked at few. Where more than a few patches lie below the row before the first changes of other
//! blocks, as where a superblock was overwritten thousands of times, it begins with some of these: a way that is found from
//! them is one, and none tells nothing.

ghost use Rattle.std.specs.Prelude.{◌≡◌, ◌≤◌, ◌<◌, ℕ, length, Contains, IfSome, IfNone, slice_index_or};
ghost use Rattle.fst_heads.specs.declared.test.Test.TheVariants as test;
ghost use Rattle.fst_heads.specs.Grading.{LeadsNowhere};
ghost use Rattle.fst_heads.specs.Heads.{patches_of};
ghost use Rattle.fst_heads.specs.Indices.{PassesAt};
ghost use Rattle.fst_walks.specs.BothEnds.{ComesTo, IsAwayFrom, IsOver, ShowsBlockUnder, StepsHigh};
ghost use Rattle.fst_walks.specs.Descending.{Visited, Visits};
ghost use Rattle.fst_levels.specs.Leveling.{level_of};
ghost use Rattle.fst_levels.specs.Needing.{needs_of};
ghost use Rattle.fst_levels.specs.Sights.{Sees};
ghost use Rattle.fst_walks.specs.Telling.{IsTold};
ghost use Rattle.fst_levels.specs.Walks.{numbers_met};

use crate::block_walk::BlockWalk;
use crate::first_away::{FEW, visit_first_away};
use crate::graded::{Graded, hard_after, soft};
use crate::skim::needs_many;
use crate::way_down::{any_across, change_below, step_down};
use fst_heads::test::{Test, passes};
use fst_levels::sight::Sight;
use fst_levels::walk::Walk;

// How many patches may be looked at for each change of the block: more as long as they are few.
const LOOKS: usize = 4;

const MORE_LOOKS: usize = 16;

const FEW_LOOKS: usize = 4096;

// How many patches may be looked at for a block that has so many changes.
fn most_looks(changes: usize) -> usize {
    let more = changes.saturating_mul(MORE_LOOKS).min(FEW_LOOKS);
    changes.saturating_mul(LOOKS).max(more)
}

// The first change of the block that the walk met at that turn or later.
fn meets_change(sight: &Sight<'_>, walk: &Walk, from: usize, block: u32) -> Option<u32>
    requires sees { Sees sight.now }
    requires walk { length walk.now.marks ≡ length sight.now.heads.now.list.items }
    ensures met { IfSome result (λ n. Contains (numbers_met sight.now.heads.now.list.items walk.now) n × PassesAt (test.LiveOn block) (patches_of sight.now.heads.now.list.items) n) }
    ensures none { IfNone result ((at : ℕ) → from ≤ at → at < length walk.now.met → PassesAt (test.LiveOn block) (patches_of sight.now.heads.now.list.items) (slice_index_or (numbers_met sight.now.heads.now.list.items walk.now) at 0) → ⊥) }
{
    for at in from..walk.len() {
        let head = &sight.heads.list[walk.index_at(at)];
        if passes(Test::LiveOn(block), head) {
            return Some(head.number);
        }
    }
    None
}

// A step down from what was met there in turn, through what is no lower than `least`. Answers the first change of the block
// that it met, and how many patches it looked at.
fn turn(
    sight: &Sight<'_>,
    down: &mut BlockWalk,
    block: u32,
    at: usize,
    least: u32,
) -> (Option<u32>, usize)
    requires sees { Sees sight.now }
    requires down { IsOver sight.now.heads.now.list.items (length sight.now.lists.now) down.old }
    requires visited { Visited sight.now.heads.now.list.items down.old.walk }
    requires away { IsAwayFrom (patches_of sight.now.heads.now.list.items) block (numbers_met sight.now.heads.now.list.items down.old.walk) }
    requires at { at < length down.old.walk.met }
    ensures down { IsOver sight.now.heads.now.list.items (length sight.now.lists.now) down.new }
    ensures visited { Visited sight.now.heads.now.list.items down.new.walk }
    ensures visits { Visits (StepsHigh (patches_of sight.now.heads.now.list.items) (level_of sight.now.levels.now.ranks) least (needs_of sight.now.needs.now.lists) down.old.crossed.items (slice_index_or (numbers_met sight.now.heads.now.list.items down.old.walk) at 0)) (numbers_met sight.now.heads.now.list.items down.old.walk) (numbers_met sight.now.heads.now.list.items down.new.walk) }
    ensures crossed { ShowsBlockUnder (patches_of sight.now.heads.now.list.items) (slice_index_or (numbers_met sight.now.heads.now.list.items down.old.walk) at 0) down.old.crossed.items down.new.crossed.items }
    ensures met { IfSome result.0 (λ n. Contains (numbers_met sight.now.heads.now.list.items down.new.walk) n × PassesAt (test.LiveOn block) (patches_of sight.now.heads.now.list.items) n) }
    ensures away { IfNone result.0 (IsAwayFrom (patches_of sight.now.heads.now.list.items) block (numbers_met sight.now.heads.now.list.items down.new.walk)) }
{
    let from = down.walk.len();
    let looked = step_down(sight, &mut down.walk, &mut down.crossed, at, least);
    (meets_change(sight, &down.walk, from, block), looked)
}

// Takes steps down, through what is no lower than `least`, until a change of the block was met, which it answers, or the
// walk is at its end, where it answers that there is none. Of each patch that was met it asks at once whether its block needs
// one of the block, so that the way is found before all that lies about was visited. It gives up once it has looked at more
// patches than `most`, or comes to a block that needs many.
fn descend(
    sight: &Sight<'_>,
    down: &mut BlockWalk,
    block: u32,
    least: u32,
    most: usize,
) -> Option<Option<u32>>
    requires sees { Sees sight.now }
    requires down { IsOver sight.now.heads.now.list.items (length sight.now.lists.now) down.old }
    requires visited { Visited sight.now.heads.now.list.items down.old.walk }
    requires away { IsAwayFrom (patches_of sight.now.heads.now.list.items) block (numbers_met sight.now.heads.now.list.items down.old.walk) }
    ensures down { IsOver sight.now.heads.now.list.items (length sight.now.lists.now) down.new }
    ensures met { IfSome result (λ met. IfSome met (ComesTo (patches_of sight.now.heads.now.list.items) (level_of sight.now.levels.now.ranks) least (needs_of sight.now.needs.now.lists) down.old.crossed.items block (numbers_met sight.now.heads.now.list.items down.old.walk))) }
    ensures none { IfSome result (λ met. IfNone met ((n : ℕ) → ComesTo (patches_of sight.now.heads.now.list.items) (level_of sight.now.levels.now.ranks) least (needs_of sight.now.needs.now.lists) down.old.crossed.items block (numbers_met sight.now.heads.now.list.items down.old.walk) n → ⊥)) }
{
    let mut left = most;
    let mut at = 0;
    let mut asked = 0;
    while at < down.walk.len() {
        let across = any_across(sight, &down.walk, &down.crossed, asked, least, block);
        if across.is_some() {
            return Some(across);
        }
        asked = down.walk.len();
        let below = change_below(sight, &down.walk, at, least, block);
        if below.is_some() {
            return Some(below);
        }
        if needs_many(sight, &down.walk, at) {
            return None;
        }
        let (met, looked) = turn(sight, down, block, at, least);
        if met.is_some() {
            return Some(met);
        }
        if looked > left {
            return None;
        }
        left -= looked;
        at += 1;
    }
    Some(None)
}

/// What keeps a new change of the block with that row soft but for open gates, where that is told by few looks. What was
/// met and crossed before does not matter.
pub fn grade_below(
    sight: &Sight<'_>,
    down: &mut BlockWalk,
    block: u32,
    row: &[u32],
) -> Option<Graded>
    requires sees { Sees sight.now }
    requires down { IsOver sight.now.heads.now.list.items (length sight.now.lists.now) down.old }
    requires block { block < length sight.now.lists.now }
    ensures told { IfSome result (IsTold (patches_of sight.now.heads.now.list.items) block row.now (LeadsNowhere (patches_of sight.now.heads.now.list.items) block row.now)) }
    ensures down { IsOver sight.now.heads.now.list.items (length sight.now.lists.now) down.new }
{
    down.cross_only(block);
    let most = most_looks(sight.lists[block as usize].len());
    let few = most.min(FEW);
    let least = sight.levels.floor(block);
    let looked = visit_first_away(sight, &mut down.walk, block, row, least, few);
    let met = descend(sight, down, block, least, most)?;
    if met.is_some() {
        return Some(soft(met));
    }
    if looked <= few {
        Some(hard_after(looked.saturating_add(down.walk.len())))
    } else {
        None
    }
}
