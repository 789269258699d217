//! The first changes of other blocks at or below a row. A way back to a block comes down from the row to one of them, so
//! that a walk that looks for such a way from its lower end begins at them. What lies below another block's change is left
//! to that walk. What lies below a hard change of the block in memory leads nowhere, as for each hard change, and so does what is
//! lower than the floor of the block: so the way goes through no patch over which such a one is kept (`fst_levels::under_hard`),
//! and no further down than the floor.

ghost use Rattle.std.specs.Prelude.{◌≡◌, ◌⊎◌, ◌≤◌, ◌<◌, ◌↔◌, ℕ, length, Contains, IsTrue, slice_index_or};
ghost use Rattle.fst_heads.specs.Heads.{patches_of};
ghost use Rattle.fst_heads.specs.Indices.{HasIndex};
ghost use Rattle.fst_walks.specs.BothEnds.{GoesThrough, IsFirstAway, StepsAway};
ghost use Rattle.fst_walks.specs.Descending.{IsLedFrom, Visited, Visits};
ghost use Rattle.fst_levels.specs.Leveling.{hard_over_of, level_of};
ghost use Rattle.fst_levels.specs.Sights.{Sees};
ghost use Rattle.fst_levels.specs.Walks.{numbers_met};

use crate::descent::keep_away;
use crate::way_down::visit_high_row;
use fst_heads::test::{Test, passes};
use fst_levels::shortcuts::newest_few;
use fst_levels::sight::Sight;
use fst_levels::under_hard::is_under_hard;
use fst_levels::walk::Walk;

/// At how many patches below a row a search looks before it begins with those that it has found.
pub const FEW: usize = 256;

// Whether the way down goes through the patch at the index.
fn goes_through(sight: &Sight<'_>, index: usize, block: u32) -> bool
    requires sees { Sees sight.now }
    requires inside { index < length sight.now.heads.now.list.items }
    ensures { (number : ℕ) → HasIndex sight.now.heads.now.list.items number index → IsTrue result ↔ GoesThrough (patches_of sight.now.heads.now.list.items) (hard_over_of sight.now.levels.now.ranks) block number }
{
    !passes(Test::LiveOff(block), &sight.heads.list[index])
        && !is_under_hard(sight.levels, sight.heads, block, index)
}

// Visits what the patch that was met there in turn directly depends on, as far as it is no lower than `least`, if the way goes
// through it, and answers how many that is. Of more than `most` it visits only so many: a gate may come after thousands, and the
// walk stops there.
fn step_away(
    sight: &Sight<'_>,
    walk: &mut Walk,
    at: usize,
    block: u32,
    least: u32,
    most: usize,
) -> usize
    requires sees { Sees sight.now }
    requires visited { Visited sight.now.heads.now.list.items walk.old }
    requires at { at < length walk.old.met }
    ensures visited { Visited sight.now.heads.now.list.items walk.new }
    ensures only { (n : ℕ) → Contains (numbers_met sight.now.heads.now.list.items walk.new) n → Contains (numbers_met sight.now.heads.now.list.items walk.old) n ⊎ StepsAway (patches_of sight.now.heads.now.list.items) (hard_over_of sight.now.levels.now.ranks) (level_of sight.now.levels.now.ranks) least block (slice_index_or (numbers_met sight.now.heads.now.list.items walk.old) at 0) n }
    ensures visits { result ≤ most → Visits (StepsAway (patches_of sight.now.heads.now.list.items) (hard_over_of sight.now.levels.now.ranks) (level_of sight.now.levels.now.ranks) least block (slice_index_or (numbers_met sight.now.heads.now.list.items walk.old) at 0)) (numbers_met sight.now.heads.now.list.items walk.old) (numbers_met sight.now.heads.now.list.items walk.new) }
{
    let index = walk.index_at(at);
    if !goes_through(sight, index, block) {
        return 0;
    }
    let below = sight.heads.list[index].dependencies.as_slice();
    visit_high_row(sight, walk, newest_few(below, most), least);
    below.len()
}

// Visits all that the way down leads to from what was visited, or stops once it has looked at more patches than `most`.
// Answers at how many it looked.
fn walk_away(sight: &Sight<'_>, walk: &mut Walk, block: u32, least: u32, most: usize) -> usize
    requires sees { Sees sight.now }
    requires visited { Visited sight.now.heads.now.list.items walk.old }
    ensures visited { Visited sight.now.heads.now.list.items walk.new }
    ensures only { (n : ℕ) → Contains (numbers_met sight.now.heads.now.list.items walk.new) n → IsLedFrom (StepsAway (patches_of sight.now.heads.now.list.items) (hard_over_of sight.now.levels.now.ranks) (level_of sight.now.levels.now.ranks) least block) (numbers_met sight.now.heads.now.list.items walk.old) n }
    ensures led { result ≤ most → (n : ℕ) → Contains (numbers_met sight.now.heads.now.list.items walk.new) n ↔ IsLedFrom (StepsAway (patches_of sight.now.heads.now.list.items) (hard_over_of sight.now.levels.now.ranks) (level_of sight.now.levels.now.ranks) least block) (numbers_met sight.now.heads.now.list.items walk.old) n }
{
    let mut at = 0;
    let mut looked: usize = 0;
    while at < walk.len() {
        looked = looked.saturating_add(step_away(sight, walk, at, block, least, most));
        if looked > most {
            return looked;
        }
        at += 1;
    }
    looked
}

/// Visits the first changes of other blocks at or below the row that are no lower than `least`, and nothing else: all of them,
/// unless it stops since it has looked at more patches below the row than `most`. Answers at how many it looked. What was met
/// before does not matter.
pub fn visit_first_away(
    sight: &Sight<'_>,
    walk: &mut Walk,
    block: u32,
    row: &[u32],
    least: u32,
    most: usize,
) -> usize
    requires sees { Sees sight.now }
    requires long { length walk.old.marks ≡ length sight.now.heads.now.list.items }
    ensures visited { Visited sight.now.heads.now.list.items walk.new }
    ensures only { (n : ℕ) → Contains (numbers_met sight.now.heads.now.list.items walk.new) n → IsFirstAway (patches_of sight.now.heads.now.list.items) (hard_over_of sight.now.levels.now.ranks) (level_of sight.now.levels.now.ranks) least block row.now n }
    ensures all { result ≤ most → (n : ℕ) → IsFirstAway (patches_of sight.now.heads.now.list.items) (hard_over_of sight.now.levels.now.ranks) (level_of sight.now.levels.now.ranks) least block row.now n → Contains (numbers_met sight.now.heads.now.list.items walk.new) n }
{
    walk.clear();
    visit_high_row(sight, walk, row, least);
    let looked = walk_away(sight, walk, block, least, most);
    keep_away(sight, walk, block);
    looked
}
