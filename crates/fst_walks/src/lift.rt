//! Where a new change stands. It is as high as what it depends on, and as the floor of its block at least. A hard change is no
//! higher than that floor: where what it depends on is, or is as high and so tells nothing, the floor goes up, and with it
//! all that stands over the block and would else be lower, which a walk up meets.

ghost use Rattle.std.specs.Prelude.{◌≡◌, ◌<◌, ◌↔◌, ℕ, true, length, Contains, IsTrue};
ghost use Rattle.fst_heads.specs.Heads.{patches_of};
ghost use Rattle.fst_walks.specs.BothEnds.{StepsLow};
ghost use Rattle.fst_walks.specs.Descending.{IsLedFrom, Visited};
ghost use Rattle.fst_levels.specs.Leveling.{level_of};
ghost use Rattle.fst_levels.specs.Lifting.{IsRise, MeetsLow};
ghost use Rattle.fst_levels.specs.Sights.{Sees};
ghost use Rattle.fst_levels.specs.Walks.{numbers_met};

use crate::descent::show_only;
use crate::graded::Graded;
use crate::way_up::{step_up, visit_low_changes};
use fst_levels::levels::{Rise, TOP};
use fst_levels::sight::Sight;
use fst_levels::walk::Walk;
use fst_types::Grade;

// A lift that meets many patches goes further up than it has to, by a level for each so many: so what costs much is done
// seldom, however high what the block comes to stand on grows.
const MET_A_LEVEL: usize = 16;

// Visits all that the steps up lead to from what was visited on, as far as it is no higher than `most`. Answers whether it
// did: it gives up once it has met more than the limit.
fn climb_low(
    sight: &Sight<'_>,
    walk: &mut Walk,
    crossed: &mut [bool],
    most: u32,
    limit: usize,
) -> bool
    requires sees { Sees sight.now }
    requires crossed { length crossed.old ≡ length sight.now.lists.now }
    requires visited { Visited sight.now.heads.now.list.items walk.old }
    ensures visited { Visited sight.now.heads.now.list.items walk.new }
    ensures room { walk.new.room ≡ walk.old.room }
    ensures met { IsTrue result → (n : ℕ) → Contains (numbers_met sight.now.heads.now.list.items walk.new) n ↔ IsLedFrom (StepsLow (patches_of sight.now.heads.now.list.items) (level_of sight.now.levels.now.ranks) most crossed.old) (numbers_met sight.now.heads.now.list.items walk.old) n }
    ensures all { limit ≡ 18446744073709551615 → result ≡ true }
{
    let mut at = 0;
    while at < walk.len() {
        if walk.len() > limit {
            return false;
        }
        step_up(sight, walk, crossed, at, most);
        at += 1;
    }
    true
}

// Meets all that stands over the block and is no higher than `most`. Answers whether it did: it gives up once that is more
// than the limit. What was met and crossed before does not matter.
fn meet_low(
    sight: &Sight<'_>,
    walk: &mut Walk,
    crossed: &mut [bool],
    block: u32,
    most: u32,
    limit: usize,
) -> bool
    requires sees { Sees sight.now }
    requires long { length walk.old.marks ≡ length sight.now.heads.now.list.items }
    requires crossed { length crossed.old ≡ length sight.now.lists.now }
    requires block { block < length sight.now.lists.now }
    ensures visited { Visited sight.now.heads.now.list.items walk.new }
    ensures room { walk.new.room ≡ walk.old.room }
    ensures meets { IsTrue result → MeetsLow (patches_of sight.now.heads.now.list.items) (level_of sight.now.levels.now.ranks) block most (numbers_met sight.now.heads.now.list.items walk.new) }
    ensures all { limit ≡ 18446744073709551615 → result ≡ true }
{
    walk.clear();
    if sight.lists[block as usize].len() > limit {
        return false;
    }
    show_only(crossed, block);
    visit_low_changes(sight, walk, block, most);
    climb_low(sight, walk, crossed, most, limit)
}

// Whether a new change of the block that stands as high as its floor lifts it, searches having looked at so many patches
// since it was lifted last: it is tried as often as that doubles. Over a clean block nothing goes up.
fn is_due(sight: &Sight<'_>, block: u32, row: &[u32], owed: usize) -> bool
    requires sees { Sees sight.now }
    requires block { block < length sight.now.lists.now }
{
    let before = sight.levels.owed(block);
    let is_clean = sight.lists[block as usize].is_empty();
    !row.is_empty() && (is_clean || owed.leading_zeros() < before.leading_zeros())
}

/// What a new change of the block with that row and grade does to the levels, and if it lifts, what goes up was met. What
/// was met and crossed before does not matter.
pub fn rise_of(
    sight: &Sight<'_>,
    walk: &mut Walk,
    crossed: &mut [bool],
    block: u32,
    row: &[u32],
    told: Graded,
) -> Rise
    requires sees { Sees sight.now }
    requires long { length walk.old.marks ≡ length sight.now.heads.now.list.items }
    requires crossed { length crossed.old ≡ length sight.now.lists.now }
    requires block { block < length sight.now.lists.now }
    ensures rise { IsRise (patches_of sight.now.heads.now.list.items) sight.now.levels.now block row.now told.grade (numbers_met sight.now.heads.now.list.items walk.new) result }
    ensures long { length walk.new.marks ≡ length sight.now.heads.now.list.items }
    ensures room { walk.new.room ≡ walk.old.room }
{
    let high = sight.levels.greatest(sight.heads, row);
    let floor = sight.levels.floor(block);
    let owed = sight.levels.owed(block).saturating_add(told.looked);
    let still = Rise {
        level: high.max(floor),
        lifts: false,
        owed,
    };
    // As high as the floor it has to lift nothing. It does so once searches have looked at as much as that takes, so that later
    // ones need not.
    let limit = if high > floor { usize::MAX } else { owed };
    let over = high > floor || (high == floor && floor < TOP && is_due(sight, block, row, owed));
    if told.grade == Grade::Soft || !over || !meet_low(sight, walk, crossed, block, high, limit) {
        return still;
    }
    let spare = (walk.len() / MET_A_LEVEL).min(TOP as usize) as u32;
    let reach = high.saturating_add(spare);
    if reach > high {
        meet_low(sight, walk, crossed, block, reach, usize::MAX);
    }
    Rise {
        level: reach.saturating_add(1),
        lifts: true,
        owed: 0,
    }
}
