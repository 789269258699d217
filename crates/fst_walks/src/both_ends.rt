//! The way back to a block, looked for from both its ends at once: by a walk up from the changes of the block and one down
//! from the first changes of other blocks at or below a row. A new change of the block over the row is soft exactly where
//! such a way is there, and the walks meet where it is; it is hard where one of them comes to its end and they have not
//! met. The one that has looked at less takes the next step, since mostly one end has far less around it than the other.
//! Where they meet, the walk up is traced down to the end of the way (`trace`).

ghost use Rattle.std.specs.Prelude.{◌≡◌, ◌≤◌, ◌<◌, ℕ, length, Contains, IfSome, IfNone, slice_index_or};
ghost use Rattle.fst_heads.specs.Grading.{LeadsNowhere};
ghost use Rattle.fst_heads.specs.Heads.{patches_of};
ghost use Rattle.fst_heads.specs.Indices.{HasIndex};
ghost use Rattle.fst_walks.specs.BothEnds.{AreApart, EndApart, IsOver, LeadTogether, ShowsBlockUnder, StepsHigh, StepsLow};
ghost use Rattle.fst_walks.specs.Descending.{Visited, Visits};
ghost use Rattle.fst_levels.specs.Leveling.{level_of};
ghost use Rattle.fst_levels.specs.Needing.{needs_of};
ghost use Rattle.fst_levels.specs.Sights.{Sees};
ghost use Rattle.fst_walks.specs.Telling.{IsTold};
ghost use Rattle.fst_levels.specs.Walks.{numbers_met};
ghost use Rattle.fst_levels.specs.WayBack.{ShowsBlockOf};

use crate::ends::{Ends, Looked, meets, turn_from_end};
use crate::first_away::{FEW, visit_first_away};
use crate::graded::{Graded, hard_after, soft};
use crate::trace::trace;
use crate::way_down::step_down;
use crate::way_up::{step_up, visit_low_changes};
use fst_levels::sight::Sight;
use fst_levels::walk::Walk;

// The greatest level of what the walk has met.
fn highest(sight: &Sight<'_>, walk: &Walk) -> u32
    requires sees { Sees sight.now }
    requires visited { Visited sight.now.heads.now.list.items walk.now }
    ensures { (n : ℕ) → Contains (numbers_met sight.now.heads.now.list.items walk.now) n → level_of sight.now.levels.now.ranks n ≤ result }
{
    let mut most = 0;
    for at in 0..walk.len() {
        most = most.max(sight.levels.level(walk.index_at(at)));
    }
    most
}

// A step of the walk up from what it met there in turn. Answers the index of what it met that the walk down has met too.
fn turn_up(
    sight: &Sight<'_>,
    ends: &mut Ends,
    at: usize,
    most: u32,
    looked: &mut Looked,
) -> Option<usize>
    requires sees { Sees sight.now }
    requires up { IsOver sight.now.heads.now.list.items (length sight.now.lists.now) ends.old.up }
    requires visited_up { Visited sight.now.heads.now.list.items ends.old.up.walk }
    requires visited_down { Visited sight.now.heads.now.list.items ends.old.down.walk }
    requires apart { AreApart (numbers_met sight.now.heads.now.list.items ends.old.up.walk) (numbers_met sight.now.heads.now.list.items ends.old.down.walk) }
    requires at { at < length ends.old.up.walk.met }
    ensures up { IsOver sight.now.heads.now.list.items (length sight.now.lists.now) ends.new.up }
    ensures visited { Visited sight.now.heads.now.list.items ends.new.up.walk }
    ensures visits { Visits (StepsLow (patches_of sight.now.heads.now.list.items) (level_of sight.now.levels.now.ranks) most ends.old.up.crossed.items (slice_index_or (numbers_met sight.now.heads.now.list.items ends.old.up.walk) at 0)) (numbers_met sight.now.heads.now.list.items ends.old.up.walk) (numbers_met sight.now.heads.now.list.items ends.new.up.walk) }
    ensures crossed { ShowsBlockOf (patches_of sight.now.heads.now.list.items) (slice_index_or (numbers_met sight.now.heads.now.list.items ends.old.up.walk) at 0) ends.old.up.crossed.items ends.new.up.crossed.items }
    ensures down { ends.new.down ≡ ends.old.down }
    ensures met { IfSome result (λ index. (n : ℕ) × HasIndex sight.now.heads.now.list.items n index × Contains (numbers_met sight.now.heads.now.list.items ends.new.up.walk) n × Contains (numbers_met sight.now.heads.now.list.items ends.old.down.walk) n) }
    ensures apart { IfNone result (AreApart (numbers_met sight.now.heads.now.list.items ends.new.up.walk) (numbers_met sight.now.heads.now.list.items ends.old.down.walk)) }
{
    let from = ends.up.walk.len();
    let more = step_up(sight, &mut ends.up.walk, &mut ends.up.crossed, at, most);
    looked.up = looked.up.saturating_add(more);
    meets(sight, &ends.up.walk, &ends.down.walk, from)
}

// A step of the walk down from what it met there in turn. Answers the index of what it met that the walk up has met too.
fn turn_down(
    sight: &Sight<'_>,
    ends: &mut Ends,
    at: usize,
    least: u32,
    looked: &mut Looked,
) -> Option<usize>
    requires sees { Sees sight.now }
    requires down { IsOver sight.now.heads.now.list.items (length sight.now.lists.now) ends.old.down }
    requires visited_up { Visited sight.now.heads.now.list.items ends.old.up.walk }
    requires visited_down { Visited sight.now.heads.now.list.items ends.old.down.walk }
    requires apart { AreApart (numbers_met sight.now.heads.now.list.items ends.old.up.walk) (numbers_met sight.now.heads.now.list.items ends.old.down.walk) }
    requires at { at < length ends.old.down.walk.met }
    ensures down { IsOver sight.now.heads.now.list.items (length sight.now.lists.now) ends.new.down }
    ensures visited { Visited sight.now.heads.now.list.items ends.new.down.walk }
    ensures visits { Visits (StepsHigh (patches_of sight.now.heads.now.list.items) (level_of sight.now.levels.now.ranks) least (needs_of sight.now.needs.now.lists) ends.old.down.crossed.items (slice_index_or (numbers_met sight.now.heads.now.list.items ends.old.down.walk) at 0)) (numbers_met sight.now.heads.now.list.items ends.old.down.walk) (numbers_met sight.now.heads.now.list.items ends.new.down.walk) }
    ensures crossed { ShowsBlockUnder (patches_of sight.now.heads.now.list.items) (slice_index_or (numbers_met sight.now.heads.now.list.items ends.old.down.walk) at 0) ends.old.down.crossed.items ends.new.down.crossed.items }
    ensures up { ends.new.up ≡ ends.old.up }
    ensures met { IfSome result (λ index. (n : ℕ) × HasIndex sight.now.heads.now.list.items n index × Contains (numbers_met sight.now.heads.now.list.items ends.old.up.walk) n × Contains (numbers_met sight.now.heads.now.list.items ends.new.down.walk) n) }
    ensures apart { IfNone result (AreApart (numbers_met sight.now.heads.now.list.items ends.old.up.walk) (numbers_met sight.now.heads.now.list.items ends.new.down.walk)) }
{
    let from = ends.down.walk.len();
    let more = step_down(
        sight,
        &mut ends.down.walk,
        &mut ends.down.crossed,
        at,
        least,
    );
    looked.down = looked.down.saturating_add(more);
    meets(sight, &ends.down.walk, &ends.up.walk, from)
}

// Takes steps by turns, through what is no higher than `most` and no lower than `least`, until one walk has met what the
// other has, which it answers by its index, or one is at its end, where it answers that there is none. It gives up once both
// have looked at more patches than the limit. The walk down steps from what it met first, as it must, and by turns from what
// it met last: so a long way is found without all that lies about its beginning.
fn meet_between(
    sight: &Sight<'_>,
    ends: &mut Ends,
    most: u32,
    least: u32,
    limit: usize,
) -> Option<Option<usize>>
    requires sees { Sees sight.now }
    requires up { IsOver sight.now.heads.now.list.items (length sight.now.lists.now) ends.old.up }
    requires down { IsOver sight.now.heads.now.list.items (length sight.now.lists.now) ends.old.down }
    requires visited_up { Visited sight.now.heads.now.list.items ends.old.up.walk }
    requires visited_down { Visited sight.now.heads.now.list.items ends.old.down.walk }
    requires apart { AreApart (numbers_met sight.now.heads.now.list.items ends.old.up.walk) (numbers_met sight.now.heads.now.list.items ends.old.down.walk) }
    ensures up { IsOver sight.now.heads.now.list.items (length sight.now.lists.now) ends.new.up }
    ensures down { IsOver sight.now.heads.now.list.items (length sight.now.lists.now) ends.new.down }
    ensures together { IfSome result (λ met. IfSome met (λ index. (n : ℕ) × HasIndex sight.now.heads.now.list.items n index × LeadTogether (patches_of sight.now.heads.now.list.items) (level_of sight.now.levels.now.ranks) (needs_of sight.now.needs.now.lists) most least ends.old.up.crossed.items ends.old.down.crossed.items (numbers_met sight.now.heads.now.list.items ends.old.up.walk) (numbers_met sight.now.heads.now.list.items ends.old.down.walk) n)) }
    ensures visited { Visited sight.now.heads.now.list.items ends.new.up.walk }
    ensures apart { IfSome result (λ met. IfNone met (EndApart (patches_of sight.now.heads.now.list.items) (level_of sight.now.levels.now.ranks) (needs_of sight.now.needs.now.lists) most least ends.old.up.crossed.items ends.old.down.crossed.items (numbers_met sight.now.heads.now.list.items ends.old.up.walk) (numbers_met sight.now.heads.now.list.items ends.old.down.walk) (numbers_met sight.now.heads.now.list.items ends.new.up.walk) (numbers_met sight.now.heads.now.list.items ends.new.down.walk))) }
    ensures decided { IfNone result (limit < 18446744073709551615) }
{
    let mut looked = Looked { up: 0, down: 0 };
    let mut up_at = 0;
    let mut down_at = 0;
    let mut deep = 0;
    while up_at < ends.up.walk.len() && down_at < ends.down.walk.len() {
        if looked.up.min(looked.down) > limit {
            return None;
        }
        if looked.up <= looked.down {
            let met = turn_up(sight, ends, up_at, most, &mut looked);
            if met.is_some() {
                return Some(met);
            }
            up_at += 1;
        } else {
            let before = ends.down.walk.len();
            let last = turn_from_end(deep, down_at, before);
            let met = turn_down(sight, ends, last, least, &mut looked);
            if met.is_some() {
                return Some(met);
            }
            let now = ends.down.walk.len();
            deep = if before < now { now } else { last };
            let met = turn_down(sight, ends, down_at, least, &mut looked);
            if met.is_some() {
                return Some(met);
            }
            down_at += 1;
        }
    }
    Some(None)
}

// How many patches both walks may look at, once so many below the row were: where those are all, to begin anew would only
// look at the same again.
fn budget(looked: usize, limit: usize) -> usize
    ensures all { looked ≤ limit → result ≡ 18446744073709551615 }
    ensures some { limit < looked → result ≡ limit }
{
    if looked <= limit { usize::MAX } else { limit }
}

// The grade as far as it is told by a search that looks at no more patches below the row than the limit before it begins. Where
// more are there it begins with some, and gives up once both walks have looked at more than the limit.
fn grade_within(
    sight: &Sight<'_>,
    ends: &mut Ends,
    block: u32,
    row: &[u32],
    limit: usize,
) -> Option<Graded>
    requires sees { Sees sight.now }
    requires up { IsOver sight.now.heads.now.list.items (length sight.now.lists.now) ends.old.up }
    requires down { IsOver sight.now.heads.now.list.items (length sight.now.lists.now) ends.old.down }
    requires block { block < length sight.now.lists.now }
    ensures told { IfSome result (IsTold (patches_of sight.now.heads.now.list.items) block row.now (LeadsNowhere (patches_of sight.now.heads.now.list.items) block row.now)) }
    ensures decided { IfNone result (limit < 18446744073709551615) }
    ensures up { IsOver sight.now.heads.now.list.items (length sight.now.lists.now) ends.new.up }
    ensures down { IsOver sight.now.heads.now.list.items (length sight.now.lists.now) ends.new.down }
{
    ends.down.cross_only(block);
    // No way up falls, so none goes through what is lower than the floor, nor to what is met now through what is higher than that.
    let least = sight.levels.floor(block);
    let looked = visit_first_away(sight, &mut ends.down.walk, block, row, least, limit);
    if looked <= limit && ends.down.walk.len() == 0 {
        return Some(hard_after(looked));
    }
    let most = highest(sight, &ends.down.walk);
    ends.up.cross_only(block);
    ends.up.walk.clear();
    visit_low_changes(sight, &mut ends.up.walk, block, most);
    let budget = budget(looked, limit);
    if let Some(index) = meet_between(sight, ends, most, least, budget)? {
        return Some(soft(trace(sight, &ends.up.walk, index, block)));
    }
    if looked <= limit {
        let met = ends.down.walk.len().saturating_add(ends.up.walk.len());
        Some(hard_after(looked.saturating_add(met)))
    } else {
        None
    }
}

/// What keeps a new change of the block with that row soft but for open gates: it is soft where a way leads from the row
/// back to the block, else hard. What was met and crossed before does not matter. A few patches are looked at first: where
/// the change comes after thousands, it mostly leads back from some of them.
pub fn grade_between(sight: &Sight<'_>, ends: &mut Ends, block: u32, row: &[u32]) -> Graded
    requires sees { Sees sight.now }
    requires up { IsOver sight.now.heads.now.list.items (length sight.now.lists.now) ends.old.up }
    requires down { IsOver sight.now.heads.now.list.items (length sight.now.lists.now) ends.old.down }
    requires block { block < length sight.now.lists.now }
    ensures told { IsTold (patches_of sight.now.heads.now.list.items) block row.now (LeadsNowhere (patches_of sight.now.heads.now.list.items) block row.now) result }
    ensures up { IsOver sight.now.heads.now.list.items (length sight.now.lists.now) ends.new.up }
    ensures down { IsOver sight.now.heads.now.list.items (length sight.now.lists.now) ends.new.down }
{
    if let Some(told) = grade_within(sight, ends, block, row, FEW) {
        return told;
    }
    let Some(told) = grade_within(sight, ends, block, row, usize::MAX) else {
        unreachable!();
    };
    told
}
