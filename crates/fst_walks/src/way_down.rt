//! A step of the walk down, from what may keep a new change where it is, to all that this may wait for: from a patch to
//! what it directly depends on, and from a change to what its block needs, without which the block is not written. Each
//! block is crossed once, and what a hard change in memory directly depends on is among what its block needs, so that a long
//! chain of such on one block is not gone through. No way down rises, so what is lower than what the walk looks for is left
//! out.

ghost use Rattle.std.specs.Prelude.{◌≡◌, ◌<◌, ◌≤◌, ◌↔◌, ℕ, IfSome, IsTrue, length, slice_index_or, Contains};
ghost use Rattle.fst_types.specs.Dependencies.{IsLiveNumber};
ghost use Rattle.fst_heads.specs.Grading.{IsHardNumber};
ghost use Rattle.fst_heads.specs.Heads.{patches_of};
ghost use Rattle.fst_heads.specs.declared.test.Test.TheVariants as test;
ghost use Rattle.fst_heads.specs.Indices.{HasIndex, PassesAt};
ghost use Rattle.fst_walks.specs.BothEnds.{CrossesDown, IsHigh, IsHighNeed, ShowsBlockUnder, StepsBelow, StepsHigh};
ghost use Rattle.fst_walks.specs.Descending.{Visited, Visits};
ghost use Rattle.fst_levels.specs.Leveling.{level_of};
ghost use Rattle.fst_levels.specs.Needing.{needs_of};
ghost use Rattle.fst_levels.specs.Sights.{Sees};
ghost use Rattle.fst_levels.specs.Walks.{numbers_met};

use fst_heads::head::Kind;
use fst_heads::test::{Test, is_live};
use fst_levels::shortcuts::{is_hard_in, newest_few, passes_at};
use fst_levels::sight::Sight;
use fst_levels::walk::Walk;

// A row of up to so many is visited whole, and of a longer one so many of the newest are looked at first.
const SHORT: usize = 64;

const NEWEST: usize = 8;

/// Visits the patch with the number, unless it is on disk, lower than `least` or was visited before. It looks at the head
/// only where that is high enough and was not visited: most are too low or were, and heads are far larger than ranks.
pub(crate) fn visit_high(sight: &Sight<'_>, walk: &mut Walk, number: u32, least: u32)
    requires sees { Sees sight.now }
    requires visited { Visited sight.now.heads.now.list.items walk.old }
    ensures visited { Visited sight.now.heads.now.list.items walk.new }
    ensures visits { Visits (λ n. (n ≡ number) × IsHigh (patches_of sight.now.heads.now.list.items) (level_of sight.now.levels.now.ranks) least n) (numbers_met sight.now.heads.now.list.items walk.old) (numbers_met sight.now.heads.now.list.items walk.new) }
{
    if let Some(index) = sight.levels.find(sight.heads, number) {
        if sight.levels.level(index) >= least {
            if !walk.has_met(index) {
                if is_live(sight.heads.list[index].place) {
                    walk.meet(index);
                }
            }
        }
    }
}

/// Visits what is not on disk of the row, as far as it is no lower than `least`.
pub fn visit_high_row(sight: &Sight<'_>, walk: &mut Walk, row: &[u32], least: u32)
    requires sees { Sees sight.now }
    requires visited { Visited sight.now.heads.now.list.items walk.old }
    ensures visited { Visited sight.now.heads.now.list.items walk.new }
    ensures visits { Visits (λ n. Contains row.now n × IsHigh (patches_of sight.now.heads.now.list.items) (level_of sight.now.levels.now.ranks) least n) (numbers_met sight.now.heads.now.list.items walk.old) (numbers_met sight.now.heads.now.list.items walk.new) }
{
    for number in row {
        visit_high(sight, walk, *number, least);
    }
}

// Whether the patch with the number, which stands at the index, is a hard change in memory.
fn is_any_hard(sight: &Sight<'_>, index: usize, number: u32) -> bool
    requires sees { Sees sight.now }
    requires index { HasIndex sight.now.heads.now.list.items number index }
    ensures { IsTrue result ↔ ((c : ℕ) × IsHardNumber (patches_of sight.now.heads.now.list.items) c number) }
{
    let _ = number;
    let head = &sight.heads.list[index];
    if let Kind::Change(_, block, _) = head.kind {
        return is_hard_in(head, block as u32);
    }
    false
}

// Visits what the patch with the number directly depends on, as far as it is no lower than `least`; of a hard change in memory
// nothing. Answers how many patches it looked at.
fn visit_high_below(
    sight: &Sight<'_>,
    walk: &mut Walk,
    index: usize,
    number: u32,
    least: u32,
) -> usize
    requires sees { Sees sight.now }
    requires visited { Visited sight.now.heads.now.list.items walk.old }
    requires index { HasIndex sight.now.heads.now.list.items number index }
    ensures visited { Visited sight.now.heads.now.list.items walk.new }
    ensures visits { Visits (StepsBelow (patches_of sight.now.heads.now.list.items) (level_of sight.now.levels.now.ranks) least number) (numbers_met sight.now.heads.now.list.items walk.old) (numbers_met sight.now.heads.now.list.items walk.new) }
{
    if is_any_hard(sight, index, number) {
        return 0;
    }
    let below = sight.heads.list[index].dependencies.as_slice();
    visit_high_row(sight, walk, below, least);
    below.len()
}

// Visits what the block needs, as far as it is no lower than `least`. Answers how many patches it looked at.
fn visit_high_needs(sight: &Sight<'_>, walk: &mut Walk, block: u32, least: u32) -> usize
    requires sees { Sees sight.now }
    requires visited { Visited sight.now.heads.now.list.items walk.old }
    requires block { block < length sight.now.lists.now }
    ensures visited { Visited sight.now.heads.now.list.items walk.new }
    ensures visits { Visits (IsHighNeed (patches_of sight.now.heads.now.list.items) (level_of sight.now.levels.now.ranks) least (needs_of sight.now.needs.now.lists) block) (numbers_met sight.now.heads.now.list.items walk.old) (numbers_met sight.now.heads.now.list.items walk.new) }
{
    // None is higher than the floor of the block.
    if sight.levels.floor(block) < least {
        return 0;
    }
    let needs = sight.needs.of(block);
    for need in needs {
        visit_high(sight, walk, *need, least);
    }
    needs.len()
}

// From the patch with the number, if it is a change, across its block, unless that was crossed before. Answers how many
// patches it looked at.
fn cross(
    sight: &Sight<'_>,
    walk: &mut Walk,
    crossed: &mut [bool],
    index: usize,
    number: u32,
    least: u32,
) -> usize
    requires sees { Sees sight.now }
    requires crossed { length crossed.old ≡ length sight.now.lists.now }
    requires visited { Visited sight.now.heads.now.list.items walk.old }
    requires index { HasIndex sight.now.heads.now.list.items number index }
    requires live { IsLiveNumber (patches_of sight.now.heads.now.list.items) number }
    ensures visited { Visited sight.now.heads.now.list.items walk.new }
    ensures visits { Visits (λ q. CrossesDown (patches_of sight.now.heads.now.list.items) (needs_of sight.now.needs.now.lists) crossed.old number q × (least ≤ level_of sight.now.levels.now.ranks q)) (numbers_met sight.now.heads.now.list.items walk.old) (numbers_met sight.now.heads.now.list.items walk.new) }
    ensures crossed { ShowsBlockUnder (patches_of sight.now.heads.now.list.items) number crossed.old crossed.new }
{
    if let Kind::Change(_, block, _) = sight.heads.list[index].kind {
        let block = block as u32;
        if !crossed[block as usize] {
            crossed[block as usize] = true;
            return visit_high_needs(sight, walk, block, least);
        }
    }
    0
}

// Whether the patch with the number is a change of the block that is not on disk, and no lower than `least`.
fn is_high_change(sight: &Sight<'_>, number: u32, least: u32, on: u32) -> bool
    requires sees { Sees sight.now }
    ensures { IsTrue result → PassesAt (test.LiveOn on) (patches_of sight.now.heads.now.list.items) number × (least ≤ level_of sight.now.levels.now.ranks number) }
{
    passes_at(sight, Test::LiveOn(on), number) && sight.levels.of(sight.heads, number) >= least
}

// A change of the block `on` to which a step leads down from the patch that was met there in turn, across its block, as far as
// that is told by what this was last found to need of `on`. So it is found without a visit to all that the block needs.
fn change_across(
    sight: &Sight<'_>,
    walk: &Walk,
    crossed: &[bool],
    at: usize,
    least: u32,
    on: u32,
) -> Option<u32>
    requires sees { Sees sight.now }
    requires crossed { length crossed.now ≡ length sight.now.lists.now }
    requires visited { Visited sight.now.heads.now.list.items walk.now }
    requires at { at < length walk.now.met }
    ensures { IfSome result (λ n. PassesAt (test.LiveOn on) (patches_of sight.now.heads.now.list.items) n × StepsHigh (patches_of sight.now.heads.now.list.items) (level_of sight.now.levels.now.ranks) least (needs_of sight.now.needs.now.lists) crossed.now (slice_index_or (numbers_met sight.now.heads.now.list.items walk.now) at 0) n) }
{
    let Kind::Change(_, block, _) = sight.heads.list[walk.index_at(at)].kind else {
        return None;
    };
    let block = u32::from(block);
    if crossed[block as usize] {
        return None;
    }
    let number = sight.needs.newest_on(block, on)?;
    if is_high_change(sight, number, least, on) {
        Some(number)
    } else {
        None
    }
}

/// A change of the block `on` that the patch that was met there in turn directly depends on, if its row is long, among the newest
/// of that. So a way that ends below a gate over thousands is found without a visit to all of them.
pub fn change_below(sight: &Sight<'_>, walk: &Walk, at: usize, least: u32, on: u32) -> Option<u32>
    requires sees { Sees sight.now }
    requires visited { Visited sight.now.heads.now.list.items walk.now }
    requires at { at < length walk.now.met }
    ensures { IfSome result (λ n. PassesAt (test.LiveOn on) (patches_of sight.now.heads.now.list.items) n × StepsBelow (patches_of sight.now.heads.now.list.items) (level_of sight.now.levels.now.ranks) least (slice_index_or (numbers_met sight.now.heads.now.list.items walk.now) at 0) n) }
{
    let index = walk.index_at(at);
    let row = sight.heads.list[index].dependencies.as_slice();
    if row.len() <= SHORT {
        return None;
    }
    let number = sight.heads.list[index].number;
    if is_any_hard(sight, index, number) {
        return None;
    }
    for below in newest_few(row, NEWEST) {
        if is_high_change(sight, *below, least, on) {
            return Some(*below);
        }
    }
    None
}

/// A change of the block `on` to which a step leads across its block from a patch that was met at that turn or later, as far as
/// that is told by what blocks were last found to need of `on`.
pub fn any_across(
    sight: &Sight<'_>,
    walk: &Walk,
    crossed: &[bool],
    from: usize,
    least: u32,
    on: u32,
) -> Option<u32>
    requires sees { Sees sight.now }
    requires crossed { length crossed.now ≡ length sight.now.lists.now }
    requires visited { Visited sight.now.heads.now.list.items walk.now }
    ensures { IfSome result (λ n. PassesAt (test.LiveOn on) (patches_of sight.now.heads.now.list.items) n × ((at : ℕ) × (at < length walk.now.met) × StepsHigh (patches_of sight.now.heads.now.list.items) (level_of sight.now.levels.now.ranks) least (needs_of sight.now.needs.now.lists) crossed.now (slice_index_or (numbers_met sight.now.heads.now.list.items walk.now) at 0) n)) }
{
    for at in from..walk.len() {
        let across = change_across(sight, walk, crossed, at, least, on);
        if across.is_some() {
            return across;
        }
    }
    None
}

/// Visits what a step leads down to from the patch that was met there in turn, as far as it is no lower than `least`. Answers
/// how many patches it looked at.
pub fn step_down(
    sight: &Sight<'_>,
    walk: &mut Walk,
    crossed: &mut [bool],
    at: usize,
    least: u32,
) -> usize
    requires sees { Sees sight.now }
    requires crossed { length crossed.old ≡ length sight.now.lists.now }
    requires visited { Visited sight.now.heads.now.list.items walk.old }
    requires at { at < length walk.old.met }
    ensures visited { Visited sight.now.heads.now.list.items walk.new }
    ensures visits { Visits (StepsHigh (patches_of sight.now.heads.now.list.items) (level_of sight.now.levels.now.ranks) least (needs_of sight.now.needs.now.lists) crossed.old (slice_index_or (numbers_met sight.now.heads.now.list.items walk.old) at 0)) (numbers_met sight.now.heads.now.list.items walk.old) (numbers_met sight.now.heads.now.list.items walk.new) }
    ensures crossed { ShowsBlockUnder (patches_of sight.now.heads.now.list.items) (slice_index_or (numbers_met sight.now.heads.now.list.items walk.old) at 0) crossed.old crossed.new }
{
    let index = walk.index_at(at);
    let number = sight.heads.list[index].number;
    let below = visit_high_below(sight, walk, index, number, least);
    let across = cross(sight, walk, crossed, index, number, least);
    below.saturating_add(across)
}
