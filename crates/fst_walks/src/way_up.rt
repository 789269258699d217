//! A step of the walk up from the changes of a block, to all that may come to wait for it: from a patch to those that
//! directly depend on it, and from a hard change in memory to all changes of its block. Each block is crossed once. No way
//! up falls, so what is higher than what the walk looks for is left out.

ghost use Rattle.std.specs.Prelude.{◌≡◌, ◌≤◌, ◌<◌, ℕ, length, Contains, slice_index_or};
ghost use Rattle.fst_heads.specs.Heads.{patches_of};
ghost use Rattle.fst_heads.specs.Indices.{HasIndex};
ghost use Rattle.fst_walks.specs.BothEnds.{IsLow, IsLowChange, IsOffDisk, StepsLow};
ghost use Rattle.fst_walks.specs.Descending.{Visited, Visits};
ghost use Rattle.fst_levels.specs.Leveling.{level_of};
ghost use Rattle.fst_levels.specs.Sights.{Sees};
ghost use Rattle.fst_levels.specs.Walks.{numbers_met};
ghost use Rattle.fst_levels.specs.WayBack.{Crosses, ShowsBlockOf};

use fst_heads::head::Kind;
use fst_levels::shortcuts::is_hard_in;
use fst_levels::sight::Sight;
use fst_levels::walk::Walk;

// Visits the patch with the number, which is not on disk, unless it is higher than `most` or was visited before. It looks
// at heads only where numbers are missing among the newest ranks.
fn visit_low(sight: &Sight<'_>, walk: &mut Walk, number: u32, most: u32)
    requires sees { Sees sight.now }
    requires visited { Visited sight.now.heads.now.list.items walk.old }
    requires live { IsOffDisk (patches_of sight.now.heads.now.list.items) number }
    ensures visited { Visited sight.now.heads.now.list.items walk.new }
    ensures room { walk.new.room ≡ walk.old.room }
    ensures visits { Visits (λ n. (n ≡ number) × IsLow (patches_of sight.now.heads.now.list.items) (level_of sight.now.levels.now.ranks) most n) (numbers_met sight.now.heads.now.list.items walk.old) (numbers_met sight.now.heads.now.list.items walk.new) }
{
    if let Some(index) = sight.levels.find(sight.heads, number) {
        if sight.levels.level(index) <= most {
            walk.meet(index);
        }
    }
}

// Visits those of the row, none of which is on disk, that are no higher than `most`.
fn visit_low_row(sight: &Sight<'_>, walk: &mut Walk, row: &[u32], most: u32)
    requires sees { Sees sight.now }
    requires visited { Visited sight.now.heads.now.list.items walk.old }
    requires live { (n : ℕ) → Contains row.now n → IsOffDisk (patches_of sight.now.heads.now.list.items) n }
    ensures visited { Visited sight.now.heads.now.list.items walk.new }
    ensures room { walk.new.room ≡ walk.old.room }
    ensures visits { Visits (λ n. Contains row.now n × IsLow (patches_of sight.now.heads.now.list.items) (level_of sight.now.levels.now.ranks) most n) (numbers_met sight.now.heads.now.list.items walk.old) (numbers_met sight.now.heads.now.list.items walk.new) }
{
    for number in row {
        visit_low(sight, walk, *number, most);
    }
}

/// Visits the changes of the block that are not on disk and no higher than `most`, which its list has. Answers how many
/// patches it looked at.
pub fn visit_low_changes(sight: &Sight<'_>, walk: &mut Walk, block: u32, most: u32) -> usize
    requires sees { Sees sight.now }
    requires visited { Visited sight.now.heads.now.list.items walk.old }
    requires block { block < length sight.now.lists.now }
    ensures visited { Visited sight.now.heads.now.list.items walk.new }
    ensures room { walk.new.room ≡ walk.old.room }
    ensures visits { Visits (IsLowChange (patches_of sight.now.heads.now.list.items) (level_of sight.now.levels.now.ranks) most block) (numbers_met sight.now.heads.now.list.items walk.old) (numbers_met sight.now.heads.now.list.items walk.new) }
{
    // None is lower than the floor of the block.
    if most < sight.levels.floor(block) {
        return 0;
    }
    let list = sight.lists[block as usize].as_slice();
    for listed in list {
        visit_low(sight, walk, listed.number, most);
    }
    list.len()
}

// From the patch with the number, if it is a hard change in memory, across its block, unless that was crossed before.
// Answers how many patches it looked at.
fn cross(
    sight: &Sight<'_>,
    walk: &mut Walk,
    crossed: &mut [bool],
    index: usize,
    number: u32,
    most: u32,
) -> usize
    requires sees { Sees sight.now }
    requires crossed { length crossed.old ≡ length sight.now.lists.now }
    requires visited { Visited sight.now.heads.now.list.items walk.old }
    requires index { HasIndex sight.now.heads.now.list.items number index }
    ensures visited { Visited sight.now.heads.now.list.items walk.new }
    ensures room { walk.new.room ≡ walk.old.room }
    ensures visits { Visits (λ q. Crosses (patches_of sight.now.heads.now.list.items) crossed.old number q × (level_of sight.now.levels.now.ranks q ≤ most)) (numbers_met sight.now.heads.now.list.items walk.old) (numbers_met sight.now.heads.now.list.items walk.new) }
    ensures crossed { ShowsBlockOf (patches_of sight.now.heads.now.list.items) number crossed.old crossed.new }
{
    if let Kind::Change(_, block, _) = sight.heads.list[index].kind {
        let block = block as u32;
        if is_hard_in(&sight.heads.list[index], block) {
            if !crossed[block as usize] {
                crossed[block as usize] = true;
                return visit_low_changes(sight, walk, block, most);
            }
        }
    }
    0
}

/// Visits what a step leads up to from the patch that was met there in turn, as far as it is no higher than `most`. Answers
/// how many patches it looked at.
pub fn step_up(
    sight: &Sight<'_>,
    walk: &mut Walk,
    crossed: &mut [bool],
    at: usize,
    most: u32,
) -> usize
    requires sees { Sees sight.now }
    requires crossed { length crossed.old ≡ length sight.now.lists.now }
    requires visited { Visited sight.now.heads.now.list.items walk.old }
    requires at { at < length walk.old.met }
    ensures visited { Visited sight.now.heads.now.list.items walk.new }
    ensures room { walk.new.room ≡ walk.old.room }
    ensures visits { Visits (StepsLow (patches_of sight.now.heads.now.list.items) (level_of sight.now.levels.now.ranks) most crossed.old (slice_index_or (numbers_met sight.now.heads.now.list.items walk.old) at 0)) (numbers_met sight.now.heads.now.list.items walk.old) (numbers_met sight.now.heads.now.list.items walk.new) }
    ensures crossed { ShowsBlockOf (patches_of sight.now.heads.now.list.items) (slice_index_or (numbers_met sight.now.heads.now.list.items walk.old) at 0) crossed.old crossed.new }
{
    let index = walk.index_at(at);
    let head = &sight.heads.list[index];
    let above = head.dependants.as_slice();
    visit_low_row(sight, walk, above, most);
    let across = cross(sight, walk, crossed, index, head.number, most);
    above.len().saturating_add(across)
}
