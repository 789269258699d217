//! A hard change of a block in memory over a patch. What lies below a hard change leads nowhere, and that stays so for as long as
//! it is in memory. So a new change over soft ones of its own block, which were made behind gates that are sealed by now, need
//! not go through all of them. Once a hard change is made, a walk goes down from it to the changes of other blocks, and keeps it
//! as the one over each patch that it meets. It leaves out what is lower, and so below the floor of the block, which tells as
//! much; and it ends where one in memory is kept already, so that all such walks together are about as long as the block's list,
//! however many hard changes are made over it. One place is enough for a gate too: over one that depends on changes of two
//! blocks only one of them has hard changes. No other call has to look after what is kept: as long as a patch is not on disk,
//! neither is what depends on it; and hard changes of a block go into one write, with what lies below them.

ghost use Rattle.std.specs.Prelude.{◌≡◌, ◌<◌, ◌↔◌, ℕ, IsTrue, length, map};
ghost use Rattle.fst_types.specs.Dependencies.{DependsOn};
ghost use Rattle.fst_heads.specs.Heads.{patches_of};
ghost use Rattle.fst_heads.specs.Indices.{HasIndex};
ghost use Rattle.fst_levels.specs.Ancestors.{LieUnder};
ghost use Rattle.fst_levels.specs.Leveling.{IsLeveled, hard_over_of};
ghost use Rattle.fst_levels.specs.Sights.{Sees};
ghost use Rattle.fst_levels.specs.Walks.{numbers_met};
ghost use Rattle.fst_levels.specs.WayBack.{IsKeptUnder, IsUnderHard};

use crate::levels::Levels;
use crate::shortcuts::is_hard_in;
use crate::sight::Sight;
use crate::walk::Walk;
use fst_heads::head::Kind;
use fst_heads::heads::Heads;
use fst_heads::test::{Test, is_live, passes};
use fst_types::Grade;

/// Whether the patch at the index is a hard change of the block in memory, or such a one is kept over it.
pub fn is_under_hard(levels: &Levels, heads: &Heads, block: u32, index: usize) -> bool
    requires aligned { map (λ r. r.number) levels.now.ranks ≡ map (λ p. p.number) (patches_of heads.now.list.items) }
    requires inside { index < length heads.now.list.items }
    ensures { (n : ℕ) → HasIndex heads.now.list.items n index → IsTrue result ↔ IsKeptUnder (patches_of heads.now.list.items) (hard_over_of levels.now.ranks) block n }
{
    if is_hard_in(&heads.list[index], block) {
        return true;
    }
    let over = levels.hard_over(index);
    if over == 0 {
        return false;
    }
    match levels.find(heads, over) {
        Some(at) => is_hard_in(&heads.list[at], block),
        None => false,
    }
}

/// Whether the patch with the number is a hard change of the block in memory, or known to be below one.
pub(crate) fn is_known_under(sight: &Sight<'_>, block: u32, number: u32) -> bool
    requires { Sees sight.now }
    ensures { IsTrue result → IsUnderHard (patches_of sight.now.heads.now.list.items) block number }
{
    match sight.levels.find(sight.heads, number) {
        Some(index) => is_under_hard(sight.levels, sight.heads, block, index),
        None => false,
    }
}

// A hard change, its block and its level, which is the floor of that.
#[derive(Clone, Copy)]
struct Top {
    number: u32,
    block: u32,
    level: u32,
}

// Keeps the hard change as the one over the patch with the number, which is below it: if that is not on disk, no change of
// another block and no lower, and neither is hard and in memory nor has such a one of the block kept over it. It is met then.
fn keep_over(levels: &mut Levels, heads: &Heads, walk: &mut Walk, top: Top, number: u32)
    requires leveled { IsLeveled (patches_of heads.now.list.items) (length levels.old.floors) levels.old }
    requires long { length walk.old.marks ≡ length heads.now.list.items }
    requires below { DependsOn (patches_of heads.now.list.items) top.number number }
    requires met { LieUnder (patches_of heads.now.list.items) top.number (numbers_met heads.now.list.items walk.old) }
    ensures leveled { IsLeveled (patches_of heads.now.list.items) (length levels.old.floors) levels.new }
    ensures levels { (length levels.new.ranks ≡ length levels.old.ranks) × (levels.new.room ≡ levels.old.room) }
    ensures long { length walk.new.marks ≡ length heads.now.list.items }
    ensures room { walk.new.room ≡ walk.old.room }
    ensures met { LieUnder (patches_of heads.now.list.items) top.number (numbers_met heads.now.list.items walk.new) }
{
    let Some(index) = levels.find(heads, number) else {
        return;
    };
    if levels.level(index) < top.level {
        return;
    }
    let head = &heads.list[index];
    if !is_live(head.place) || passes(Test::LiveOff(top.block), head) {
        return;
    }
    if is_under_hard(levels, heads, top.block, index) {
        return;
    }
    levels.put_hard_over(heads, index, top.number);
    walk.meet(index);
}

// Keeps it so over what the patch that was met there in turn directly depends on.
fn keep_below(levels: &mut Levels, heads: &Heads, walk: &mut Walk, top: Top, at: usize)
    requires leveled { IsLeveled (patches_of heads.now.list.items) (length levels.old.floors) levels.old }
    requires long { length walk.old.marks ≡ length heads.now.list.items }
    requires at { at < length walk.old.met }
    requires met { LieUnder (patches_of heads.now.list.items) top.number (numbers_met heads.now.list.items walk.old) }
    ensures leveled { IsLeveled (patches_of heads.now.list.items) (length levels.old.floors) levels.new }
    ensures levels { (length levels.new.ranks ≡ length levels.old.ranks) × (levels.new.room ≡ levels.old.room) }
    ensures long { length walk.new.marks ≡ length heads.now.list.items }
    ensures room { walk.new.room ≡ walk.old.room }
    ensures met { LieUnder (patches_of heads.now.list.items) top.number (numbers_met heads.now.list.items walk.new) }
{
    let head = &heads.list[walk.index_at(at)];
    for number in head.dependencies.as_slice() {
        keep_over(levels, heads, walk, top, *number);
    }
}

/// Keeps the change with the number, if it is hard, as the one over what lies below it, as far as no change of another block
/// lies between. What was met before does not matter.
pub fn keep_under(levels: &mut Levels, heads: &Heads, walk: &mut Walk, number: u32)
    requires leveled { IsLeveled (patches_of heads.now.list.items) (length levels.old.floors) levels.old }
    requires long { length walk.old.marks ≡ length heads.now.list.items }
    ensures leveled { IsLeveled (patches_of heads.now.list.items) (length levels.old.floors) levels.new }
    ensures levels { (length levels.new.ranks ≡ length levels.old.ranks) × (levels.new.room ≡ levels.old.room) }
    ensures long { length walk.new.marks ≡ length heads.now.list.items }
    ensures room { walk.new.room ≡ walk.old.room }
{
    walk.clear();
    let Some(index) = levels.find(heads, number) else {
        return;
    };
    let Kind::Change(Grade::Hard, block, _) = heads.list[index].kind else {
        return;
    };
    walk.meet(index);
    let top = Top {
        number,
        block: u32::from(block),
        level: levels.level(index),
    };
    let mut at = 0;
    while at < walk.len() {
        keep_below(levels, heads, walk, top, at);
        at += 1;
    }
}
