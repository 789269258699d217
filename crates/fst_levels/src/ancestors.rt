//! Ancestors: what tells in few steps that a way leads down from one patch to another, however long it is. Each head knows
//! its parent, the newest of what it directly depended on when it was made, last gained names or was sealed, and one ancestor
//! further down that way, its jump. The jumps are those of Myers ("An applicative random-access stack", 1983): two of equal
//! length are joined to one, so that the ancestor at a depth is some dozens of steps away, whatever lies between. An ancestor
//! is older than its patch; one that was forgotten is none.
//!
//! Where many patches come after one gate and the next gate after all of them, one of them alone is an ancestor, or none: the
//! tail gate of a group is older than its changes, and its parent is its head gate. So a change is looked for by the gate that
//! comes after it, and the first change of another block beside the ancestors too.

ghost use Rattle.std.specs.Prelude.{◌≡◌, ◌<◌, ◌⊎◌, ℕ, List, IsTrue, IfSome, Contains, length, map};
ghost use Rattle.fst_types.specs.Gates.{IsOpenNumber};
ghost use Rattle.fst_types.specs.Order.{NamesAbove};
ghost use Rattle.fst_types.specs.Patches.{Patch};
ghost use Rattle.fst_heads.specs.declared.test.Test.TheVariants as test;
ghost use Rattle.fst_heads.specs.Heads.{patches_of};
ghost use Rattle.fst_heads.specs.Indices.{PassesAt};
ghost use Rattle.fst_heads.specs.Names.{numbers_of};
ghost use Rattle.fst_levels.specs.Ancestors.{GoesUnder, LeadsTo};
ghost use Rattle.fst_levels.specs.Leveling.{IsLeveled, jump_of, parent_of};
ghost use Rattle.fst_levels.specs.Sights.{Sees};
ghost use Rattle.fst_levels.specs.WayBack.{LeadsBack};

use crate::levels::{Ancestry, Levels, Rank, no_ancestry};
use crate::shortcuts::{first, newest, newest_few, passes_at, row_below};
use crate::sight::Sight;
use fst_heads::head::Kind;
use fst_heads::heads::Heads;
use fst_heads::lists::Listed;
use fst_heads::test::Test;
use fst_types::PatchNo;

// How many of the newest changes of a block are looked at, and how many of these, at most, are looked for among the
// ancestors. Behind a gate one patch of many goes on to the next gate, and may be far from the newest of its block.
const NEWEST: usize = 64;

const TRIED: u32 = 8;

// From how many of a row, or of names, they are looked for.
const WIDTH: usize = 4;

// How far above one of the row the first change of another block may be: gates and empty patches stand between.
const FEW: u32 = 8;

// More steps than the way to any ancestor has: of 65,535 patches none is more than three times sixteen away.
const MOST_STEPS: u32 = 64;

// The jump of a patch with that parent: where the parent's jump is as long as the next one, over both, else to the parent.
fn jump_under(levels: &Levels, heads: &Heads, parent: u32) -> u32
    ensures { (result ≡ parent) ⊎ (result ≡ jump_of levels.now.ranks (jump_of levels.now.ranks parent)) }
{
    let first = levels.rank_of(heads, parent).ancestry;
    let second = levels.rank_of(heads, first.jump).ancestry;
    let third = levels.rank_of(heads, second.jump).ancestry;
    if second.depth < first.depth
        && first.depth.abs_diff(second.depth) == second.depth.abs_diff(third.depth)
    {
        second.jump
    } else {
        parent
    }
}

// The parent of the patch with the number over that row: the newest of it, or where that is no older than the patch the first.
// The tail gate of a group depends on its head gate first, and then on changes that are made after both.
fn parent_in(row: &[u32], number: u32) -> Option<u32>
    ensures named { IfSome result (Contains row.now) }
    ensures older { IfSome result (λ p. p < number) }
{
    let last = newest(row)?;
    if last < number {
        return Some(last);
    }
    let first = first(row)?;
    if first < number { Some(first) } else { None }
}

/// The ancestry of the patch with the number, which directly depends on the row.
pub fn ancestry_over(levels: &Levels, heads: &Heads, row: &[u32], number: u32) -> Ancestry
    ensures { (patches : List Patch) (blocks : ℕ) → IsLeveled patches blocks levels.now → 0 < number → GoesUnder patches number row.now result }
{
    let Some(parent) = parent_in(row, number) else {
        return no_ancestry();
    };
    let above = levels.rank_of(heads, parent).ancestry.depth;
    Ancestry {
        parent,
        jump: jump_under(levels, heads, parent),
        depth: above.saturating_add(1),
    }
}

/// The patch with the number has the ancestry of what it directly depends on now.
pub fn renew(levels: &mut Levels, heads: &Heads, number: u32)
    requires leveled { IsLeveled (patches_of heads.now.list.items) (length levels.old.floors) levels.old }
    requires given { 0 < number }
    ensures leveled { IsLeveled (patches_of heads.now.list.items) (length levels.new.floors) levels.new }
    ensures floors { levels.new.floors ≡ levels.old.floors }
    ensures room { (length levels.new.ranks ≡ length levels.old.ranks) × (levels.new.room ≡ levels.old.room) }
{
    let Some(index) = levels.find(heads, number) else {
        return;
    };
    let row = heads.list[index].dependencies.as_slice();
    let ancestry = ancestry_over(levels, heads, row, number);
    levels.put_ancestry(index, ancestry);
}

// The next ancestor on the way to that one: the jump, unless that goes past it. Each is older than the one before, so that
// numbers tell; depths do not where a gate has gained names since the patches over it were made.
fn toward(sight: &Sight<'_>, own: Ancestry, to: u32) -> Rank
    requires sees { Sees sight.now }
    ensures next { (result.number ≡ own.parent) ⊎ (result.number ≡ own.jump) }
    ensures parent { result.ancestry.parent ≡ parent_of sight.now.levels.now.ranks result.number }
    ensures jump { result.ancestry.jump ≡ jump_of sight.now.levels.now.ranks result.number }
{
    if own.jump >= to {
        sight.levels.rank_of(sight.heads, own.jump)
    } else {
        sight.levels.rank_of(sight.heads, own.parent)
    }
}

// Whether a patch is the other one, or has it among its ancestors.
fn comes_to(sight: &Sight<'_>, from: u32, to: u32) -> bool
    requires sees { Sees sight.now }
    ensures { IsTrue result → LeadsTo (patches_of sight.now.heads.now.list.items) from to }
{
    let mut at = sight.levels.rank_of(sight.heads, from);
    for _ in 0..MOST_STEPS {
        if at.number == to {
            return true;
        }
        if at.number < to {
            return false;
        }
        at = toward(sight, at.ancestry, to);
    }
    false
}

// The patch with the number, or else one of the newest that it directly depends on, if that is a change of another block that
// is not on disk. Below the tail gate of a group there are such, and none is its ancestor.
fn off_at(sight: &Sight<'_>, block: u32, number: u32) -> Option<u32>
    requires sees { Sees sight.now }
    ensures off { IfSome result (PassesAt (test.LiveOff block) (patches_of sight.now.heads.now.list.items)) }
    ensures under { IfSome result (LeadsTo (patches_of sight.now.heads.now.list.items) number) }
{
    if passes_at(sight, Test::LiveOff(block), number) {
        return Some(number);
    }
    for below in newest_few(row_below(sight, number), WIDTH) {
        if passes_at(sight, Test::LiveOff(block), *below) {
            return Some(*below);
        }
    }
    None
}

// The first change of another block that is not on disk at the patch or its next ancestors.
fn first_off(sight: &Sight<'_>, block: u32, number: u32) -> Option<u32>
    requires sees { Sees sight.now }
    ensures off { IfSome result (PassesAt (test.LiveOff block) (patches_of sight.now.heads.now.list.items)) }
    ensures under { IfSome result (LeadsTo (patches_of sight.now.heads.now.list.items) number) }
{
    let mut at = number;
    for _ in 0..FEW {
        if let Some(off) = off_at(sight, block, at) {
            return Some(off);
        }
        at = sight.levels.rank_of(sight.heads, at).ancestry.parent;
    }
    None
}

// The newest changes of the block that are not on disk, as many as are looked at.
fn newest_changes<'a>(sight: &Sight<'a>, block: u32) -> &'a [Listed]
    requires sees { Sees sight.now }
    requires block { block < length sight.now.lists.now }
    ensures { (n : ℕ) → Contains (map (λ l. l.number) result.now) n → PassesAt (test.LiveOn block) (patches_of sight.now.heads.now.list.items) n }
{
    let list = sight.lists[block as usize].as_slice();
    &list[list.len().saturating_sub(NEWEST)..]
}

// Who is looked for among the ancestors of a patch with that rank in the place of a change: the first that directly depends on
// the change, where that is a gate or an empty patch, else the change itself. None where the change is higher or as deep, or
// nothing depends on it.
fn stand_in(sight: &Sight<'_>, own: Rank, change: u32) -> Option<u32>
    requires sees { Sees sight.now }
    ensures { IfSome result (λ s. LeadsTo (patches_of sight.now.heads.now.list.items) s change) }
{
    let index = sight.levels.find(sight.heads, change)?;
    let rank = sight.levels.rank(index);
    if rank.level > own.level || rank.ancestry.depth >= own.ancestry.depth {
        return None;
    }
    let first = first(sight.heads.list[index].dependants.as_slice())?;
    let over = sight.levels.find(sight.heads, first)?;
    if let Kind::Change(_, _, _) = sight.heads.list[over].kind {
        return Some(change);
    }
    Some(first)
}

// The first of these changes to which the ancestors of the patch with the number lead, of as many as are tried.
fn leads_to_one(sight: &Sight<'_>, number: u32, changes: &[Listed]) -> Option<u32>
    requires sees { Sees sight.now }
    ensures { IfSome result (λ n. Contains (map (λ l. l.number) changes.now) n × LeadsTo (patches_of sight.now.heads.now.list.items) number n) }
{
    let own = sight.levels.rank_of(sight.heads, number);
    let mut left = TRIED;
    for change in changes {
        if let Some(to) = stand_in(sight, own, change.number) {
            if left == 0 {
                return None;
            }
            left -= 1;
            if comes_to(sight, number, to) {
                return Some(change.number);
            }
        }
    }
    None
}

/// One of the newest changes of the block to which the ancestors of one of the row lead over a change of another block. A
/// change of the block with that row is soft. Where none do, another way may.
pub fn leads_to_block(sight: &Sight<'_>, block: u32, row: &[u32]) -> Option<u32>
    requires sees { Sees sight.now }
    requires block { block < length sight.now.lists.now }
    ensures { IfSome result (LeadsBack (patches_of sight.now.heads.now.list.items) block row.now) }
{
    let changes = newest_changes(sight, block);
    for number in newest_few(row, WIDTH) {
        if let Some(off) = first_off(sight, block, *number) {
            let end = leads_to_one(sight, off, changes);
            if end.is_some() {
                return end;
            }
        }
    }
    None
}

/// Whether one of the last names is the open gate, or its ancestors lead down to it. Where none do, another way may. More than
/// a few are not looked at, so that a gate which gains names in no cycle pays little; the last, since names mostly come in the
/// order in which they were made, and the newest are the furthest from the gate.
pub fn names_lead_to(sight: &Sight<'_>, gate: u32, names: &[PatchNo]) -> bool
    requires sees { Sees sight.now }
    requires is_open { IsOpenNumber (patches_of sight.now.heads.now.list.items) gate }
    ensures { IsTrue result → NamesAbove (patches_of sight.now.heads.now.list.items) gate (numbers_of names.now) }
{
    let last = &names[names.len().saturating_sub(WIDTH)..];
    for name in last {
        if comes_to(sight, name.0, gate) {
            return true;
        }
    }
    false
}
