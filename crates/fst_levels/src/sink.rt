//! What was put behind an open gate stands at the top, where levels tell nothing of it. Once the gate is sealed it comes down,
//! as far as no other gate is open below it: each patch once all that it depends on has come down, and each once. And the
//! floor of a block comes down as the last of its changes lands.

ghost use Rattle.std.specs.Prelude.{◌≡◌, ◌<◌, ℕ, List, length, map};
ghost use Rattle.fst_types.specs.Patches.{IsRising as PatchesRise, Patch};
ghost use Rattle.fst_heads.specs.Heads.{patches_of};
ghost use Rattle.fst_heads.specs.Lists.{entries_of, AreListed};
ghost use Rattle.fst_levels.specs.Leveling.{IsLeveled};

use crate::levels::{Levels, TOP};
use crate::shortcuts::newest;
use crate::walk::Walk;
use fst_heads::heads::Heads;
use fst_heads::lists::Listed;

// How long a row is looked through each time that one of it has come down. A longer one is only as the newest of it does.
const LONGEST: usize = 64;

// Whether nothing of the row is at the top any more, of which that patch has come down last.
fn is_down(levels: &Levels, heads: &Heads, row: &[u32], last: u32) -> bool {
    if row.len() > LONGEST && newest(row) != Some(last) {
        return false;
    }
    for number in row.iter().rev() {
        if levels.of(heads, *number) == TOP {
            return false;
        }
    }
    true
}

// The patch with the number comes down from the top, where nothing that it depends on is there any more, of which that patch
// has come down last. It is met then.
fn sink_one(levels: &mut Levels, heads: &Heads, walk: &mut Walk, number: u32, last: u32)
    requires leveled { IsLeveled (patches_of heads.now.list.items) (length levels.old.floors) levels.old }
    requires long { length walk.old.marks ≡ length heads.now.list.items }
    ensures leveled { IsLeveled (patches_of heads.now.list.items) (length levels.old.floors) levels.new }
    ensures levels { (length levels.new.ranks ≡ length levels.old.ranks) × (levels.new.room ≡ levels.old.room) }
    ensures long { length walk.new.marks ≡ length heads.now.list.items }
    ensures room { walk.new.room ≡ walk.old.room }
{
    let Some(index) = levels.find(heads, number) else {
        return;
    };
    if levels.level(index) < TOP {
        return;
    }
    let row = heads.list[index].dependencies.as_slice();
    if is_down(levels, heads, row, last) && levels.lower(heads, index) {
        walk.meet(index);
    }
}

// What directly depends on the patch at the index, which has come down, comes down where it can.
fn sink_dependants(levels: &mut Levels, heads: &Heads, walk: &mut Walk, index: usize)
    requires index { index < length heads.now.list.items }
    requires leveled { IsLeveled (patches_of heads.now.list.items) (length levels.old.floors) levels.old }
    requires long { length walk.old.marks ≡ length heads.now.list.items }
    ensures leveled { IsLeveled (patches_of heads.now.list.items) (length levels.old.floors) levels.new }
    ensures levels { (length levels.new.ranks ≡ length levels.old.ranks) × (levels.new.room ≡ levels.old.room) }
    ensures long { length walk.new.marks ≡ length heads.now.list.items }
    ensures room { walk.new.room ≡ walk.old.room }
{
    let head = &heads.list[index];
    for over in head.dependants.as_slice() {
        sink_one(levels, heads, walk, *over, head.number);
    }
}

/// What stands over the patch with the number comes down from the top, where that has. What was met before does not matter.
pub fn sink_over(levels: &mut Levels, heads: &Heads, walk: &mut Walk, number: u32)
    requires leveled { IsLeveled (patches_of heads.now.list.items) (length levels.old.floors) levels.old }
    requires long { length walk.old.marks ≡ length heads.now.list.items }
    ensures leveled { IsLeveled (patches_of heads.now.list.items) (length levels.old.floors) levels.new }
    ensures levels { (length levels.new.ranks ≡ length levels.old.ranks) × (levels.new.room ≡ levels.old.room) }
    ensures long { length walk.new.marks ≡ length heads.now.list.items }
    ensures room { walk.new.room ≡ walk.old.room }
{
    walk.clear();
    let Some(index) = levels.find(heads, number) else {
        return;
    };
    if levels.level(index) == TOP {
        return;
    }
    walk.meet(index);
    let mut at = 0;
    while at < walk.len() {
        let index = walk.index_at(at);
        sink_dependants(levels, heads, walk, index);
        at += 1;
    }
}

/// Where all changes of the block are on disk, as its list says, its floor goes to the bottom.
pub fn sink_floor(levels: &mut Levels, lists: &[Vec<Listed>], block: u32)
    ensures leveled { (patches : List Patch) → PatchesRise patches → AreListed patches (length lists.now) (map (λ l. entries_of l.items) lists.now) → (blocks : ℕ) → IsLeveled patches blocks levels.old → IsLeveled patches blocks levels.new }
    ensures room { (length levels.new.ranks ≡ length levels.old.ranks) × (levels.new.room ≡ levels.old.room) }
{
    if let Some(list) = lists.get(block as usize) {
        if list.is_empty() {
            levels.drop_floor(block);
        }
    }
}
