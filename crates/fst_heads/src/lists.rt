//! Each block lists its changes that are not on disk, so that a call that asks for those of one block looks at no others.

ghost use Rattle.std.specs.Prelude.{◌==◌, ◌&&◌, ◌≡◌, ◌≤◌, ◌<◌, ◌++◌, [], List, All, AllPairs, not, length, map, filter, IfOk, vec_capacity};
ghost use Rattle.std.specs.List.{list_any};
ghost use Rattle.std.specs.List.Sorted.{IsStrictlyIncreasing};
ghost use Rattle.fst_heads.specs.Spreading.{lands};
ghost use Rattle.fst_heads.specs.Heads.{patches_of};
ghost use Rattle.fst_heads.specs.Keeps.{IsInside};
ghost use Rattle.fst_heads.specs.Lists.{entries_of, entries_on, flying_on, AreListed};
ghost use Rattle.fst_heads.specs.Nodes.{at_number, nodes_of};
ghost use Rattle.fst_heads.specs.Standings.{is_flying_on};
ghost use Rattle.fst_heads.specs.Stretches.{LieIn};
ghost use Rattle.fst_types.specs.Tests.{is_among, is_change_at};
ghost use Rattle.fst_types.specs.declared.place.Place.TheVariants as place;

use crate::heads::Heads;
use crate::places::is_change_at;
use crate::row::has_number;
use crate::standing::Standing;
use crate::stretch::Stretch;
use crate::turns::next_in_turn;
use fst_types::{Place, Span};
use std::alloc::{AllocError, Global};

/// A change as its block lists it.
#[derive(Clone, Copy)]
pub struct Listed {
    pub number: u32,
    pub span: Span,
}

/// An empty list for each block.
pub fn empty_lists(alloc: Global, blocks: u32) -> Result<Vec<Vec<Listed>>, AllocError>
    ensures { IfOk result (λ lists. AreListed [] blocks (map (λ l. entries_of l.items) lists.items)) }
{
    let mut lists = Vec::with_capacity(alloc, blocks as usize)?;
    for _ in 0..blocks {
        lists.push_reserved(Vec::new(alloc));
    }
    Ok(lists)
}

/// The list from the number on, which is looked up by halves.
pub(crate) fn list_from(list: &[Listed], number: u32) -> &[Listed]
    requires { AllPairs (λ x y. x.number < y.number) list.now }
    ensures { (before : List Listed) × (list.now ≡ before ++ result.now) × All (λ x. x.number < number) before }
{
    let before = list.partition_point(|listed| listed.number < number);
    &list[before..]
}

/// The part of the list whose numbers lie in the stretch, which is looked up by halves.
pub(crate) fn list_in(list: &[Listed], stretch: Stretch) -> &[Listed]
    requires { AllPairs (λ x y. x.number < y.number) list.now }
    ensures { (before after : List Listed) × (list.now ≡ before ++ (result.now ++ after)) × All (λ x. x.number < stretch.from) before × All (λ x. stretch.to < x.number) after }
{
    let rest = list_from(list, stretch.from);
    let inside = rest.partition_point(|listed| listed.number <= stretch.to);
    &rest[..inside]
}

// The change with the number is on disk, if it is one of the block in flight; whether it is one.
fn land_number(heads: &mut Heads, number: u32, block: u32) -> bool
    ensures flew { result ≡ list_any (λ x. (x.patch.number == number) && is_change_at place.Flight block x.patch) (nodes_of heads.old.list.items) }
    ensures nodes { nodes_of heads.new.list.items ≡ map (at_number number (lands block)) (nodes_of heads.old.list.items) }
{
    let Some(index) = heads.index_of(number) else {
        return false;
    };
    if is_change_at(&heads.list[index], Place::Flight, block) {
        heads.list[index].place = Place::Disk;
        return true;
    }
    false
}

// So many places in the queue.
fn make_places(queue: &mut Vec<u32>, many: usize)
    requires idle { queue.old.items ≡ [] }
    requires room { many ≤ vec_capacity queue.old }
    ensures len { length queue.new.items ≡ many }
    ensures capacity { vec_capacity queue.new ≡ vec_capacity queue.old }
{
    for _ in 0..many {
        queue.push_reserved(0);
    }
}

// What is in flight among the listed is on disk, and waits in the queue, in order. As many fly as the standing counts, and
// they lie in its stretch: they are looked for there alone, from both ends of it, and where they are found, no others are
// looked at.
fn land_listed(
    heads: &mut Heads,
    list: &[Listed],
    queue: &mut Vec<u32>,
    standing: Standing,
    block: u32,
)
    requires listed { entries_of list.now ≡ entries_on block (patches_of heads.old.list.items) }
    requires flying { length (flying_on block (patches_of heads.old.list.items)) ≡ standing.flying }
    requires lie { LieIn (is_flying_on block) (nodes_of heads.old.list.items) standing.flying_in }
    requires idle { queue.old.items ≡ [] }
    requires room { length heads.old.list.items ≤ vec_capacity queue.old }
    ensures nodes { nodes_of heads.new.list.items ≡ map (lands block) (nodes_of heads.old.list.items) }
    ensures queued { queue.new.items ≡ flying_on block (patches_of heads.old.list.items) }
    ensures capacity { vec_capacity queue.new ≡ vec_capacity queue.old }
{
    make_places(queue, standing.flying);
    let mut low = 0;
    let mut high = standing.flying;
    let mut rest = list_in(list, standing.flying_in);
    let mut from_back = false;
    while low < high {
        let Some((listed, others)) = next_in_turn(rest, from_back) else {
            break;
        };
        if land_number(heads, listed.number, block) {
            if from_back {
                high -= 1;
                queue[high] = listed.number;
            } else {
                queue[low] = listed.number;
                low += 1;
            }
        }
        rest = others;
        from_back = !from_back;
    }
}

// Drops those that landed.
fn drop_landed(list: &mut Vec<Listed>, landed: &[u32])
    requires { IsStrictlyIncreasing landed.now }
    ensures { entries_of list.new.items ≡ filter (λ e. not (is_among landed.now e.number)) (entries_of list.old.items) }
{
    list.retain(|listed| !has_number(landed, listed.number));
}

/// What is in flight of the block is on disk, and waits in the queue. As many of its changes fly as the standing counts, and
/// they lie in its stretch.
pub fn land_block(
    heads: &mut Heads,
    lists: &mut Vec<Vec<Listed>>,
    queue: &mut Vec<u32>,
    standing: Standing,
    block: u32,
)
    requires inside { IsInside (patches_of heads.old.list.items) (length lists.old.items) }
    requires listed { AreListed (patches_of heads.old.list.items) (length lists.old.items) (map (λ l. entries_of l.items) lists.old.items) }
    requires flying { length (flying_on block (patches_of heads.old.list.items)) ≡ standing.flying }
    requires lie { LieIn (is_flying_on block) (nodes_of heads.old.list.items) standing.flying_in }
    requires idle { queue.old.items ≡ [] }
    requires room { length heads.old.list.items ≤ vec_capacity queue.old }
    ensures nodes { nodes_of heads.new.list.items ≡ map (lands block) (nodes_of heads.old.list.items) }
    ensures queued { queue.new.items ≡ flying_on block (patches_of heads.old.list.items) }
    ensures listed { AreListed (patches_of heads.new.list.items) (length lists.old.items) (map (λ l. entries_of l.items) lists.new.items) }
    ensures capacity { vec_capacity queue.new ≡ vec_capacity queue.old }
{
    if let Some(list) = lists.get_mut(block as usize) {
        land_listed(heads, list, queue, standing, block);
        drop_landed(list, queue);
    }
}
