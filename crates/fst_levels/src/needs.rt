//! What blocks need: where a walk down goes on when it crosses a block. Of each block the numbers are kept of what its hard
//! changes in memory directly depend on, but of the hard changes of one block one for all, since they are written together,
//! and none that waits for changes of the block alone, since a walk would only come back to the block that it crosses. So a
//! walk looks at each block that the block needs once, and not at each of its changes. What is on disk by then is left out where
//! there is no place for more, and once half as many as stayed have joined. Besides, where such a need is a soft change, a gate or
//! an empty patch that others lie below, the first of these of each other block is kept too: so that the block needs one of that
//! block is told by its needs, and not by a walk through these each time. Beside that the ways are kept that were
//! seen to lead from a soft change back to its block, each with its end. What is on a way waits for its end, so that it
//! stays there until that is on disk, and a new change over such a change of its block is soft too.

ghost use Rattle.std.specs.Prelude.{vec_capacity, vec_len, ◌≡◌, ◌≢◌, ◌≤◌, ◌<◌, ◌+◌, ◌⊎◌, ◌∷◌, [], ℕ, length, map, Contains, IfOk, IfSome, OnOk};
ghost use Rattle.fst_types.specs.declared.grade.Grade.TheVariants as grade;
ghost use Rattle.fst_types.specs.Facts.{IsOnDiskWithAll};
ghost use Rattle.fst_heads.specs.Heads.{patches_of};
ghost use Rattle.fst_heads.specs.Nodes.{nodes_of, AreSettled};
ghost use Rattle.fst_levels.specs.declared.needs.Way.{Way};
ghost use Rattle.fst_levels.specs.Needing.{IsAtOrUnder, IsBesides, IsKnown, IsLeft, IsNeeding, IsNoted, IsPruned, IsPut, needs_of};

use crate::below_row::{BELOW, Below, gather_below};
use crate::latest::Latest;
use crate::shortcuts::is_hard_in;
use crate::spared::{is_told, stays_on};
use fst_heads::head::Kind;
use fst_heads::heads::Heads;
use fst_heads::row::is_live_number;
use fst_heads::test::is_live;
use fst_types::Grade;
use std::alloc::{AllocError, Global};
use std::marker::Model;

/// A way back, from the soft change with the number to the change of its block at its end.
#[derive(Clone, Copy)]
pub struct Way {
    pub number: u32,
    pub end: u32,
}

/// What each block needs. Of one block there is room for so many more. `latest` tells which need is the newest of each other
/// block; `ways` has the known ways, as the numbers of their changes rise; `below` has what was gathered below a row
/// last. It takes two lists and 8 bytes for each block, 4 bytes for each need, 16 for each block that one needs and 8 for
/// each way, and 256 bytes.
#[derive(Drop)]
pub struct Needs {
    lists: Vec<Vec<u32>>,
    latest: Latest,
    block: u32,
    room: usize,
    ways: Vec<Way>,
    below: Below,
}

impl Model for Needs {
    ghost use Rattle.std.specs.Prelude.{vec_len, vec_capacity, ◌≤◌, ◌+◌, map, slice_index_or};
    ghost use Rattle.fst_levels.specs.Needing.{Needing};

    ghost Value = { Needing };

    ghost view = { λ n. record { lists = map (λ l. l.items) n.lists.items; block = n.block; room = n.room; ways = n.ways.items } };

    ghost invariant = { λ n. slice_index_or (map (λ l. vec_len l) n.lists.items) n.block 0 + n.room ≤ slice_index_or (map (λ l. vec_capacity l) n.lists.items) n.block 0 };
}

// The patch with the number joins the needs of the block at that place.
fn note_at(latest: &mut Latest, heads: &Heads, block: u32, at: usize, number: u32) {
    let Some(index) = heads.index_of(number) else {
        return;
    };
    let head = &heads.list[index];
    if let Kind::Change(_, of, _) = head.kind {
        latest.note(block, of, at, is_hard_in(head, u32::from(of)));
    }
}

// Whether the need at that place is not on disk.
fn is_live_at(heads: &Heads, needs: &[u32], at: Option<usize>) -> bool {
    match at {
        Some(at) if at < needs.len() => is_live_number(heads, needs[at]),
        _ => false,
    }
}

// The patch with the number joins what the block needs, if it is a change of another block that is not on disk, none of that
// block is there, and there is a place.
fn put_first(list: &mut Vec<u32>, latest: &mut Latest, heads: &Heads, block: u32, number: u32)
    ensures kept { (n : ℕ) → Contains list.old.items n → Contains list.new.items n }
    ensures only { (n : ℕ) → Contains list.new.items n → Contains list.old.items n ⊎ (n ≡ number) }
    ensures fits { vec_len list.old ≤ vec_capacity list.old → vec_len list.new ≤ vec_capacity list.new }
{
    let Some(index) = heads.index_of(number) else {
        return;
    };
    let head = &heads.list[index];
    let Kind::Change(_, of, _) = head.kind else {
        return;
    };
    let of = u32::from(of);
    if of == block || !is_live(head.place) {
        return;
    }
    if !is_live_at(heads, list, latest.of(block, of)) && list.len() < list.capacity() {
        note_at(latest, heads, block, list.len(), number);
        list.push_reserved(number);
    }
}

// Each of those joins so.
fn put_firsts(list: &mut Vec<u32>, latest: &mut Latest, heads: &Heads, block: u32, numbers: &[u32])
    ensures kept { (n : ℕ) → Contains list.old.items n → Contains list.new.items n }
    ensures only { (n : ℕ) → Contains list.new.items n → Contains list.old.items n ⊎ Contains numbers.now n }
    ensures fits { vec_len list.old ≤ vec_capacity list.old → vec_len list.new ≤ vec_capacity list.new }
{
    for number in numbers {
        put_first(list, latest, heads, block, *number);
    }
}

// Of what the block needs is left out what a walk need not go on to any more: it is on disk, or waits for changes of the block
// alone.
fn leave_out(needs: &mut Vec<u32>, heads: &Heads, block: u32)
    requires disk { IsOnDiskWithAll (patches_of heads.now.list.items) }
    requires settled { (blocks : ℕ) × AreSettled (nodes_of heads.now.list.items) blocks }
    ensures left { IsLeft (patches_of heads.now.list.items) block needs.old.items needs.new.items }
    ensures len { vec_len needs.new ≤ vec_len needs.old }
    ensures capacity { vec_capacity needs.new ≡ vec_capacity needs.old }
{
    needs.retain(|number| !stays_on(heads, block, *number));
}

// Tells anew which of the needs is the newest of each other block.
fn tell_anew(latest: &mut Latest, heads: &Heads, block: u32, needs: &[u32]) {
    latest.clear(block);
    for at in 0..needs.len() {
        note_at(latest, heads, block, at, needs[at]);
    }
}

// Room for so many more needs of the block. Where there is none, or half as many as stayed have joined since, what it need not
// have any more is left out: so those that stay are looked at seldom, and a walk looks at few others.
fn make_places(
    needs: &mut Vec<u32>,
    latest: &mut Latest,
    heads: &Heads,
    block: u32,
    places: usize,
) -> Result<(), AllocError>
    requires disk { IsOnDiskWithAll (patches_of heads.now.list.items) }
    requires settled { (blocks : ℕ) × AreSettled (nodes_of heads.now.list.items) blocks }
    ensures left { IsLeft (patches_of heads.now.list.items) block needs.old.items needs.new.items }
    ensures len { vec_len needs.new ≤ vec_len needs.old }
    ensures capacity { vec_capacity needs.old ≤ vec_capacity needs.new }
    ensures room { OnOk result (vec_len needs.new + places ≤ vec_capacity needs.new) }
{
    let free = needs.capacity().saturating_sub(needs.len());
    if free >= places && !latest.is_due(block, needs.len()) {
        return Ok(());
    }
    leave_out(needs, heads, block);
    tell_anew(latest, heads, block, needs);
    let more = (needs.len() / 2).max(places);
    latest.put_off(block, needs.len().saturating_add(more));
    needs.reserve(more)
}

impl Needs {
    /// Of no head no block needs anything.
    pub fn new(alloc: Global, blocks: u32) -> Result<Needs, AllocError>
        ensures needing { IfOk result (IsNeeding [] blocks) }
        ensures ways { IfOk result (λ n. n.ways ≡ []) }
    {
        let mut lists = Vec::with_capacity(alloc, blocks as usize)?;
        for _ in 0..blocks {
            lists.push_reserved(Vec::new(alloc));
        }
        Ok(Needs {
            lists,
            latest: Latest::new(alloc, blocks)?,
            block: 0,
            room: 0,
            ways: Vec::new(alloc),
            below: Below::new(alloc)?,
        })
    }

    /// What the block needs.
    pub fn of(&self, block: u32) -> &[u32]
        requires { block < length self.now.lists }
        ensures { result.now ≡ needs_of self.now.lists block }
    {
        self.lists[block as usize].as_slice()
    }

    // What stands at that place among what the block needs.
    fn need_at(&self, block: u32, at: usize) -> Option<u32>
        requires { block < length self.now.lists }
        ensures { IfSome result (Contains (needs_of self.now.lists block)) }
    {
        let needs = self.of(block);
        if at < needs.len() {
            Some(needs[at])
        } else {
            None
        }
    }

    /// What the block was last found to need as a change of the other block.
    pub fn newest_on(&self, block: u32, on: u32) -> Option<u32>
        requires { block < length self.now.lists }
        ensures { IfSome result (Contains (needs_of self.now.lists block)) }
    {
        let at = self.latest.of(block, on)?;
        self.need_at(block, at)
    }

    /// How many patches the block needs.
    pub fn count(&self, block: u32) -> usize {
        match self.lists.get(block as usize) {
            Some(list) => list.len(),
            None => 0,
        }
    }

    /// How many other blocks the block is told to need.
    pub fn blocks(&self, block: u32) -> usize {
        self.latest.blocks(block)
    }

    /// What the block was last found to need as a change of that one of them.
    pub fn newest_at(&self, block: u32, turn: usize) -> Option<u32>
        requires { block < length self.now.lists }
        ensures { IfSome result (Contains (needs_of self.now.lists block)) }
    {
        let at = self.latest.at(block, turn)?;
        self.need_at(block, at)
    }

    // Room for one way more, if there is memory. Where none is left, ways whose end is on disk are dropped, and room is made
    // for as many again as then are kept, so that these are looked at seldom.
    fn reserve_way(&mut self, heads: &Heads)
        ensures lists { self.new.lists ≡ self.old.lists }
        ensures block { self.new.block ≡ self.old.block }
        ensures room { self.new.room ≡ self.old.room }
        ensures ways { (w : Way) → Contains self.new.ways w → Contains self.old.ways w }
    {
        if self.ways.len() < self.ways.capacity() {
            return;
        }
        self.ways.retain(|way| is_live_number(heads, way.end));
        // Where there is no room for a way it is not kept.
        let _ = self.ways.reserve(self.ways.len() + 1);
    }

    /// Room for so many more of the block, and where there is memory for one way more. What the block need not have any more may be
    /// left out.
    pub fn reserve(&mut self, heads: &Heads, block: u32, more: usize) -> Result<(), AllocError>
        requires disk { IsOnDiskWithAll (patches_of heads.now.list.items) }
        requires settled { (blocks : ℕ) × AreSettled (nodes_of heads.now.list.items) blocks }
        requires block { block < length self.old.lists }
        ensures pruned { IsPruned (patches_of heads.now.list.items) block self.old.lists self.new.lists }
        ensures ways { (w : Way) → Contains self.new.ways w → Contains self.old.ways w }
        ensures room { OnOk result ((self.new.block ≡ block) × (self.new.room ≡ more)) }
    {
        // A place for what is below, if there is one, is asked for besides.
        let places = more.saturating_add(BELOW);
        make_places(
            &mut self.lists[block as usize],
            &mut self.latest,
            heads,
            block,
            places,
        )?;
        // Where there is no room to tell of a need, it is not told.
        let _ = self.latest.reserve(block, places.min(self.lists.len()));
        self.block = block;
        self.room = more;
        self.reserve_way(heads);
        Ok(())
    }

    // The block needs the patch with the number besides, unless a walk need not go on to it.
    fn put_one(&mut self, heads: &Heads, number: u32)
        requires disk { IsOnDiskWithAll (patches_of heads.now.list.items) }
        requires settled { (blocks : ℕ) × AreSettled (nodes_of heads.now.list.items) blocks }
        requires block { self.old.block < length self.old.lists }
        requires room { 1 ≤ self.old.room }
        ensures room { self.old.room ≤ self.new.room + 1 }
        ensures block { self.new.block ≡ self.old.block }
        ensures put { IsPut (patches_of heads.now.list.items) self.old.block (number ∷ []) grade.Hard self.old.lists self.new.lists }
        ensures ways { self.new.ways ≡ self.old.ways }
    {
        let list = &mut self.lists[self.block as usize];
        if !is_told(heads, list, &self.latest, self.block, number) {
            note_at(&mut self.latest, heads, self.block, list.len(), number);
            list.push_reserved(number);
            self.room -= 1;
        }
    }

    // The block needs some of what is at or below the row besides, of each other block that it does not need yet one.
    fn put_below(&mut self, heads: &Heads, row: &[u32])
        requires block { self.old.block < length self.old.lists }
        ensures besides { IsBesides self.old.block (IsAtOrUnder (patches_of heads.now.list.items) row.now) self.old.lists self.new.lists }
        ensures ways { self.new.ways ≡ self.old.ways }
    {
        self.room = 0;
        gather_below(heads, &mut self.below, row);
        put_firsts(
            &mut self.lists[self.block as usize],
            &mut self.latest,
            heads,
            self.block,
            self.below.changes.as_slice(),
        );
    }

    /// A new change of the block for which there is room directly depends on the row.
    pub fn put(&mut self, heads: &Heads, row: &[u32], grade: Grade)
        requires disk { IsOnDiskWithAll (patches_of heads.now.list.items) }
        requires settled { (blocks : ℕ) × AreSettled (nodes_of heads.now.list.items) blocks }
        requires block { self.old.block < length self.old.lists }
        requires room { length row.now ≤ self.old.room }
        ensures put { IsPut (patches_of heads.now.list.items) self.old.block row.now grade self.old.lists self.new.lists }
        ensures ways { self.new.ways ≡ self.old.ways }
    {
        if grade == Grade::Hard {
            let room = self.room;
            for number in row {
                self.put_one(heads, *number);
            }
            // Where each of the row is spared, a walk does not go on below it.
            if self.room < room {
                self.put_below(heads, row);
            }
        }
    }

    /// From a new change, which is the newest patch, a way leads back to that end, if one is told. It is kept if there is room.
    pub fn note(&mut self, number: u32, end: Option<u32>)
        ensures lists { self.new.lists ≡ self.old.lists }
        ensures noted { IsNoted number end self.old.ways self.new.ways }
    {
        if let Some(end) = end {
            if self.ways.len() < self.ways.capacity() {
                self.ways.push_reserved(Way { number, end });
            }
        }
    }

    /// The end of the way that is known to lead back from the change with the number. It looks at no more than the logarithm of
    /// how many there are.
    pub(crate) fn way_back(&self, number: u32) -> Option<u32>
        ensures { IfSome result (IsKnown self.now.ways number) }
    {
        match self.ways.binary_search_by_key(&number, |way| way.number) {
            Ok(at) => {
                let way = self.ways[at];
                if way.number == number {
                    Some(way.end)
                } else {
                    None
                }
            }
            Err(_) => None,
        }
    }

    /// A write of the block landed. No way leads over the block but where its hard changes need something: else none is kept.
    pub fn land(&mut self, block: u32)
        ensures lists { self.new.lists ≡ self.old.lists }
        ensures ways { (w : Way) → Contains self.new.ways w → Contains self.old.ways w × (needs_of self.old.lists block ≡ []) }
    {
        if let Some(list) = self.lists.get(block as usize) {
            if !list.is_empty() {
                self.ways.clear();
            }
        }
    }

    /// Nothing of the block is hard and in memory any more.
    pub fn clear(&mut self, block: u32)
        requires { block < length self.old.lists }
        ensures long { length self.new.lists ≡ length self.old.lists }
        ensures others { (c : ℕ) → c ≢ block → needs_of self.new.lists c ≡ needs_of self.old.lists c }
        ensures cleared { needs_of self.new.lists block ≡ [] }
        ensures ways { self.new.ways ≡ self.old.ways }
    {
        self.lists[block as usize].clear();
        self.latest.clear(block);
    }
}
