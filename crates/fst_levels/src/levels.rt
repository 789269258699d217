//! Levels: what tells without a walk that a way leads nowhere. Each head has a level and each block a floor, so that no way
//! down rises: what a patch depends on is no higher than it is, a change is no lower than the floor of its block, and a hard
//! change in memory is no higher. So what lies below a floor can come to wait for nothing of that block. Beside its level the
//! ancestry of each head is kept (`ancestors`), and of some a hard change over them (`under_hard`).

ghost use Rattle.std.specs.Prelude.{vec_capacity, count_by, ◌≡◌, ◌≤◌, ◌<◌, ◌+◌, ◌++◌, ◌∷◌, [], ℕ, List, false, IsTrue, length, map, filter, Contains, All, IfOk, IfSome, IfNone, OnOk, slice_index_or};
ghost use Rattle.fst_types.specs.Tests.{is_live};
ghost use Rattle.fst_types.specs.Patches.{IsOn, OpenGate, Patch};
ghost use Rattle.fst_heads.specs.Heads.{patch_of, patches_of};
ghost use Rattle.fst_heads.specs.declared.test.Test.TheVariants as test;
ghost use Rattle.fst_heads.specs.Indices.{HasIndex, HasNone, PassesAt};
ghost use Rattle.fst_heads.specs.Keeps.{IsInside};
ghost use Rattle.fst_heads.specs.Nodes.{is_live_in, nodes_of};
ghost use Rattle.fst_types.specs.Facts.{IsOnDiskWithAll};
ghost use Rattle.fst_levels.specs.Leveling.{IsLeveled, floor_of, jump_of, level_of, no_ancestry, parent_of, top_level};
ghost use Rattle.fst_levels.specs.Lifting.{IsLifted, MayLift};
ghost use Rattle.fst_levels.specs.Walks.{number_at, numbers_met};

mod beside;

use crate::ranks::{Ranks, halve_floors, halve_ranks, keep_live, raise_floor};
use crate::walk::Walk;
use fst_heads::head::{Head, Kind};
use fst_heads::heads::Heads;
use fst_heads::places::{drop_on_disk, end_on_disk, first_on_disk};
use std::alloc::{AllocError, Global};
use std::marker::Model;

/// The greatest level, at which each open gate stands.
pub const TOP: u32 = 4_294_967_295;

// From where on all levels are halved. Between two calls of `forget` no more than 65,535 changes are made, each of which lifts
// by some thousands at most, so that nothing comes to the top before.
const HIGH: u32 = 2_147_483_648;

/// Two ancestors of a patch by their numbers, 0 for none: its parent, and one further up. The depth says how many are above
/// it, parent over parent.
#[derive(Clone, Copy)]
pub struct Ancestry {
    pub parent: u32,
    pub jump: u32,
    pub depth: u32,
}

/// A head's number, its level and its ancestry, and the number of a hard change that is kept over it (`under_hard`), 0 for none.
#[derive(Clone, Copy)]
pub struct Rank {
    pub number: u32,
    pub level: u32,
    pub ancestry: Ancestry,
    pub hard_over: u32,
}

/// What a new change does to the levels.
#[derive(Clone, Copy)]
pub struct Rise {
    /// The level of the change.
    pub level: u32,
    /// Whether what was met goes up to it, with the floor of its block.
    pub lifts: bool,
    /// What searches for a way back to its block have looked at since the floor went up last.
    pub owed: usize,
}

/// The levels and ancestries of the heads, in their order, and the floors of the blocks. For each block is kept what searches
/// for a way back to it have looked at since its floor went up last, so that it goes up once that is worth it (`lift`), and
/// of all how high up one stands that is not at the top (`ease`). It takes 24 bytes for each head and 12 for each block.
#[derive(Drop)]
pub struct Levels {
    ranks: Ranks,
    floors: Vec<u32>,
    owed: Vec<usize>,
    highest: u32,
    room: usize,
}

impl Model for Levels {
    ghost use Rattle.std.specs.Prelude.{vec_capacity, count_by, ◌≤◌, length};
    ghost use Rattle.fst_levels.specs.Leveling.{Leveling};

    ghost Value = { Leveling };

    ghost view = { λ l. record { ranks = l.ranks.list.items; floors = l.floors.items; room = l.room } };

    ghost invariant = { λ l. l.room ≤ vec_capacity l.ranks.list };
}

/// No ancestor.
pub fn no_ancestry() -> Ancestry
    ensures { result ≡ no_ancestry }
{
    Ancestry {
        parent: 0,
        jump: 0,
        depth: 0,
    }
}

// A floor of 0 for each block.
fn empty_floors(alloc: Global, blocks: u32) -> Result<Vec<u32>, AllocError>
    ensures { IfOk result (λ floors. length floors.items ≡ blocks) }
{
    vec![in alloc; 0; blocks as usize]
}

impl Levels {
    /// The levels of no head, where each block's floor is 0.
    pub fn new(alloc: Global, blocks: u32) -> Result<Levels, AllocError>
        ensures { IfOk result (λ l. IsLeveled [] blocks l) }
    {
        let floors = empty_floors(alloc, blocks)?;
        let owed = vec![in alloc; 0; blocks as usize]?;
        Ok(Levels {
            ranks: Ranks {
                list: Vec::new(alloc),
            },
            floors,
            owed,
            highest: 0,
            room: 0,
        })
    }

    /// Room for so many heads more.
    pub fn reserve(&mut self, more: u32) -> Result<(), AllocError>
        ensures ranks { self.new.ranks ≡ self.old.ranks }
        ensures floors { self.new.floors ≡ self.old.floors }
        ensures room { OnOk result (length self.new.ranks + more ≤ self.new.room) }
    {
        let room = self.ranks.list.len() + more as usize;
        self.ranks.list.reserve(more as usize)?;
        self.room = room;
        Ok(())
    }

    /// One head more, for which there is room, with the greatest number.
    pub fn grow(&mut self, rank: Rank)
        requires free { length self.old.ranks < self.old.room }
        requires newest { All (λ r. r.number < rank.number) self.old.ranks }
        ensures ranks { self.new.ranks ≡ self.old.ranks ++ rank ∷ [] }
        ensures floors { self.new.floors ≡ self.old.floors }
        ensures room { self.new.room ≡ self.old.room }
    {
        self.ranks.list.push_reserved(rank);
    }

    /// The index of the head with the number. It is looked for among the ranks, which are far smaller than heads.
    pub fn find(&self, heads: &Heads, number: u32) -> Option<usize>
        requires aligned { map (λ r. r.number) self.now.ranks ≡ map (λ p. p.number) (patches_of heads.now.list.items) }
        ensures found { IfSome result (HasIndex heads.now.list.items number) }
        ensures none { IfNone result (HasNone heads.now.list.items number) }
    {
        self.ranks.index_of(heads, number)
    }

    /// The level of the head at the index.
    pub fn level(&self, index: usize) -> u32
        requires { index < length self.now.ranks }
        ensures { (d : Rank) → result ≡ (slice_index_or self.now.ranks index d).level }
    {
        self.ranks.list[index].level
    }

    /// The rank of the head at the index.
    pub(crate) fn rank(&self, index: usize) -> Rank
        requires { index < length self.now.ranks }
        ensures { (d : Rank) → result ≡ slice_index_or self.now.ranks index d }
    {
        self.ranks.list[index]
    }

    /// The floor of the block.
    pub fn floor(&self, block: u32) -> u32
        requires { block < length self.now.floors }
        ensures { result ≡ floor_of self.now.floors block }
    {
        self.floors[block as usize]
    }

    /// What searches for a way back to the block have looked at since its floor went up last.
    pub fn owed(&self, block: u32) -> usize {
        match self.owed.get(block as usize) {
            Some(owed) => *owed,
            None => 0,
        }
    }

    /// The rank of the patch with the number. Where it is forgotten its level is 0, and it has no ancestor.
    pub fn rank_of(&self, heads: &Heads, number: u32) -> Rank
        ensures number { result.number ≡ number }
        ensures level { result.level ≡ level_of self.now.ranks number }
        ensures parent { result.ancestry.parent ≡ parent_of self.now.ranks number }
        ensures jump { result.ancestry.jump ≡ jump_of self.now.ranks number }
    {
        match self.ranks.index_of(heads, number) {
            Some(index) => self.ranks.list[index],
            None => Rank {
                number,
                level: 0,
                ancestry: no_ancestry(),
                hard_over: 0,
            },
        }
    }

    /// The level of the patch with the number, and 0 where it is forgotten.
    pub fn of(&self, heads: &Heads, number: u32) -> u32
        ensures { result ≡ level_of self.now.ranks number }
    {
        self.rank_of(heads, number).level
    }

    /// The greatest level of the row.
    pub fn greatest(&self, heads: &Heads, row: &[u32]) -> u32
        ensures { (q : ℕ) → Contains row.now q → level_of self.now.ranks q ≤ result }
    {
        let mut most = 0;
        for number in row {
            most = self.of(heads, *number).max(most);
        }
        most
    }

    /// Drops the patches on disk, so many not being there, with their levels. Those before the oldest of them stay where they
    /// are, those behind the newest move in one piece, and mostly neither are looked at.
    pub fn forget(&mut self, heads: &mut Heads, live: usize)
        requires aligned { map (λ r. r.number) self.old.ranks ≡ map (λ p. p.number) (patches_of heads.old.list.items) }
        requires live { live ≡ count_by is_live (patches_of heads.old.list.items) }
        ensures heads { nodes_of heads.new.list.items ≡ filter (λ x. is_live x.patch) (nodes_of heads.old.list.items) }
        ensures ranks { self.new.ranks ≡ filter (λ r. is_live_in (patches_of heads.old.list.items) r.number) self.old.ranks }
        ensures rest { (self.new.floors ≡ self.old.floors) × (self.new.room ≡ self.old.room) }
    {
        let first = first_on_disk(&heads.list, live);
        let end = end_on_disk(&heads.list, first, live);
        keep_live(&mut self.ranks.list, heads, first, end);
        drop_on_disk(heads, first, end);
    }

    // The level that the head has whatever it depends on: a change the floor of its block, and an open gate the top.
    fn own_level(&self, head: &Head) -> u32
        ensures change { (b : ℕ) → IsOn (patch_of head.now) b → floor_of self.now.floors b ≤ result }
        ensures gate { (patch_of head.now).kind ≡ OpenGate → result ≡ top_level }
    {
        match head.kind {
            Kind::Change(_, block, _) => match self.floors.get(block as usize) {
                Some(floor) => *floor,
                None => 0,
            },
            Kind::Empty | Kind::SealedGate => 0,
            Kind::OpenGate => TOP,
        }
    }

    /// The head at the index comes down to the greatest level of what it depends on and of its own, and answers whether it did:
    /// a gate that is sealed stood at the top while it was open, and so does all that was put after it.
    pub fn lower(&mut self, heads: &Heads, index: usize) -> bool
        requires index { index < length heads.now.list.items }
        requires leveled { IsLeveled (patches_of heads.now.list.items) (length self.old.floors) self.old }
        ensures leveled { IsLeveled (patches_of heads.now.list.items) (length self.old.floors) self.new }
        ensures room { (length self.new.ranks ≡ length self.old.ranks) × (self.new.room ≡ self.old.room) }
    {
        let head = &heads.list[index];
        let below = self.greatest(heads, head.dependencies.as_slice());
        let level = below.max(self.own_level(head));
        if level < self.level(index) {
            self.ranks.raise(index, level);
            true
        } else {
            false
        }
    }

    // The head at the index goes up to that level, and where it is a hard change in memory so does the floor of its block.
    fn lift_one(&mut self, heads: &Heads, index: usize, to: u32)
        requires index { index < length heads.now.list.items }
        requires aligned { map (λ r. r.number) self.old.ranks ≡ map (λ p. p.number) (patches_of heads.now.list.items) }
        requires inside { IsInside (patches_of heads.now.list.items) (length self.old.floors) }
        ensures { IsLifted (patches_of heads.now.list.items) (number_at heads.now.list.items index ∷ []) to self.old self.new }
    {
        self.ranks.raise(index, to);
        raise_floor(&mut self.floors, &heads.list[index], to);
    }

    // What was met goes up to that level.
    fn lift_all(&mut self, heads: &Heads, walk: &Walk, to: u32)
        requires long { length walk.now.marks ≡ length heads.now.list.items }
        requires aligned { map (λ r. r.number) self.old.ranks ≡ map (λ p. p.number) (patches_of heads.now.list.items) }
        requires inside { IsInside (patches_of heads.now.list.items) (length self.old.floors) }
        ensures { IsLifted (patches_of heads.now.list.items) (numbers_met heads.now.list.items walk.now) to self.old self.new }
    {
        for at in 0..walk.len() {
            self.lift_one(heads, walk.index_at(at), to);
        }
    }

    // Of what came with that rise of the block nothing is claimed: what searches for a way back to it have looked at since, and
    // how high up anything stands that is not at the top.
    fn count(&mut self, block: u32, rise: Rise)
        ensures { self.new ≡ self.old }
    {
        if let Some(owed) = self.owed.get_mut(block as usize) {
            *owed = rise.owed;
        }
        if rise.level < TOP {
            self.highest = self.highest.max(rise.level);
        }
    }

    /// Where the rise says so, what was met goes up to its level, and so does the floor of the block.
    pub fn lift(&mut self, heads: &Heads, walk: &Walk, block: u32, rise: Rise)
        requires disk { IsOnDiskWithAll (patches_of heads.now.list.items) }
        requires long { length walk.now.marks ≡ length heads.now.list.items }
        requires inside { block < length self.old.floors × IsInside (patches_of heads.now.list.items) (length self.old.floors) }
        requires leveled { IsLeveled (patches_of heads.now.list.items) (length self.old.floors) self.old }
        requires may { IsTrue rise.lifts → MayLift (patches_of heads.now.list.items) self.old block rise.level (numbers_met heads.now.list.items walk.now) }
        ensures leveled { IsLeveled (patches_of heads.now.list.items) (length self.old.floors) self.new }
        ensures below { (n : ℕ) → level_of self.old.ranks n ≤ rise.level → level_of self.new.ranks n ≤ rise.level }
        ensures lifted { IsTrue rise.lifts → floor_of self.new.floors block ≡ rise.level }
        ensures still { rise.lifts ≡ false → self.new ≡ self.old }
        ensures room { (length self.new.ranks ≡ length self.old.ranks) × (self.new.room ≡ self.old.room) }
    {
        self.count(block, rise);
        if rise.lifts {
            self.lift_all(heads, walk, rise.level);
            self.floors[block as usize] = rise.level;
        }
    }

    /// The floor of the block goes to the bottom, where none of its changes is not on disk: what comes next stands on none.
    pub(crate) fn drop_floor(&mut self, block: u32)
        ensures leveled { (patches : List Patch) (blocks : ℕ) → ((n : ℕ) → PassesAt (test.LiveOn block) patches n → ⊥) → IsLeveled patches blocks self.old → IsLeveled patches blocks self.new }
        ensures room { (length self.new.ranks ≡ length self.old.ranks) × (self.new.room ≡ self.old.room) }
    {
        if (block as usize) < self.floors.len() {
            self.floors[block as usize] = 0;
        }
    }

    /// All levels are halved, but the top, where any is far up: what lasts is lifted again and again, and would come to the
    /// top, where levels tell nothing. Mostly it does nothing.
    pub fn ease(&mut self)
        ensures leveled { (patches : List Patch) (blocks : ℕ) → IsLeveled patches blocks self.old → IsLeveled patches blocks self.new }
        ensures room { (length self.new.ranks ≡ length self.old.ranks) × (self.new.room ≡ self.old.room) }
    {
        if self.highest >= HIGH {
            halve_ranks(&mut self.ranks.list);
            halve_floors(&mut self.floors);
            self.highest /= 2;
        }
    }
}
