//! The ranks of the heads and the floors of the blocks, which the levels keep (`levels`): finding a rank by its number, raising
//! and lowering one, halving all, and dropping those of heads that are dropped.

ghost use Rattle.std.specs.Prelude.{vec_capacity, ◌≡◌, ◌≢◌, ◌<◌, ℕ, length, map, filter, All, IsTrue, IfSome, IfNone, slice_index_or};
ghost use Rattle.fst_types.specs.Patches.{IsOn};
ghost use Rattle.fst_heads.specs.Heads.{patch_of, patches_of};
ghost use Rattle.fst_heads.specs.Reaching.{IsHardIn};
ghost use Rattle.fst_heads.specs.Nodes.{is_live_in};
ghost use Rattle.fst_heads.specs.Spans.{SpansDisk};
ghost use Rattle.fst_levels.specs.Leveling.{AreRanked, floor_of, halved, halved_rank, level_of, unleveled};

use crate::levels::{Rank, TOP};
use crate::shortcuts::is_hard_in;
use fst_heads::head::{Head, Kind};
use fst_heads::heads::Heads;
use fst_heads::numbered::{Numbered, index_in};
use fst_heads::places::is_kept;

/// Ranks in the order of their numbers, which rise: no two have the same. Where one stands is told by the directory of the heads.
#[derive(Drop)]
pub struct Ranks {
    pub list: Vec<Rank>,
    pub ghost rising: { AreRanked list.items },
}

impl Numbered for Rank {
    ghost numbered = { λ r. r.number };

    fn number(&self) -> u32 {
        self.number
    }
}

/// Where the patch is a hard change in memory, the floor of its block is there.
pub fn raise_floor(floors: &mut Vec<u32>, head: &Head, to: u32)
    requires { (c : ℕ) → IsOn (patch_of head.now) c → c < length floors.old.items }
    ensures long { length floors.new.items ≡ length floors.old.items }
    ensures raised { (c : ℕ) → IsHardIn (patch_of head.now) c → floor_of floors.new.items c ≡ to }
    ensures rest { (c : ℕ) → (IsHardIn (patch_of head.now) c → ⊥) → floor_of floors.new.items c ≡ floor_of floors.old.items c }
{
    if let Kind::Change(_, block, _) = head.kind {
        if is_hard_in(head, block as u32) {
            floors[block as usize] = to;
        }
    }
}

// Half of a level, or the top.
fn halved(level: u32) -> u32
    ensures { result ≡ halved level }
{
    if level < TOP { level / 2 } else { level }
}

/// Each rank has half of its level, but those at the top.
pub fn halve_ranks(ranks: &mut Vec<Rank>)
    ensures ranks { ranks.new.items ≡ map halved_rank ranks.old.items }
    ensures capacity { vec_capacity ranks.new ≡ vec_capacity ranks.old }
{
    for rank in ranks.iter_mut() {
        rank.level = halved(rank.level);
    }
}

/// Each floor is half as high, but those at the top.
pub fn halve_floors(floors: &mut Vec<u32>)
    ensures { floors.new.items ≡ map halved floors.old.items }
{
    for floor in floors.iter_mut() {
        *floor = halved(*floor);
    }
}

/// The ranks of heads that are not on disk stay; those on disk stand from `first` up to `end`. Heads stand in the order of their
/// ranks.
pub fn keep_live(ranks: &mut Vec<Rank>, heads: &Heads, first: usize, end: usize)
    requires aligned { map (λ r. r.number) ranks.old.items ≡ map (λ p. p.number) (patches_of heads.now.list.items) }
    requires disk { SpansDisk (patches_of heads.now.list.items) first end }
    ensures ranks { ranks.new.items ≡ filter (λ r. is_live_in (patches_of heads.now.list.items) r.number) ranks.old.items }
    ensures capacity { vec_capacity ranks.new ≡ vec_capacity ranks.old }
{
    let mut kept = first;
    for index in first..end {
        if is_kept(&heads.list[index]) {
            ranks[kept] = ranks[index];
            kept += 1;
        }
    }
    ranks.drain(kept..end);
}

impl Ranks {
    /// The index of the rank with the number.
    pub fn index_of(&self, heads: &Heads, number: u32) -> Option<usize>
        ensures found { IfSome result (λ index. (index < length self.now.list.items) × ((d : Rank) → (slice_index_or self.now.list.items index d).number ≡ number)) }
        ensures none { IfNone result (All (λ r. r.number ≢ number) self.now.list.items) }
    {
        index_in(&self.list, &heads.directory, number)
    }

    /// The rank at the index is at that level.
    pub fn raise(&mut self, index: usize, to: u32)
        requires { index < length self.old.list.items }
        ensures numbers { map (λ r. r.number) self.new.list.items ≡ map (λ r. r.number) self.old.list.items }
        ensures raised { (d : Rank) → level_of self.new.list.items (slice_index_or self.old.list.items index d).number ≡ to }
        ensures rest { (d : Rank) (n : ℕ) → n ≢ (slice_index_or self.old.list.items index d).number → level_of self.new.list.items n ≡ level_of self.old.list.items n }
        ensures beside { map unleveled self.new.list.items ≡ map unleveled self.old.list.items }
        ensures capacity { vec_capacity self.new.list ≡ vec_capacity self.old.list }
    {
        self.list[index].level = to;
    }
}
