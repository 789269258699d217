//! What is kept of a head beside its level: its ancestry, and a hard change over it.

ghost use Rattle.std.specs.Prelude.{◌≡◌, ◌≢◌, ◌<◌, ℕ, length, map, slice_index_or};
ghost use Rattle.fst_types.specs.Dependencies.{DependsOn};
ghost use Rattle.fst_heads.specs.Heads.{patches_of};
ghost use Rattle.fst_heads.specs.Indices.{HasIndex};
ghost use Rattle.fst_levels.specs.Leveling.{IsLeveled, jump_of, parent_of};

use crate::levels::{Ancestry, Levels, Rank};
use fst_heads::heads::Heads;

impl Levels {
    /// The head at the index has this ancestry.
    pub(crate) fn put_ancestry(&mut self, index: usize, ancestry: Ancestry)
        requires { index < length self.old.ranks }
        ensures numbers { map (λ r. r.number) self.new.ranks ≡ map (λ r. r.number) self.old.ranks }
        ensures levels { map (λ r. r.level) self.new.ranks ≡ map (λ r. r.level) self.old.ranks }
        ensures overs { map (λ r. r.hard_over) self.new.ranks ≡ map (λ r. r.hard_over) self.old.ranks }
        ensures parent { (d : Rank) → parent_of self.new.ranks (slice_index_or self.old.ranks index d).number ≡ ancestry.parent }
        ensures jump { (d : Rank) → jump_of self.new.ranks (slice_index_or self.old.ranks index d).number ≡ ancestry.jump }
        ensures rest { (d : Rank) (n : ℕ) → n ≢ (slice_index_or self.old.ranks index d).number → (parent_of self.new.ranks n ≡ parent_of self.old.ranks n) × (jump_of self.new.ranks n ≡ jump_of self.old.ranks n) }
        ensures floors { self.new.floors ≡ self.old.floors }
        ensures room { self.new.room ≡ self.old.room }
    {
        self.ranks.list[index].ancestry = ancestry;
    }

    /// The hard change that is kept over the patch at the index, by its number, and 0 for none.
    pub(crate) fn hard_over(&self, index: usize) -> u32
        requires { index < length self.now.ranks }
        ensures { (d : Rank) → result ≡ (slice_index_or self.now.ranks index d).hard_over }
    {
        self.ranks.list[index].hard_over
    }

    /// That hard change is kept over the patch at the index.
    pub(crate) fn put_hard_over(&mut self, heads: &Heads, index: usize, over: u32)
        requires index { index < length heads.now.list.items }
        requires leveled { IsLeveled (patches_of heads.now.list.items) (length self.old.floors) self.old }
        requires under { (n : ℕ) → HasIndex heads.now.list.items n index → DependsOn (patches_of heads.now.list.items) over n }
        ensures leveled { IsLeveled (patches_of heads.now.list.items) (length self.old.floors) self.new }
        ensures room { (length self.new.ranks ≡ length self.old.ranks) × (self.new.room ≡ self.old.room) }
    {
        let _ = heads;
        self.ranks.list[index].hard_over = over;
    }
}
