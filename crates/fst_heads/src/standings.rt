//! How the blocks stand, each with its mark; and of each 64 blocks, whether one of them may have a true one. So the least block
//! that may be written is found with a look at a byte for each 64 blocks, and at the blocks of 64, and not at each block.

ghost use Rattle.std.specs.Prelude.{◌≡◌, ◌<◌, ◌≤◌, [], ℕ, true, false, length, IfOk, MatchOption, slice_index_or, slice_set};
ghost use Rattle.fst_heads.specs.Heads.{kind_of};
ghost use Rattle.fst_heads.specs.Standings.{AllStand, AreTold, IsLeastMarked, NoneMarked, without_changes, may_be_written, released, entered, sent, arrived};
ghost use Rattle.fst_heads.specs.Tests.{is_hard_kind};

use crate::head::Kind;
use crate::standing::Standing;
use fst_types::BlockNo;
use std::alloc::{AllocError, Global};
use std::marker::Model;

/// The standings of the blocks: contracts see their list. It takes 48 bytes for each block and a byte for each 64.
///
/// What is `told` of 64 blocks is false only where none of them may be written. It is set where one comes to be so, and taken
/// back where a look for the least finds none, so that a launch need not look at the other 63.
#[derive(Drop)]
pub struct Standings {
    each: Vec<Standing>,
    told: Vec<bool>,
}

impl Model for Standings {
    ghost use Rattle.std.specs.Prelude.{List};
    ghost use Rattle.fst_heads.specs.Standings.{AreTold};
    ghost use Rattle.fst_heads.specs.declared.standing.Standing.{Standing};

    ghost Value = { List Standing };

    ghost view = { λ s. s.each.items };

    ghost invariant = { λ s. AreTold s.each.items s.told.items };
}

// The least block from the first on, and before the end, that may be written.
fn least_between(each: &[Standing], first: usize, end: usize) -> Option<usize>
    requires { end ≤ length each.now }
    ensures { MatchOption result (NoneMarked each.now first end) (IsLeastMarked each.now first end) }
{
    for block in first..end {
        if each[block].may_be_written() {
            return Some(block);
        }
    }
    None
}

// The least block that may be written. Where it is told of 64 that one of them may be, and none is, that is taken back.
fn least_told(each: &[Standing], told: &mut Vec<bool>) -> Option<usize>
    requires { AreTold each.now told.old.items }
    ensures told { AreTold each.now told.new.items }
    ensures least { MatchOption result (NoneMarked each.now 0 (length each.now)) (IsLeastMarked each.now 0 (length each.now)) }
{
    for group in 0..told.len() {
        if told[group] {
            let first = group * 64;
            let least = least_between(each, first, each.len().min(first + 64));
            if least.is_some() {
                return least;
            }
            told[group] = false;
        }
    }
    None
}

impl Standings {
    /// No block has a change.
    pub fn new(alloc: Global, blocks: u32) -> Result<Standings, AllocError>
        ensures { IfOk result (λ s. AllStand [] blocks s) }
    {
        let each = vec![in alloc; Standing::without_changes(); blocks as usize]?;
        let told = vec![in alloc; false; blocks as usize / 64 + 1]?;
        Ok(Standings { each, told })
    }

    /// How the block stands, without changes where it is none of the blocks.
    pub fn at(&self, block: u32) -> Standing
        ensures inside { (d : Standing) → block < length self.now → result ≡ slice_index_or self.now block d }
        ensures outside { length self.now ≤ block → result ≡ without_changes }
    {
        match self.each.get(block as usize) {
            Some(standing) => *standing,
            None => Standing::without_changes(),
        }
    }

    // The block stands so from now on.
    fn set(&mut self, block: u32, standing: Standing)
        requires { block < length self.old }
        ensures { self.new ≡ slice_set self.old block standing }
    {
        self.each[block as usize] = standing;
        if standing.may_be_written() {
            self.told[block as usize / 64] = true;
        }
    }

    // A change in memory that waited for more now waits for changes of the block in memory alone.
    pub(crate) fn release(&mut self, block: u32, kind: Kind, number: u32)
        requires inside { block < length self.old }
        requires ready { (d : Standing) → (slice_index_or self.old block d).ready < 18446744073709551615 }
        requires held { (d : Standing) → is_hard_kind (kind_of kind) ≡ true → 0 < (slice_index_or self.old block d).held }
        ensures { (d : Standing) → self.new ≡ slice_set self.old block (released (is_hard_kind (kind_of kind)) number (slice_index_or self.old block d)) }
    {
        let mut standing = self.at(block);
        standing.release(kind, number);
        self.set(block, standing);
    }

    /// The block has a new change in memory, with the greatest number.
    pub fn enter(&mut self, block: u32, kind: Kind, is_ready: bool, number: u32)
        requires inside { block < length self.old }
        requires ready { (d : Standing) → (slice_index_or self.old block d).ready < 18446744073709551615 }
        requires held { (d : Standing) → (slice_index_or self.old block d).held < 18446744073709551615 }
        ensures { (d : Standing) → self.new ≡ slice_set self.old block (entered (is_hard_kind (kind_of kind)) is_ready number (slice_index_or self.old block d)) }
    {
        let mut standing = self.at(block);
        standing.enter(kind, is_ready, number);
        self.set(block, standing);
    }

    /// The least hard change of the block that waits for more has the number: from then on none before it is looked at.
    pub fn note_held(&mut self, block: u32, number: u32)
        requires { block < length self.old }
        ensures { (d : Standing) → self.new ≡ slice_set self.old block (record (slice_index_or self.old block d) { held_from = number }) }
    {
        let mut standing = self.at(block);
        standing.note_held(number);
        self.set(block, standing);
    }

    /// What is ready of the block is in flight.
    pub fn launch(&mut self, block: u32)
        requires { block < length self.old }
        ensures { (d : Standing) → self.new ≡ slice_set self.old block (sent (slice_index_or self.old block d)) }
    {
        let mut standing = self.at(block);
        standing.launch();
        self.set(block, standing);
    }

    /// Nothing of the block is in flight any more.
    pub fn land(&mut self, block: u32)
        ensures inside { (d : Standing) → block < length self.old → self.new ≡ slice_set self.old block (arrived (slice_index_or self.old block d)) }
        ensures outside { length self.old ≤ block → self.new ≡ self.old }
        ensures len { length self.new ≡ length self.old }
    {
        if (block as usize) < self.each.len() {
            let mut standing = self.at(block);
            standing.land();
            self.set(block, standing);
        }
    }

    /// The least block that may be written.
    pub fn least_marked(&mut self) -> Option<BlockNo>
        ensures least { MatchOption result (NoneMarked self.old 0 (length self.old)) (λ no. IsLeastMarked self.old 0 (length self.old) no.0) }
        ensures same { self.new ≡ self.old }
    {
        match least_told(&self.each, &mut self.told) {
            Some(block) => Some(BlockNo(block as u32)),
            None => None,
        }
    }
}
