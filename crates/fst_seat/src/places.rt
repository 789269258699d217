//! Blocks in an order: which block stands at a place, and at which place a block stands. Both are kept, so that neither
//! is looked for among the others, and two places are exchanged in a few steps.

ghost use Rattle.std.specs.Prelude.{◌≡◌, ◌<◌, ℕ, Some, IfOk, length, map, slice_get};
ghost use Rattle.fst_seat.specs.Places.{exchanged};

use std::alloc::{AllocError, Global};
use std::marker::Model;

/// As many places as blocks, and in each one block.
#[derive(Drop)]
pub struct Places {
    order: Vec<usize>,
    at: Vec<usize>,
}

impl Model for Places {
    ghost use Rattle.std.specs.Prelude.{ℕ, List};
    ghost use Rattle.fst_seat.specs.Places.{AreInverse};

    ghost Value = { List ℕ };

    ghost view = { λ a. a.at.items };

    ghost invariant = { λ a. AreInverse a.order.items a.at.items };
}

/// The numbers below this one.
fn below(alloc: Global, end: usize) -> Result<Vec<usize>, AllocError>
    ensures long { IfOk result (λ numbers. length numbers.items ≡ end) }
    ensures each { IfOk result (λ numbers. (k : ℕ) → k < end → slice_get numbers.items k ≡ Some k) }
{
    let mut numbers = Vec::with_capacity(alloc, end)?;
    for number in 0..end {
        numbers.push_reserved(number);
    }
    Ok(numbers)
}

impl Places {
    /// So many blocks in the order of their numbers.
    pub fn new(alloc: Global, blocks: usize) -> Result<Places, AllocError>
        ensures { IfOk result (λ places. length places ≡ blocks) }
    {
        Ok(Places {
            order: below(alloc, blocks)?,
            at: below(alloc, blocks)?,
        })
    }

    /// Where the block stands.
    pub fn place_of(&self, block: usize) -> usize
        requires { block < length self.now }
        ensures place { slice_get self.now block ≡ Some result }
        ensures alone { (other : ℕ) → slice_get self.now other ≡ Some result → other ≡ block }
        ensures within { result < length self.now }
    {
        self.at[block]
    }

    /// What stands at the place.
    pub fn block_at(&self, place: usize) -> usize
        requires { place < length self.now }
        ensures block { slice_get self.now result ≡ Some place }
        ensures alone { (other : ℕ) → slice_get self.now other ≡ Some place → other ≡ result }
    {
        self.order[place]
    }

    /// What stands at either place stands at the other.
    pub fn exchange(&mut self, first: usize, second: usize)
        requires first { first < length self.old }
        requires second { second < length self.old }
        ensures { self.new ≡ map (exchanged first second) self.old }
    {
        let one = self.order[first];
        let other = self.order[second];
        self.order[first] = other;
        self.order[second] = one;
        self.at[one] = second;
        self.at[other] = first;
    }
}
