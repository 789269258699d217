//! Some of what lies below a row, through soft changes, gates and empty patches: what a hard change depends on besides what it
//! names. Where a walk crosses a block it would go through these each time; what is gathered here is kept with what the block
//! needs. Gates and empty patches only join others, often by a tree of them: the one that was found last is gone through first,
//! so that the changes at the end of such a tree are found however wide it is.

ghost use Rattle.std.specs.Prelude.{◌≡◌, ◌⊎◌, ◌<◌, ℕ, Contains, IfSome, IsTrue, vec_capacity, vec_len};
ghost use Rattle.fst_types.specs.Dependencies.{DirectlyOn};
ghost use Rattle.fst_heads.specs.Heads.{patches_of};
ghost use Rattle.fst_levels.specs.Needing.{IsAtOrUnder, IsGathered};

use crate::shortcuts::{is_hard_in, is_own, newest_few};
use fst_heads::head::{Head, Kind};
use fst_heads::heads::Heads;
use std::alloc::{AllocError, Global};

/// How many changes below a row are gathered, and of how many of a longer row they are taken.
pub const BELOW: usize = 32;

// Through how many patches it goes, and how many gates and empty patches may wait for that.
const THROUGH: usize = 32;

/// What was gathered below a row: changes, and gates and empty patches that are to be gone through. It has places for
/// thirty-two of each, 4 bytes each.
#[derive(Drop)]
pub struct Below {
    pub changes: Vec<u32>,
    through: Vec<u32>,
}

// Whether what lies below the patch is more than what a walk comes to that crosses its block: it is no hard change in memory,
// and no change that waits for changes of its block alone.
fn leads_on(head: &Head) -> bool {
    match head.kind {
        Kind::Change(_, block, _) => {
            let block = u32::from(block);
            !is_hard_in(head, block) && !is_own(head.pending, block)
        }
        Kind::Empty | Kind::OpenGate | Kind::SealedGate => true,
    }
}

// Whether there is a place for one more.
fn has_place(list: &Vec<u32>) -> bool
    ensures { IsTrue result → vec_len list.now < vec_capacity list.now }
{
    list.len() < list.capacity()
}

// The number joins, if it is not there and there is a place.
fn join(list: &mut Vec<u32>, number: u32)
    ensures { (n : ℕ) → Contains list.new.items n → Contains list.old.items n ⊎ (n ≡ number) }
{
    if has_place(list) && !list.contains(&number) {
        list.push_reserved(number);
    }
}

// The patch with the number joins the changes or the others, if it is not forgotten.
fn gather_one(heads: &Heads, below: &mut Below, number: u32)
    ensures { (n : ℕ) → IsGathered below.new n → IsGathered below.old n ⊎ (n ≡ number) }
{
    let Some(index) = heads.index_of(number) else {
        return;
    };
    match heads.list[index].kind {
        Kind::Change(_, _, _) => join(&mut below.changes, number),
        Kind::Empty | Kind::OpenGate | Kind::SealedGate => join(&mut below.through, number),
    }
}

// Those of the row join so.
fn gather(heads: &Heads, below: &mut Below, row: &[u32])
    ensures { (n : ℕ) → IsGathered below.new n → IsGathered below.old n ⊎ Contains row.now n }
{
    for number in row {
        gather_one(heads, below, *number);
    }
}

// Some of what the patch with the number directly depends on joins, if it leads on.
fn gather_under(heads: &Heads, below: &mut Below, number: u32)
    ensures { (n : ℕ) → IsGathered below.new n → IsGathered below.old n ⊎ DirectlyOn (patches_of heads.now.list.items) number n }
{
    let Some(index) = heads.index_of(number) else {
        return;
    };
    let head = &heads.list[index];
    if leads_on(head) {
        let row = newest_few(head.dependencies.as_slice(), BELOW);
        gather(heads, below, row);
    }
}

// The one at that place, and the next place.
fn next_of(list: &[u32], at: &mut usize) -> Option<u32>
    ensures { IfSome result (Contains list.now) }
{
    if *at < list.len() {
        let number = list[*at];
        *at += 1;
        Some(number)
    } else {
        None
    }
}

impl Below {
    /// Nothing gathered. It takes all its places.
    pub fn new(alloc: Global) -> Result<Below, AllocError> {
        Ok(Below {
            changes: Vec::with_capacity(alloc, BELOW)?,
            through: Vec::with_capacity(alloc, THROUGH)?,
        })
    }

    // From which patch to go on, where so many of the changes are done: a gate or empty patch first, the one found last.
    fn next(&mut self, done: &mut usize) -> Option<u32>
        ensures next { IfSome result (IsGathered self.old) }
        ensures only { (n : ℕ) → IsGathered self.new n → IsGathered self.old n }
    {
        match self.through.pop() {
            Some(number) => Some(number),
            None => next_of(self.changes.as_slice(), done),
        }
    }
}

/// Gathers some of what is below the row: what is below gates and empty patches first, then what is nearest below the changes.
/// What was gathered before does not matter.
pub fn gather_below(heads: &Heads, below: &mut Below, row: &[u32])
    ensures { (n : ℕ) → IsGathered below.new n → IsAtOrUnder (patches_of heads.now.list.items) row.now n }
{
    below.changes.clear();
    below.through.clear();
    for number in newest_few(row, BELOW) {
        gather_under(heads, below, *number);
    }
    let mut done = 0;
    for _ in 0..THROUGH {
        if !has_place(&below.changes) {
            return;
        }
        let Some(number) = below.next(&mut done) else {
            return;
        };
        gather_under(heads, below, number);
    }
}
