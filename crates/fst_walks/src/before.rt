//! What the newest changes of a block tell of a new one. A change that comes after nothing but what a hard one of the block in
//! memory comes after is hard as that is. One that comes after all that a change comes after from which a way is known to
//! lead back is soft as that is. So what many changes of a block come after, like a gate over thousands of patches, is
//! looked through once, and not for each of them. And a block is written only with all its hard changes, so that any change of
//! another block may stand in the place of a hard one of it: a block that needs thousands is looked through once too.

ghost use Rattle.std.specs.Prelude.{◌<◌, ℕ, length, Contains, IsTrue, IfSome};
ghost use Rattle.fst_heads.specs.declared.test.Test.TheVariants as test;
ghost use Rattle.fst_heads.specs.Grading.{LeadsNowhere};
ghost use Rattle.fst_heads.specs.Heads.{patches_of};
ghost use Rattle.fst_heads.specs.Indices.{PassesAt};
ghost use Rattle.fst_levels.specs.Sights.{Sees};
ghost use Rattle.fst_levels.specs.WayBack.{CrossesBeside};
ghost use Rattle.fst_walks.specs.Telling.{IsTold, IsWithin};

use crate::graded::{Graded, hard, soft};
use fst_heads::head::Kind;
use fst_heads::test::Test;
use fst_levels::known::known_end;
use fst_levels::shortcuts::{is_found, is_hard_at, is_hard_in, newest_few, passes_at};
use fst_levels::sight::Sight;

// How many of the newest changes are looked at.
const NEWEST: usize = 8;

// How long a row is looked through.
const LONGEST: usize = 64;

// At how many of a row is looked for a change of a block.
const FEW: usize = 4;

// Whether one of the newest of the row is a change of the block that is not on disk.
fn has_change(sight: &Sight<'_>, block: u32, row: &[u32]) -> bool
    requires { Sees sight.now }
    ensures { IsTrue result → (q : ℕ) × Contains row.now q × PassesAt (test.LiveOn block) (patches_of sight.now.heads.now.list.items) q }
{
    for number in newest_few(row, FEW) {
        if passes_at(sight, Test::LiveOn(block), *number) {
            return true;
        }
    }
    false
}

// The block of the patch with the number, if it is a change that is not forgotten.
fn block_at(sight: &Sight<'_>, number: u32) -> Option<u32>
    requires { Sees sight.now }
{
    let index = sight.levels.find(sight.heads, number)?;
    match sight.heads.list[index].kind {
        Kind::Change(_, block, _) => Some(u32::from(block)),
        Kind::Empty | Kind::OpenGate | Kind::SealedGate => None,
    }
}

// Whether the patch with the number is a hard change in memory of another block than this, of which the row has a change that is
// not on disk: where the one leads back, so does the other.
fn is_beside(sight: &Sight<'_>, block: u32, number: u32, row: &[u32]) -> bool
    requires { Sees sight.now }
    ensures { IsTrue result → (q : ℕ) × Contains row.now q × CrossesBeside (patches_of sight.now.heads.now.list.items) block number q }
{
    let Some(of) = block_at(sight, number) else {
        return false;
    };
    of != block && is_hard_at(sight, of, number) && has_change(sight, of, row)
}

// Whether no way leads back from the patch with the number that does not lead back from the row: it is there, or a hard change
// of the block in memory, over which none does, or stands beside a change there.
fn stands_for(sight: &Sight<'_>, block: u32, row: &[u32], number: u32) -> bool
    requires { Sees sight.now }
    ensures { IsTrue result → IsWithin (patches_of sight.now.heads.now.list.items) block row.now number }
{
    is_found(row, number)
        || is_hard_at(sight, block, number)
        || is_beside(sight, block, number, row)
}

// Whether the other row stands for each of the row.
fn is_within(sight: &Sight<'_>, block: u32, row: &[u32], other: &[u32]) -> bool
    requires { Sees sight.now }
    ensures { IsTrue result → (n : ℕ) → Contains row.now n → IsWithin (patches_of sight.now.heads.now.list.items) block other.now n }
{
    if row.len() > LONGEST {
        return false;
    }
    for number in row {
        if !stands_for(sight, block, other, *number) {
            return false;
        }
    }
    true
}

// What the change at the index tells of a new change of its block with that row, if anything.
fn told_by(sight: &Sight<'_>, index: usize, block: u32, row: &[u32]) -> Option<Graded>
    requires sees { Sees sight.now }
    requires inside { index < length sight.now.heads.now.list.items }
    ensures { IfSome result (IsTold (patches_of sight.now.heads.now.list.items) block row.now (LeadsNowhere (patches_of sight.now.heads.now.list.items) block row.now)) }
{
    let head = &sight.heads.list[index];
    let other = head.dependencies.as_slice();
    if is_hard_in(head, block) {
        if is_within(sight, block, row, other) {
            return Some(hard());
        }
        return None;
    }
    if !is_within(sight, block, other, row) {
        return None;
    }
    let end = known_end(sight, index, block)?;
    Some(soft(Some(end)))
}

/// What the newest changes of the block tell of a new one with that row, but for open gates: that it is hard or soft as one of
/// them is, if they do.
pub fn told_before(sight: &Sight<'_>, block: u32, row: &[u32]) -> Option<Graded>
    requires sees { Sees sight.now }
    requires block { block < length sight.now.lists.now }
    ensures { IfSome result (IsTold (patches_of sight.now.heads.now.list.items) block row.now (LeadsNowhere (patches_of sight.now.heads.now.list.items) block row.now)) }
{
    let list = sight.lists[block as usize].as_slice();
    let newest = &list[list.len().saturating_sub(NEWEST)..];
    for listed in newest.iter().rev() {
        if let Some(index) = sight.levels.find(sight.heads, listed.number) {
            let told = told_by(sight, index, block, row);
            if told.is_some() {
                return told;
            }
        }
    }
    None
}
