//! What need not join the needs of a block: what is there, and what a walk that crosses the block comes to anyway or would only
//! come back to the block from.

ghost use Rattle.std.specs.Prelude.{◌⊎◌, ℕ, IsTrue, Contains};
ghost use Rattle.fst_types.specs.Facts.{IsOnDiskWithAll};
ghost use Rattle.fst_heads.specs.Grading.{IsHardNumber};
ghost use Rattle.fst_heads.specs.Heads.{patches_of};
ghost use Rattle.fst_heads.specs.Nodes.{nodes_of, AreSettled};
ghost use Rattle.fst_levels.specs.Needing.{IsSpared, IsStoodFor, StaysOn};

use crate::latest::Latest;
use crate::shortcuts::{is_hard_in, is_hard_number, is_own};
use fst_heads::head::Kind;
use fst_heads::heads::Heads;
use fst_heads::row::pending_at;

// At how many of the newest needs one is looked for before it joins, so that it is seldom there twice.
const NEWEST: usize = 64;

// Whether the need at that place is a hard change of the block in memory.
fn has_hard(heads: &Heads, needs: &[u32], at: Option<usize>, block: u32) -> bool
    ensures { IsTrue result → (n : ℕ) × Contains needs.now n × IsHardNumber (patches_of heads.now.list.items) block n }
{
    let Some(at) = at else {
        return false;
    };
    if needs.len() <= at {
        return false;
    }
    is_hard_number(heads, block, needs[at])
}

// Whether the patch with the number is a hard change in memory for which one of the needs stands, or of that block itself.
fn is_stood_for(heads: &Heads, needs: &[u32], latest: &Latest, block: u32, number: u32) -> bool
    ensures { IsTrue result → IsStoodFor (patches_of heads.now.list.items) block needs.now number }
{
    let Some(index) = heads.index_of(number) else {
        return false;
    };
    let head = &heads.list[index];
    let Kind::Change(_, of, _) = head.kind else {
        return false;
    };
    let of = of as u32;
    if !is_hard_in(head, of) {
        return false;
    }
    // Hard changes of a block are written together, so where the newest is none in memory, none before it is.
    of == block || has_hard(heads, needs, latest.hard_of(block, of), of)
}

// Whether the patch with the number is on disk, or nothing but changes of the block is pending of it. Once that is so it stays
// so.
pub(crate) fn stays_on(heads: &Heads, block: u32, number: u32) -> bool
    requires disk { IsOnDiskWithAll (patches_of heads.now.list.items) }
    requires settled { (blocks : ℕ) × AreSettled (nodes_of heads.now.list.items) blocks }
    ensures { IsTrue result → StaysOn (patches_of heads.now.list.items) block number }
{
    is_own(pending_at(heads, number), block)
}

// Whether a walk that crosses the block to these needs need not go on to the patch with the number besides.
fn is_spared(heads: &Heads, needs: &[u32], latest: &Latest, block: u32, number: u32) -> bool
    requires disk { IsOnDiskWithAll (patches_of heads.now.list.items) }
    requires settled { (blocks : ℕ) × AreSettled (nodes_of heads.now.list.items) blocks }
    ensures { IsTrue result → IsSpared (patches_of heads.now.list.items) block needs.now number }
{
    stays_on(heads, block, number) || is_stood_for(heads, needs, latest, block, number)
}

// Whether the patch with the number is among the newest of the needs.
fn is_kept(needs: &[u32], number: u32) -> bool
    ensures { IsTrue result → Contains needs.now number }
{
    for back in 0..needs.len().min(NEWEST) {
        let at = needs.len() - 1 - back;
        if needs[at] == number {
            return true;
        }
    }
    false
}

/// Whether it need not join the needs of the block: it is there, or a walk need not go on to it besides.
pub(crate) fn is_told(
    heads: &Heads,
    needs: &[u32],
    latest: &Latest,
    block: u32,
    number: u32,
) -> bool
    requires disk { IsOnDiskWithAll (patches_of heads.now.list.items) }
    requires settled { (blocks : ℕ) × AreSettled (nodes_of heads.now.list.items) blocks }
    ensures { IsTrue result → Contains needs.now number ⊎ IsSpared (patches_of heads.now.list.items) block needs.now number }
{
    is_kept(needs, number) || is_spared(heads, needs, latest, block, number)
}
