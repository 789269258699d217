//! What tells the grade of a new change at once, from the patches near its row. A search over all patches decides only
//! where none of this does: a change behind a gate, a chain on one block and a chain over a few blocks need none.

ghost use Rattle.std.specs.Prelude.{◌≡◌, ◌⊎◌, ◌≤◌, ◌<◌, ◌↔◌, ◌&&◌, ◌∷◌, [], ℕ, List, IsTrue, IfSome, Contains, length};
ghost use Rattle.fst_types.specs.Dependencies.{DirectlyOn};
ghost use Rattle.fst_types.specs.declared.place.Place.TheVariants as place;
ghost use Rattle.fst_types.specs.Gates.{IsOpenNumber};
ghost use Rattle.fst_types.specs.Tests.{is_change_at};
ghost use Rattle.fst_heads.specs.declared.pending.Pending.TheVariants as pending;
ghost use Rattle.fst_heads.specs.declared.test.Test.TheVariants as test;
ghost use Rattle.fst_heads.specs.Heads.{kind_of, patch_of, patches_of};
ghost use Rattle.fst_heads.specs.Indices.{PassesAt};
ghost use Rattle.fst_heads.specs.Tests.{is_hard_kind};
ghost use Rattle.fst_heads.specs.Grading.{HasUnder, IsHardNumber, LeadsNowhere};
ghost use Rattle.fst_levels.specs.Sights.{Sees};
ghost use Rattle.fst_heads.specs.Nodes.{nodes_of, pending_in};
ghost use Rattle.fst_heads.specs.Pendings.{IsOf};

use crate::sight::Sight;
use crate::under_hard::is_known_under;
use fst_heads::choice::is_hard;
use fst_heads::head::{Head, Kind};
use fst_heads::heads::Heads;
use fst_heads::pending::{Pending, is_pending};
use fst_heads::places::is_change_at;
use fst_heads::row::row_pending;
use fst_heads::test::{Test, passes};
use fst_types::Place;

/// Whether the patch with the number passes.
pub fn passes_at(sight: &Sight<'_>, test: Test, number: u32) -> bool
    requires { Sees sight.now }
    ensures { IsTrue result ↔ PassesAt test (patches_of sight.now.heads.now.list.items) number }
{
    match sight.levels.find(sight.heads, number) {
        Some(index) => passes(test, &sight.heads.list[index]),
        None => false,
    }
}

/// Whether an open gate is in the row or below it.
pub fn waits_for_gate(sight: &Sight<'_>, row: &[u32]) -> bool
    requires { Sees sight.now }
    ensures { IsTrue result ↔ HasUnder (patches_of sight.now.heads.now.list.items) row.now (IsOpenNumber (patches_of sight.now.heads.now.list.items)) }
{
    is_pending(row_pending(sight.heads, row), Pending::Held)
}

/// Whether that is nothing, or changes of the block alone.
pub(crate) fn is_own(told: Pending, block: u32) -> bool
    ensures { IsTrue result → (told ≡ pending.Nothing) ⊎ IsOf block told }
{
    match told {
        Pending::Nothing => true,
        Pending::Block(other) | Pending::Behind(other) => u32::from(other) == block,
        Pending::Apart | Pending::Held => false,
    }
}

// What is pending of the patch with the number.
fn pending_of(sight: &Sight<'_>, number: u32) -> Pending
    requires { Sees sight.now }
    ensures { result ≡ pending_in (nodes_of sight.now.heads.now.list.items) number }
{
    match sight.levels.find(sight.heads, number) {
        Some(index) => sight.heads.list[index].pending,
        None => Pending::Nothing,
    }
}

// Whether nothing but changes of the block is pending of the patch with the number, or, where it is an open gate, of what it
// depends on: a group's first change comes after such a one.
fn waits_for_own(sight: &Sight<'_>, block: u32, number: u32) -> bool
    requires { Sees sight.now }
    ensures { IsTrue result → LeadsNowhere (patches_of sight.now.heads.now.list.items) block (number ∷ []) }
{
    if is_own(pending_of(sight, number), block) {
        return true;
    }
    let Some(index) = sight.levels.find(sight.heads, number) else {
        return false;
    };
    let head = &sight.heads.list[index];
    match head.kind {
        Kind::OpenGate => {
            let below = row_pending(sight.heads, head.dependencies.as_slice());
            is_own(below, block)
        }
        Kind::Change(_, _, _) | Kind::Empty | Kind::SealedGate => false,
    }
}

/// Whether nothing but changes of the block is pending of the row, where open gates count as sealed. Then no change of
/// another block that is not on disk lies below it, and no way leads from it back to the block.
pub fn waits_for_own_block(sight: &Sight<'_>, block: u32, row: &[u32]) -> bool
    requires { Sees sight.now }
    ensures { IsTrue result → LeadsNowhere (patches_of sight.now.heads.now.list.items) block row.now }
{
    for number in row {
        if !waits_for_own(sight, block, *number) {
            return false;
        }
    }
    true
}

/// Whether the patch is a hard change of the block in memory.
pub fn is_hard_in(head: &Head, block: u32) -> bool
    ensures { result ≡ (is_change_at place.Memory block (patch_of head.now) && is_hard_kind (kind_of head.now.kind)) }
{
    is_change_at(head, Place::Memory, block) && is_hard(head.kind)
}

// Whether the number is that of such a change.
pub(crate) fn is_hard_number(heads: &Heads, block: u32, number: u32) -> bool
    ensures { IsTrue result ↔ IsHardNumber (patches_of heads.now.list.items) block number }
{
    match heads.index_of(number) {
        Some(index) => is_hard_in(&heads.list[index], block),
        None => false,
    }
}

/// Whether the number is that of a hard change of the block in memory, where it is looked for as in a search.
pub fn is_hard_at(sight: &Sight<'_>, block: u32, number: u32) -> bool
    requires { Sees sight.now }
    ensures { IsTrue result ↔ IsHardNumber (patches_of sight.now.heads.now.list.items) block number }
{
    match sight.levels.find(sight.heads, number) {
        Some(index) => is_hard_in(&sight.heads.list[index], block),
        None => false,
    }
}

/// The last of the row.
pub(crate) fn newest(row: &[u32]) -> Option<u32>
    ensures { IfSome result (Contains row.now) }
{
    match row {
        [.., last] => Some(*last),
        [] => None,
    }
}

/// The first of the row.
pub(crate) fn first(row: &[u32]) -> Option<u32>
    ensures { IfSome result (Contains row.now) }
{
    match row {
        [first, ..] => Some(*first),
        [] => None,
    }
}

/// Whether the number is found in the row, by halves: it is where the row has it and rises.
pub fn is_found(row: &[u32], number: u32) -> bool
    ensures { IsTrue result → Contains row.now number }
{
    match row.binary_search(&number) {
        Ok(at) => row[at] == number,
        Err(_) => false,
    }
}

/// What the patch with the number directly depends on, or nothing where it is forgotten.
pub fn row_below<'a>(sight: &Sight<'a>, number: u32) -> &'a [u32]
    requires { Sees sight.now }
    ensures { (q : ℕ) → Contains result.now q → DirectlyOn (patches_of sight.now.heads.now.list.items) number q }
{
    match sight.levels.find(sight.heads, number) {
        Some(index) => sight.heads.list[index].dependencies.as_slice(),
        None => &[],
    }
}

/// The newest of the row, no more than `most`.
pub fn newest_few(row: &[u32], most: usize) -> &[u32]
    ensures only { (q : ℕ) → Contains result.now q → Contains row.now q }
    ensures all { length row.now ≤ most → result.now ≡ row.now }
{
    &row[row.len().saturating_sub(most)..]
}

/// Whether all changes of the block are on disk. Nothing leads back to the block then, so a change of it is hard but for
/// open gates.
pub fn is_clean(sight: &Sight<'_>, block: u32) -> bool
    requires sees { Sees sight.now }
    requires block { block < length sight.now.lists.now }
    ensures { IsTrue result → (row : List ℕ) → LeadsNowhere (patches_of sight.now.heads.now.list.items) block row }
{
    let list = sight.lists[block as usize].as_slice();
    list.is_empty()
}

/// Whether each of the row is lower than the floor of the block, or is a hard change of the block in memory, or is known to be
/// below one. A change of the block with that row is hard but for open gates.
pub fn stays_below(sight: &Sight<'_>, block: u32, row: &[u32]) -> bool
    requires sees { Sees sight.now }
    requires block { block < length sight.now.lists.now }
    ensures { IsTrue result → LeadsNowhere (patches_of sight.now.heads.now.list.items) block row.now }
{
    let floor = sight.levels.floor(block);
    for number in row {
        let is_low = sight.levels.of(sight.heads, *number) < floor;
        if !is_low && !is_known_under(sight, block, *number) {
            return false;
        }
    }
    true
}
