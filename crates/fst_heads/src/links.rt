//! Each patch knows which patches directly depend on it.

ghost use Rattle.std.specs.Prelude.{◌≡◌, ℕ, List, map, OnOk, vec_len, vec_capacity};
ghost use Rattle.std.specs.List.Sorted.{IsStrictlyIncreasing};
ghost use Rattle.fst_heads.specs.Frames.{HasRoomBelow};
ghost use Rattle.fst_heads.specs.Nodes.{nodes_of, linked_to, HasRoomAbove};

use crate::heads::Heads;
use std::alloc::AllocError;

/// Makes room for one more dependant at each patch of the row.
pub fn reserve_above(heads: &mut Heads, row: &[u32]) -> Result<(), AllocError>
    ensures nodes { nodes_of heads.new.list.items ≡ nodes_of heads.old.list.items }
    ensures room { OnOk result (HasRoomAbove heads.new.list.items row.now) }
    ensures len { vec_len heads.new.list ≡ vec_len heads.old.list }
    ensures capacity { vec_capacity heads.new.list ≡ vec_capacity heads.old.list }
{
    for number in row {
        if let Some(index) = heads.index_of(*number) {
            heads.list[index].dependants.reserve(1)?;
        }
    }
    Ok(())
}

/// Makes room for one more direct dependency of the patch with the number.
pub fn reserve_below(heads: &mut Heads, number: u32) -> Result<(), AllocError>
    ensures nodes { nodes_of heads.new.list.items ≡ nodes_of heads.old.list.items }
    ensures room { OnOk result (HasRoomBelow heads.new.list.items number) }
    ensures above { (row : List ℕ) → HasRoomAbove heads.old.list.items row → HasRoomAbove heads.new.list.items row }
    ensures len { vec_len heads.new.list ≡ vec_len heads.old.list }
    ensures capacity { vec_capacity heads.new.list ≡ vec_capacity heads.old.list }
{
    if let Some(index) = heads.index_of(number) {
        heads.list[index].dependencies.reserve(1)?;
    }
    Ok(())
}

/// The patch with the number is a dependant of each of the row besides. It takes no memory.
pub fn link(heads: &mut Heads, row: &[u32], number: u32)
    requires once { IsStrictlyIncreasing row.now }
    requires room { HasRoomAbove heads.old.list.items row.now }
    ensures nodes { nodes_of heads.new.list.items ≡ map (linked_to row.now number) (nodes_of heads.old.list.items) }
    ensures below { (n : ℕ) → HasRoomBelow heads.old.list.items n → HasRoomBelow heads.new.list.items n }
    ensures len { vec_len heads.new.list ≡ vec_len heads.old.list }
    ensures capacity { vec_capacity heads.new.list ≡ vec_capacity heads.old.list }
{
    for other in row {
        if let Some(index) = heads.index_of(*other) {
            heads.list[index].dependants.push_reserved(number);
        }
    }
}
