//! Which changes of a block may be written, by the list of the block.

ghost use Rattle.std.specs.Prelude.{◌<◌, ◌≤◌, ◌==◌, ◌∷◌, [], ℕ, List, ◌≡◌, ◌&&◌, length, IfOk, IfErr, IfSome, IfNone};
ghost use Rattle.std.specs.List.{list_any};
ghost use Rattle.fst_types.specs.declared.fault.Fault.TheVariants as fault;
ghost use Rattle.fst_heads.specs.Heads.{kind_of, patches_of};
ghost use Rattle.fst_heads.specs.Names.{numbers_of};
ghost use Rattle.fst_heads.specs.Lists.{entries_of, entries_on};
ghost use Rattle.fst_heads.specs.Nodes.{node_of, nodes_of};
ghost use Rattle.fst_heads.specs.Standings.{NoneHeldBelow, is_ready_on, is_held_on, held_on, ready_on};
ghost use Rattle.fst_heads.specs.Stretches.{LieIn};
ghost use Rattle.fst_heads.specs.Tests.{is_hard_kind};

use crate::head::{Head, Kind};
use crate::heads::Heads;
use crate::lists::{Listed, list_from, list_in};
use crate::pending::is_of_block;
use crate::places::is_change_at;
use crate::standing::Standing;
use crate::turns::next_in_turn;
use fst_types::{Fault, Grade, PatchNo, Place};
use std::alloc::Global;

// Whether the patch is a change of the block in memory that waits for such changes alone.
fn is_ready(head: &Head, block: u32) -> bool
    ensures { result ≡ is_ready_on block (node_of head.now) }
{
    is_change_at(head, Place::Memory, block) && is_of_block(head.pending, block)
}

// Whether a patch with the number is one.
fn is_ready_at(heads: &Heads, number: u32, block: u32) -> bool
    ensures { result ≡ list_any (λ x. (x.patch.number == number) && is_ready_on block x) (nodes_of heads.now.list.items) }
{
    match heads.index_of(number) {
        Some(index) => is_ready(&heads.list[index], block),
        None => false,
    }
}

/// The writable set of a block, in order of number. The list has the changes of the block that are not on disk. No more of
/// them wait for changes of the block in memory alone than the standing counts, and these lie in its stretch: they are
/// looked for there alone, from both ends of it, and where so many are found, no others are looked at.
pub fn ready_set(
    alloc: Global,
    heads: &Heads,
    list: &[Listed],
    standing: Standing,
    block: u32,
) -> Result<Vec<PatchNo>, Fault>
    requires listed { entries_of list.now ≡ entries_on block (patches_of heads.now.list.items) }
    requires ready { length (ready_on block (nodes_of heads.now.list.items)) ≤ standing.ready }
    requires lie { LieIn (is_ready_on block) (nodes_of heads.now.list.items) standing.ready_in }
    ensures ok { IfOk result (λ numbers. numbers_of numbers.items ≡ ready_on block (nodes_of heads.now.list.items)) }
    ensures refused { IfErr result (λ f. (0 < length (ready_on block (nodes_of heads.now.list.items))) × (f ≡ fault.Memory)) }
{
    let mut front = Vec::new(alloc);
    // What was found from the end of the stretch, the newest first.
    let mut back = Vec::new(alloc);
    let mut rest = list_in(list, standing.ready_in);
    let mut left = standing.ready;
    let mut from_back = false;
    while left > 0 {
        let Some((listed, others)) = next_in_turn(rest, from_back) else {
            break;
        };
        if is_ready_at(heads, listed.number, block) {
            let no = PatchNo(listed.number);
            let kept = if from_back {
                back.push(no)
            } else {
                front.push(no)
            };
            if kept.is_err() {
                return Err(Fault::Memory);
            }
            left -= 1;
        }
        rest = others;
        from_back = !from_back;
    }
    back.reverse();
    match front.append(&mut back) {
        Ok(()) => Ok(front),
        Err(_) => Err(Fault::Memory),
    }
}

// Whether the patch is a hard change of the block in memory that waits for more.
fn is_held(head: &Head, block: u32) -> bool
    ensures { result ≡ is_held_on block (node_of head.now) }
{
    is_change_at(head, Place::Memory, block)
        && is_hard(head.kind)
        && !is_of_block(head.pending, block)
}

// Whether a patch with the number is one.
fn is_held_at(heads: &Heads, number: u32, block: u32) -> bool
    ensures { result ≡ list_any (λ x. (x.patch.number == number) && is_held_on block x) (nodes_of heads.now.list.items) }
{
    match heads.index_of(number) {
        Some(index) => is_held(&heads.list[index], block),
        None => false,
    }
}

/// The least hard patch of the block in memory outside its writable set. The list has the changes of the block that are
/// not on disk. No more hard ones than the standing counts wait for more than changes of the block in memory, and none with
/// a lesser number than it tells. Where the one with that number is held no more, they are looked for from both ends of the
/// list from there on, and where so many are found, no others are looked at.
pub fn first_held(heads: &Heads, list: &[Listed], standing: Standing, block: u32) -> Option<PatchNo>
    requires listed { entries_of list.now ≡ entries_on block (patches_of heads.now.list.items) }
    requires held { length (held_on block (nodes_of heads.now.list.items)) ≤ standing.held }
    requires above { NoneHeldBelow (nodes_of heads.now.list.items) block standing.held_from }
    ensures none { IfNone result (held_on block (nodes_of heads.now.list.items) ≡ []) }
    ensures least { IfSome result (λ no. (rest : List ℕ) × (held_on block (nodes_of heads.now.list.items) ≡ no.0 ∷ rest)) }
{
    if standing.held == 0 {
        return None;
    }
    if is_held_at(heads, standing.held_from, block) {
        return Some(PatchNo(standing.held_from));
    }
    let mut left = standing.held;
    let mut least = None;
    let mut rest = list_from(list, standing.held_from);
    let mut from_back = false;
    while left > 0 {
        let Some((listed, others)) = next_in_turn(rest, from_back) else {
            break;
        };
        if is_held_at(heads, listed.number, block) {
            least = Some(PatchNo(listed.number));
            if !from_back {
                return least;
            }
            left -= 1;
        }
        rest = others;
        from_back = !from_back;
    }
    least
}

/// Whether it is a hard change.
pub fn is_hard(kind: Kind) -> bool
    ensures { result ≡ is_hard_kind (kind_of kind) }
{
    match kind {
        Kind::Change(Grade::Hard, _, _) => true,
        Kind::Change(Grade::Soft, _, _) => false,
        Kind::Empty | Kind::OpenGate | Kind::SealedGate => false,
    }
}
