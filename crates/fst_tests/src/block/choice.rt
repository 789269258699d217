//! Which patches a call may name: what a block asks of its caller, tested before each call.
//!
//! What a call asks is proved in a test too. So a test keeps the list of a block's patches beside the block, and tests on
//! it what the call asks.

ghost use Rattle.std.specs.Prelude.{◌≡◌, ◌<◌, ◌↔◌, All, IsTrue};
ghost use Rattle.std.specs.List.Sorted.{IsStrictlyIncreasing};
ghost use Rattle.fst_types.specs.declared.grade.Grade.TheVariants as grade;
ghost use Rattle.fst_block.specs.Choices.{IsChoice, ShareByte, numbers_of, others_of};
ghost use Rattle.fst_tests.specs.Tested.{IsKnown, IsNamed, HasEarlier};

use fst_types::{Grade, Noted, PatchNo, Span};
use std::marker::Model;

/// A patch of a block: which bytes it puts is known to contracts alone.
#[derive(Drop)]
pub struct Change {
    pub no: PatchNo,
    pub span: Span,
    pub grade: Grade,
    pub bytes: Noted,
}

impl Model for Change {
    ghost use Rattle.fst_block.specs.BlockView.{BlockPatch};

    ghost Value = { BlockPatch };

    ghost view = { λ c. record { number = c.no.0; span = c.span; grade = c.grade; bytes = c.bytes.items } };
}

// Whether the number is among the chosen.
pub fn is_named(chosen: &[PatchNo], no: PatchNo) -> bool
    ensures { IsTrue result ↔ IsNamed chosen.now no.0 }
{
    chosen.iter().any(|n| n.0 == no.0)
}

// Whether the number is one of a patch.
fn is_known(changes: &[Change], no: PatchNo) -> bool
    ensures { IsTrue result → IsKnown changes.now no.0 }
{
    changes.iter().any(|change| change.no.0 == no.0)
}

fn rises(chosen: &[PatchNo]) -> bool
    ensures { IsTrue result → IsStrictlyIncreasing (numbers_of chosen.now) }
{
    for i in 1..chosen.len() {
        if chosen[i - 1].0 >= chosen[i].0 {
            return false;
        }
    }
    true
}

pub fn share_byte(first: Span, second: Span) -> bool
    ensures { ShareByte first second → IsTrue result }
{
    u64::from(first.at) < u64::from(second.at) + u64::from(second.len)
        && u64::from(second.at) < u64::from(first.at) + u64::from(first.len)
}

// Whether every earlier patch that shares a byte with this one is chosen.
fn has_earlier(changes: &[Change], chosen: &[PatchNo], later: &Change) -> bool
    ensures { IsTrue result → HasEarlier changes.now chosen.now later.now }
{
    let no = later.no;
    let span = later.span;
    changes.iter().all(|change| {
        change.no.0 >= no.0 || !share_byte(change.span, span) || is_named(chosen, change.no)
    })
}

// Whether each chosen number is one of a patch.
fn are_known(changes: &[Change], chosen: &[PatchNo]) -> bool
    ensures { IsTrue result → All (λ n. IsKnown changes.now n.0) chosen.now }
{
    for no in chosen {
        if !is_known(changes, *no) {
            return false;
        }
    }
    true
}

// Whether each hard patch is chosen.
fn has_hard(changes: &[Change], chosen: &[PatchNo]) -> bool
    ensures { IsTrue result → All (λ p. p.grade ≡ grade.Hard → IsNamed chosen.now p.number) changes.now }
{
    changes.iter().all(|change| change.grade == Grade::Soft || is_named(chosen, change.no))
}

// Whether with each chosen patch every earlier one that shares a byte is chosen.
fn is_closed(changes: &[Change], chosen: &[PatchNo]) -> bool
    ensures { IsTrue result → All (λ q. IsNamed chosen.now q.number → HasEarlier changes.now chosen.now q) changes.now }
{
    changes.iter().all(|later| !is_named(chosen, later.no) || has_earlier(changes, chosen, later))
}

// Whether these patches may be launched by themselves.
pub fn is_choice(changes: &[Change], chosen: &[PatchNo]) -> bool
    ensures { IsTrue result → IsChoice changes.now chosen.now }
{
    if !rises(chosen) {
        return false;
    }
    if !are_known(changes, chosen) {
        return false;
    }
    if !has_hard(changes, chosen) {
        return false;
    }
    is_closed(changes, chosen)
}

// Whether the number is greater than all of the patches.
pub fn is_newest(changes: &[Change], no: PatchNo) -> bool
    ensures { IsTrue result → All (λ p. p.number < no.0) changes.now }
{
    changes.iter().all(|change| change.no.0 < no.0)
}

// Takes the chosen patches out of the list.
pub fn leave_out(changes: &mut Vec<Change>, chosen: &[PatchNo])
    ensures { changes.new.items ≡ others_of chosen.now changes.old.items }
{
    let mut at = 0;
    while at < changes.len() {
        if is_named(chosen, changes[at].no) {
            let _ = changes.remove(at);
        } else {
            at += 1;
        }
    }
}
