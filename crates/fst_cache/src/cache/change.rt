//! Making a change, whatever it comes after: room in the graph, its bytes in its block, then the change in the graph, which
//! cannot be refused any more. So a refusal leaves all as it was.

ghost use Rattle.std.specs.Prelude.{◌≡◌, ◌<◌, ◌≤◌, ◌+◌, ℕ, Some, IfErr, IfOk, OnErr, OnOk, MatchOption, MatchResult};
ghost use Rattle.fst_types.specs.declared.grade.Grade.{Grade};
ghost use Rattle.fst_types.specs.Residence.{faults_rose};
ghost use Rattle.fst_types.specs.Events.{MadeChange, Refused};
ghost use Rattle.fst_types.specs.Refusals.{IsFirst, NoneHolds};
ghost use Rattle.fst_types.specs.Step.{Step};
ghost use Rattle.fst_block.specs.BlockView.{len_if_soft};
ghost use Rattle.fst_graph.specs.Known.{Refuses, unprepared};
ghost use Rattle.fst_cache.specs.After.{adds_after, event_after, order_after, prepared_after};
ghost use Rattle.fst_cache.specs.Making.{span_order, MayHold};
ghost use Rattle.fst_cache.specs.Views.{NeedsBlock};

use crate::cache::Cache;
use crate::share::Share;
use fst_device::BlockSlot;
use fst_graph::Graph;
use fst_types::{BlockNo, Fault, Grade, GroupNo, PatchNo, Span, What};

/// What a change comes after: the patches that are named, or the head of its group, whose tail comes after it.
#[derive(Clone, Copy)]
pub(super) enum After<'a> {
    Named(&'a [PatchNo]),
    InGroup(GroupNo),
}

// How many undo bytes a block keeps for a change at the span.
fn undo_bytes(grade: Grade, span: Span) -> u64
    ensures value { result ≡ len_if_soft grade span.len }
    ensures within { result ≤ span.len }
{
    match grade {
        Grade::Soft => u64::from(span.len),
        Grade::Hard => 0,
    }
}

// Makes room in the graph for a change, and answers the number and the grade that it will have.
fn prepare(
    graph: &mut Graph,
    after: After<'_>,
    block: BlockNo,
    span: Span,
) -> Result<(PatchNo, Grade), Fault>
    requires { block.0 < graph.old.blocks }
    ensures clear { OnOk result (NoneHolds (order_after after.entry graph.old.heads graph.old.numbers graph.old.groups block.0 span.at span.len)) }
    ensures next { IfOk result (λ made. made.0.0 ≡ graph.old.numbers + 1) }
    ensures prepared { IfOk result (λ made. graph.new ≡ record graph.old { prepared = Some (prepared_after after.entry block.0 span.at span.len made.0.0 made.1) }) }
    ensures refused { IfErr result (Refuses (order_after after.entry graph.old.heads graph.old.numbers graph.old.groups block.0 span.at span.len)) }
    ensures same { OnErr result (graph.new ≡ unprepared graph.old) }
{
    match after {
        After::Named(names) => graph.room(block, span, names),
        After::InGroup(group) => graph.group_room(group, block, span),
    }
}

// Puts down the change that was prepared.
fn put_down(graph: &mut Graph, after: After<'_>, block: BlockNo, span: Span)
    requires inside { block.0 < graph.old.blocks }
    requires prepared { (number : ℕ) × (grade : Grade) × (graph.old.prepared ≡ Some (prepared_after after block.0 span.at span.len number grade)) }
    ensures { (number : ℕ) (grade : Grade) → graph.old.prepared ≡ Some (prepared_after after.entry block.0 span.at span.len number grade) → adds_after after.entry graph.old block.0 span.at span.len number grade graph.new }
{
    match after {
        After::Named(names) => {
            let Ok(_) = graph.add_data(block, span, names) else {
                unreachable!()
            };
        }
        After::InGroup(group) => {
            let Ok(_) = graph.group_patch(group, block, span) else {
                unreachable!()
            };
        }
    }
}

impl<S: BlockSlot> Cache<S> {
    // Why a change of these bytes cannot be made, whatever it comes after.
    fn span_fault(&self, share: &Share, block: BlockNo, at: u32, bytes: &[u8]) -> Option<Fault>
        ensures { MatchOption result
            (MayHold self.now.state share.now block.0 at bytes.now)
            (λ fault. IsFirst (span_order self.now.state share.now block.0 at bytes.now) fault) }
    {
        if share.made() == u64::MAX {
            return Some(Fault::Full(What::Numbers));
        }
        if block.0 as usize >= self.seats.len() {
            return Some(Fault::NoBlock);
        }
        if self.seats.seat(block).is_lost() {
            return Some(Fault::Lost);
        }
        let size = self.size as usize;
        if bytes.is_empty() || bytes.len() > size || at as usize > size - bytes.len() {
            return Some(Fault::BadSpan);
        }
        if !self.has_room(block) {
            return Some(Fault::Full(What::Resident));
        }
        None
    }

    /// Makes a change of these bytes of the block from `at` on, and answers its number and its grade. It is refused by what the
    /// bytes are, then by what it comes after, then for want of memory or as its block could not be read.
    pub(super) fn change(
        &mut self,
        share: &mut Share,
        after: After<'_>,
        block: BlockNo,
        at: u32,
        bytes: &[u8],
    ) -> Result<(PatchNo, Grade), Fault>
        ensures step { MatchResult result
            (λ made. Step self.old.state (event_after after.entry share.old block.0 at bytes.now (faults_rose self.old.faults self.new.faults block.0)) (MadeChange made.0.0 made.1) self.new.state)
            (λ fault. Step self.old.state (event_after after.entry share.old block.0 at bytes.now (faults_rose self.old.faults self.new.faults block.0)) (Refused fault) self.new.state) }
        ensures share { MatchResult result (λ made. share.new ≡ share.old + 1) (λ fault. share.new ≡ share.old) }
        ensures beside { NeedsBlock self.old block.0 result self.new }
    {
        if let Some(fault) = self.span_fault(share, block, at, bytes) {
            return Err(fault);
        }
        let span = Span {
            at,
            len: bytes.len() as u32,
        };
        let (no, grade) = match prepare(&mut self.graph, after, block, span) {
            Ok(made) => made,
            Err(fault) => return Err(fault),
        };
        if let Err(fault) = self.seats.put(block, no, span, bytes, grade) {
            return Err(fault);
        }
        put_down(&mut self.graph, after, block, span);
        self.contents = self.contents.with(no, bytes);
        self.undo += undo_bytes(grade, span);
        self.made += 1;
        share.rise();
        Ok((no, grade))
    }
}
