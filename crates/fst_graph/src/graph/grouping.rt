//! Groups: making one, putting it after another, closing it.

ghost use Rattle.std.specs.Prelude.{◌≡◌, ◌<◌, ◌+◌, ℕ, Some, MatchResult, IfOk, IfErr, IfSome, IfNone, OnErr, OnOk};
ghost use Rattle.fst_types.specs.declared.grade.Grade.{Grade};
ghost use Rattle.fst_types.specs.Order.{group_new_order, group_after_order, group_patch_order, group_close_order};
ghost use Rattle.fst_types.specs.Refusals.{IsFirst, NoneHolds};
ghost use Rattle.fst_graph.specs.Grouping.{AddsGroup, PutsAfter, AddsMember, ClosesGroup, ForeseesMember};
ghost use Rattle.fst_graph.specs.Known.{Prepared, unprepared, member_for, Refuses};

use crate::graph::Graph;
use crate::prepared::Gates;
use fst_types::{BlockNo, Fault, Grade, GroupNo, MAX_GROUPS, PatchNo, Span, What};

impl Graph {
    // Why no group can be made now.
    fn new_fault(&self) -> Option<Fault>
        ensures first { IfSome result (IsFirst (group_new_order self.now.heads self.now.numbers self.now.groups)) }
        ensures clear { IfNone result (NoneHolds (group_new_order self.now.heads self.now.numbers self.now.groups)) }
    {
        if self.groups.len() >= MAX_GROUPS {
            return Some(Fault::Full(What::Groups));
        }
        self.sparse.pair_fault()
    }

    /// A new group: a head gate, which has the group's number, and a tail gate with the next number, which depends on the
    /// head. Both are open. It is refused as `Full(Groups)` where there are 4,096 groups, as `Full(Heads)` where fewer than
    /// two more patches can stand, as `Full(Numbers)` where fewer than two numbers are left, and as `Memory`.
    pub fn group_new(&mut self) -> Result<GroupNo, Fault>
        ensures ok { IfOk result (λ no. AddsGroup self.old no.0 self.new) }
        ensures refused { IfErr result (Refuses (group_new_order self.old.heads self.old.numbers self.old.groups)) }
        ensures same { OnErr result (self.new ≡ unprepared self.old) }
        ensures blocks { self.new.blocks ≡ self.old.blocks }
    {
        if let Some(fault) = self.new_fault() {
            self.sparse.unprepare();
            return Err(fault);
        }
        if self.groups.reserve().is_err() {
            self.sparse.unprepare();
            return Err(Fault::Memory);
        }
        match self.sparse.add_pair() {
            Ok(head) => {
                self.groups.add(head.0);
                Ok(GroupNo(head.0))
            }
            Err(fault) => Err(fault),
        }
    }

    /// Puts the group after another: its head depends on the tail of the other, where that is not on disk. It is refused as
    /// `NoPatch` where one of the two numbers is no group's, as `Sealed` where the group is closed, as `GroupBegun` where a
    /// change was made for it, as `Cycle` where the tail of the other depends on its head, as that of the group itself
    /// does, and as `Memory`. The other may be closed.
    pub fn group_after(&mut self, group: GroupNo, on: GroupNo) -> Result<(), Fault>
        ensures ok { OnOk result (PutsAfter self.old group.0 on.0 self.new) }
        ensures refused { IfErr result (Refuses (group_after_order self.old.heads self.old.groups group.0 on.0)) }
        ensures same { OnErr result (self.new ≡ unprepared self.old) }
        ensures blocks { self.new.blocks ≡ self.old.blocks }
    {
        if let Some(fault) = self.groups.after_fault(group.0, on.0) {
            self.sparse.unprepare();
            return Err(fault);
        }
        let tail = PatchNo(on.0 + 1);
        match self.sparse.depend(PatchNo(group.0), &[tail]) {
            Ok(()) => {
                self.groups.note_after(group.0, on.0);
                Ok(())
            }
            Err(fault) => Err(fault),
        }
    }

    /// Makes room for a new change of the group, and answers the number and the grade that `group_patch` with these arguments
    /// will answer. The graph stays as it is: what is prepared is gone after any other call that may change it. It is refused
    /// as `group_patch` is.
    pub fn group_room(
        &mut self,
        group: GroupNo,
        block: BlockNo,
        span: Span,
    ) -> Result<(PatchNo, Grade), Fault>
        requires { block.0 < self.old.blocks }
        ensures ok { IfOk result (λ made. ForeseesMember (unprepared self.old) group.0 block.0 span.at span.len made.0.0 made.1) }
        ensures clear { OnOk result (NoneHolds (group_patch_order self.old.heads self.old.numbers self.old.groups group.0 block.0 span.at span.len)) }
        ensures next { IfOk result (λ made. made.0.0 ≡ self.old.numbers + 1) }
        ensures prepared { IfOk result (λ made. self.new ≡ record self.old { prepared = Some (member_for group.0 block.0 span.at span.len made.0.0 made.1) }) }
        ensures refused { IfErr result (Refuses (group_patch_order self.old.heads self.old.numbers self.old.groups group.0 block.0 span.at span.len)) }
        ensures same { OnErr result (self.new ≡ unprepared self.old) }
        ensures blocks { self.new.blocks ≡ self.old.blocks }
    {
        if let Some(fault) = self.groups.close_fault(group.0) {
            self.sparse.unprepare();
            return Err(fault);
        }
        let gates = Gates {
            head: group.0,
            tail: group.0 + 1,
        };
        self.sparse.member_room(gates, block, span)
    }

    // Puts down the change that is prepared for the group.
    fn put_down(&mut self, group: GroupNo) -> (PatchNo, Grade)
        requires { (p : Prepared) × (self.old.prepared ≡ Some p) × (p.group ≡ Some group.0) }
        ensures added { IfSome self.old.prepared (λ p. AddsMember (unprepared self.old) group.0 p.block p.at p.len result.0.0 result.1 self.new) }
        ensures foreseen { IfSome self.old.prepared (λ p. (result.0.0 ≡ p.number) × (result.1 ≡ p.grade)) }
        ensures blocks { self.new.blocks ≡ self.old.blocks }
    {
        let Some((block, span)) = self.sparse.prepared_span() else {
            unreachable!();
        };
        let made = self.sparse.add_member(group.0);
        self.rows = self
            .rows
            .with(&self.sparse, made.0, block, span, &[PatchNo(group.0)]);
        self.groups.note_member(group.0, made.0.0);
        made
    }

    /// A new change of the block for the group: the head of the group is sealed, if it is open, the change depends on the
    /// head and on what it overlaps, as far as these are not on disk, and the tail depends on the change. It is refused as
    /// `NoPatch` where the number is no group's, as `Sealed` where the group is closed, as `Cycle` where a change that it
    /// overlaps depends on the tail, as `Full(Heads)` and `Full(Numbers)`, and as `Memory`. Where `group_room` has prepared
    /// it for these arguments, it answers what `group_room` did, and takes no memory.
    pub fn group_patch(
        &mut self,
        group: GroupNo,
        block: BlockNo,
        span: Span,
    ) -> Result<(PatchNo, Grade), Fault>
        requires { block.0 < self.old.blocks }
        ensures ok { IfOk result (λ made. AddsMember (unprepared self.old) group.0 block.0 span.at span.len made.0.0 made.1 self.new) }
        ensures prepared { (number : ℕ) (grade : Grade) → self.old.prepared ≡ Some (member_for group.0 block.0 span.at span.len number grade) → MatchResult result (λ made. (made.0.0 ≡ number) × (made.1 ≡ grade)) (λ f. ⊥) }
        ensures refused { IfErr result (Refuses (group_patch_order self.old.heads self.old.numbers self.old.groups group.0 block.0 span.at span.len)) }
        ensures same { OnErr result (self.new ≡ unprepared self.old) }
        ensures blocks { self.new.blocks ≡ self.old.blocks }
    {
        if self
            .sparse
            .is_member_prepared(PatchNo(group.0), block, span)
        {
            return Ok(self.put_down(group));
        }
        if let Err(fault) = self.group_room(group, block, span) {
            return Err(fault);
        }
        Ok(self.put_down(group))
    }

    /// Closes the group: seals its head, if that is open, and its tail, and puts on disk what now rests there. It is
    /// refused as `NoPatch` where the number is no group's, and as `Sealed` where the group is closed. It takes no memory.
    pub fn group_close(&mut self, group: GroupNo) -> Result<(), Fault>
        ensures ok { OnOk result (ClosesGroup self.old group.0 self.new) }
        ensures refused { IfErr result (IsFirst (group_close_order self.old.groups group.0)) }
        ensures same { OnErr result (self.new ≡ unprepared self.old) }
        ensures blocks { self.new.blocks ≡ self.old.blocks }
    {
        if let Some(fault) = self.groups.close_fault(group.0) {
            self.sparse.unprepare();
            return Err(fault);
        }
        self.sparse.seal_if_open(group.0);
        self.sparse.seal_if_open(group.0 + 1);
        self.groups.close(group.0);
        Ok(())
    }
}
