//! The groups of the twin.

use crate::graph::twin::{Kind, Twin};
use crate::list::push;
use fst_types::{
    BlockNo, Fault, Grade, GroupNo, MAX_GROUPS, MAX_HEADS, MAX_NUMBER, PatchNo, Span, What,
};
use std::process::Abort;

/// A group, by its head; its tail has the next number.
#[derive(Clone, Copy)]
pub struct Group {
    head: PatchNo,
    begun: bool,
    closed: bool,
}

impl Group {
    /// The number of the group.
    pub fn number(&self) -> GroupNo {
        GroupNo(self.head.0)
    }

    fn tail(&self) -> PatchNo {
        PatchNo(self.head.0.saturating_add(1))
    }
}

impl Twin {
    /// How many groups there are.
    pub fn group_count(&self) -> usize {
        self.groups.len()
    }

    /// The number of a group, by its place among them.
    pub fn group_at(&self, index: usize) -> Option<GroupNo> {
        let group = self.groups.get(index)?;
        Some(group.number())
    }

    fn group(&self, no: GroupNo) -> Option<Group> {
        for group in &self.groups {
            if group.number() == no {
                return Some(*group);
            }
        }
        None
    }

    /// Whether it is the head or the tail of a group.
    pub fn is_group_gate(&self, no: PatchNo) -> bool {
        for group in &self.groups {
            if group.head == no || group.tail() == no {
                return true;
            }
        }
        false
    }

    // Why no group can be made now.
    fn group_new_fault(&self) -> Option<Fault> {
        if self.groups.len() >= MAX_GROUPS {
            return Some(Fault::Full(What::Groups));
        }
        if self.patches.len() >= MAX_HEADS - 1 {
            return Some(Fault::Full(What::Heads));
        }
        if self.numbers >= MAX_NUMBER - 1 {
            return Some(Fault::Full(What::Numbers));
        }
        None
    }

    /// A new group, or why there is none.
    pub fn try_group_new(&mut self, rt: &impl Abort) -> Result<GroupNo, Fault> {
        if let Some(fault) = self.group_new_fault() {
            return Err(fault);
        }
        let head = self.add_gate(rt);
        let tail = self.add_gate(rt);
        self.depend(rt, tail, &[head]);
        let group = Group {
            head,
            begun: false,
            closed: false,
        };
        push(rt, &mut self.groups, group);
        Ok(group.number())
    }

    // Why the one group cannot be put after the other.
    fn group_after_fault(&self, rt: &impl Abort, late: GroupNo, early: GroupNo) -> Option<Fault> {
        let (Some(later), Some(earlier)) = (self.group(late), self.group(early)) else {
            return Some(Fault::NoPatch);
        };
        if later.closed {
            return Some(Fault::Sealed);
        }
        if later.begun {
            return Some(Fault::GroupBegun);
        }
        if self.under(rt, earlier.tail()).contains(&later.head) {
            return Some(Fault::Cycle);
        }
        None
    }

    /// Puts the one group after the other, or is refused.
    pub fn try_group_after(
        &mut self,
        rt: &impl Abort,
        late: GroupNo,
        early: GroupNo,
    ) -> Result<(), Fault> {
        if let Some(fault) = self.group_after_fault(rt, late, early) {
            return Err(fault);
        }
        self.depend(rt, PatchNo(late.0), &[PatchNo(early.0.saturating_add(1))]);
        Ok(())
    }

    // Why nothing can become of the group any more.
    fn closed_fault(&self, no: GroupNo) -> Option<Fault> {
        match self.group(no) {
            Some(group) => match group.closed {
                true => Some(Fault::Sealed),
                false => None,
            },
            None => Some(Fault::NoPatch),
        }
    }

    // Seals the head of the group if it is open.
    fn begin(&mut self, no: GroupNo) {
        let head = PatchNo(no.0);
        let is_open = match self.head(head) {
            Some(patch) => matches!(patch.kind, Kind::OpenGate),
            None => false,
        };
        if is_open {
            self.seal(head);
        }
    }

    /// Closes the group, or is refused.
    pub fn try_group_close(&mut self, no: GroupNo) -> Result<(), Fault> {
        if let Some(fault) = self.closed_fault(no) {
            return Err(fault);
        }
        self.begin(no);
        self.seal(PatchNo(no.0.saturating_add(1)));
        for group in &mut self.groups {
            if group.head.0 == no.0 {
                group.closed = true;
            }
        }
        Ok(())
    }

    // Whether a change that shares a byte with the span depends on the tail of the group.
    fn overlap_reaches_tail(
        &self,
        rt: &impl Abort,
        no: GroupNo,
        block: BlockNo,
        span: Span,
    ) -> bool {
        let tail = PatchNo(no.0.saturating_add(1));
        for patch in &self.patches {
            if patch.is_live()
                && patch.shares_byte(block, span)
                && self.under(rt, patch.no).contains(&tail)
            {
                return true;
            }
        }
        false
    }

    // Why the group cannot get a change of the span.
    fn member_fault(
        &self,
        rt: &impl Abort,
        no: GroupNo,
        block: BlockNo,
        span: Span,
    ) -> Option<Fault> {
        if let Some(fault) = self.closed_fault(no) {
            return Some(fault);
        }
        if self.overlap_reaches_tail(rt, no, block, span) {
            return Some(Fault::Cycle);
        }
        self.room_fault()
    }

    /// A new change of the group, or why there is none.
    pub fn try_member(
        &mut self,
        rt: &impl Abort,
        no: GroupNo,
        block: BlockNo,
        span: Span,
    ) -> Result<(PatchNo, Grade), Fault> {
        if let Some(fault) = self.member_fault(rt, no, block, span) {
            return Err(fault);
        }
        self.begin(no);
        let made = self.add_data(rt, block, span, &[PatchNo(no.0)]);
        self.depend(rt, PatchNo(no.0.saturating_add(1)), &[made.0]);
        for group in &mut self.groups {
            if group.head.0 == no.0 {
                group.begun = true;
            }
        }
        Ok(made)
    }
}
