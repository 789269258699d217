//! The cache's calls on groups.

ghost use Rattle.std.specs.Prelude.{◌≡◌, ◌+◌, OnErr, MatchResult};
ghost use Rattle.fst_types.specs.Residence.{faults_rose};
ghost use Rattle.fst_types.specs.Events.{GroupNew, GroupAfter, GroupPatch, GroupClose, MadeChange, Made, Accepted, Refused};
ghost use Rattle.fst_types.specs.Step.{Step};
ghost use Rattle.fst_cache.specs.Views.{IsSameBeside, NeedsBlock};

use crate::desk::Desk;
use fst_cache::Share;
use fst_device::BlockSlot;
use fst_types::{BlockNo, Fault, Grade, GroupNo, PatchNo};
use std::alloc::Allocator;

impl<S: BlockSlot, A: Allocator> Desk<S, A> {
    /// Makes a group: a head gate, and a tail gate that depends on it. The answer is the head's number; the tail's is one
    /// more. The share and the count of patches made rise by two.
    ///
    /// Refused, in this order, as `Full(Numbers)` where the share counts the greatest number or one less, `Full(Groups)`
    /// where 4,096 were made, `Full(Heads)` and `Full(Numbers)` where fewer than two are left, or `Memory`, for the gates'
    /// places among the others, what the tail depends on, and the group's. A refusal changes nothing.
    pub fn group_new(&mut self, share: &mut Share) -> Result<GroupNo, Fault>
        ensures step { MatchResult result
            (λ group. Step self.old.cache.state (GroupNew share.old) (Made group.0) self.new.cache.state)
            (λ fault. Step self.old.cache.state (GroupNew share.old) (Refused fault) self.new.cache.state) }
        ensures share { MatchResult result (λ group. share.new ≡ share.old + 2) (λ fault. share.new ≡ share.old) }
        ensures beside { IsSameBeside self.old.cache self.new.cache }
        ensures refused { OnErr result (self.new.cache ≡ self.old.cache) }
        ensures lanes { self.new ≡ record self.old { cache = self.new.cache } }
    {
        self.cache.group_new(share)
    }

    /// Puts a group after another one: its head depends on the other's tail, so that none of its changes goes to disk
    /// before all of the other's, which is closed by then.
    ///
    /// Refused, in this order, as `NoPatch` where one of the two is no group, `Sealed` where the group is closed,
    /// `GroupBegun` where it has a change, `Cycle` where the other's tail depends on its head, as it does where both are
    /// the same group, or `Memory`, for what its head depends on. A refusal changes nothing.
    pub fn group_after(&mut self, group: GroupNo, on: GroupNo) -> Result<(), Fault>
        ensures step { MatchResult result
            (λ u. Step self.old.cache.state (GroupAfter group.0 on.0) Accepted self.new.cache.state)
            (λ fault. Step self.old.cache.state (GroupAfter group.0 on.0) (Refused fault) self.new.cache.state) }
        ensures beside { IsSameBeside self.old.cache self.new.cache }
        ensures refused { OnErr result (self.new.cache ≡ self.old.cache) }
        ensures lanes { self.new ≡ record self.old { cache = self.new.cache } }
    {
        self.cache.group_after(group, on)
    }

    /// Makes a change for a group, as `patch` does: after the group's head, which is sealed if it is open, and before its
    /// tail. The answer is its number and its grade.
    ///
    /// Refused, in this order, as `Full(Numbers)` where the share counts the greatest number, `NoBlock`, `Lost`, `BadSpan`,
    /// `Full(Resident)`, `NoPatch` where there is no such group, `Sealed` where it is closed, `Cycle` where the change
    /// overlaps one that comes after the group, `Full(Heads)`, `Full(Numbers)`, then `Device` where the block had to be
    /// read and could not, or `Memory`. A refusal leaves the state and the share as they were; the block may have come
    /// into memory, and a clean one may have left. The slot's count of faults rises by one where the answer is `Device`,
    /// and else not.
    pub fn group_patch(
        &mut self,
        share: &mut Share,
        group: GroupNo,
        block: BlockNo,
        at: u32,
        bytes: &[u8],
    ) -> Result<(PatchNo, Grade), Fault>
        ensures step { MatchResult result
            (λ made. Step self.old.cache.state (GroupPatch share.old group.0 block.0 at bytes.now (faults_rose self.old.cache.faults self.new.cache.faults block.0)) (MadeChange made.0.0 made.1) self.new.cache.state)
            (λ fault. Step self.old.cache.state (GroupPatch share.old group.0 block.0 at bytes.now (faults_rose self.old.cache.faults self.new.cache.faults block.0)) (Refused fault) self.new.cache.state) }
        ensures share { MatchResult result (λ made. share.new ≡ share.old + 1) (λ fault. share.new ≡ share.old) }
        ensures beside { NeedsBlock self.old.cache block.0 result self.new.cache }
        ensures lanes { self.new ≡ record self.old { cache = self.new.cache } }
    {
        self.cache.group_patch(share, group, block, at, bytes)
    }

    /// Closes a group: no change comes to it any more. Its head is sealed if it is open, and its tail is. It takes no
    /// memory.
    ///
    /// Refused, in this order, as `NoPatch` where there is no such group, or `Sealed` where it is closed. A refusal changes
    /// nothing.
    pub fn group_close(&mut self, group: GroupNo) -> Result<(), Fault>
        ensures step { MatchResult result
            (λ u. Step self.old.cache.state (GroupClose group.0) Accepted self.new.cache.state)
            (λ fault. Step self.old.cache.state (GroupClose group.0) (Refused fault) self.new.cache.state) }
        ensures beside { IsSameBeside self.old.cache self.new.cache }
        ensures refused { OnErr result (self.new.cache ≡ self.old.cache) }
        ensures lanes { self.new ≡ record self.old { cache = self.new.cache } }
    {
        self.cache.group_close(group)
    }
}
