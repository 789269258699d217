//! Groups: changes that are on disk only after those of the groups that theirs was put after.

ghost use Rattle.std.specs.Prelude.{◌≡◌, ◌<◌, ◌+◌, OnErr, MatchResult};
ghost use Rattle.fst_types.specs.Residence.{faults_rose};
ghost use Rattle.fst_types.specs.Events.{GroupNew, GroupAfter, GroupPatch, GroupClose, Made, MadeChange, Accepted, Refused};
ghost use Rattle.fst_types.specs.Step.{Step};
ghost use Rattle.fst_cache.specs.Views.{IsSameBeside, NeedsBlock};

use crate::cache::Cache;
use crate::cache::change::After;
use crate::share::Share;
use fst_device::BlockSlot;
use fst_types::{BlockNo, Fault, Grade, GroupNo, PatchNo, What};

impl<S: BlockSlot> Cache<S> {
    /// Makes a group without changes: a head gate, which gives the group its number, and a tail gate, which depends on
    /// it. Both may be named as patches are, to come before the group or after it. They count as two patches, and stay
    /// gates of the group for good. The answer is the group's number.
    ///
    /// Refused, in this order, as `Full(Numbers)` where the share counts the greatest number or one less, `Full(Groups)`
    /// where 4,096 groups were made, `Full(Heads)` where fewer than two are free, `Full(Numbers)` where fewer than two
    /// are left, or `Memory`, for the gates' places among the others. A refusal changes nothing.
    pub fn group_new(&mut self, share: &mut Share) -> Result<GroupNo, Fault>
        ensures step { MatchResult result
            (λ group. Step self.old.state (GroupNew share.old) (Made group.0) self.new.state)
            (λ fault. Step self.old.state (GroupNew share.old) (Refused fault) self.new.state) }
        ensures share { MatchResult result (λ group. share.new ≡ share.old + 2) (λ fault. share.new ≡ share.old) }
        ensures beside { IsSameBeside self.old self.new }
        ensures refused { OnErr result (self.new ≡ self.old) }
    {
        if share.made() >= u64::MAX - 1 {
            return Err(Fault::Full(What::Numbers));
        }
        let group = self.graph.group_new()?;
        self.made += 2;
        share.rise();
        share.rise();
        Ok(group)
    }

    /// Puts a group after another: each change of the first is on disk only with each change of the other.
    ///
    /// Refused, in this order, as `NoPatch` where either was never made, `Sealed` where the first is closed,
    /// `GroupBegun` where it has a change, `Cycle` where the other's tail depends on its head, as it does where both are
    /// the same group, or `Memory`, for what the head depends on. A refusal changes nothing.
    pub fn group_after(&mut self, group: GroupNo, on: GroupNo) -> Result<(), Fault>
        ensures step { MatchResult result
            (λ u. Step self.old.state (GroupAfter group.0 on.0) Accepted self.new.state)
            (λ fault. Step self.old.state (GroupAfter group.0 on.0) (Refused fault) self.new.state) }
        ensures beside { IsSameBeside self.old self.new }
        ensures refused { OnErr result (self.new ≡ self.old) }
    {
        self.graph.group_after(group, on)
    }

    /// Makes a change of a block for a group. It comes after the group's head, which is sealed if it is open, and after
    /// the live changes of the block that it overlaps; the group's tail comes after it. The answer is its number and its
    /// grade.
    ///
    /// Refused, in this order, as `Full(Numbers)` where the share counts the greatest number, `NoBlock`, `Lost` where
    /// the block is lost, `BadSpan` where the bytes are none or do not fit, `Full(Resident)` where the block is not dirty
    /// and dirty blocks take all places in memory, `NoPatch` where there is no such group, `Sealed` where it is closed,
    /// `Cycle` where a live change that it would overlap depends on the group's tail, `Full(Heads)`, `Full(Numbers)`,
    /// then `Device` where the block had to be read and could not, or `Memory`: for the change's place among the others
    /// and what it and the tail depend on, for the block's bytes, and for the bytes that it covers where it is soft. A
    /// refusal leaves the state and the share as they were, and the head open where it was; the block may have come into
    /// memory, and a clean one may have left. The slot's count of faults rises by one where the answer is `Device`, and
    /// else not.
    pub fn group_patch(
        &mut self,
        share: &mut Share,
        group: GroupNo,
        block: BlockNo,
        at: u32,
        bytes: &[u8],
    ) -> Result<(PatchNo, Grade), Fault>
        ensures step { MatchResult result
            (λ made. Step self.old.state (GroupPatch share.old group.0 block.0 at bytes.now (faults_rose self.old.faults self.new.faults block.0)) (MadeChange made.0.0 made.1) self.new.state)
            (λ fault. Step self.old.state (GroupPatch share.old group.0 block.0 at bytes.now (faults_rose self.old.faults self.new.faults block.0)) (Refused fault) self.new.state) }
        ensures share { MatchResult result (λ made. share.new ≡ share.old + 1) (λ fault. share.new ≡ share.old) }
        ensures beside { NeedsBlock self.old block.0 result self.new }
    {
        self.change(share, After::InGroup(group), block, at, bytes)
    }

    /// Closes a group: no change is made for it any more, and its gates are sealed. It takes no memory.
    ///
    /// Refused, in this order, as `NoPatch` where there is no such group, or `Sealed` where it is closed. A refusal
    /// changes nothing.
    pub fn group_close(&mut self, group: GroupNo) -> Result<(), Fault>
        ensures step { MatchResult result
            (λ u. Step self.old.state (GroupClose group.0) Accepted self.new.state)
            (λ fault. Step self.old.state (GroupClose group.0) (Refused fault) self.new.state) }
        ensures beside { IsSameBeside self.old self.new }
        ensures refused { OnErr result (self.new ≡ self.old) }
    {
        self.graph.group_close(group)
    }
}
