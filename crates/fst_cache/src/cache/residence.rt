//! Blocks in memory.

ghost use Rattle.std.specs.Prelude.{◌≡◌, ◌<◌, ◌↔◌, IsTrue, OnOk, OnErr, MatchOption, MatchResult, false, length, slice_set};
ghost use Rattle.fst_types.specs.Residence.{HasNoRoom};
ghost use Rattle.fst_types.specs.Events.{Evict, Accepted, Refused};
ghost use Rattle.fst_types.specs.Order.{order};
ghost use Rattle.fst_types.specs.Refusals.{IsFirst, NoneHolds};
ghost use Rattle.fst_types.specs.Step.{Step};

use crate::cache::Cache;
use fst_device::BlockSlot;
use fst_types::{BlockNo, Fault};

impl<S: BlockSlot> Cache<S> {
    /// Whether the block is in memory or has a place there.
    pub(super) fn has_room(&self, block: BlockNo) -> bool
        requires { block.0 < length self.now.state.blocks }
        ensures { IsTrue result ↔ (HasNoRoom self.now.state block.0 → ⊥) }
    {
        self.seats.seat(block).is_loaded() || self.seats.has_room()
    }

    /// Why a block cannot be given up.
    fn evict_fault(&self, block: BlockNo) -> Option<Fault>
        ensures { MatchOption result
            (NoneHolds (order self.now.state (Evict block.0)))
            (λ fault. IsFirst (order self.now.state (Evict block.0)) fault) }
    {
        if block.0 as usize >= self.seats.len() {
            return Some(Fault::NoBlock);
        }
        if self.seats.seat(block).is_dirty() {
            return Some(Fault::Dirty);
        }
        None
    }

    /// Gives up the place in memory of a block that has no change in memory or in flight. A block that is not in memory
    /// stays so. It takes no memory.
    ///
    /// Refused, in this order, as `NoBlock` or `Dirty`. A refusal changes nothing.
    pub fn evict(&mut self, block: BlockNo) -> Result<(), Fault>
        ensures step { MatchResult result
            (λ u. Step self.old.state (Evict block.0) Accepted self.new.state)
            (λ fault. Step self.old.state (Evict block.0) (Refused fault) self.new.state) }
        ensures evicted { OnOk result (self.new ≡ record self.old { resident = slice_set self.old.resident block.0 false }) }
        ensures refused { OnErr result (self.new ≡ self.old) }
    {
        if let Some(fault) = self.evict_fault(block) {
            return Err(fault);
        }
        self.seats.evict(block);
        Ok(())
    }
}
