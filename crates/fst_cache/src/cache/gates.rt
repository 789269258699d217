//! Gates: what they wait for, and sealing them; and forgetting what is on disk.

ghost use Rattle.std.specs.Prelude.{◌≡◌, OnErr, MatchResult};
ghost use Rattle.fst_types.specs.Events.{Depend, Seal, Forget, Accepted, Forgot, Refused};
ghost use Rattle.fst_types.specs.Step.{Step};
ghost use Rattle.fst_seat.specs.Names.{numbers_of};
ghost use Rattle.fst_cache.specs.Views.{IsSameBeside};

use crate::cache::Cache;
use fst_device::BlockSlot;
use fst_types::{Fault, PatchNo};

impl<S: BlockSlot> Cache<S> {
    /// Has an open gate depend on the live patches that `on` names besides.
    ///
    /// Refused, in this order, as `NoPatch` where the gate was never made, `NotGate` where it is none or is forgotten,
    /// `Sealed`, `BadField` where more than 64 patches are named, `NoPatch` where one was never made, `Cycle` where one
    /// is the gate or depends on it, or `Memory`, for what the gate depends on. A refusal changes nothing.
    pub fn depend(&mut self, gate: PatchNo, on: &[PatchNo]) -> Result<(), Fault>
        ensures step { MatchResult result
            (λ u. Step self.old.state (Depend gate.0 (numbers_of on.now)) Accepted self.new.state)
            (λ fault. Step self.old.state (Depend gate.0 (numbers_of on.now)) (Refused fault) self.new.state) }
        ensures beside { IsSameBeside self.old self.new }
        ensures refused { OnErr result (self.new ≡ self.old) }
    {
        self.graph.depend(gate, on)
    }

    /// Seals an open gate: it is on disk as soon as all that it depends on is. It takes no memory.
    ///
    /// Refused, in this order, as `NoPatch` where the gate was never made, `NotGate` where it is none or is forgotten,
    /// or `Sealed`. A refusal changes nothing.
    pub fn seal(&mut self, gate: PatchNo) -> Result<(), Fault>
        ensures step { MatchResult result
            (λ u. Step self.old.state (Seal gate.0) Accepted self.new.state)
            (λ fault. Step self.old.state (Seal gate.0) (Refused fault) self.new.state) }
        ensures beside { IsSameBeside self.old self.new }
        ensures refused { OnErr result (self.new ≡ self.old) }
    {
        self.graph.seal(gate)
    }

    /// Forgets the patches that are on disk, and answers how many they were. Their numbers stay used, and count as on
    /// disk. It takes no memory.
    pub fn forget(&mut self) -> u32
        ensures step { Step self.old.state Forget (Forgot result) self.new.state }
        ensures beside { IsSameBeside self.old self.new }
    {
        let dropped = self.graph.forget();
        self.contents = self.contents.of_heads(&self.graph);
        dropped
    }
}
