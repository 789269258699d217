//! What the gates of the twin gain, and sealing them.

use crate::graph::twin::{Kind, Twin, gain};
use fst_types::{Fault, PatchNo};
use std::process::Abort;

impl Twin {
    // Why this is no open gate.
    fn gate_fault(&self, gate: PatchNo) -> Option<Fault> {
        if !self.is_given(gate) {
            return Some(Fault::NoPatch);
        }
        let Some(patch) = self.head(gate) else {
            return Some(Fault::NotGate);
        };
        match patch.kind {
            Kind::OpenGate => None,
            Kind::SealedGate => Some(Fault::Sealed),
            _ => Some(Fault::NotGate),
        }
    }

    // Whether one of these is the gate, or depends on it.
    fn closes_cycle(&self, rt: &impl Abort, gate: PatchNo, names: &[PatchNo]) -> bool {
        for name in names {
            if *name == gate || self.under(rt, *name).contains(&gate) {
                return true;
            }
        }
        false
    }

    // Why the gate cannot gain these.
    fn depend_fault(&self, rt: &impl Abort, gate: PatchNo, names: &[PatchNo]) -> Option<Fault> {
        if let Some(fault) = self.gate_fault(gate) {
            return Some(fault);
        }
        if let Some(fault) = self.names_fault(names) {
            return Some(fault);
        }
        if self.closes_cycle(rt, gate, names) {
            return Some(Fault::Cycle);
        }
        None
    }

    /// An open gate gains what is named and live, or is refused.
    pub fn try_depend(
        &mut self,
        rt: &impl Abort,
        gate: PatchNo,
        names: &[PatchNo],
    ) -> Result<(), Fault> {
        if self.is_group_gate(gate) {
            return Err(Fault::NotGate);
        }
        if let Some(fault) = self.depend_fault(rt, gate, names) {
            return Err(fault);
        }
        self.depend(rt, gate, names);
        Ok(())
    }

    // An open gate gains what is named and live.
    pub(super) fn depend(&mut self, rt: &impl Abort, gate: PatchNo, names: &[PatchNo]) {
        let gained = self.live_named(rt, names);
        for patch in &mut self.patches {
            if patch.no == gate {
                gain(rt, &mut patch.dependencies, &gained);
            }
        }
    }

    /// Seals an open gate, or is refused.
    pub fn try_seal(&mut self, gate: PatchNo) -> Result<(), Fault> {
        if self.is_group_gate(gate) {
            return Err(Fault::NotGate);
        }
        if let Some(fault) = self.gate_fault(gate) {
            return Err(fault);
        }
        self.seal(gate);
        Ok(())
    }

    // Seals an open gate.
    pub(super) fn seal(&mut self, gate: PatchNo) {
        self.set_kind(gate, Kind::SealedGate);
        self.cascade();
    }
}
