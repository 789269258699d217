//! A slot whose block is in memory, and whose next read or write can be told to fail.

ghost use Rattle.std.specs.Prelude.{◌≡◌, ◌+◌, ◌<◌, ◌^◌, false, length, is_ok, OnOk, OnErr, not, IsOkUnless, ◌⊎◌, vec_len};
ghost use Rattle.fst_device.specs.declared.arm.NextWrite.{NextWrite};
ghost use Rattle.fst_device.specs.Armed.{armed};
ghost use Rattle.fst_device.specs.MemoryCalls.{works, after_read, after_write};

use crate::arm::{Arm, NextWrite};
use crate::fault_count::FaultCount;
use crate::slot::{BlockSlot, SlotFault};
use fst_types::BlockNo;
use std::marker::Model;

/// A slot whose block is in memory. It never fails, but where it was armed to.
#[derive(Drop)]
pub struct MemorySlot {
    index: BlockNo,
    bytes: Vec<u8>,
    read_fails: bool,
    next_write: NextWrite,
    faults: FaultCount,
}

impl Model for MemorySlot {
    ghost use Rattle.std.specs.Prelude.{◌<◌, ◌^◌, length};
    ghost use Rattle.fst_device.specs.MemoryView.{MemoryView};

    ghost Value = { MemoryView };

    ghost view = { λ s. record { index = s.index.0; bytes = s.bytes.items; faults = s.faults; read_fails = s.read_fails; next_write = s.next_write } };

    ghost invariant = { λ s. length s.bytes.items < 2 ^ 32 };
}

impl MemorySlot {
    /// A slot that holds these bytes and is not armed. They number less than 2^32. It takes no memory, and keeps the
    /// vector.
    pub fn new(index: BlockNo, bytes: Vec<u8>) -> MemorySlot
        requires { vec_len bytes < 2 ^ 32 }
        ensures { result ≡ record { index = index.0; bytes = bytes.items; faults = 0; read_fails = false; next_write = NextWrite.Works } }
    {
        MemorySlot {
            index,
            bytes,
            read_fails: false,
            next_write: NextWrite::Works,
            faults: FaultCount::new(),
        }
    }

    /// Makes the next read, or the next write, fail once. It takes no memory.
    pub fn arm(&mut self, arm: Arm)
        ensures { self.new ≡ armed arm self.old }
    {
        match arm {
            Arm::ReadFails => self.read_fails = true,
            Arm::WriteFailsBefore => self.next_write = NextWrite::FailsBefore,
            Arm::WriteFailsAfter => self.next_write = NextWrite::FailsAfter,
        }
    }

    /// Makes the next write work, however it was armed. An armed read stays armed. It takes no memory.
    pub fn disarm_write(&mut self)
        ensures { self.new ≡ record self.old { next_write = NextWrite.Works } }
    {
        self.next_write = NextWrite::Works;
    }

    /// The bytes that the slot holds.
    pub fn bytes(&self) -> &[u8]
        ensures { result.now ≡ self.now.bytes }
    {
        &self.bytes
    }
}

impl BlockSlot for MemorySlot {
    ghost use Rattle.std.specs.Prelude.{◌≡◌, ◌+◌, refl, length, true, false, not};
    ghost use Rattle.fst_device.specs.MemoryCalls.{works, after_read, after_write};

    ghost held = { λ slot. slot.bytes };

    ghost faults = { λ slot. slot.faults };

    ghost index = { λ slot. slot.index };

    ghost size = { λ slot. length slot.bytes };

    ghost read_gives = { λ old worked new. (worked ≡ not old.read_fails) × (new ≡ after_read old) };

    ghost write_gives = { λ old from worked new. (worked ≡ works old.next_write) × (new ≡ after_write old from) };

    ghost held_fills = { λ slot. refl };

    fn index(&self) -> BlockNo {
        self.index
    }

    fn size(&self) -> u32 {
        self.bytes.len() as u32
    }

    fn read(&mut self, into: &mut [u8]) -> Result<(), SlotFault>
        requires { length into.old ≡ length self.old.bytes }
        ensures same_index { self.new.index ≡ self.old.index }
        ensures same_size { length self.new.bytes ≡ length self.old.bytes }
        ensures same_bytes { self.new.bytes ≡ self.old.bytes }
        ensures filled { OnOk result (into.new ≡ self.old.bytes) }
        ensures no_fault { OnOk result (self.new.faults ≡ self.old.faults) }
        ensures fault { OnErr result (self.new.faults ≡ self.old.faults + 1) }
        ensures kind { IsOkUnless result SlotFault.Read }
        ensures armed { is_ok result ≡ not self.old.read_fails }
        ensures slot { self.new ≡ after_read self.old }
    {
        if self.read_fails {
            self.read_fails = false;
            self.faults.rise();
            return Err(SlotFault::Read);
        }
        into.copy_from_slice(self.bytes.as_slice());
        Ok(())
    }

    fn write(&mut self, from: &[u8]) -> Result<(), SlotFault>
        requires { length from.now ≡ length self.old.bytes }
        ensures same_index { self.new.index ≡ self.old.index }
        ensures same_size { length self.new.bytes ≡ length self.old.bytes }
        ensures written { OnOk result (self.new.bytes ≡ from.now) }
        ensures old_or_new { (self.new.bytes ≡ self.old.bytes) ⊎ (self.new.bytes ≡ from.now) }
        ensures no_fault { OnOk result (self.new.faults ≡ self.old.faults) }
        ensures fault { OnErr result (self.new.faults ≡ self.old.faults + 1) }
        ensures kind { IsOkUnless result SlotFault.Write }
        ensures armed { is_ok result ≡ works self.old.next_write }
        ensures slot { self.new ≡ after_write self.old from.now }
    {
        let next = self.next_write;
        self.disarm_write();
        if next != NextWrite::FailsBefore {
            self.bytes.copy_from_slice(from);
        }
        if next != NextWrite::Works {
            self.faults.rise();
            return Err(SlotFault::Write);
        }
        Ok(())
    }
}
