//! A slot as a crate above the slots would have one of its own.

use fst_device::{BlockSlot, FaultCount, SlotFault};
use fst_types::BlockNo;

/// A slot that says no to every write.
#[derive(Drop)]
pub struct ReadOnly {
    pub byte: u8,
    pub faults: FaultCount,
}

impl BlockSlot for ReadOnly {
    ghost use Rattle.std.specs.Prelude.{[], ◌∷◌, refl};

    ghost held = { λ slot. slot.byte ∷ [] };

    ghost faults = { λ slot. slot.faults };

    ghost index = { λ _. 0 };

    ghost size = { λ _. 1 };

    ghost held_fills = { λ _. refl };

    fn index(&self) -> BlockNo {
        BlockNo(0)
    }

    fn size(&self) -> u32 {
        1
    }

    fn read(&mut self, into: &mut [u8]) -> Result<(), SlotFault> {
        into[0] = self.byte;
        Ok(())
    }

    fn write(&mut self, _from: &[u8]) -> Result<(), SlotFault> {
        self.faults.rise();
        Err(SlotFault::Write)
    }
}
