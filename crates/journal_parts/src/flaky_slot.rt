//! A slot in memory on a device that fails.

ghost use Rattle.std.specs.Prelude.{◌≡◌, ◌<◌, ◌^◌, vec_len};

use fst_device::{BlockSlot, FaultCount, SlotFault};
use fst_types::BlockNo;

/// A block in memory of which every other write fails: of those that do, every other before the bytes have changed.
#[derive(Drop)]
pub struct FlakySlot {
    index: BlockNo,
    bytes: Vec<u8>,
    tries: u8,
    faults: FaultCount,
    ghost small: { vec_len bytes < 2 ^ 32 },
}

impl FlakySlot {
    /// The slot of a block with these bytes. Its first write fails.
    pub fn new(index: BlockNo, bytes: Vec<u8>) -> FlakySlot
        requires { vec_len bytes < 2 ^ 32 }
        ensures index { ⟦<FlakySlot as BlockSlot>⟧.index result ≡ index.0 }
        ensures held { ⟦<FlakySlot as BlockSlot>⟧.held result ≡ bytes.items }
        ensures faults { ⟦<FlakySlot as BlockSlot>⟧.faults result ≡ 0 }
    {
        FlakySlot {
            index,
            bytes,
            tries: 0,
            faults: FaultCount::new(),
        }
    }
}

impl BlockSlot for FlakySlot {
    ghost use Rattle.std.specs.Prelude.{length, refl};

    ghost held = { λ slot. slot.bytes.items };

    ghost faults = { λ slot. slot.faults };

    ghost index = { λ slot. slot.index.0 };

    ghost size = { λ slot. length slot.bytes.items };

    ghost held_fills = { λ slot. refl };

    fn index(&self) -> BlockNo {
        self.index
    }

    fn size(&self) -> u32 {
        self.bytes.len() as u32
    }

    fn read(&mut self, into: &mut [u8]) -> Result<(), SlotFault> {
        into.copy_from_slice(&self.bytes);
        Ok(())
    }

    fn write(&mut self, from: &[u8]) -> Result<(), SlotFault> {
        let tries = self.tries;
        self.tries = tries.wrapping_add(1);
        if tries % 4 != 2 {
            self.bytes.copy_from_slice(from);
        }
        if tries % 2 == 0 {
            self.faults.rise();
            return Err(SlotFault::Write);
        }
        Ok(())
    }
}
