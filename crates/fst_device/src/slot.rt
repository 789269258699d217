//! The place of one block on a device.
//!
//! Contracts see the bytes that a slot holds and how many of its calls have failed. That count rises by one exactly
//! where a call fails, so a layer above cannot claim a failure that the device did not have, nor hide one.

ghost use Rattle.std.specs.Prelude.{◌≡◌, ℕ, ◌+◌, List, Bool, length, is_ok, ⊤, OnOk, OnErr, IsOkUnless, ◌⊎◌};

use fst_types::{BlockNo, Notes};

/// Which call of a slot failed.
#[derive(Clone, Copy, PartialEq, Eq, Debug)]
pub enum SlotFault {
    Read,
    Write,
}

/// The place of one block on a device. Its index and its size never change.
///
/// A slot of another crate names what it `held`, how many `faults` it met, its `index` and its `size`, and shows that
/// what it holds has that size. `read_gives` and `write_gives` may say more of a read and of a write, such as which one
/// fails; so a caller's contract can also tell one call from two, and from none.
pub trait BlockSlot: Drop {
    /// The bytes that the device holds.
    ghost held: { Self → List ℕ };

    /// How many calls have failed.
    ghost faults: { Self → ℕ };

    /// The number of the block.
    ghost index: { Self → ℕ };

    /// How many bytes the block has.
    ghost size: { Self → ℕ };

    /// What one read of the old slot may give, and what it costs: whether it worked, and the new slot.
    ghost read_gives: { Self → Bool → Self → Type 0 } = { λ _ _ _. ⊤ };

    /// What one write of these bytes to the old slot may give: whether it worked, and the new slot.
    ghost write_gives: { Self → List ℕ → Bool → Self → Type 0 } = { λ _ _ _ _. ⊤ };

    /// The number of the block.
    fn index(&self) -> BlockNo
        ensures { result.0 ≡ index self.now };

    /// How many bytes the block has.
    fn size(&self) -> u32
        ensures { result ≡ size self.now };

    /// Reads the whole block. After an Err, which is `Read`, the slice may hold anything.
    fn read(&mut self, into: &mut [u8]) -> Result<(), SlotFault>
        requires { length into.old ≡ size self.old }
        ensures same_index { index self.new ≡ index self.old }
        ensures same_size { size self.new ≡ size self.old }
        ensures same_bytes { held self.new ≡ held self.old }
        ensures filled { OnOk result (into.new ≡ held self.old) }
        ensures no_fault { OnOk result (faults self.new ≡ faults self.old) }
        ensures fault { OnErr result (faults self.new ≡ faults self.old + 1) }
        ensures kind { IsOkUnless result SlotFault.Read }
        ensures gives { read_gives self.old (is_ok result) self.new };

    /// Writes the whole block. After an Err, which is `Write`, the slot holds the old bytes or the new ones.
    fn write(&mut self, from: &[u8]) -> Result<(), SlotFault>
        requires { length from.now ≡ size self.old }
        ensures same_index { index self.new ≡ index self.old }
        ensures same_size { size self.new ≡ size self.old }
        ensures written { OnOk result (held self.new ≡ from.now) }
        ensures old_or_new { (held self.new ≡ held self.old) ⊎ (held self.new ≡ from.now) }
        ensures no_fault { OnOk result (faults self.new ≡ faults self.old) }
        ensures fault { OnErr result (faults self.new ≡ faults self.old + 1) }
        ensures kind { IsOkUnless result SlotFault.Write }
        ensures gives { write_gives self.old from.now (is_ok result) self.new };

    // What a slot holds has its size.
    ghost held_fills: { (slot : Self) → length (held slot) ≡ size slot };
}

/// Notes what a slot holds.
pub struct Held;

impl<S: BlockSlot> Notes<S> for Held {
    ghost noted = { S.held };
}
