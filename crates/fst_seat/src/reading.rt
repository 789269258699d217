//! The one read of a slot.

ghost use Rattle.std.specs.Prelude.{◌≡◌, ◌⊎◌, ◌+◌, OnOk, IfOk, IsErr, IsErrOf, true, false};
ghost use Rattle.fst_types.specs.declared.fault.Fault.{Fault};

use fst_device::BlockSlot;
use fst_types::Fault;
use std::alloc::Global;

/// The bytes that a slot holds. It is read once, and not written; where there is no memory for the bytes it is not read.
pub(crate) fn read_whole<S: BlockSlot>(slot: &mut S, alloc: Global) -> Result<Vec<u8>, Fault>
    ensures bytes { IfOk result (λ bytes. bytes.items ≡ S.held slot.old) }
    ensures one_read { OnOk result (S.read_gives slot.old true slot.new) }
    ensures failed_read { IsErrOf result Fault.Device → S.read_gives slot.old false slot.new }
    ensures no_read { IsErrOf result Fault.Memory → slot.new ≡ slot.old }
    ensures same_index { S.index slot.new ≡ S.index slot.old }
    ensures same_bytes { S.held slot.new ≡ S.held slot.old }
    ensures same_size { S.size slot.new ≡ S.size slot.old }
    ensures no_fault { OnOk result (S.faults slot.new ≡ S.faults slot.old) }
    ensures fault { IsErrOf result Fault.Device → S.faults slot.new ≡ S.faults slot.old + 1 }
    ensures kinds { IsErr result → IsErrOf result Fault.Device ⊎ IsErrOf result Fault.Memory }
{
    let Ok(mut bytes) = vec![in alloc; 0u8; slot.size() as usize] else {
        return Err(Fault::Memory);
    };
    match slot.read(&mut bytes) {
        Ok(()) => Ok(bytes),
        Err(_) => Err(Fault::Device),
    }
}
