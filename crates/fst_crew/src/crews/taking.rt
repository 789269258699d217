//! What a thread of a crew takes in from the workers.

ghost use Rattle.std.specs.Prelude.{◌≡◌, IsSome, None, MatchResult};
ghost use Rattle.fst_types.specs.declared.fault.Fault.{Fault};

use fst_device::BlockSlot;
use fst_pairs::{Collected, Desk};
use fst_types::Fault;

/// A completion that belongs to no write that is out stops the thread that met it.
pub fn without_stray<S: BlockSlot>(collected: Collected<S>) -> Result<(), Fault>
    ensures { MatchResult result
        (λ u. collected.stray ≡ None)
        (λ fault. (fault ≡ Fault.Stranger) × IsSome collected.stray) }
{
    match collected.stray {
        Some(_) => Err(Fault::Stranger),
        None => Ok(()),
    }
}

/// Takes in what has come.
pub fn take_in<S: BlockSlot>(desk: &mut Desk<S>) -> Result<(), Fault> {
    without_stray(desk.collect())
}
