//! How many calls of a slot have failed, as contracts see it.

ghost use Rattle.std.specs.Prelude.{◌≡◌, ◌+◌};

use fst_types::{Noted, Notes};
use std::marker::Model;

// Notes no number.
struct NoFault;

impl Notes<()> for NoFault {
    ghost use Rattle.std.specs.Prelude.{[]};

    ghost noted = { λ _. [] };
}

// Notes one number more.
struct OneFaultMore;

impl Notes<Noted> for OneFaultMore {
    ghost use Rattle.std.specs.Prelude.{◌∷◌};

    ghost noted = { λ n. 0 ∷ n.items };
}

/// A count of faults, for slots of one's own. Contracts see a number without a limit, where that of a `u64` would have
/// to be shown never to pass its end. It has no bytes and does nothing when it runs, so no code can read it.
#[derive(Drop)]
pub struct FaultCount {
    // One number for each call that failed: only how many they are is meant.
    faults: Noted,
}

impl Model for FaultCount {
    ghost use Rattle.std.specs.Prelude.{ℕ, length};

    ghost Value = { ℕ };

    ghost view = { λ c. length c.faults.items };
}

impl FaultCount {
    /// No call has failed. It takes no memory.
    pub fn new() -> FaultCount
        ensures { result ≡ 0 }
    {
        FaultCount {
            faults: Noted::of::<(), NoFault>(&()),
        }
    }

    /// One more call has failed. It takes no memory.
    pub fn rise(&mut self)
        ensures { self.new ≡ self.old + 1 }
    {
        self.faults = Noted::of::<Noted, OneFaultMore>(&self.faults);
    }
}
