//! Between which numbers some changes of a block lie, so that they are looked for there alone, and not among all that wait.

ghost use Rattle.std.specs.Prelude.{◌≡◌};
ghost use Rattle.fst_heads.specs.Stretches.{nowhere, widened};

/// The numbers from `from` up to and with `to`, which are none where `to` is less.
#[derive(Clone, Copy)]
pub struct Stretch {
    pub from: u32,
    pub to: u32,
}

impl Stretch {
    /// The stretch without a number, so that the first with which it is widened is both its ends.
    pub fn nowhere() -> Stretch
        ensures { result ≡ nowhere }
    {
        Stretch {
            from: u32::MAX,
            to: 0,
        }
    }

    /// As far as is needed for the number to lie in it too.
    pub fn widened(self, number: u32) -> Stretch
        ensures { result ≡ widened number self }
    {
        Stretch {
            from: number.min(self.from),
            to: number.max(self.to),
        }
    }
}
