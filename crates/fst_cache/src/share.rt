//! One thread's count of the patches that it made.

ghost use Rattle.std.specs.Prelude.{◌≡◌, ◌+◌, ◌<◌};
ghost use Rattle.fst_types.specs.Limits.{max_share};

use std::marker::Model;

/// How many patches one thread made. It is not copied, so that each patch counts once.
#[derive(Drop)]
pub struct Share {
    made: u64,
}

impl Model for Share {
    ghost use Rattle.std.specs.Prelude.{ℕ};

    ghost Value = { ℕ };

    ghost view = { λ s. s.made };
}

impl Share {
    pub(crate) fn new() -> Share
        ensures { result ≡ 0 }
    {
        Share { made: 0 }
    }

    /// How many patches were made with this share.
    pub fn made(&self) -> u64
        ensures { result ≡ self.now }
    {
        self.made
    }

    /// One patch more was made.
    pub(crate) fn rise(&mut self)
        requires { self.old < max_share }
        ensures { self.new ≡ self.old + 1 }
    {
        self.made += 1;
    }
}
