//! How a block stands: the mark that says whether it may be written, as counts that follow each change; before which
//! number none of its changes is held; and between which numbers lie those that are ready, and those in flight. One that is
//! held no more never is again, and a new one has the greatest number, so that the number only rises. All that is ready of a
//! block is launched together, so that a stretch has such a change at both ends until it has none.

ghost use Rattle.std.specs.Prelude.{◌≡◌, ◌<◌, true};
ghost use Rattle.fst_heads.specs.Heads.{kind_of};
ghost use Rattle.fst_heads.specs.Standings.{without_changes, may_be_written, readied, released, entered, sent, arrived};
ghost use Rattle.fst_heads.specs.Tests.{is_hard_kind};

use crate::choice::is_hard;
use crate::head::Kind;
use crate::stretch::Stretch;

/// How many changes of a block in memory have nothing pending but changes of the block in memory, how many hard ones in
/// memory have more, and how many changes are in flight. No hard one that has more has a number below `held_from`, and those
/// that have no more lie in `ready_in`, those in flight in `flying_in`.
#[derive(Clone, Copy)]
pub struct Standing {
    pub ready: usize,
    pub held: usize,
    pub flying: usize,
    pub held_from: u32,
    pub ready_in: Stretch,
    pub flying_in: Stretch,
}

impl Standing {
    /// As a block without changes stands.
    pub fn without_changes() -> Standing
        ensures { result ≡ without_changes }
    {
        Standing {
            ready: 0,
            held: 0,
            flying: 0,
            held_from: 0,
            ready_in: Stretch::nowhere(),
            flying_in: Stretch::nowhere(),
        }
    }

    /// The mark of the block: whether it may be written.
    pub fn may_be_written(&self) -> bool
        ensures { result ≡ may_be_written self.now }
    {
        self.ready > 0 && self.held == 0 && self.flying == 0
    }

    // One change more is ready, which has the number.
    fn add_ready(&mut self, number: u32)
        requires { self.old.ready < 18446744073709551615 }
        ensures { self.new ≡ readied number self.old }
    {
        self.ready += 1;
        self.ready_in = self.ready_in.widened(number);
    }

    /// A change in memory that waited for more now waits for changes of the block in memory alone.
    pub(crate) fn release(&mut self, kind: Kind, number: u32)
        requires ready { self.old.ready < 18446744073709551615 }
        requires held { is_hard_kind (kind_of kind) ≡ true → 0 < self.old.held }
        ensures { self.new ≡ released (is_hard_kind (kind_of kind)) number self.old }
    {
        self.add_ready(number);
        if is_hard(kind) {
            self.held -= 1;
        }
    }

    /// A new change of the block in memory, with the greatest number.
    pub(crate) fn enter(&mut self, kind: Kind, is_ready: bool, number: u32)
        requires ready { self.old.ready < 18446744073709551615 }
        requires held { self.old.held < 18446744073709551615 }
        ensures { self.new ≡ entered (is_hard_kind (kind_of kind)) is_ready number self.old }
    {
        if is_ready {
            self.add_ready(number);
        } else if is_hard(kind) {
            if self.held == 0 {
                self.held_from = number;
            }
            self.held += 1;
        }
    }

    /// The least hard change that waits for more has the number: from then on none before it is looked at.
    pub(crate) fn note_held(&mut self, number: u32)
        ensures { self.new ≡ record self.old { held_from = number } }
    {
        self.held_from = number;
    }

    /// What is ready is in flight.
    pub(crate) fn launch(&mut self)
        ensures { self.new ≡ sent self.old }
    {
        self.flying = self.ready;
        self.flying_in = self.ready_in;
        self.ready = 0;
        self.ready_in = Stretch::nowhere();
    }

    /// What was in flight is on disk.
    pub(crate) fn land(&mut self)
        ensures { self.new ≡ arrived self.old }
    {
        self.flying = 0;
        self.flying_in = Stretch::nowhere();
    }
}
