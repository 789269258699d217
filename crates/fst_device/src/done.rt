//! A write that was tried.
//!
//! A completion brings the slot home, with the outcome. Where that is `Written` the slot holds the image. Where it is
//! `Failed`, it holds what it held before the first try, or the image, and the same write can be tried again.

ghost use Rattle.std.specs.Prelude.{◌≡◌, ◌+◌, false, length, IsTrue, ◌⊎◌};
ghost use Rattle.fst_device.specs.Outcomes.{is_written};

use crate::job::Job;
use crate::outcome::Outcome;
use crate::slot::BlockSlot;
use fst_types::{BlockNo, Ticket};
use std::marker::Model;

/// A write that was tried: the job, and what came of it.
#[derive(Drop)]
pub struct Done<S: BlockSlot> {
    job: Job<S>,
    outcome: Outcome,
}

impl<S: BlockSlot> Model for Done<S> {
    ghost use Rattle.std.specs.Prelude.{◌≡◌, IsTrue};
    ghost use Rattle.fst_device.specs.DoneView.{DoneView};
    ghost use Rattle.fst_device.specs.Outcomes.{is_written};

    ghost Value = { DoneView S };

    ghost view = { λ d. record { ticket = d.job.ticket; block = d.job.block; image = d.job.image; slot = d.job.slot; before = d.job.before; written = is_written d.outcome } };

    ghost invariant = { λ d. IsTrue (is_written d.outcome) → S.held d.job.slot ≡ d.job.image };
}

impl<S: BlockSlot> Done<S> {
    // What came of a job's write.
    pub(crate) fn new(job: Job<S>, outcome: Outcome) -> Done<S>
        requires { IsTrue (is_written outcome) → S.held job.slot ≡ job.image }
        ensures { result ≡ record { ticket = job.ticket; block = job.block; image = job.image; slot = job.slot; before = job.before; written = is_written outcome } }
    {
        Done { job, outcome }
    }

    /// The ticket of the flight.
    pub fn ticket(&self) -> Ticket
        ensures { result.0 ≡ self.now.ticket }
    {
        self.job.ticket()
    }

    /// The block whose write was tried.
    pub fn block(&self) -> BlockNo
        ensures { result.0 ≡ self.now.block }
    {
        self.job.block()
    }

    /// The bytes that were to be written.
    pub fn image(&self) -> &[u8]
        ensures { result.now ≡ self.now.image }
    {
        self.job.image()
    }

    /// The slot as it came back. It is the block's, the image has its size, and it holds the image where the write
    /// worked, else that or what it held before the first try.
    pub fn slot(&self) -> &S
        ensures slot { result.now ≡ self.now.slot }
        ensures at_block { S.index self.now.slot ≡ self.now.block }
        ensures fits { length self.now.image ≡ S.size self.now.slot }
        ensures written { IsTrue self.now.written → S.held self.now.slot ≡ self.now.image }
        ensures old_or_image { (S.held self.now.slot ≡ self.now.before) ⊎ (S.held self.now.slot ≡ self.now.image) }
    {
        self.job.slot()
    }

    /// What came of the write.
    pub fn outcome(&self) -> Outcome
        ensures { is_written result ≡ self.now.written }
    {
        self.outcome
    }

    /// The slot, of which the same is known as of `slot`. The image is freed.
    pub fn into_slot(self) -> S
        ensures slot { result ≡ self.slot }
        ensures at_block { S.index self.slot ≡ self.block }
        ensures fits { length self.image ≡ S.size self.slot }
        ensures written { IsTrue self.written → S.held self.slot ≡ self.image }
        ensures old_or_image { (S.held self.slot ≡ self.before) ⊎ (S.held self.slot ≡ self.image) }
    {
        self.job.into_slot()
    }

    /// The same write once more, under another ticket: the image and the slot as they came back. What the slot held
    /// before the first try is kept. It takes no memory.
    pub fn again(self, ticket: Ticket) -> Job<S>
        ensures { result ≡ record { ticket = ticket.0; block = self.block; image = self.image; slot = self.slot; before = self.before } }
    {
        self.job.under(ticket)
    }
}

/// Makes the one write of a job. It always returns, and takes no memory.
///
/// The outcome is `Failed` exactly where the slot's count of faults rose, and then it rose by one. Where it is `Written`
/// the slot holds the image, else that or what it held before the first try.
pub fn carry<S: BlockSlot>(job: Job<S>) -> Done<S>
    ensures ticket { result.ticket ≡ job.ticket }
    ensures block { result.block ≡ job.block }
    ensures image { result.image ≡ job.image }
    ensures before { result.before ≡ job.before }
    ensures same_index { S.index result.slot ≡ S.index job.slot }
    ensures same_size { S.size result.slot ≡ S.size job.slot }
    ensures no_fault { IsTrue result.written → S.faults result.slot ≡ S.faults job.slot }
    ensures fault { result.written ≡ false → S.faults result.slot ≡ S.faults job.slot + 1 }
    ensures written { IsTrue result.written → S.held result.slot ≡ job.image }
    ensures old_or_image { (S.held result.slot ≡ job.before) ⊎ (S.held result.slot ≡ job.image) }
    ensures one_write { S.write_gives job.slot job.image result.written result.slot }
{
    let mut job = job;
    let outcome = match job.write() {
        Ok(()) => Outcome::Written,
        Err(_) => Outcome::Failed,
    };
    Done::new(job, outcome)
}
