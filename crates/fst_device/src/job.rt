//! A write that is to be made.
//!
//! A job owns the slot that it writes to, so nobody else writes there meanwhile. For contracts it carries what the slot
//! held when the job was first made: until the write is known to have worked, the slot holds that or the image.

ghost use Rattle.std.specs.Prelude.{◌≡◌, ◌+◌, length, is_ok, OnOk, OnErr, ◌⊎◌, vec_len};
ghost use Rattle.fst_device.specs.declared.arm.NextWrite.{NextWrite};
ghost use Rattle.fst_device.specs.Armed.{armed};

use crate::arm::Arm;
use crate::memory_slot::MemorySlot;
use crate::slot::{BlockSlot, Held, SlotFault};
use fst_types::{BlockNo, Noted, Ticket};
use std::marker::Model;

/// A write that is to be made: the image of a block, under a ticket, with the slot that it goes to.
#[derive(Drop)]
pub struct Job<S: BlockSlot> {
    ticket: Ticket,
    block: BlockNo,
    image: Vec<u8>,
    slot: S,
    before: Noted,
}

impl<S: BlockSlot> Model for Job<S> {
    ghost use Rattle.std.specs.Prelude.{◌≡◌, ◌⊎◌, vec_len};
    ghost use Rattle.fst_device.specs.JobView.{JobView};

    ghost Value = { JobView S };

    ghost view = { λ j. record { ticket = j.ticket.0; block = j.block.0; image = j.image.items; slot = j.slot; before = j.before.items } };

    ghost invariant = { λ j. (vec_len j.image ≡ S.size j.slot) × (S.index j.slot ≡ j.block.0) × ((S.held j.slot ≡ j.before.items) ⊎ (S.held j.slot ≡ j.image.items)) };
}

impl<S: BlockSlot> Job<S> {
    /// A first try to write the image to the slot. The image has the slot's size, and the slot is the block's. It takes
    /// no memory, and keeps the vector.
    pub fn new(ticket: Ticket, block: BlockNo, image: Vec<u8>, slot: S) -> Job<S>
        requires fits { vec_len image ≡ S.size slot }
        requires at_block { S.index slot ≡ block.0 }
        ensures { result ≡ record { ticket = ticket.0; block = block.0; image = image.items; slot = slot; before = S.held slot } }
    {
        let before = Noted::of::<S, Held>(&slot);
        Job {
            ticket,
            block,
            image,
            slot,
            before,
        }
    }

    /// The ticket of the flight.
    pub fn ticket(&self) -> Ticket
        ensures { result.0 ≡ self.now.ticket }
    {
        self.ticket
    }

    /// The block that is written.
    pub fn block(&self) -> BlockNo
        ensures { result.0 ≡ self.now.block }
    {
        self.block
    }

    /// The bytes that are to be written.
    pub fn image(&self) -> &[u8]
        ensures { result.now ≡ self.now.image }
    {
        &self.image
    }

    /// The slot that is written to. It is the block's, the image has its size, and it holds what it held before the
    /// first try or the image.
    pub fn slot(&self) -> &S
        ensures slot { result.now ≡ self.now.slot }
        ensures at_block { S.index self.now.slot ≡ self.now.block }
        ensures fits { length self.now.image ≡ S.size self.now.slot }
        ensures old_or_image { (S.held self.now.slot ≡ self.now.before) ⊎ (S.held self.now.slot ≡ self.now.image) }
    {
        &self.slot
    }

    // The one write.
    pub(crate) fn write(&mut self) -> Result<(), SlotFault>
        ensures others { self.new ≡ record self.old { slot = self.new.slot } }
        ensures written { OnOk result (S.held self.new.slot ≡ self.old.image) }
        ensures no_fault { OnOk result (S.faults self.new.slot ≡ S.faults self.old.slot) }
        ensures fault { OnErr result (S.faults self.new.slot ≡ S.faults self.old.slot + 1) }
        ensures old_or_image { (S.held self.new.slot ≡ self.old.before) ⊎ (S.held self.new.slot ≡ self.old.image) }
        ensures same_index { S.index self.new.slot ≡ S.index self.old.slot }
        ensures same_size { S.size self.new.slot ≡ S.size self.old.slot }
        ensures gives { S.write_gives self.old.slot self.old.image (is_ok result) self.new.slot }
    {
        self.slot.write(self.image.as_slice())
    }

    // The same job under another ticket.
    pub(crate) fn under(self, ticket: Ticket) -> Job<S>
        ensures { result ≡ record self { ticket = ticket.0 } }
    {
        let mut job = self;
        job.ticket = ticket;
        job
    }

    // The slot, which the job is done with.
    pub(crate) fn into_slot(self) -> S
        ensures slot { result ≡ self.slot }
        ensures at_block { S.index self.slot ≡ self.block }
        ensures fits { length self.image ≡ S.size self.slot }
        ensures old_or_image { (S.held self.slot ≡ self.before) ⊎ (S.held self.slot ≡ self.image) }
    {
        self.slot
    }
}

impl Job<MemorySlot> {
    /// Arms the slot that the job carries.
    pub fn arm(&mut self, arm: Arm)
        ensures { self.new ≡ record self.old { slot = armed arm self.old.slot } }
    {
        self.slot.arm(arm);
    }

    /// Makes the next write of the slot that the job carries work.
    pub fn disarm_write(&mut self)
        ensures { self.new ≡ record self.old { slot = record self.old.slot { next_write = NextWrite.Works } } }
    {
        self.slot.disarm_write();
    }
}
