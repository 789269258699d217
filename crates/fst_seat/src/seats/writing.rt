//! A write goes out, comes back, and goes out again where it failed.

ghost use Rattle.std.specs.Prelude.{◌≡◌, ◌<◌, ◌≤◌, ◌↔◌, ◌+◌, Some, IfSome, IfOk, IfErr, IsTrue, IsSome, false, length, slice_get, slice_set};
ghost use Rattle.fst_types.specs.declared.fault.Fault.{Fault};
ghost use Rattle.fst_types.specs.Limits.{max_tries};
ghost use Rattle.fst_types.specs.State.{Flight};
ghost use Rattle.fst_block.specs.BlockView.{BlockView, fold_of};
ghost use Rattle.fst_block.specs.Choices.{IsChoice, chosen_of};
ghost use Rattle.fst_seat.specs.Seats.{SeatView, back_view, tries_of};
ghost use Rattle.fst_seat.specs.Writing.{MayGoOut, IsOutOf, MayGoAgain, sent, come_home, waits, tried_again};

use crate::seats::Seats;
use fst_device::{BlockSlot, Done, Job};
use fst_types::{BlockNo, Fault, PatchNo, Settled, Ticket};

impl<S: BlockSlot> Seats<S> {
    /// What a write of the chosen patches puts on the block. Nothing changes. Refused as `Memory`, for the image.
    pub fn image(&mut self, block: BlockNo, chosen: &[PatchNo]) -> Result<Vec<u8>, Fault>
        requires within { block.0 < length self.old.seats }
        requires loaded { (seat : SeatView) → slice_get self.old.seats block.0 ≡ Some seat → IsSome seat.loaded }
        requires choice { (seat : SeatView) → slice_get self.old.seats block.0 ≡ Some seat → IfSome seat.loaded (λ l. IsChoice l.patches chosen.now) }
        ensures image { (seat : SeatView) → slice_get self.old.seats block.0 ≡ Some seat → IfSome seat.loaded (λ l. IfOk result (λ image. image.items ≡ fold_of l.base (chosen_of chosen.now l.patches))) }
        ensures unchanged { self.new ≡ self.old }
        ensures only_memory { IfErr result (λ fault. fault ≡ Fault.Memory) }
    {
        let seat = &mut self.seats[block.0 as usize];
        seat.image(chosen)
    }

    /// Sends a write of the image out, of which `kept` is a copy. The job has the block's slot. It takes no memory.
    pub fn launch(
        &mut self,
        block: BlockNo,
        ticket: Ticket,
        chosen: Vec<PatchNo>,
        image: Vec<u8>,
        kept: Vec<u8>,
    ) -> Job<S>
        requires within { block.0 < length self.old.seats }
        requires ready { (seat : SeatView) → slice_get self.old.seats block.0 ≡ Some seat → MayGoOut seat chosen.items image.items }
        requires kept { kept.items ≡ image.items }
        ensures ticket { result.ticket ≡ ticket.0 }
        ensures block { result.block ≡ block.0 }
        ensures image { result.image ≡ image.items }
        ensures slot { (seat : SeatView) → slice_get self.old.seats block.0 ≡ Some seat → (result.before ≡ seat.block.committed) × (S.held result.slot ≡ seat.block.committed) × (S.faults result.slot ≡ seat.faults) }
        ensures sent { (seat : SeatView) (view : BlockView) → slice_get self.old.seats block.0 ≡ Some seat → seat.loaded ≡ Some view → self.new ≡ record self.old { seats = slice_set self.old.seats block.0 (sent seat view ticket.0 chosen.items image.items) } }
    {
        self.flights += 1;
        let seat = &mut self.seats[block.0 as usize];
        seat.launch(ticket, chosen, image, kept)
    }

    /// Takes in the completion of a write that is out. Where the write worked, the slot is at home and its image committed;
    /// where it failed, it is stalled, or the block is lost at the third try. It takes no memory.
    pub fn settle(&mut self, done: Done<S>) -> Settled
        requires within { done.block < length self.old.seats }
        requires out { (seat : SeatView) → slice_get self.old.seats done.block ≡ Some seat → IsOutOf seat done.ticket done.image }
        ensures written { (result ≡ Settled.Landed) ↔ IsTrue done.written }
        ensures landed { IsTrue done.written → (seat : SeatView) → slice_get self.old.seats done.block ≡ Some seat → self.new ≡ record self.old { seats = slice_set self.old.seats done.block (come_home seat done.image (S.faults done.slot)) } }
        ensures failed { done.written ≡ false → (seat : SeatView) → slice_get self.old.seats done.block ≡ Some seat → self.new ≡ record self.old { seats = slice_set self.old.seats done.block (waits seat done.ticket done.image (tries_of seat.block.flight) (Some (back_view done.before (S.held done.slot) (S.faults done.slot)))) } }
        ensures lost { done.written ≡ false → (seat : SeatView) → slice_get self.old.seats done.block ≡ Some seat → ((result ≡ Settled.Lost) ↔ (max_tries ≤ tries_of seat.block.flight + 1)) }
    {
        let at = done.block().0 as usize;
        let seat = &mut self.seats[at];
        match seat.settle(done) {
            Settled::Landed => {
                // The block stays dirty where changes of it are in memory.
                self.residents.note_dirty(at, seat.is_dirty());
                self.flights -= 1;
                Settled::Landed
            }
            failed => failed,
        }
    }

    /// Sends the image of a stalled write again, from the completion that came back. It takes no memory.
    pub fn retry(&mut self, block: BlockNo, ticket: Ticket) -> Job<S>
        requires within { block.0 < length self.old.seats }
        requires stalled { (seat : SeatView) → slice_get self.old.seats block.0 ≡ Some seat → MayGoAgain seat }
        ensures ticket { result.ticket ≡ ticket.0 }
        ensures block { result.block ≡ block.0 }
        ensures image { (seat : SeatView) (flight : Flight) → slice_get self.old.seats block.0 ≡ Some seat → seat.block.flight ≡ Some flight → (result.image ≡ flight.image) × (self.new ≡ record self.old { seats = slice_set self.old.seats block.0 (tried_again seat ticket.0 flight.image flight.failed) }) }
        ensures back { (seat : SeatView) → slice_get self.old.seats block.0 ≡ Some seat → seat.back ≡ Some (back_view result.before (S.held result.slot) (S.faults result.slot)) }
    {
        let seat = &mut self.seats[block.0 as usize];
        seat.retry(ticket)
    }
}
