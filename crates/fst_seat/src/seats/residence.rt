//! Blocks come into memory and leave it: at most as many are there as the shape says, and those with a change that is not
//! on disk always. A block that comes into memory takes a free place, or that of one that has no such change.

ghost use Rattle.std.specs.Prelude.{◌≡◌, ◌⊎◌, ◌<◌, ◌≤◌, ◌+◌, true, false, All, None, Some, IfSome, IsErr, IsErrOf, OnOk, length, count_by, map, slice_get, slice_set};
ghost use Rattle.fst_types.specs.declared.fault.Fault.{Fault};
ghost use Rattle.fst_types.specs.Residence.{faults_rose, IsOneFaultMore};
ghost use Rattle.fst_seat.specs.Seats.{SeatView, is_dirty_seat};
ghost use Rattle.fst_seat.specs.Residing.{MakesPlace, Loads, MayLoad, Puts, IsLoadedAt, IsAwayAt};

use crate::seats::Seats;
use fst_device::BlockSlot;
use fst_types::{BlockNo, Fault, Grade, PatchNo, Span};

impl<S: BlockSlot> Seats<S> {
    /// Makes a place in memory for one more block, where some are not dirty.
    fn make_place(&mut self)
        requires { count_by is_dirty_seat self.old.seats < self.old.most }
        ensures most { self.new.most ≡ self.old.most }
        ensures place { MakesPlace self.old.most self.old.seats self.new.seats }
    {
        if self.residents.has_place() {
            return;
        }
        let Some(block) = self.residents.clean() else {
            unreachable!()
        };
        self.seats[block].unload();
        self.residents.remove(block);
    }

    /// Reads a block from its slot, where it is not in memory. It takes a free place, or that of a clean block, which leaves.
    ///
    /// Refused as `Device` where the read failed, which raises the slot's count of faults by one, or as `Memory`, for the
    /// block's bytes. The block stays away then, and the clean one may have left.
    pub fn load(&mut self, block: BlockNo) -> Result<(), Fault>
        requires within { block.0 < length self.old.seats }
        requires room { (seat : SeatView) → slice_get self.old.seats block.0 ≡ Some seat → seat.loaded ≡ None → count_by is_dirty_seat self.old.seats < self.old.most }
        ensures most { self.new.most ≡ self.old.most }
        ensures seats { MayLoad self.old.most self.old.seats block.0 self.new.seats }
        ensures there { OnOk result (IsLoadedAt self.new.seats block.0) }
        ensures loads { IsErr result → Loads self.old.most self.old.seats block.0 self.new.seats }
        ensures away { IsErr result → IsAwayAt self.new.seats block.0 }
        ensures device { IsErrOf result Fault.Device → faults_rose (map (λ seat. seat.faults) self.old.seats) (map (λ seat. seat.faults) self.new.seats) block.0 ≡ true }
        ensures one_fault { IsOneFaultMore (map (λ seat. seat.faults) self.old.seats) block.0 (map (λ seat. seat.faults) self.new.seats) }
        ensures no_fault { (IsErrOf result Fault.Device → ⊥) → map (λ seat. seat.faults) self.new.seats ≡ map (λ seat. seat.faults) self.old.seats }
        ensures kinds { IsErr result → IsErrOf result Fault.Device ⊎ IsErrOf result Fault.Memory }
    {
        let at = block.0 as usize;
        if self.seats[at].is_loaded() {
            return Ok(());
        }
        self.make_place();
        let read = self.seats[at].load(self.alloc);
        self.residents.note(at, read.is_ok());
        read
    }

    /// Puts the bytes at the span of a block, as its newest patch. The block is read first where it is not in memory.
    ///
    /// Refused as a load is, or as `Memory`, for the patch's record and for the bytes that it covers where it is soft. The
    /// block may have come into memory then, without the patch.
    pub fn put(
        &mut self,
        block: BlockNo,
        no: PatchNo,
        span: Span,
        bytes: &[u8],
        grade: Grade,
    ) -> Result<(), Fault>
        requires within { block.0 < length self.old.seats }
        requires room { (seat : SeatView) → slice_get self.old.seats block.0 ≡ Some seat → seat.loaded ≡ None → count_by is_dirty_seat self.old.seats < self.old.most }
        requires inside { (seat : SeatView) → slice_get self.old.seats block.0 ≡ Some seat → span.at + span.len ≤ length seat.block.committed }
        requires same_length { length bytes.now ≡ span.len }
        requires newest { (seat : SeatView) → slice_get self.old.seats block.0 ≡ Some seat → IfSome seat.loaded (λ l. All (λ p. p.number < no.0) l.patches) }
        ensures most { self.new.most ≡ self.old.most }
        ensures put { OnOk result (Puts self.old.most self.old.seats block.0 (record { number = no.0; span = span; grade = grade; bytes = bytes.now }) self.new.seats) }
        ensures refused { IsErr result → MayLoad self.old.most self.old.seats block.0 self.new.seats }
        ensures away { IsErrOf result Fault.Device → IsAwayAt self.new.seats block.0 }
        ensures device { IsErrOf result Fault.Device → faults_rose (map (λ seat. seat.faults) self.old.seats) (map (λ seat. seat.faults) self.new.seats) block.0 ≡ true }
        ensures one_fault { IsOneFaultMore (map (λ seat. seat.faults) self.old.seats) block.0 (map (λ seat. seat.faults) self.new.seats) }
        ensures no_fault { (IsErrOf result Fault.Device → ⊥) → map (λ seat. seat.faults) self.new.seats ≡ map (λ seat. seat.faults) self.old.seats }
        ensures kinds { IsErr result → IsErrOf result Fault.Device ⊎ IsErrOf result Fault.Memory }
    {
        self.load(block)?;
        let at = block.0 as usize;
        let seat = &mut self.seats[at];
        let put = seat.apply(no, span, bytes, grade);
        self.residents.note_dirty(at, seat.is_dirty());
        put
    }

    /// Gives up the bytes of a block that is not dirty. A block that is not in memory stays so. It takes no memory.
    pub fn evict(&mut self, block: BlockNo)
        requires within { block.0 < length self.old.seats }
        requires clean { (seat : SeatView) → slice_get self.old.seats block.0 ≡ Some seat → is_dirty_seat seat ≡ false }
        ensures { (seat : SeatView) → slice_get self.old.seats block.0 ≡ Some seat → self.new ≡ record self.old { seats = slice_set self.old.seats block.0 (record seat { loaded = None }) } }
    {
        let at = block.0 as usize;
        self.seats[at].unload();
        self.residents.remove(at);
    }
}
