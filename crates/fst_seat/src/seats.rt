//! The blocks of a device, each in its seat, and what is kept beside the seats: which blocks are in memory and which of
//! those are dirty, and how many are in flight.
//!
//! Callers read a seat, and change it by the calls of this type alone, so that what is kept beside the seats follows each
//! change of one.

mod residence;
mod writing;

ghost use Rattle.std.specs.Prelude.{◌≡◌, ◌<◌, ◌≤◌, [], Some, IfOk, IfErr, length, map, nat_lt, count_by, vec_len, vec_capacity, slice_get};
ghost use Rattle.fst_types.specs.declared.fault.Fault.{Fault};
ghost use Rattle.fst_types.specs.Order.{IsMisplaced};
ghost use Rattle.fst_seat.specs.Seats.{seats_of, count_flying, is_dirty_seat};

use crate::residents::Residents;
use crate::seat::Seat;
use fst_device::BlockSlot;
use fst_types::{BlockNo, Fault};
use std::alloc::Global;
use std::marker::Model;

/// All blocks.
#[derive(Drop)]
pub struct Seats<S: BlockSlot> {
    alloc: Global,
    seats: Vec<Seat<S>>,
    residents: Residents,
    flights: usize,
}

impl<S: BlockSlot> Model for Seats<S> {
    ghost use Rattle.fst_seat.specs.Seats.{SeatsView};
    ghost use Rattle.fst_seat.specs.Residing.{AreInStep};

    ghost Value = { SeatsView };

    ghost view = { λ a. record { most = a.residents.most; seats = a.seats.items } };

    ghost invariant = { λ a. AreInStep a.flights a.residents a.seats.items };
}

/// The seats of these slots.
fn seated<S: BlockSlot>(slots: Vec<S>, mut seats: Vec<Seat<S>>) -> Vec<Seat<S>>
    requires empty { seats.items ≡ [] }
    requires none { vec_len seats ≡ 0 }
    requires room { vec_len slots ≤ vec_capacity seats }
    ensures { result.items ≡ seats_of S.held S.index S.faults slots.items }
{
    for slot in slots {
        let block = slot.index();
        seats.push_reserved(Seat::new(block, slot));
    }
    seats
}

impl<S: BlockSlot> Seats<S> {
    /// A seat for each of these slots, none of which is read; of the blocks at most so many are in memory. All memory that the
    /// seats themselves take is taken here, and `alloc` is kept for the blocks.
    ///
    /// The slots come back where there is no memory.
    pub fn new(alloc: Global, most: u32, slots: Vec<S>) -> Result<Seats<S>, Vec<S>>
        requires { IsMisplaced (map S.index slots.items) → ⊥ }
        ensures seats { IfOk result (λ seats. seats ≡ record { most = most; seats = seats_of S.held S.index S.faults slots.items }) }
        ensures back { IfErr result (λ back. back.items ≡ slots.items) }
    {
        let Ok(residents) = Residents::new(alloc, most, slots.len()) else {
            return Err(slots);
        };
        let Ok(seats) = Vec::with_capacity(alloc, slots.len()) else {
            return Err(slots);
        };
        Ok(Seats {
            alloc,
            seats: seated(slots, seats),
            residents,
            flights: 0,
        })
    }

    /// How many blocks there are.
    pub fn len(&self) -> usize
        ensures { result ≡ length self.now.seats }
    {
        self.seats.len()
    }

    /// The seats, in the order of their blocks.
    pub fn as_slice(&self) -> &[Seat<S>]
        ensures { result.now ≡ self.now.seats }
    {
        self.seats.as_slice()
    }

    /// The seat of the block.
    pub fn seat(&self, block: BlockNo) -> &Seat<S>
        requires { block.0 < length self.now.seats }
        ensures at { slice_get self.now.seats block.0 ≡ Some result.now }
        ensures place { result.now.place ≡ block.0 }
    {
        &self.seats[block.0 as usize]
    }

    /// How many blocks have a write that is out, stalled or lost.
    pub fn flights(&self) -> usize
        ensures { result ≡ count_flying self.now.seats }
    {
        self.flights
    }

    /// Whether fewer blocks are dirty than may be in memory.
    pub fn has_room(&self) -> bool
        ensures { result ≡ nat_lt (count_by is_dirty_seat self.now.seats) self.now.most }
    {
        self.residents.has_room()
    }
}
