//! The blocks of a device: what is kept of each, and which of them are in memory.
//!
//! Each block has a *seat*. It has the block's slot where that is at home, the block's bytes and patches where they are in
//! memory (`fst_block`), what is committed of the block, noted for contracts alone, and its *flight* where a write of it
//! is out: the ticket, the patches in it, a copy of the image, and how many tries have failed.
//!
//! A slot at home holds what is committed, is the block's and has its size. It is away exactly while there is a flight: in
//! the job, or in the completion that came back of a write that failed and waits in the seat, so that the same slot is
//! sent out again with the same image. A completion of the write that is out brings the slot home, and the image is
//! committed; or it is kept, and from the third failed try on the block is lost. The seat's type keeps all of that, and what
//! anybody says of slots, jobs and completions is said here, so that no crate above names a slot.
//!
//! *Residence* says which blocks are in memory: at most as many as the shape says, and those with a change that is not on
//! disk always. A block that comes into memory takes a free place, or that of one without such a change, and its slot is
//! read once; a read that fails raises the slot's count of faults by one, and leaves the block away. Which blocks are in
//! memory is listed, the dirty ones first and the clean ones after them, so that a load finds the one that gives up its
//! place, or that there is none, without a look at any seat.
//!
//! All seats are one value (`seats`). Callers read a seat, and change it by the calls of that value alone, which keep the
//! list of the blocks in memory and the count of those in flight in step with the seats.
//!
//! Nothing here knows which patch depends on which, what may be written, a rule of the definitions' steps or a refusal
//! but those of the device and of memory: what keeps the seats in step with the graph is `fst_cache`.
#![tactic(auto)]

pub mod flight;
mod places;
mod reading;
mod residents;
pub mod seat;
pub mod seats;
