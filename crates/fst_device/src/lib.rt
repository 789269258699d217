//! Slots of blocks, and the writes that go to them and come back.
//!
//! A [`Job`] takes a slot out of the cache with the image that is to be written, [`carry`] makes that one write, and the
//! [`Done`] brings the slot home. A write may fail, also after the bytes have changed: contracts see what the slot held
//! before and what it holds now. No call here takes memory, and jobs and completions cross threads where their slot does.
#![tactic(auto)]

mod arm;
mod done;
mod fault_count;
mod job;
mod memory_slot;
mod outcome;
mod slot;

pub use arm::Arm;
pub use done::{Done, carry};
pub use fault_count::FaultCount;
pub use job::Job;
pub use memory_slot::MemorySlot;
pub use outcome::Outcome;
pub use slot::{BlockSlot, Held, SlotFault};
