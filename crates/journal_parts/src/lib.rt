//! The parts of the demo: what its program runs and its tests look at.
//!
//! The guides to one transaction and to groups, accounts with a journal, and slots of the demo's own: in memory on a device
//! that fails, and over a file. Accounts keep what they have in a cache over the slots that they are given, and touch
//! nothing else; `ledger` alone opens files, reads transfers and prints what came of them.
#![tactic(auto)]

mod accounts;
mod failing;
mod fault;
mod file_slot;
mod flaky_slot;
pub mod groups;
pub mod guide;
mod ledger;
mod record;

pub use accounts::{ACCOUNTS, Accounts, BLOCKS, new_block};
pub use failing::transfers;
pub use fault::StoreFault;
pub use file_slot::FileSlot;
pub use flaky_slot::FlakySlot;
pub use ledger::{keep, slots};
pub use record::{Balance, Record, SIZE, number_of};
