//! A crew: threads that change blocks through one desk under its lock, and workers that write the blocks without it.
//!
//! It is a plain user of the desk with as many threads as it bears: each file thread makes one chain of changes over all
//! blocks, so that blocks wait for one another, and each worker writes what it is given. `crew` ends where all is on
//! disk, or where a block is lost that something waits for.
#![tactic(auto)]

mod crews;
mod fault;
pub mod plan;

pub use crews::stacks::Stacks;
pub use crews::taking::without_stray;
pub use crews::{closed, crew, crew_on};
pub use fault::CrewFault;
