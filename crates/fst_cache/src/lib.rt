//! The buffer cache: blocks in memory, and the patches on their way to the disk.
//!
//! A patch is made in memory, goes out with a write of its block once all that it depends on is on disk or goes with
//! it, and is on disk when the write has landed. Each call is one step of the state that `fst_types` defines.
#![tactic(auto)]

mod cache;
mod contents;
mod share;
mod stat;

pub use cache::Cache;
pub use fst_seat::flight::Flight;
pub use share::Share;
pub use stat::Stat;
