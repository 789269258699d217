//! Calls over the cache that whoever keeps a journal wants: write until a patch is on disk, make a change for which there
//! is no room yet, and put one group after another.
//!
//! They belong to the demo, and are no part of the library: each is a few calls of the cache in a row, made here and now on
//! the caller's thread. They keep nothing between two calls, take no memory of their own and wait for nobody. They touch
//! only the cache and the share that they are given; `write_next`, and what stands on it, writes to the cache's slots.
#![tactic(auto)]

mod pair;
mod patching;
mod writing;

pub use pair::{Pair, two_groups};
pub use patching::patch_or_write;
pub use writing::{ALL_WRITES, Written, is_durable, write_next, write_until};
