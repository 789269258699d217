//! A block's bytes as they stand in memory, and its patches that are not launched.
//!
//! A soft patch keeps in the chain what its span held before it, so that an image without the patch can be made: in a
//! copy of the bytes, what is left out is put back, the newest first. No bytes of a base are kept.
#![tactic(auto)]

mod block;
mod change;
mod choice;
mod launched;
mod put;
mod reverts;

pub use block::Block;
