//! Counts, as callers see them.

/// How many patches were made, how many of them are not on disk, how many bytes the soft ones in memory have, and how
/// many blocks are in flight.
#[derive(Clone, Copy, PartialEq, Eq, Debug)]
pub struct Stat {
    pub made: u64,
    pub live: u32,
    pub undo: u64,
    pub flights: u32,
}
