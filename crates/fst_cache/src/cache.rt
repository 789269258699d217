//! The cache: a graph of the patches, and a seat for each block.
//!
//! The graph has the patches' dependencies and says what may be written; a seat has a block's slot, bytes and flight.
//! The cache keeps neither bytes nor dependencies of its own: it asks both, and keeps them in step.
//!
//! All that every call needs and keeps is in the type's invariant: the state is lawful, a block in memory is as the state
//! says, a block with a change that is not on disk is in memory, no more blocks are in memory than may be, and the undo bytes
//! are as many as are counted.

mod change;
mod gates;
mod groups;
mod look;
mod making;
mod open;
mod residence;
mod write;

use crate::contents::Contents;
use fst_device::BlockSlot;
use fst_graph::Graph;
use fst_seat::seats::Seats;
use std::marker::Model;

/// A cache of the blocks of a device, whose patches wait for one another.
pub struct Cache<S: BlockSlot> {
    size: u32,
    tickets: u64,
    made: u64,
    undo: u64,
    graph: Graph,
    contents: Contents,
    seats: Seats<S>,
}

impl<S: BlockSlot> Model for Cache<S> {
    ghost use Rattle.fst_cache.specs.Views.{CacheView};

    ghost Value = { CacheView };

    ghost use Rattle.fst_cache.specs.Kept.{IsKept, view_of};

    ghost view = { view_of };

    ghost invariant = { IsKept };
}

// Written by hand, so that where a cache is dropped this one function is called: what is derived is a drop of each field
// of each part, at each way out of each function that holds a cache.
impl<S: BlockSlot> Drop for Cache<S> {
    fn drop(self) {
        let Cache {
            size: _,
            tickets: _,
            made: _,
            undo: _,
            graph: _,
            contents: _,
            seats: _,
        } = self;
    }
}
