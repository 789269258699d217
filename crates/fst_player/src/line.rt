//! A line as far as it was kept.

ghost use Rattle.std.specs.Prelude.{[]};
ghost use Rattle.fst_player.specs.Lines.{Holds};

use std::alloc::Global;

/// The line so far: its bytes, or that it is too long, or that memory for it was refused.
#[derive(Drop)]
pub enum Line {
    Kept(Vec<u8>),
    Long,
    /// Memory was refused. It has so many bytes so far, and is not too long yet.
    Refused(usize),
}

impl Line {
    /// A line of no bytes yet, in the memory that this one has.
    pub fn clear(self, alloc: Global) -> Line
        ensures { Holds result [] }
    {
        match self {
            Line::Kept(mut bytes) => {
                bytes.clear();
                Line::Kept(bytes)
            }
            Line::Long | Line::Refused(_) => Line::Kept(Vec::new(alloc)),
        }
    }
}
