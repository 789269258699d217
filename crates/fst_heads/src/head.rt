//! What is kept of a patch.

use crate::numbered::Numbered;
use crate::pending::{Pending, Sums};
use fst_types::{Grade, Place, Span};
use smallvec::SmallVec;

/// What a patch is. A change has its grade, its block and the bytes that it writes. Heads are many, and move where others
/// are forgotten, so that they are kept small: a shape has at most 4,096 blocks, which take 16 bits, and a grade and a block
/// before the bytes take no more than the place that lies there anyway.
#[derive(Clone, Copy)]
pub enum Kind {
    Change(Grade, u16, Span),
    Empty,
    OpenGate,
    SealedGate,
}

/// A patch, with what is pending of it as its dependants know it, the numbers that it directly depends on, the numbers of
/// the patches that directly depend on it, and how what it depends on adds up. The head of a patch that is forgotten stays
/// until heads are dropped, and is marked so. What is read of each change of a block to find what may be written, and of
/// each patch on a way down, stands first, and so lies together.
#[derive(Drop)]
pub struct Head {
    pub number: u32,
    pub kind: Kind,
    pub place: Place,
    pub forgotten: bool,
    pub pending: Pending,
    pub dependencies: SmallVec<u32, 4>,
    pub dependants: SmallVec<u32, 4>,
    pub sums: Sums,
}

impl Numbered for Head {
    ghost numbered = { λ h. h.number };

    fn number(&self) -> u32 {
        self.number
    }
}
