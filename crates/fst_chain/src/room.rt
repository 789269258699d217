//! A block whose bytes are held as a `Vec` that lies there, and whose header's place is still or again empty.
//!
//! It holds a raw pointer, since the header's place and the bytes' are parts of one block.
ghost use Rattle.std.specs.Prelude.{◌≡◌, ℕ};
ghost use Rattle.std_alloc.specs.Vec.{vec_ptr, vec_capacity};
ghost use denote.RawPtr.{Ptr};
ghost use Rattle.fst_chain.specs.Blocks.{room_owns};

use crate::block::Block;
use std::alloc::Allocator;
use std::marker::{Model, PhantomData};
use std_alloc::vec::Lodged;

/// A block whose header's place is empty, and whose bytes lie at `tail`.
pub(crate) struct Room<X, A: Allocator> {
    pub(crate) ptr: *mut u8,
    pub(crate) mark: PhantomData<*mut (X, A)>,
    ghost alloc: { A },
    ghost tail: { Ptr },
    ghost len: { ℕ },
}

impl<X, A: Allocator> Model for Room<X, A> {
    ghost also_owns = { λ r. room_owns (A.dealloc_token r.alloc) X.row r.ptr r.tail r.len };
}

impl<X, A: Allocator> Room<X, A> {
    /// The block again, whose bytes are forgotten.
    pub(crate) fn close(self, bytes: Vec<u8, Lodged>, len: usize) -> Block<X, A>
        requires { (vec_ptr bytes ≡ self.tail) × (vec_capacity bytes ≡ self.len) × (len ≡ self.len) }
        ensures { (result.alloc ≡ self.alloc) × (result.len ≡ self.len) }
    {
        let Room { ptr, mark } = self;
        let _written = bytes.dislodge();
        Block { ptr, len, mark }
    }
}
