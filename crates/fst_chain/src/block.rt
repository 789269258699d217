//! A block for one node, with a header and bytes behind it. It is empty, and a `Room` is what it becomes in use.
//!
//! It holds a raw pointer, since it asks the allocator for the block and gives it back.
ghost use Rattle.std.specs.Prelude.{◌≡◌, ◌^◌, ◌<◌, [], IfSome};
ghost use Rattle.core.specs.Allocator.{HasLayout, owned_block};
ghost use Rattle.core.specs.Mem.{type_size};
ghost use Rattle.std_alloc.specs.Vec.{vec_len, vec_capacity, vec_ptr};
ghost use Rattle.fst_chain.specs.Blocks.{node_type};

use crate::room::Room;
use std::alloc::Allocator;
use std::marker::{Model, PhantomData};
use std_alloc::vec::{Lodged, lodge};

/// A block with nothing in it, for a header and `len` bytes.
pub(crate) struct Block<X, A: Allocator> {
    pub(crate) ptr: *mut u8,
    pub(crate) len: usize,
    pub(crate) mark: PhantomData<*mut (X, A)>,
    ghost alloc: { A },
}

impl<X, A: Allocator> Model for Block<X, A> {
    ghost also_owns = { λ b. owned_block (A.dealloc_token b.alloc) (node_type X.row b.len) b.ptr };
}

impl<X, A: Allocator> Block<X, A> {
    /// Asks the allocator for the block, once. `None` where it refuses.
    pub(crate) fn new(alloc: &A, len: usize, size: usize, align: usize) -> Option<Block<X, A>>
        requires { HasLayout (node_type X.row len) size align }
        ensures { IfSome result (λ b. (b.alloc ≡ alloc.now) × (b.len ≡ len)) }
    {
        match alloc.allocate(size, align) {
            Ok(ptr) => {
                let mark = PhantomData;
                Some(Block { ptr, len, mark })
            }
            Err(_) => None,
        }
    }

    /// Gives the block back.
    pub(crate) fn free(self, alloc: &A, size: usize, align: usize)
        requires { (self.alloc ≡ alloc.now) × HasLayout (node_type X.row self.len) size align }
    {
        let Block {
            ptr,
            len: _,
            mark: _,
        } = self;
        unsafe { alloc.deallocate(ptr, size, align) }
    }

    /// The two parts of the block. No byte is written yet.
    pub(crate) fn open(self, offset: usize) -> (Room<X, A>, Vec<u8, Lodged>)
        requires { (offset ≡ type_size X.row) × (self.len < 2 ^ 63) }
        ensures room { (result.0.alloc ≡ self.alloc) × (result.0.len ≡ self.len) }
        ensures tail { (vec_ptr result.1 ≡ result.0.tail) × (vec_capacity result.1 ≡ self.len) }
        ensures bytes { (result.1.items ≡ []) × (vec_len result.1 ≡ 0) }
    {
        let Block { ptr, len, mark } = self;
        unsafe {
            let bytes = lodge(ptr.add(offset), 0, len);
            (Room { ptr, mark }, bytes)
        }
    }
}
