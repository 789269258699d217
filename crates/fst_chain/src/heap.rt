//! Nodes in blocks of their own, reached by their places.
//!
//! It alone follows a pointer to a node. The nodes stand in a list that only contracts see, and a call names a node by its
//! place and by its number in that list. Of links it knows nothing.
ghost use Rattle.std.specs.Prelude.{◌≡◌, ℕ, ◌<◌, List, [], ◌∷◌, ◌++◌, length, slice_index_or};
ghost use Rattle.std.specs.Borrow.{sem};
ghost use denote.RawPtr.{Ptr};
ghost use Rattle.fst_chain.specs.Held.{nodes_own, nodes_lent, place_at, tail_at};
ghost use Rattle.fst_chain.specs.Records.{without};

use crate::room::Room;
use std::alloc::Allocator;
use std::marker::{Model, PhantomData, Send, Sync};

/// Where a node lies. It owns nothing, and only its heap reads there.
#[derive(Clone, Copy)]
pub struct Place {
    ptr: *const u8,
}

/// The owner of the nodes. It takes no space, and is no `Drop`, so a node that is left cannot be forgotten.
pub struct Heap<X, A: Allocator> {
    mark: PhantomData<*mut (X, A)>,
    ghost alloc: { A },
    ghost places: { List Ptr },
    ghost tails: { List (Ptr × ℕ) },
    ghost items: { List X },
}

impl<X, A: Allocator> Model for Heap<X, A> {
    ghost also_owns = { λ h. nodes_own (A.dealloc_token h.alloc) X.row h.places h.tails h.items };

    ghost also_shares = { λ h _ κ. nodes_lent X.row h.places h.items κ };
}

// A place may go to any thread, since it owns nothing.
unsafe impl Send for Place {}

unsafe impl Sync for Place {}

// A heap may go to another thread where its nodes and its allocator may. A `&` to it reaches no allocator.
unsafe impl<X: Send, A: Allocator + Send> Send for Heap<X, A> {}

unsafe impl<X: Sync, A: Allocator> Sync for Heap<X, A> {}

impl<X, A: Allocator> Heap<X, A> {
    ghost use Rattle.fst_chain.specs.HeapLends.{lends_node};

    /// A heap with no node, whose nodes will be this allocator's.
    pub fn new(alloc: &A) -> Heap<X, A>
        ensures alloc { result.alloc ≡ alloc.now }
        ensures places { result.places ≡ [] }
        ensures tails { result.tails ≡ [] }
        ensures items { result.items ≡ [] }
    {
        let mark = PhantomData;
        Heap { mark }
    }

    /// Lets go of the heap, which has no node left.
    pub fn close(self)
        requires { self.items ≡ [] }
    {
        let Heap { mark: _ } = self;
    }

    /// The i-th node, which lies at the place.
    pub fn at(&self, at: Place, i: usize) -> &X
        requires { (i < length self.now.items) × (i < length self.now.places) × (at.ptr ≡ place_at self.now.places i) }
        ensures { result.now ≡ slice_index_or self.now.items i result.now }
    {
        let node = at.ptr as *const X;
        unsafe { &*node }
    }

    /// The i-th node, which lies at the place, to be changed.
    pub fn at_mut(&mut self, at: Place, i: usize) -> &mut X
        requires { (i < length self.old.items) × (at.ptr ≡ place_at self.old.places i) }
        ensures* writes_back { sem 𝓛 (lends_node X.row A.row A.Allocator self.entry i result) }
        ensures value { result.now ≡ slice_index_or self.old.items i result.now }
    {
        let node = at.ptr as *mut X;
        unsafe { &mut *node }
    }
}

impl<X, A: Allocator> Heap<X, A> {
    /// Writes a node into its room, and adds it at the end of the list.
    pub fn put(&mut self, room: Room<X, A>, node: X) -> Place
        requires { room.alloc ≡ self.old.alloc }
        ensures alloc { self.new.alloc ≡ self.old.alloc }
        ensures places { self.new.places ≡ self.old.places ++ result.ptr ∷ [] }
        ensures tails { self.new.tails ≡ self.old.tails ++ (room.tail, room.len) ∷ [] }
        ensures items { self.new.items ≡ self.old.items ++ node ∷ [] }
    {
        let Room { ptr, mark: _ } = room;
        unsafe {
            (ptr as *mut X).write(node);
        }
        Place { ptr }
    }

    /// Takes the i-th node, which lies at the place, out of the list, and hands back its room.
    pub fn take(&mut self, at: Place, i: usize) -> (X, Room<X, A>)
        requires { (i < length self.old.items) × (at.ptr ≡ place_at self.old.places i) }
        ensures alloc { (self.new.alloc ≡ self.old.alloc) × (result.1.alloc ≡ self.old.alloc) }
        ensures value { result.0 ≡ slice_index_or self.old.items i result.0 }
        ensures tail { (result.1.tail, result.1.len) ≡ tail_at self.old.tails i }
        ensures places { self.new.places ≡ without self.old.places i }
        ensures tails { self.new.tails ≡ without self.old.tails i }
        ensures items { self.new.items ≡ without self.old.items i }
    {
        let ptr = at.ptr.cast_mut();
        let mark = PhantomData;
        unsafe {
            let node = (ptr as *mut X).read();
            (node, Room { ptr, mark })
        }
    }
}
