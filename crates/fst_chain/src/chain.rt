//! A doubly linked list of records, each with a payload of bytes.
//!
//! It keeps that its nodes are linked both ways, from the first to the last: a fact about the list of the nodes and the
//! list of their places. It follows no pointer, and asks its heap for the node at a place.
ghost use Rattle.std.specs.Prelude.{◌≡◌, ℕ, ◌+◌, ◌^◌, ◌<◌, List, [], ◌∷◌, ◌++◌, length, drop, slice_index_or, is_ok, if◌then◌else◌, IfErr, OnErr, MatchOption, Some, None, ◌-◌, ◌≤◌};
ghost use Rattle.core.specs.Mem.{type_size};
ghost use Rattle.fst_chain.specs.Linked.{nth, before};
ghost use Rattle.fst_chain.specs.Chained.{record_of};
ghost use Rattle.fst_chain.specs.Records.{without, item_at, payload_at, set_payload, chain_list};
ghost use Rattle.std.specs.Borrow.{sem};

use crate::heap::{Heap, Place};
use crate::links::{mend_next, mend_prev};
use crate::node::{Node, release, room_for};
use std::alloc::{AllocError, Allocator, Global};
use std::marker::Model;

/// A list of records, each with a payload of bytes whose number stays. Clauses speak of it as `chain_list`.
///
/// A record takes one block of its allocator: two links and a `Vec`'s head beside the record, and the payload behind.
/// The allocator is kept. A block goes back to it where its record is taken out, or where the chain is dropped: that it
/// does so at most once is proved, and that it does so is tested.
pub struct Chain<T, A: Allocator = Global> {
    head: Option<Place>,
    tail: Option<Place>,
    len: usize,
    heap: Heap<Node<T>, A>,
    alloc: A,
}

impl<T, A: Allocator> Model for Chain<T, A> {
    ghost use Rattle.std.specs.Prelude.{◌≡◌, List, ℕ};
    ghost use denote.RawPtr.{Ptr};

    ghost Value = { List Ptr × List (T × List ℕ) };

    ghost use Rattle.fst_chain.specs.Chained.{records, IsChain, tails_of};

    ghost view = { λ a. (a.heap.places, records a.heap.items) };

    ghost invariant = { λ a. IsChain a.head a.tail a.len a.heap.places a.heap.items × (a.heap.alloc ≡ a.alloc) × (tails_of a.heap.items ≡ a.heap.tails) };
}

impl<T, A: Allocator> Chain<T, A> {
    /// A chain with no record. It takes no memory, and keeps the allocator.
    pub fn new(alloc: A) -> Chain<T, A>
        ensures { chain_list result ≡ [] }
    {
        Chain {
            head: None,
            tail: None,
            len: 0,
            heap: Heap::new(&alloc),
            alloc,
        }
    }

    /// The number of records. It takes no memory, and does not walk.
    pub fn len(&self) -> usize
        ensures { result ≡ length (chain_list self.now) }
    {
        self.len
    }
}

impl<T, A: Allocator> Chain<T, A> {
    /// Adds the record at the end, with a copy of the payload. It asks the allocator once, for the node's block.
    ///
    /// Where the allocator refuses, the record comes back and the chain is as it was. There is no other refusal: that a
    /// record is no larger than any memory, and that the chain can count one more, is the caller's to show.
    pub fn push_back(&mut self, item: T, payload: &[u8]) -> Result<(), (T, AllocError)>
        requires small { type_size T.row < 2 ^ 62 }
        requires countable { length (chain_list self.old) + 1 < 2 ^ 64 }
        ensures list { chain_list self.new ≡ (if is_ok result then chain_list self.old ++ (item, payload.now) ∷ [] else chain_list self.old) }
        ensures refused { IfErr result (λ e. e.0 ≡ item) }
        ensures unchanged { OnErr result (self.new ≡ self.old) }
    {
        match self.link(item, payload) {
            Ok(()) => Ok(()),
            Err(item) => Err((item, AllocError)),
        }
    }

    /// Takes the first record out, and frees its block. It takes no memory.
    pub fn pop_front(&mut self) -> Option<T>
        ensures rest { chain_list self.new ≡ drop 1 (chain_list self.old) }
        ensures first { MatchOption result (chain_list self.old ≡ []) (λ x. (payload : List ℕ) × (chain_list self.old ≡ (x, payload) ∷ chain_list self.new)) }
    {
        match self.head() {
            None => None,
            Some(at) => {
                let (item, _) = self.unlink(at, 0);
                Some(item)
            }
        }
    }
}

// Takes each node out, and so frees it. A body that left one in the heap could not let go of the heap.
impl<T: Drop, A: Allocator> Drop for Chain<T, A> {
    fn drop(mut self) {
        while self.len() > 0 {
            drop(self.pop_front());
        }
        self.close();
    }
}

// The calls of the cursor, which knows places.
impl<T, A: Allocator> Chain<T, A> {
    /// Where the first node lies.
    pub(crate) fn head(&self) -> Option<Place>
        ensures place { result ≡ nth self.now.0 0 }
        ensures same_length { length self.now.0 ≡ length self.now.1 }
    {
        self.head
    }

    /// Where the last node lies.
    pub(crate) fn tail(&self) -> Option<Place>
        ensures place { result ≡ nth self.now.0 (length self.now.1 - 1) }
        ensures same_length { length self.now.0 ≡ length self.now.1 }
    {
        self.tail
    }

    /// The node at the place.
    pub(crate) fn node(&self, at: Place, i: usize) -> &Node<T>
        requires { nth self.now.0 i ≡ Some at }
        ensures within { (i < length self.now.1) × (length self.now.0 ≡ length self.now.1) }
        ensures small { length self.now.1 < 2 ^ 64 }
        ensures record { record_of result.now ≡ slice_index_or self.now.1 i (record_of result.now) }
        ensures next { result.now.next ≡ nth self.now.0 (i + 1) }
        ensures prev { result.now.prev ≡ before None self.now.0 i }
    {
        let _len = self.len;
        self.heap.at(at, i)
    }

    /// Where the node before the i-th place lies.
    pub(crate) fn prev(&self, at: Option<Place>, i: usize) -> Option<Place>
        requires { (at ≡ nth self.now.0 i) × (0 < i) × (i ≤ length self.now.1) × (length self.now.0 ≡ length self.now.1) }
        ensures { result ≡ nth self.now.0 (i - 1) }
    {
        match at {
            Some(at) => self.node(at, i).prev,
            None => self.tail,
        }
    }

    /// Exchanges the bytes and the payload of the node at the place, byte by byte, each where it lies.
    pub(crate) fn swap(&mut self, at: Place, i: usize, bytes: &mut [u8])
        requires place { nth self.old.0 i ≡ Some at }
        requires fits { length (payload_at self.old.1 i) ≡ length bytes.old }
        ensures places { self.new.0 ≡ self.old.0 }
        ensures records { self.new.1 ≡ set_payload self.old.1 i bytes.old }
        ensures bytes { bytes.new ≡ payload_at self.old.1 i }
    {
        let node = self.heap.at_mut(at, i);
        node.payload.swap_with_slice(bytes);
    }

    // Lets go of a chain that has no node left.
    fn close(self)
        requires { self.1 ≡ [] }
    {
        let Chain {
            head: _,
            tail: _,
            len: _,
            heap,
            alloc: _,
        } = self;
        heap.close();
    }
}

impl<T, A: Allocator> Chain<T, A> {
    // Links a new node in at the end. The record comes back where there is no memory.
    fn link(&mut self, item: T, payload: &[u8]) -> Result<(), T>
        requires small { type_size T.row < 2 ^ 62 }
        requires countable { length self.old.1 + 1 < 2 ^ 64 }
        ensures records { self.new.1 ≡ (if is_ok result then self.old.1 ++ (item, payload.now) ∷ [] else self.old.1) }
        ensures refused { IfErr result (λ x. x ≡ item) }
        ensures unchanged { OnErr result (self.new ≡ self.old) }
    {
        let Some((room, payload)) = room_for(&self.alloc, payload) else {
            return Err(item);
        };
        let node = Node {
            next: None,
            prev: self.tail,
            item,
            payload,
        };
        let at = self.heap.put(room, node);
        match self.tail {
            None => self.head = Some(at),
            Some(last) => {
                let before = self.heap.at_mut(last, self.len - 1);
                before.next = Some(at);
            }
        }
        self.tail = Some(at);
        self.len += 1;
        Ok(())
    }

    /// Takes the node at the place out. Its record and the place after it come back.
    pub(crate) fn unlink(&mut self, at: Place, i: usize) -> (T, Option<Place>)
        requires { nth self.old.0 i ≡ Some at }
        ensures within { i < length self.old.1 }
        ensures places { self.new.0 ≡ without self.old.0 i }
        ensures records { self.new.1 ≡ without self.old.1 i }
        ensures item { result.0 ≡ item_at self.old.1 i result.0 }
        ensures next { result.1 ≡ nth self.old.0 (i + 1) }
    {
        let (node, room) = self.heap.take(at, i);
        let Node {
            next,
            prev,
            item,
            payload,
        } = node;
        release(&self.alloc, room, payload);
        mend_next(&mut self.heap, &mut self.head, prev, next, i);
        mend_prev(&mut self.heap, &mut self.tail, next, prev, i);
        self.len -= 1;
        (item, next)
    }
}

impl<T, A: Allocator> Chain<T, A> {
    ghost use Rattle.fst_chain.specs.ChainLends.{lends_item};

    /// The record of the node at the place.
    pub(crate) fn item_mut(&mut self, at: Place, i: usize) -> &mut T
        requires { nth self.old.0 i ≡ Some at }
        ensures* writes_back { sem 𝓛 (lends_item T.row A.row A.Allocator self.entry i result) }
        ensures value { result.now ≡ item_at self.old.1 i result.now }
    {
        let node = self.heap.at_mut(at, i);
        &mut node.item
    }
}
