//! A place in a chain, and what is read, changed and taken out there.
//!
//! A cursor keeps the place as a number, for contracts, and as the node's place, so that no call walks.
ghost use Rattle.std.specs.Prelude.{◌≡◌, ◌+◌, ◌<◌, ◌≤◌, ◌++◌, length, IsSome, IfSome, ◌↔◌, min, ◌-◌, take, drop, nat_eq, if◌then◌else◌};
ghost use Rattle.std.specs.Borrow.{sem};
ghost use Rattle.fst_chain.specs.Records.{without, item_at, payload_at, set_payload, chain_list};
ghost use Rattle.fst_chain.specs.Linked.{nth};

use crate::chain::Chain;
use crate::heap::Place;
use std::alloc::{Allocator, Global};

/// A place from 0 to the chain's length. At the length there is no current node.
///
/// No call of a cursor takes memory or walks. Once the cursor is gone, the chain is what `cursor_list` was.
#[derive(Drop)]
pub struct Cursor<'a, T, A: Allocator = Global> {
    chain: &'a mut Chain<T, A>,
    at: Option<Place>,
    index: usize,
    ghost stands: { (at ≡ nth chain.now.0 index) × (index ≤ length chain.now.1) × (length chain.now.0 ≡ length chain.now.1) },
}

impl<T, A: Allocator> Chain<T, A> {
    ghost use Rattle.fst_chain.specs.Cursors.{cursor_list, cursor_place, cursor_lender};

    /// A cursor on the first node, or at 0 where there is none.
    pub fn cursor_front(&mut self) -> Cursor<'_, T, A>
        ensures same_reference { cursor_lender result ≡ self.entry.ghost_name }
        ensures list { cursor_list result ≡ chain_list self.old }
        ensures place { cursor_place result ≡ 0 }
    {
        Cursor {
            at: self.head(),
            index: 0,
            chain: self,
        }
    }

    /// A cursor on the last node, or at 0 where there is none.
    pub fn cursor_back(&mut self) -> Cursor<'_, T, A>
        ensures same_reference { cursor_lender result ≡ self.entry.ghost_name }
        ensures list { cursor_list result ≡ chain_list self.old }
        ensures place { cursor_place result ≡ length (chain_list self.old) - 1 }
    {
        Cursor {
            at: self.tail(),
            index: self.len().saturating_sub(1),
            chain: self,
        }
    }
}

impl<T, A: Allocator> Cursor<'_, T, A> {
    ghost use Rattle.fst_chain.specs.Cursors.{cursor_list, cursor_place, cursor_lender};
    ghost use Rattle.fst_chain.specs.CursorLends.{lends_current};

    /// The current record.
    pub fn current(&self) -> Option<&T>
        ensures variant { IsSome result ↔ (cursor_place self.now < length (cursor_list self.now)) }
        ensures value { IfSome result (λ x. x.now ≡ item_at (cursor_list self.now) (cursor_place self.now) x.now) }
    {
        match self.at {
            None => None,
            Some(at) => Some(&self.chain.node(at, self.index).item),
        }
    }

    /// The current record, to be changed. Its payload and all else stay.
    pub fn current_mut(&mut self) -> Option<&mut T>
        ensures* writes_back { sem 𝓛 (lends_current T.row A.row A.Allocator self.entry result) }
        ensures variant { IsSome result ↔ (cursor_place self.old < length (cursor_list self.old)) }
        ensures value { IfSome result (λ x. x.now ≡ item_at (cursor_list self.old) (cursor_place self.old) x.now) }
    {
        match self.at {
            None => None,
            Some(at) => {
                let index = self.index;
                let chain = &mut *self.chain;
                Some(chain.item_mut(at, index))
            }
        }
    }

    /// Goes to the node after the current one, and at the length stays.
    pub fn next(&mut self)
        ensures same_reference { cursor_lender self.new ≡ cursor_lender self.old }
        ensures list { cursor_list self.new ≡ cursor_list self.old }
        ensures place { cursor_place self.new ≡ min (cursor_place self.old + 1) (length (cursor_list self.old)) }
    {
        if let Some(at) = self.at {
            self.at = self.chain.node(at, self.index).next;
            self.index += 1;
        }
    }

    /// The current node's payload.
    pub fn payload(&self) -> Option<&[u8]>
        ensures variant { IsSome result ↔ (cursor_place self.now < length (cursor_list self.now)) }
        ensures value { IfSome result (λ p. p.now ≡ payload_at (cursor_list self.now) (cursor_place self.now)) }
    {
        match self.at {
            None => None,
            Some(at) => Some(&self.chain.node(at, self.index).payload),
        }
    }

    /// Goes to the node before the current one, and from 0 to the length.
    pub fn prev(&mut self)
        ensures same_reference { cursor_lender self.new ≡ cursor_lender self.old }
        ensures list { cursor_list self.new ≡ cursor_list self.old }
        ensures place { cursor_place self.new ≡ (if nat_eq (cursor_place self.old) 0 then length (cursor_list self.old) else cursor_place self.old - 1) }
    {
        if self.index == 0 {
            self.at = None;
            self.index = self.chain.len();
            return;
        }
        self.at = self.chain.prev(self.at, self.index);
        self.index -= 1;
    }

    /// Exchanges the current payload and as many bytes of the block, from `at` on. Nothing else changes.
    ///
    /// Each byte changes places with its partner where it lies: no copy of the payload is made.
    pub fn swap_payload(&mut self, block: &mut [u8], at: usize)
        requires current { cursor_place self.old < length (cursor_list self.old) }
        requires fits { at + length (payload_at (cursor_list self.old) (cursor_place self.old)) ≤ length block.old }
        ensures same_reference { cursor_lender self.new ≡ cursor_lender self.old }
        ensures place { cursor_place self.new ≡ cursor_place self.old }
        ensures list { cursor_list self.new ≡ set_payload (cursor_list self.old) (cursor_place self.old) (take (length (payload_at (cursor_list self.old) (cursor_place self.old))) (drop at block.old)) }
        ensures block { block.new ≡ take at block.old ++ payload_at (cursor_list self.old) (cursor_place self.old) ++ drop (at + length (payload_at (cursor_list self.old) (cursor_place self.old))) block.old }
    {
        if let Some(place) = self.at {
            let len = self.chain.node(place, self.index).payload.len();
            let range = &mut block[at..at + len];
            self.chain.swap(place, self.index, range);
        }
    }
}

impl<T, A: Allocator> Cursor<'_, T, A> {
    ghost use Rattle.fst_chain.specs.Cursors.{cursor_list, cursor_place, cursor_lender};

    /// Takes the current node out, frees its block and stands on the node after it.
    pub fn remove(&mut self) -> Option<T>
        ensures same_reference { cursor_lender self.new ≡ cursor_lender self.old }
        ensures list { cursor_list self.new ≡ without (cursor_list self.old) (cursor_place self.old) }
        ensures place { cursor_place self.new ≡ cursor_place self.old }
        ensures variant { IsSome result ↔ (cursor_place self.old < length (cursor_list self.old)) }
        ensures value { IfSome result (λ x. x ≡ item_at (cursor_list self.old) (cursor_place self.old) x) }
    {
        match self.at {
            None => None,
            Some(at) => {
                let (item, next) = self.chain.unlink(at, self.index);
                self.at = next;
                Some(item)
            }
        }
    }
}
