//! The links round a node that was taken out: its two neighbours, or an end of the chain, are told of one another.
//!
//! They stand apart from `Chain`, since its nodes are no chain while one neighbour still names the node that is gone.
ghost use Rattle.std.specs.Prelude.{◌≡◌, ◌<◌, ◌≤◌, ◌-◌, length, IfSome, MatchOption};
ghost use Rattle.fst_chain.specs.Held.{place_at};
ghost use Rattle.fst_chain.specs.Chained.{NextSet, PrevSet};

use crate::heap::{Heap, Place};
use crate::node::Node;
use std::alloc::Allocator;

/// After the i-th node was taken out: what came before it leads to `next`.
pub(crate) fn mend_next<T, A: Allocator>(
    heap: &mut Heap<Node<T>, A>,
    head: &mut Option<Place>,
    prev: Option<Place>,
    next: Option<Place>,
    i: usize,
)
    requires { IfSome prev (λ l. (0 < i) × (i ≤ length heap.old.items) × (l.ptr ≡ place_at heap.old.places (i - 1))) }
    ensures kept { (heap.new.alloc ≡ heap.old.alloc) × (heap.new.places ≡ heap.old.places) × (heap.new.tails ≡ heap.old.tails) }
    ensures items { MatchOption prev (heap.new.items ≡ heap.old.items) (λ _. NextSet heap.old.items heap.new.items (i - 1) next) }
    ensures head { MatchOption prev (head.new ≡ next) (λ _. head.new ≡ head.old) }
{
    match prev {
        None => *head = next,
        Some(before) => {
            let before = heap.at_mut(before, i - 1);
            before.next = next;
        }
    }
}

/// After the i-th node was taken out: what came after it leads back to `prev`.
pub(crate) fn mend_prev<T, A: Allocator>(
    heap: &mut Heap<Node<T>, A>,
    tail: &mut Option<Place>,
    next: Option<Place>,
    prev: Option<Place>,
    i: usize,
)
    requires { IfSome next (λ l. (i < length heap.old.items) × (l.ptr ≡ place_at heap.old.places i)) }
    ensures kept { (heap.new.alloc ≡ heap.old.alloc) × (heap.new.places ≡ heap.old.places) × (heap.new.tails ≡ heap.old.tails) }
    ensures items { MatchOption next (heap.new.items ≡ heap.old.items) (λ _. PrevSet heap.old.items heap.new.items i prev) }
    ensures tail { MatchOption next (tail.new ≡ prev) (λ _. tail.new ≡ tail.old) }
{
    match next {
        None => *tail = prev,
        Some(after) => {
            let after = heap.at_mut(after, i);
            after.prev = prev;
        }
    }
}
