//! What a chain takes from its allocator and gives back. No clause can say that a block goes back: a body may put a node
//! where nothing lets go of it. So a heap is asked what is in use.

use crate::chain::numbers::{Go, Numbers};
use crate::same::same_count;
use linked_list_allocator::LocalHeap;
use std::alloc::Global;
use std::process::Abort;

// A heap with so many bytes.
fn heap_of(rt: &impl Abort, alloc: Global, size: usize) -> LocalHeap {
    LocalHeap::new(alloc, size).expect(rt, "there is memory")
}

// How many bytes the heap has in use.
fn uses(rt: &impl Abort, heap: &LocalHeap, expected: usize) {
    same_count(rt, heap.used(), expected);
}

// How many bytes one node with this payload takes.
fn one_node(rt: &impl Abort, heap: &LocalHeap, payload: &[u8]) -> usize {
    let mut numbers = Numbers::new(heap);
    numbers.add_with(rt, 1, payload);
    heap.used()
}

// How many bytes one node with this payload takes, and gives back.
fn node_size(rt: &impl Abort, alloc: Global, payload: &[u8]) -> usize {
    let heap = heap_of(rt, alloc, 4096);
    let size = one_node(rt, &heap, payload);
    assert!(rt; 0 < size);
    uses(rt, &heap, 0);
    size
}

// The heap has room for one node of this size and for nothing else. So the first push, whose second allocation would be
// refused, has none, and the next push is refused at its first.
fn fill_with_one(rt: &impl Abort, heap: &LocalHeap, size: usize) {
    let mut numbers = Numbers::new(heap);
    numbers.add_with(rt, 1, b"AB");
    uses(rt, heap, size);
    same_count(rt, heap.free(), 0);
    numbers.refuse_with(rt, 2, b"");
    numbers.count(rt, 1);
    numbers.from_back(rt, &[(Go::Stay, Some(1))]);
    numbers.payload(rt, 0, b"AB");
}

#[test]
fn refused_at_the_first_allocation(rt: HostRuntime) {
    let size = node_size(&rt, rt.alloc(), b"AB");
    let heap = heap_of(&rt, rt.alloc(), size);
    fill_with_one(&rt, &heap, size);
    uses(&rt, &heap, 0);
}

// Records are taken out at both ends, in the middle and with the chain.
fn take_from_all_places(rt: &impl Abort, heap: &LocalHeap) {
    let mut numbers = Numbers::new(heap);
    numbers.add(rt, 0);
    let node = heap.used();
    for number in 1..8 {
        numbers.add(rt, number);
    }
    uses(rt, heap, node.saturating_mul(8));
    for (place, number, left) in [(3, 3, 7), (0, 0, 6), (5, 7, 5)] {
        numbers.take(rt, place, Some(number));
        uses(rt, heap, node.saturating_mul(left));
    }
    numbers.pop(rt, Some(1));
    uses(rt, heap, node.saturating_mul(4));
    numbers.has(rt, &[2, 4, 5, 6]);
}

#[test]
fn each_block_goes_back_once(rt: HostRuntime) {
    let heap = heap_of(&rt, rt.alloc(), 4096);
    take_from_all_places(&rt, &heap);
    uses(&rt, &heap, 0);
}

// Three numbers, of which one is taken out, then the first, and each time one is added.
fn take_and_add(rt: &impl Abort, heap: &LocalHeap, place: u32) {
    let mut numbers = Numbers::new(heap);
    for number in 0..3 {
        numbers.add(rt, number);
    }
    numbers.take(rt, place as usize, Some(place));
    numbers.add(rt, 3);
    numbers.pop(rt, Some(u32::from(place == 0)));
    numbers.add(rt, 4);
}

// The same numbers again and again in a heap with room for three: a block that did not go back would be missed.
#[test]
fn a_small_heap_is_never_used_up(rt: HostRuntime) {
    let node = node_size(&rt, rt.alloc(), b"ABCD");
    let heap = heap_of(&rt, rt.alloc(), node.saturating_mul(3));
    for round in 0..100u32 {
        take_and_add(&rt, &heap, round % 3);
        uses(&rt, &heap, 0);
    }
}

// A heap with room for so many nodes refuses the one allocation of the next push. The number comes back, the chain reads as
// before, and with room again the same push adds the same number.
fn fill(rt: &impl Abort, heap: &LocalHeap, numbers: &[u32], next: u32, after: &[u32]) {
    let mut chain = Numbers::new(heap);
    for number in numbers {
        chain.add(rt, *number);
    }
    for _ in 0..3 {
        chain.refuse(rt, next);
        chain.has(rt, numbers);
    }
    chain.pop(rt, Some(0));
    chain.add(rt, next);
    chain.has(rt, after);
}

#[test]
fn refused_in_turn_fst_chain(rt: HostRuntime) {
    let node = node_size(&rt, rt.alloc(), b"ABCD");
    let records = [0, 1, 2, 3, 4, 5];
    for room in 1..5usize {
        let heap = heap_of(&rt, rt.alloc(), node.saturating_mul(room));
        fill(
            &rt,
            &heap,
            &records[..room],
            records[room],
            &records[1..room + 1],
        );
        uses(&rt, &heap, 0);
    }
}
