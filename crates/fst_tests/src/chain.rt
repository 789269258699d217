//! The worked rows of the chain, and what no clause says: that a node takes one allocation, and gives it back.

mod callers;
mod memory;
mod numbers;

use crate::list::push;
use crate::same::{same_bytes, same_count, same_record};
use callers::{Kind, Record, add, remove_first, set_second};
use fst_chain::Chain;
use numbers::{Go, Numbers};
use std::alloc::Global;
use std::process::Abort;

// The numbers 1, 2, 3.
fn three(rt: &impl Abort, alloc: Global) -> Numbers<Global> {
    let mut numbers = Numbers::new(alloc);
    for number in 1..4 {
        numbers.add(rt, number);
    }
    numbers
}

#[test]
fn back_then_prev_then_remove(rt: HostRuntime) {
    let mut numbers = three(&rt, rt.alloc());
    let rows = [
        (Go::Prev, Some(2)),
        (Go::Remove, Some(2)),
        (Go::Stay, Some(3)),
    ];
    numbers.from_back(&rt, &rows);
    numbers.count(&rt, 2);
    for expected in [Some(1), Some(3), None] {
        numbers.pop(&rt, expected);
    }
}

#[test]
fn past_the_front(rt: HostRuntime) {
    let rows = [(Go::Prev, None), (Go::Next, None), (Go::Prev, Some(3))];
    three(&rt, rt.alloc()).from_front(&rt, &rows);
}

#[test]
fn back_of_an_empty_chain(rt: HostRuntime) {
    let rows = [(Go::Remove, None), (Go::Change(1), None)];
    Numbers::new(rt.alloc()).from_back(&rt, &rows);
}

#[test]
fn popped_to_the_end(rt: HostRuntime) {
    let mut numbers = three(&rt, rt.alloc());
    for expected in [Some(1), Some(2), Some(3), None] {
        numbers.pop(&rt, expected);
    }
}

#[test]
fn current_changed(rt: HostRuntime) {
    let rows = [
        (Go::Change(9), Some(3)),
        (Go::Prev, Some(2)),
        (Go::Next, Some(9)),
    ];
    three(&rt, rt.alloc()).from_back(&rt, &rows);
}

// The odd numbers are taken out.
fn rows_of_odd(rt: &impl Abort, alloc: Global) -> Vec<(Go, Option<u32>)> {
    let mut rows = Vec::new(alloc);
    for i in 0..500u32 {
        let odd = Some(2 * i + 1);
        push(rt, &mut rows, (Go::Next, odd));
        push(rt, &mut rows, (Go::Remove, odd));
    }
    push(rt, &mut rows, (Go::Stay, None));
    rows
}

// The even numbers.
fn evens(rt: &impl Abort, alloc: Global) -> Vec<u32> {
    let mut evens = Vec::new(alloc);
    for i in 0..500u32 {
        push(rt, &mut evens, 2 * i);
    }
    evens
}

#[test]
fn every_second_removed(rt: HostRuntime) {
    let mut numbers = Numbers::new(rt.alloc());
    for number in 0..1000 {
        numbers.add(&rt, number);
    }
    numbers.from_front(&rt, &rows_of_odd(&rt, rt.alloc()));
    numbers.count(&rt, 500);
    let mut evens = evens(&rt, rt.alloc());
    numbers.has(&rt, &evens);
    evens.reverse();
    numbers.has_from_back(&rt, &evens);
}

#[test]
fn payload_and_block_change_places(rt: HostRuntime) {
    let mut numbers = Numbers::new(rt.alloc());
    numbers.add_with(&rt, 7, &[0x41, 0x42]);
    let mut block = [0, 1, 2, 3];
    numbers.swap(&rt, 0, &mut block, 1);
    same_bytes(&rt, &block, &[0, 0x41, 0x42, 3]);
    numbers.payload(&rt, 0, &[1, 2]);
    numbers.swap(&rt, 0, &mut block, 1);
    same_bytes(&rt, &block, &[0, 1, 2, 3]);
    numbers.payload(&rt, 0, &[0x41, 0x42]);
}

// So many bytes of one value.
fn filled(rt: &impl Abort, alloc: Global, byte: u8, size: usize) -> Vec<u8> {
    vec![in alloc; byte; size].expect(rt, "there is memory")
}

// How many bytes have this value.
fn count_of(bytes: &[u8], value: u8) -> usize {
    let mut count = 0usize;
    for byte in bytes {
        if *byte == value {
            count = count.saturating_add(1);
        }
    }
    count
}

// Three nines, so many sevens, and nines to the end.
fn has_sevens(rt: &impl Abort, block: &[u8], size: usize) {
    let sevens = block
        .get(3..size.saturating_add(3))
        .expect(rt, "so many bytes");
    same_count(rt, count_of(sevens, 7), size);
    same_count(rt, count_of(block, 9), block.len().saturating_sub(size));
}

// A payload of `size` bytes between two others changes places with a part of a block, and they stay.
fn payload_changes_places(rt: &impl Abort, alloc: Global, size: usize) {
    let mut numbers = Numbers::new(alloc);
    let sevens = filled(rt, alloc, 7, size);
    numbers.add_with(rt, 1, b"left");
    numbers.add_with(rt, 2, &sevens);
    numbers.add_with(rt, 3, b"right");
    numbers.payload(rt, 1, &sevens);
    let mut block = filled(rt, alloc, 9, 5000);
    numbers.swap(rt, 1, &mut block, 3);
    has_sevens(rt, &block, size);
    numbers.payload(rt, 1, &filled(rt, alloc, 9, size));
    numbers.payload(rt, 2, b"right");
}

#[test]
fn payloads_of_all_sizes(rt: HostRuntime) {
    for size in [0, 1, 4096] {
        payload_changes_places(&rt, rt.alloc(), size);
    }
}

// Three records of a few words.
fn records(rt: &impl Abort, alloc: Global, kind: Kind) -> Chain<Record> {
    let mut chain = Chain::new(alloc);
    for no in 1..4u32 {
        assert!(rt; chain.len() < 3 && add(&mut chain, Record { no, kind }, b"AB"));
    }
    chain
}

// The first record, which is soft.
fn pop(rt: &impl Abort, chain: &mut Chain<Record>, expected: u32) {
    let record = chain.pop_front().expect(rt, "a record");
    same_record(rt, Some(record.no), Some(expected));
    assert!(rt; matches!(record.kind, Kind::Soft));
}

// The first record is taken out, and of the other two the second is changed.
fn change_second(rt: &impl Abort, chain: &mut Chain<Record>, record: Record) {
    remove_first(chain);
    assert!(rt; chain.len() == 2);
    set_second(chain, record);
}

#[test]
fn known_after_the_cursor(rt: HostRuntime) {
    let kind = Kind::Soft;
    let mut chain = records(&rt, rt.alloc(), kind);
    change_second(&rt, &mut chain, Record { no: 9, kind });
    pop(&rt, &mut chain, 2);
    pop(&rt, &mut chain, 9);
}

fn is_sent<T: Send>(_: &T) -> bool {
    true
}

#[test]
fn crosses_threads(rt: HostRuntime) {
    assert!(rt; is_sent(&Chain::<u32>::new(rt.alloc())));
}
