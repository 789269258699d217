//! A chain of numbers, each call of which is compared with the answer that the test names. The contracts here say
//! nothing, so that a test carries no facts from call to call.

use crate::same::{same_bytes, same_count, same_record};
use fst_chain::{Chain, Cursor};
use std::alloc::Allocator;
use std::marker::Model;
use std::process::Abort;

/// What a cursor is asked to do.
#[derive(Clone, Copy)]
pub enum Go {
    /// Looks, and stays.
    Stay,
    /// Goes on, and looks.
    Next,
    /// Goes back, and looks.
    Prev,
    /// Takes the current number out, and answers it.
    Remove,
    /// Puts this in the current number's place, and answers the old one.
    Change(u32),
}

/// A chain of numbers. A number that is added by itself has its own bytes as its payload.
#[derive(Drop)]
pub struct Numbers<A: Allocator> {
    chain: Chain<u32, A>,
}

impl<A: Allocator> Model for Numbers<A> {
    ghost Value = { Unit {0} };

    ghost view = { λ _. tt };
}

impl<A: Allocator> Numbers<A> {
    /// With no number.
    pub fn new(alloc: A) -> Numbers<A> {
        Numbers {
            chain: Chain::new(alloc),
        }
    }

    /// Adds a number with this payload.
    pub fn add_with(&mut self, rt: &impl Abort, number: u32, payload: &[u8]) {
        same_record(rt, push(&mut self.chain, number, payload), None);
    }

    /// Adds a number.
    pub fn add(&mut self, rt: &impl Abort, number: u32) {
        self.add_with(rt, number, &number.to_le_bytes());
    }

    /// There is no memory for a number, which comes back.
    pub fn refuse_with(&mut self, rt: &impl Abort, number: u32, payload: &[u8]) {
        same_record(rt, push(&mut self.chain, number, payload), Some(number));
    }

    /// There is no memory for a number, which comes back.
    pub fn refuse(&mut self, rt: &impl Abort, number: u32) {
        self.refuse_with(rt, number, &number.to_le_bytes());
    }

    /// Takes the first number out.
    pub fn pop(&mut self, rt: &impl Abort, expected: Option<u32>) {
        same_record(rt, self.chain.pop_front(), expected);
    }

    /// How many there are.
    pub fn count(&self, rt: &impl Abort, expected: usize) {
        same_count(rt, self.chain.len(), expected);
    }
}

impl<A: Allocator> Numbers<A> {
    /// Walks from the first number, and compares each answer.
    pub fn from_front(&mut self, rt: &impl Abort, rows: &[(Go, Option<u32>)]) {
        walk(rt, &mut self.chain.cursor_front(), rows);
    }

    /// Walks from the last number, and compares each answer.
    pub fn from_back(&mut self, rt: &impl Abort, rows: &[(Go, Option<u32>)]) {
        walk(rt, &mut self.chain.cursor_back(), rows);
    }

    /// These are the numbers, from the first to the last, each with its own payload.
    pub fn has(&mut self, rt: &impl Abort, numbers: &[u32]) {
        agree(rt, &mut self.chain.cursor_front(), Go::Next, numbers);
    }

    /// These are the numbers, from the last to the first, each with its own payload.
    pub fn has_from_back(&mut self, rt: &impl Abort, numbers: &[u32]) {
        agree(rt, &mut self.chain.cursor_back(), Go::Prev, numbers);
    }

    /// Takes out the number at this place.
    pub fn take(&mut self, rt: &impl Abort, place: usize, expected: Option<u32>) {
        let mut cursor = self.chain.cursor_front();
        forward(&mut cursor, place);
        same_record(rt, step(&mut cursor, Go::Remove), expected);
    }

    /// The payload of the number at this place.
    pub fn payload(&mut self, rt: &impl Abort, place: usize, expected: &[u8]) {
        let mut cursor = self.chain.cursor_front();
        forward(&mut cursor, place);
        has_payload(rt, &cursor, expected);
    }

    /// The payload of the number at this place and the bytes from `at` on change places.
    pub fn swap(&mut self, rt: &impl Abort, place: usize, bytes: &mut [u8], at: usize) {
        let mut cursor = self.chain.cursor_front();
        forward(&mut cursor, place);
        assert!(rt; swap(&mut cursor, bytes, at));
    }
}

// The number, where there was no memory for it.
fn push<A: Allocator>(chain: &mut Chain<u32, A>, number: u32, payload: &[u8]) -> Option<u32> {
    if chain.len() == usize::MAX {
        return Some(number);
    }
    match chain.push_back(number, payload) {
        Ok(()) => None,
        Err((number, _)) => Some(number),
    }
}

// Goes on so many times.
fn forward<A: Allocator>(cursor: &mut Cursor<'_, u32, A>, count: usize) {
    for _ in 0..count {
        cursor.next();
    }
}

// Puts the number in the current one's place, and answers the old one.
fn change<A: Allocator>(cursor: &mut Cursor<'_, u32, A>, number: u32) -> Option<u32> {
    match cursor.current_mut() {
        Some(current) => {
            let old = *current;
            *current = number;
            Some(old)
        }
        None => None,
    }
}

// What the cursor answers.
fn step<A: Allocator>(cursor: &mut Cursor<'_, u32, A>, go: Go) -> Option<u32> {
    match go {
        Go::Remove => return cursor.remove(),
        Go::Change(number) => return change(cursor, number),
        Go::Next => cursor.next(),
        Go::Prev => cursor.prev(),
        Go::Stay => {}
    }
    cursor.current().copied()
}

// The payload of the current number.
fn has_payload<A: Allocator>(rt: &impl Abort, cursor: &Cursor<'_, u32, A>, expected: &[u8]) {
    let payload = cursor.payload().expect(rt, "a number is there");
    same_bytes(rt, payload, expected);
}

// Compares each answer. Where there is no number there is no payload.
fn walk<A: Allocator>(
    rt: &impl Abort,
    cursor: &mut Cursor<'_, u32, A>,
    rows: &[(Go, Option<u32>)],
) {
    for (go, expected) in rows {
        same_record(rt, step(cursor, *go), *expected);
        assert!(rt; cursor.current().is_some() == cursor.payload().is_some());
    }
}

// Compares the numbers and their payloads on a way to the end.
fn agree<A: Allocator>(rt: &impl Abort, cursor: &mut Cursor<'_, u32, A>, go: Go, numbers: &[u32]) {
    for number in numbers {
        same_record(rt, cursor.current().copied(), Some(*number));
        has_payload(rt, cursor, &number.to_le_bytes());
        step(cursor, go);
    }
    same_record(rt, cursor.current().copied(), None);
}

// Whether the payload fits, and changed places with a part of the bytes.
fn swap<A: Allocator>(cursor: &mut Cursor<'_, u32, A>, bytes: &mut [u8], at: usize) -> bool {
    let Some(payload) = cursor.payload() else {
        return false;
    };
    let len = payload.len();
    if bytes.len() < len || bytes.len() - len < at {
        return false;
    }
    cursor.swap_payload(bytes, at);
    true
}
