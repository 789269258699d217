//! What a walk keeps beside the heads: a mark for each head, and the indices of what it has met, in the order in which it met
//! it. What is marked is what was met, so that each patch is looked at once, and a walk begins by taking back the marks of
//! what the one before it met, which takes no longer than that walk did.

ghost use Rattle.std.specs.Prelude.{◌≡◌, ◌↔◌, ◌≤◌, ◌<◌, ◌+◌, ◌++◌, ◌∷◌, [], ℕ, false, filter, length, Contains, IsTrue, OnOk, slice_index_or};
ghost use Rattle.fst_levels.specs.Walks.{AreMarked, Meets, passes_in};

use fst_heads::head::Head;
use fst_heads::test::{Test, passes};
use std::alloc::{AllocError, Global};
use std::marker::Model;

/// A walk over heads. It takes a byte and the room for an index for each head.
#[derive(Drop)]
pub struct Walk {
    marks: Vec<bool>,
    met: Vec<usize>,
    room: usize,
}

impl Model for Walk {
    ghost use Rattle.std.specs.Prelude.{vec_capacity};
    ghost use Rattle.fst_levels.specs.Walks.{Trail, IsSound};

    ghost Value = { Trail };

    ghost view = { λ w. record { marks = w.marks.items; met = w.met.items; room = w.room } };

    ghost invariant = { λ w. IsSound (record { marks = w.marks.items; met = w.met.items; room = w.room }) (vec_capacity w.marks) (vec_capacity w.met) };
}

// Takes back the marks of what was met.
fn unmark(marks: &mut [bool], met: &[usize])
    requires { AreMarked marks.old met.now }
    ensures long { length marks.new ≡ length marks.old }
    ensures clear { AreMarked marks.new [] }
{
    for index in met {
        marks[*index] = false;
    }
}

// Marks what was met.
fn mark(marks: &mut [bool], met: &[usize])
    requires clear { AreMarked marks.old [] }
    requires inside { (index : ℕ) → Contains met.now index → index < length marks.old }
    ensures long { length marks.new ≡ length marks.old }
    ensures marked { AreMarked marks.new met.now }
{
    for index in met {
        marks[*index] = true;
    }
}

// Whether the patch at the index passes.
fn passes_at(heads: &[Head], test: Test, index: usize) -> bool
    ensures { result ≡ passes_in test heads.now index }
{
    match heads.get(index) {
        Some(head) => passes(test, head),
        None => false,
    }
}

impl Walk {
    /// A walk over no head. It takes no memory.
    pub fn new(alloc: Global) -> Walk
        ensures { result ≡ record { marks = []; met = []; room = 0 } }
    {
        Walk {
            marks: Vec::new(alloc),
            met: Vec::new(alloc),
            room: 0,
        }
    }

    /// Nothing was met.
    pub fn clear(&mut self)
        ensures long { length self.new.marks ≡ length self.old.marks }
        ensures met { self.new.met ≡ [] }
        ensures room { self.new.room ≡ self.old.room }
    {
        unmark(&mut self.marks, &self.met);
        self.met.clear();
    }

    /// Room for so many heads more.
    pub fn reserve(&mut self, more: u32) -> Result<(), AllocError>
        ensures marks { self.new.marks ≡ self.old.marks }
        ensures met { self.new.met ≡ self.old.met }
        ensures room { OnOk result (length self.new.marks + more ≤ self.new.room) }
    {
        let room = self.marks.len() + more as usize;
        self.marks.reserve(more as usize)?;
        self.met.reserve(room - self.met.len())?;
        self.room = room;
        Ok(())
    }

    /// One head more, for which there is room.
    pub fn grow(&mut self)
        requires { length self.old.marks < self.old.room }
        ensures marks { self.new.marks ≡ self.old.marks ++ false ∷ [] }
        ensures met { self.new.met ≡ self.old.met }
        ensures room { self.new.room ≡ self.old.room }
    {
        self.marks.push_reserved(false);
    }

    /// Only so many heads are left. Nothing was met then.
    pub fn shrink(&mut self, heads: usize)
        requires { heads ≤ length self.old.marks }
        ensures { length self.new.marks ≡ heads }
    {
        self.clear();
        self.marks.truncate(heads);
    }

    /// How many were met.
    pub fn len(&self) -> usize
        ensures long { result ≡ length self.now.met }
        ensures few { result ≤ length self.now.marks }
    {
        self.met.len()
    }

    /// The index that was met there in turn.
    pub fn index_at(&self, at: usize) -> usize
        requires { at < length self.now.met }
        ensures index { result ≡ slice_index_or self.now.met at 0 }
        ensures inside { result < length self.now.marks }
    {
        self.met[at]
    }

    /// Whether the head at the index was met.
    pub fn has_met(&self, index: usize) -> bool
        requires { index < length self.now.marks }
        ensures met { IsTrue result ↔ Contains self.now.met index }
        ensures inside { (s : ℕ) → Contains self.now.met s → s < length self.now.marks }
    {
        self.marks[index]
    }

    /// Meets the head at the index, unless it was met before.
    pub fn meet(&mut self, index: usize)
        requires { index < length self.old.marks }
        ensures { Meets index self.old self.new }
    {
        if !self.marks[index] {
            self.marks[index] = true;
            self.met.push_reserved(index);
        }
    }

    /// Of what was met, those stay that pass the test.
    pub fn keep(&mut self, heads: &[Head], test: Test)
        ensures long { length self.new.marks ≡ length self.old.marks }
        ensures inside { (index : ℕ) → Contains self.old.met index → index < length self.old.marks }
        ensures kept { self.new.met ≡ filter (passes_in test heads.now) self.old.met }
    {
        unmark(&mut self.marks, &self.met);
        self.met.retain(|index| passes_at(heads, test, *index));
        mark(&mut self.marks, &self.met);
    }
}
