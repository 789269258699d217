//! New gates and empty patches.

ghost use Rattle.std.specs.Prelude.{◌≡◌, ◌≤◌, ◌<◌, ◌+◌, ◌++◌, ◌∷◌, [], List, length, IfOk, IfErr, OnErr, OnOk, Contains, vec_len, vec_capacity, if◌then◌else◌};
ghost use Rattle.fst_types.specs.Tests.{is_at};
ghost use Rattle.fst_types.specs.declared.place.Place.TheVariants as place_at;
ghost use Rattle.fst_types.specs.Dependencies.{IsLiveNumber};
ghost use Rattle.fst_types.specs.Lists.{Lists};
ghost use Rattle.fst_types.specs.Order.{room_order, make_order};
ghost use Rattle.fst_types.specs.Patches.{Empty, Patch};
ghost use Rattle.fst_types.specs.Refusals.{NoneHolds};
ghost use Rattle.fst_graph.specs.Fresh.{patch_from};
ghost use Rattle.fst_graph.specs.Known.{unprepared, rest_place, Refuses, AddsGate, AddsEmpty};
ghost use Rattle.fst_heads.specs.Heads.{patches_of};
ghost use Rattle.fst_heads.specs.Names.{numbers_of};

use crate::fresh::{Fresh, gate, reserve_landed};
use crate::prepared::let_go;
use crate::refusals::{make_fault, room_fault};
use crate::sparse::Sparse;
use fst_heads::head::Kind;
use fst_heads::heads::Heads;
use fst_heads::places::weight;
use fst_heads::row::live_named;
use fst_types::{Fault, PatchNo, Place};
use smallvec::SmallVec;
use std::alloc::Global;

// Where a new empty patch is: on disk where it depends on nothing live.
fn resting_place(row: &[u32]) -> Place
    ensures { result ≡ rest_place row.now }
{
    match row {
        [] => Place::Disk,
        _ => Place::Memory,
    }
}

// A new patch is among those that landed where it is on disk.
fn note_rest(landed: &mut Vec<u32>, number: u32, place: Place)
    requires { vec_len landed.old < vec_capacity landed.old }
    ensures noted { landed.new.items ≡ if is_at place place_at.Disk then landed.old.items ++ number ∷ [] else landed.old.items }
    ensures shelf { vec_capacity landed.new ≡ vec_capacity landed.old }
{
    match place {
        Place::Disk => landed.push_reserved(number),
        Place::Memory | Place::Flight => {}
    }
}

// A new empty patch, which depends on the named patches that are not on disk, where so many are not forgotten; and room for it
// among those that landed.
fn new_empty(
    alloc: Global,
    heads: &Heads,
    landed: &mut Vec<u32>,
    standing: usize,
    numbers: u32,
    after: &[PatchNo],
) -> Result<Fresh, Fault>
    ensures clear { OnOk result ((kept : List Patch) → length kept ≡ standing → NoneHolds (make_order kept numbers (numbers_of after.now))) }
    ensures depends { IfOk result (λ f. Lists (λ n. IsLiveNumber (patches_of heads.now.list.items) n × Contains (numbers_of after.now) n) f.dependencies.items) }
    ensures empty { IfOk result (λ f. patch_from f ≡ record { number = numbers + 1; kind = Empty; place = rest_place f.dependencies.items; dependencies = f.dependencies.items }) }
    ensures same { landed.new.items ≡ landed.old.items }
    ensures wide { vec_capacity landed.old ≤ vec_capacity landed.new }
    ensures shelf { OnOk result (length heads.now.list.items < vec_capacity landed.new) }
    ensures refused { IfErr result (λ f. (kept : List Patch) → length kept ≡ standing → Refuses (make_order kept numbers (numbers_of after.now)) f) }
{
    if let Some(fault) = make_fault(standing, numbers, after) {
        return Err(fault);
    }
    if reserve_landed(landed, heads.list.len() + 1).is_err() {
        return Err(Fault::Memory);
    }
    let Ok(dependencies) = live_named(alloc, heads, after) else {
        return Err(Fault::Memory);
    };
    Ok(Fresh {
        number: numbers + 1,
        kind: Kind::Empty,
        place: resting_place(dependencies.as_slice()),
        dependencies,
    })
}

impl Sparse {
    /// A new gate, open, without dependencies. It is refused as `Full(Heads)` where 65,535 patches are not forgotten, as
    /// `Full(Numbers)` where the last number was given, and as `Memory`.
    pub fn add_gate(&mut self) -> Result<PatchNo, Fault>
        ensures ok { IfOk result (λ no. AddsGate self.old no.0 self.new) }
        ensures refused { IfErr result (Refuses (room_order self.old.heads self.old.numbers)) }
        ensures same { OnErr result (self.new ≡ unprepared self.old) }
        ensures blocks { self.new.blocks ≡ self.old.blocks }
    {
        let standing = self.standing();
        let_go(&mut self.prepared);
        if let Some(fault) = room_fault(standing, self.numbers) {
            return Err(fault);
        }
        if reserve_landed(&mut self.landed, self.columns.heads.list.len() + 1).is_err() {
            return Err(Fault::Memory);
        }
        let number = self.numbers + 1;
        let Ok(()) = self
            .columns
            .add_one(self.alloc, gate(number, SmallVec::new(self.alloc)))
        else {
            return Err(Fault::Memory);
        };
        self.live += 1;
        self.numbers = number;
        Ok(PatchNo(number))
    }

    /// A new empty patch, which depends on the named patches that are not on disk. It is on disk at once where none is.
    /// It is refused as `BadField` where more than 64 are named, as `NoPatch` where one was never given, as `Full(Heads)`
    /// and `Full(Numbers)`, and as `Memory`.
    pub fn add_empty(&mut self, after: &[PatchNo]) -> Result<PatchNo, Fault>
        ensures ok { IfOk result (λ no. AddsEmpty self.old (numbers_of after.now) no.0 self.new) }
        ensures refused { IfErr result (Refuses (make_order self.old.heads self.old.numbers (numbers_of after.now))) }
        ensures same { OnErr result (self.new ≡ unprepared self.old) }
        ensures blocks { self.new.blocks ≡ self.old.blocks }
    {
        let standing = self.standing();
        let_go(&mut self.prepared);
        let fresh = match new_empty(
            self.alloc,
            &self.columns.heads,
            &mut self.landed,
            standing,
            self.numbers,
            after,
        ) {
            Ok(fresh) => fresh,
            Err(fault) => return Err(fault),
        };
        let place = fresh.place;
        let number = fresh.number;
        let Ok(()) = self.columns.add_one(self.alloc, fresh) else {
            return Err(Fault::Memory);
        };
        self.live += weight(place);
        note_rest(&mut self.landed, number, place);
        self.numbers = number;
        Ok(PatchNo(number))
    }
}
