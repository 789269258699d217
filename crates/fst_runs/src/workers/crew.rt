//! Crews: two writes at once, failing writes, a lost block, refusals, and what is printed.

mod stopped;

use crate::list::push;
use crate::same::{same, same_text, starts_with};
use crate::slots::{zero_slot, zero_slots};
use crate::stopping::{NoRoom, with_room};
use crate::workers::failing::{Begun, Failing, Habit};
use fst_crew::plan::Crew;
use fst_crew::{CrewFault, crew};
use fst_device::{Arm, BlockSlot, MemorySlot};
use fst_types::Fault;
use std::alloc::Global;
use std::process::Abort;
use std::sync::atomic::{AtomicU64, Ordering};
use std::sync::{Arc, Wait};
use std::thread::Threads;

pub const ROW: &str =
    "made 20\nblock 0 0908000000000000\nblock 1 0a09000000000000\nblock 2 030a000000000000\nblock 3 0403000000000000\nblock 4 0504000000000000\nblock 5 0605000000000000\nblock 6 0706000000000000\nblock 7 0807000000000000\n";

// What ended a crew, and what it printed.
type Ended = (Option<CrewFault>, Vec<u8>);

fn plan_of(rt: &impl Abort, files: u32, workers: u32, rounds: u32) -> Crew {
    Crew::new(files, workers, rounds).expect(rt, "the plan is within its limits")
}

// Room for what a crew prints: a writer that is refused memory would fail, which is another fault.
fn room(rt: &impl Abort, alloc: Global) -> Vec<u8> {
    Vec::with_capacity(alloc, 1024).expect(rt, "there is memory")
}

// Runs a crew of so many file threads, workers and rounds over these slots. The contract says nothing: a test that called
// `crew` itself would be proved with all that `crew` promises.
fn ran<S: BlockSlot + Send, R: Threads + Wait + Sync + Abort>(
    rt: &R,
    alloc: Global,
    slots: Vec<S>,
    files: u32,
    workers: u32,
    rounds: u32,
) -> Ended {
    let mut printed = room(rt, alloc);
    let plan = plan_of(rt, files, workers, rounds);
    let fault = crew(rt, alloc, slots, plan, &mut printed).err();
    (fault, printed)
}

// Nothing ended the crew.
fn is_done(rt: &impl Abort, ended: &Ended) {
    assert!(rt; ended.0.is_none());
}

// The crew came to its end, and printed this.
fn prints(rt: &impl Abort, ended: &Ended, expected: &str) {
    is_done(rt, ended);
    same_text(rt, &ended.1, expected);
}

// The crew came to its end, and what it printed begins so.
fn begins(rt: &impl Abort, ended: &Ended, expected: &str) {
    is_done(rt, ended);
    starts_with(rt, &ended.1, expected);
}

// The crew printed nothing.
fn is_silent(rt: &impl Abort, ended: &Ended) {
    assert!(rt; ended.1.is_empty());
}

// What ended a crew is this fault of the cache or the desk.
fn is_cache_fault(rt: &impl Abort, fault: &Option<CrewFault>, expected: Fault) {
    let Some(CrewFault::Cache(found)) = fault else {
        rt.panic("a fault of the cache or the desk ends it")
    };
    same(rt, found, &expected);
}

// The crew was ended by this fault of the cache or the desk, and printed nothing.
fn is_refused(rt: &impl Abort, ended: &Ended, expected: Fault) {
    is_cache_fault(rt, &ended.0, expected);
    is_silent(rt, ended);
}

// Slots of zeros whose writes wait for one another.
fn meeting_slots(rt: &impl Abort, alloc: Global, begun: &Begun) -> Vec<Failing> {
    let mut slots = Vec::new(alloc);
    for slot in zero_slots(rt, alloc, 8, 8) {
        let counter = Arc::try_clone(begun).expect(rt, "there is memory");
        push(rt, &mut slots, Failing::meeting(slot, counter));
    }
    slots
}

#[test]
fn two_writes_at_once(rt: HostRuntime) {
    let begun = Arc::new(rt.alloc(), AtomicU64::new(0)).expect(&rt, "there is memory");
    let slots = meeting_slots(&rt, rt.alloc(), &begun);
    begins(&rt, &ran(&rt, rt.alloc(), slots, 2, 2, 1), "made 2\n");
    same(&rt, &begun.load(Ordering::SeqCst), &2);
}

#[test]
fn crew_of_two(rt: HostRuntime) {
    let slots = zero_slots(&rt, rt.alloc(), 8, 8);
    prints(&rt, &ran(&rt, rt.alloc(), slots, 2, 2, 10), ROW);
}

#[test]
fn crew_of_eight(rt: HostRuntime) {
    let slots = zero_slots(&rt, rt.alloc(), 8, 8);
    let ended = ran(&rt, rt.alloc(), slots, 8, 8, 100);
    begins(&rt, &ended, "made 800\nblock 0 61605f5e5d646362\n");
}

// Slots of zeros, of which the first has this habit, and each other that.
fn failing_slots(rt: &impl Abort, alloc: Global, first: Habit, other: Habit) -> Vec<Failing> {
    let mut slots = Vec::new(alloc);
    let mut habit = first;
    for slot in zero_slots(rt, alloc, 8, 8) {
        push(rt, &mut slots, Failing::new(slot, habit));
        habit = other;
    }
    slots
}

#[test]
fn every_third_write_fails(rt: HostRuntime) {
    let habit = Habit::EveryThirdAfter;
    let slots = failing_slots(&rt, rt.alloc(), habit, habit);
    prints(&rt, &ran(&rt, rt.alloc(), slots, 2, 2, 10), ROW);
}

// The first block is lost, and both file threads have changes after its first one.
#[test]
fn lost_block(rt: HostRuntime) {
    let slots = failing_slots(&rt, rt.alloc(), Habit::AlwaysBefore, Habit::Never);
    let ended = ran(&rt, rt.alloc(), slots, 2, 2, 10);
    is_refused(&rt, &ended, Fault::Lost);
}

// A file thread's second change comes after its first: where the first one's block is lost, the second one's is never
// written.
#[test]
fn next_change_waits(rt: HostRuntime) {
    let begun = Arc::new(rt.alloc(), AtomicU64::new(0)).expect(&rt, "there is memory");
    let mut slots = meeting_slots(&rt, rt.alloc(), &begun);
    let first = slots.first_mut().expect(&rt, "there are slots");
    *first = Failing::new(zero_slot(&rt, rt.alloc(), 0, 8), Habit::AlwaysBefore);
    let ended = ran(&rt, rt.alloc(), slots, 1, 1, 2);
    is_refused(&rt, &ended, Fault::Lost);
    same(&rt, &begun.load(Ordering::SeqCst), &0);
}

// Slots of zeros, of which the first fails at its first read.
fn unread_slots(rt: &impl Abort, alloc: Global) -> Vec<MemorySlot> {
    let mut slots = zero_slots(rt, alloc, 8, 8);
    let first = slots.first_mut().expect(rt, "there are slots");
    first.arm(Arm::ReadFails);
    slots
}

// A file thread that is refused stops, and the others go on.
#[test]
fn first_read_fails(rt: HostRuntime) {
    let slots = unread_slots(&rt, rt.alloc());
    let ended = ran(&rt, rt.alloc(), slots, 2, 2, 10);
    is_refused(&rt, &ended, Fault::Device);
}

#[test]
fn other_slots_are_refused(rt: HostRuntime) {
    let few = zero_slots(&rt, rt.alloc(), 7, 8);
    let ended = ran(&rt, rt.alloc(), few, 2, 2, 10);
    is_refused(&rt, &ended, Fault::NoBlock);
    let short = zero_slots(&rt, rt.alloc(), 8, 4);
    let ended = ran(&rt, rt.alloc(), short, 2, 2, 10);
    is_refused(&rt, &ended, Fault::BadSpan);
}

#[test]
fn writer_takes_nothing(rt: HostRuntime) {
    let slots = zero_slots(&rt, rt.alloc(), 8, 8);
    let mut writer = with_room(rt.alloc(), 0, NoRoom::TakesNothing);
    let ended = crew(&rt, rt.alloc(), slots, plan_of(&rt, 1, 1, 1), &mut writer);
    assert!(rt; matches!(ended, Err(CrewFault::Write)));
}

// Whether there can be such a plan.
fn is_plan(plan: (u32, u32, u32)) -> bool {
    let (files, workers, rounds) = plan;
    Crew::new(files, workers, rounds).is_ok()
}

// Files, workers, rounds, and whether there can be such a plan.
const PLANS: [(u32, u32, u32, bool); 8] = [
    (1, 1, 1, true),
    (8, 8, 1000, true),
    (0, 1, 1, false),
    (9, 1, 1, false),
    (1, 0, 1, false),
    (1, 9, 1, false),
    (1, 1, 0, false),
    (1, 1, 1001, false),
];

#[test]
fn plans(rt: HostRuntime) {
    for (files, workers, rounds, is_one) in PLANS {
        let plan = (files, workers, rounds);
        same(&rt, &(plan, is_plan(plan)), &(plan, is_one));
    }
}
