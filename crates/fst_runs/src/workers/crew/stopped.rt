//! What stops a crew: a thread that cannot be made, a stray, a desk that cannot be closed, refused memory.

use crate::same::same;
use crate::slots::zero_slots;
use crate::store::Store;
use crate::workers::crew::{
    Ended, ROW, is_cache_fault, is_refused, is_silent, plan_of, prints, ran, room,
};
use crate::workers::pairs::checked::Checked;
use crate::workers::pairs::only;
use fst_crew::{CrewFault, Stacks, closed, crew_on, without_stray};
use fst_device::{Done, MemorySlot, carry};
use fst_pairs::Collected;
use fst_types::{Fault, Ticket};
use std::alloc::Global;
use std::process::Abort;
use std::sync::Wait;
use std::thread::Threads;

// More than the system has, so a thread that asks for it cannot be made.
const TOO_LARGE: usize = 1 << 60;

const SMALL: usize = 1 << 20;

// A crew of two file threads and two workers on these stacks, over zeros.
fn ran_on<R: Threads + Wait + Sync + Abort>(rt: &R, alloc: Global, stacks: Stacks<'_>) -> Ended {
    let mut printed = room(rt, alloc);
    let slots = zero_slots(rt, alloc, 8, 8);
    let fault = crew_on(
        rt,
        alloc,
        slots,
        plan_of(rt, 2, 2, 10),
        stacks,
        &mut printed,
    )
    .err();
    (fault, printed)
}

// A thread could not be made, and nothing was printed.
fn is_stopped(rt: &impl Abort, ended: &Ended) {
    assert!(rt; matches!(ended.0, Some(CrewFault::Thread)));
    is_silent(rt, ended);
}

// The first worker, then the second, of which the first then ends.
#[test]
fn worker_that_cannot_be_made(rt: HostRuntime) {
    for workers in [[TOO_LARGE, SMALL], [SMALL, TOO_LARGE]] {
        let stacks = Stacks {
            workers: &workers,
            files: &[],
        };
        is_stopped(&rt, &ran_on(&rt, rt.alloc(), stacks));
    }
}

// The first file thread, then the second, of which the first then makes all its changes; the workers end.
#[test]
fn file_thread_that_cannot_be_made(rt: HostRuntime) {
    for files in [[TOO_LARGE, SMALL], [SMALL, TOO_LARGE]] {
        let stacks = Stacks {
            workers: &[],
            files: &files,
        };
        is_stopped(&rt, &ran_on(&rt, rt.alloc(), stacks));
    }
}

// Stacks that are large enough stop nothing.
#[test]
fn small_stacks(rt: HostRuntime) {
    let stacks = Stacks {
        workers: &[SMALL, SMALL],
        files: &[SMALL, SMALL],
    };
    prints(&rt, &ran_on(&rt, rt.alloc(), stacks), ROW);
}

// A cache of eight blocks of eight zeros.
fn zeros(rt: &impl Abort, alloc: Global) -> Store<MemorySlot> {
    Store::zeros(rt, alloc, 8, 8)
}

// A desk over zeros with a change of its first block.
fn changed(rt: &impl Abort, alloc: Global) -> Checked<MemorySlot> {
    let mut checked = Checked::open(rt, alloc, zeros(rt, alloc));
    checked.patch_all(rt, 1);
    checked
}

// The desk is not closed with its share, or without, for this reason.
fn stays_open(
    rt: &impl Abort,
    alloc: Global,
    checked: Checked<MemorySlot>,
    is_shared: bool,
    expected: Fault,
) {
    let Checked {
        desk,
        worker: _worker,
        share,
    } = checked;
    let mut shares = only(rt, alloc, share);
    if !is_shared {
        shares.clear();
    }
    is_cache_fault(rt, &closed(desk, shares).err(), expected);
}

// A write that is out.
#[test]
fn busy_at_close(rt: HostRuntime) {
    let mut checked = changed(&rt, rt.alloc());
    checked.submits(&rt, Some(Ticket(1)));
    stays_open(&rt, rt.alloc(), checked, true, Fault::Busy);
}

// A share that is missing.
#[test]
fn stranger_at_close(rt: HostRuntime) {
    let checked = changed(&rt, rt.alloc());
    stays_open(&rt, rt.alloc(), checked, false, Fault::Stranger);
}

// What a thread makes of two writes that were settled, and of this stray.
fn meets(rt: &impl Abort, stray: Option<Done<MemorySlot>>, expected: Result<(), Fault>) {
    let met = Collected { settled: 2, stray };
    same(rt, &without_stray(met), &expected);
}

// No completion of a crew's own is a stray, so one is put where `collect` hands it out.
#[test]
fn stray_stops_a_thread(rt: HostRuntime) {
    let mut store = zeros(&rt, rt.alloc());
    let job = store.first_job(&rt, b"A");
    store.end();
    meets(&rt, Some(carry(job)), Err(Fault::Stranger));
    meets(&rt, None, Ok(()));
}

// Whichever allocation of a crew is refused, nothing is printed.
fn prints_all_or_nothing(rt: &impl Abort, ended: &Ended) {
    if ended.0.is_none() {
        prints(rt, ended, ROW);
    } else {
        is_refused(rt, ended, Fault::Memory);
    }
}

// In a plain run none is refused: `rt try --test --fail-alloc N` refuses the N-th.
#[test]
fn refused_in_turn_fst_crew(rt: HostRuntime) {
    let slots = zero_slots(&rt, rt.alloc(), 8, 8);
    prints_all_or_nothing(&rt, &ran(&rt, rt.alloc(), slots, 2, 2, 10));
}
