//! The limits, where memory is ample: what may be had is had, and what is past a limit is refused for it.

use crate::cache::checked::Checked;
use crate::list::push;
use crate::same::same_count;
use fst_device::{Job, MemorySlot};
use fst_types::{BlockNo, Fault, Grade, PatchNo, Settled, Shape, What};
use std::alloc::Global;
use std::process::Abort;

const FIRST: PatchNo = PatchNo(1);

const MOST_NAMES: &[PatchNo] = &[FIRST; 64];

const TOO_MANY_NAMES: &[PatchNo] = &[FIRST; 65];

const SECOND_SOFT: Result<(PatchNo, Grade), Fault> = Ok((PatchNo(2), Grade::Soft));

// So many bytes of one value.
fn filled(rt: &impl Abort, alloc: Global, byte: u8, size: usize) -> Vec<u8> {
    vec![in alloc; byte; size].expect(rt, "there is memory")
}

// A slot of so many zeros.
fn zero_slot(rt: &impl Abort, alloc: Global, block: u32, size: u32) -> MemorySlot {
    let zeros = vec![in alloc; 0u8; size as usize].expect(rt, "there is memory");
    MemorySlot::new(BlockNo(block), zeros)
}

// A cache of so many blocks of so many bytes, all of which may be in memory.
fn cache_of(rt: &impl Abort, alloc: Global, blocks: u32, size: u32) -> Checked {
    let mut slots = Vec::new(alloc);
    for block in 0..blocks {
        push(rt, &mut slots, zero_slot(rt, alloc, block, size));
    }
    Checked::open(rt, alloc, Shape::new(blocks, size, blocks).ok(), slots)
}

// A change of each block.
fn change_each(rt: &impl Abort, cache: &mut Checked, blocks: u32) {
    for block in 0..blocks {
        let no = PatchNo(block.saturating_add(1));
        cache.patch(rt, block, 0, b"A", &[], Ok((no, Grade::Hard)));
    }
}

// Sends out so many blocks.
fn send_each(
    rt: &impl Abort,
    alloc: Global,
    cache: &mut Checked,
    blocks: u32,
) -> Vec<Job<MemorySlot>> {
    let mut jobs = Vec::new(alloc);
    for block in 0..blocks {
        push(rt, &mut jobs, cache.issue(rt, block));
    }
    jobs
}

// The last of these jobs lands.
fn land_last(rt: &impl Abort, cache: &mut Checked, jobs: &mut Vec<Job<MemorySlot>>) {
    let job = jobs.pop().expect(rt, "a job");
    cache.settle(rt, job, Settled::Landed);
}

// 64 blocks are out, and another goes out once one of them has landed.
fn send_all(rt: &impl Abort, alloc: Global, cache: &mut Checked) {
    let mut jobs = send_each(rt, alloc, cache, 64);
    cache.issue_refused(rt, 64, Fault::Full(What::Flights));
    same_count(rt, cache.stat().flights as usize, 64);
    land_last(rt, cache, &mut jobs);
    cache.goes_out(rt, 64);
    drop(jobs);
}

#[test]
fn flights_at_once(rt: HostRuntime) {
    let mut cache = cache_of(&rt, rt.alloc(), 65, 1);
    change_each(&rt, &mut cache, 65);
    send_all(&rt, rt.alloc(), &mut cache);
    cache.end();
}

// The last block is changed as a whole, behind a gate.
fn change_last(rt: &impl Abort, cache: &mut Checked, bytes: &[u8]) {
    cache.gate(rt, Ok(FIRST));
    cache.patch(rt, 4095, 0, bytes, &[FIRST], SECOND_SOFT);
    same_count(rt, cache.stat().undo as usize, 4096);
    cache.shows(rt, 4095, bytes);
}

#[test]
fn greatest_shape(rt: HostRuntime) {
    let mut cache = cache_of(&rt, rt.alloc(), 4096, 4096);
    let bytes = filled(&rt, rt.alloc(), 65, 4096);
    change_last(&rt, &mut cache, &bytes);
    cache.end();
}

#[test]
fn names_at_once(rt: HostRuntime) {
    let mut cache = cache_of(&rt, rt.alloc(), 1, 1);
    cache.gate(&rt, Ok(FIRST));
    cache.patch(&rt, 0, 0, b"A", MOST_NAMES, SECOND_SOFT);
    cache.patch(&rt, 0, 0, b"B", TOO_MANY_NAMES, Err(Fault::BadField));
    cache.empty(&rt, TOO_MANY_NAMES, Err(Fault::BadField));
    cache.depend(&rt, 1, TOO_MANY_NAMES, Err(Fault::BadField));
    cache.empty(&rt, MOST_NAMES, Ok(PatchNo(3)));
    cache.made(&rt, 3);
    cache.end();
}
