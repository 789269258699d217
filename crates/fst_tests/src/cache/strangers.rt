//! Completions that are of no write that is out: each is handed back as it was, and nothing changes.

use crate::cache::checked::Checked;
use crate::cache::{forged, zeros};
use crate::same::{same_stat, same_ticket};
use fst_cache::Stat;
use fst_device::{Arm, Job, MemorySlot};
use fst_types::{Grade, PatchNo, Settled};
use std::alloc::Global;
use std::process::Abort;

// The cache hands such a completion back as it came, and counts what it counted.
fn is_handed_back(
    rt: &impl Abort,
    alloc: Global,
    cache: &mut Checked,
    ticket: u64,
    block: u32,
    bytes: [u8; 2],
) {
    let before = cache.stat();
    let done = forged(rt, alloc, ticket, block, bytes);
    cache.hand_back(rt, done, ticket, block, &[bytes[0], bytes[1], 0, 0]);
    same_stat(rt, cache.stat(), before);
}

// The same of each of some, by ticket, block and bytes.
fn are_handed_back(
    rt: &impl Abort,
    alloc: Global,
    cache: &mut Checked,
    forgeries: &[(u64, u32, [u8; 2])],
) {
    for (ticket, block, bytes) in forgeries {
        is_handed_back(rt, alloc, cache, *ticket, *block, *bytes);
    }
}

// Both blocks are out: block 0 under ticket 1 with A, block 1 under ticket 2 with B.
fn both_out(rt: &impl Abort, alloc: Global) -> (Checked, Job<MemorySlot>, Job<MemorySlot>) {
    let mut cache = zeros(rt, alloc);
    cache.patch(rt, 0, 0, b"A", &[], Ok((PatchNo(1), Grade::Hard)));
    cache.patch(rt, 1, 0, b"B", &[], Ok((PatchNo(2), Grade::Hard)));
    let first = cache.issue(rt, 0);
    let second = cache.issue(rt, 1);
    (cache, first, second)
}

// Ticket 0, a ticket of another block, another block's image, another image, a slot of another index.
const STRANGERS: [(u64, u32, [u8; 2]); 7] = [
    (0, 0, [b'A', 0]),
    (2, 0, [b'A', 0]),
    (1, 0, [b'B', 0]),
    (1, 0, [b'A', b'A']),
    (1, 1, [b'A', 0]),
    (1, 4_294_967_295, [b'A', 0]),
    (u64::MAX, 1, [b'B', 0]),
];

#[test]
fn strangers(rt: HostRuntime) {
    let (mut cache, first, second) = both_out(&rt, rt.alloc());
    let out = Stat {
        made: 2,
        live: 2,
        undo: 0,
        flights: 2,
    };
    cache.counts(&rt, out);
    are_handed_back(&rt, rt.alloc(), &mut cache, &STRANGERS);
    cache.settle(&rt, first, Settled::Landed);
    // A ticket that landed.
    is_handed_back(&rt, rt.alloc(), &mut cache, 1, 0, [b'A', 0]);
    cache.settle(&rt, second, Settled::Landed);
    is_handed_back(&rt, rt.alloc(), &mut cache, 2, 1, [b'B', 0]);
    cache.end();
}

// A cache whose block 0 is out again, under ticket 3, after its first write failed, and both jobs.
fn sent_again(rt: &impl Abort, alloc: Global) -> (Checked, Job<MemorySlot>, Job<MemorySlot>) {
    let (mut cache, mut first, second) = both_out(rt, alloc);
    first.arm(Arm::WriteFailsBefore);
    cache.settle(rt, first, Settled::Stalled);
    // The completion came back, so there is none to come.
    is_handed_back(rt, alloc, &mut cache, 1, 0, [b'A', 0]);
    let again = cache.retry(rt, 0);
    same_ticket(rt, again.ticket(), 3);
    (cache, again, second)
}

#[test]
fn old_ticket_after_a_retry(rt: HostRuntime) {
    let (mut cache, again, second) = sent_again(&rt, rt.alloc());
    are_handed_back(
        &rt,
        rt.alloc(),
        &mut cache,
        &[(1, 0, [b'A', 0]), (4, 0, [b'A', 0])],
    );
    cache.settle(&rt, again, Settled::Landed);
    is_handed_back(&rt, rt.alloc(), &mut cache, 3, 0, [b'A', 0]);
    cache.settle(&rt, second, Settled::Landed);
    cache.end();
}
