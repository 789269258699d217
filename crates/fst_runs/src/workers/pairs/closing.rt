//! What opening and closing a desk ask.

use crate::same::same;
use crate::store::Store;
use crate::workers::pairs::checked::Checked;
use crate::workers::pairs::{collects, only, opens, submits, with_one, zeros};
use fst_cache::Share;
use fst_device::MemorySlot;
use fst_pairs::{Desk, Step, Worker};
use fst_types::{Fault, Ticket};
use linked_list_allocator::LocalHeap;
use std::alloc::Global;
use std::process::Abort;

// What was made, sent and landed.
#[test]
fn closing_adds_up(rt: HostRuntime) {
    let mut desk = with_one(&rt, rt.alloc(), 2);
    desk.patch_all(&rt, 2);
    for ticket in 1..3 {
        desk.submits(&rt, Some(Ticket(ticket)));
        desk.write_one(&rt, ticket);
    }
    let store = desk.closes(&rt, rt.alloc(), (2, 2, 2, 0));
    store.has_live(&rt, 0);
    store.end();
}

// A desk, and the shares with which it is closed.
type Shared = (Desk<MemorySlot>, Vec<Share>);

// It is not closed, for this reason, and comes back with its shares.
fn refuses(rt: &impl Abort, shared: Shared, expected: Fault) -> Shared {
    let (desk, shares) = shared;
    let refused = desk
        .close(shares)
        .err()
        .expect(rt, "the desk does not close");
    same(rt, &refused.fault, &expected);
    (refused.desk, refused.shares)
}

// It is closed.
fn closes(rt: &impl Abort, desk: Desk<MemorySlot>, shares: Vec<Share>) {
    desk.close(shares).ok().expect(rt, "the desk closes");
}

// A desk whose write was sent and made, but not collected, and its share.
fn not_collected(rt: &impl Abort, alloc: Global) -> Shared {
    let mut checked = with_one(rt, alloc, 1);
    checked.patch_all(rt, 1);
    checked.submits(rt, Some(Ticket(1)));
    checked.steps(rt, Step::Wrote(Ticket(1)));
    let Checked {
        desk,
        worker: _,
        share,
    } = checked;
    (desk, only(rt, alloc, share))
}

// Such a one is not closed, nor one whose shares do not add up; both times the desk and the shares come back, and it goes
// on.
#[test]
fn sent_and_not_collected(rt: HostRuntime) {
    let (mut desk, shares) = refuses(&rt, not_collected(&rt, rt.alloc()), Fault::Busy);
    same(&rt, &shares.len(), &1);
    collects(&rt, &mut desk, 1);
    let (desk, _) = refuses(&rt, (desk, Vec::new(rt.alloc())), Fault::Stranger);
    closes(&rt, desk, shares);
}

// A cache over which no desk opens comes back.
fn stays_shut(
    rt: &impl Abort,
    alloc: Global,
    store: Store<MemorySlot>,
    workers: u32,
    expected: Fault,
) -> Store<MemorySlot> {
    let (cache, fault) = Desk::open(alloc, store.into_cache(), workers)
        .err()
        .expect(rt, "the desk does not open");
    same(rt, &fault, &expected);
    Store::new(cache)
}

// No worker, or more than 8.
#[test]
fn so_many_workers(rt: HostRuntime) {
    let store = zeros(&rt, rt.alloc(), 1);
    let store = stays_shut(&rt, rt.alloc(), store, 0, Fault::BadField);
    let store = stays_shut(&rt, rt.alloc(), store, 9, Fault::BadField);
    opens(&rt, rt.alloc(), store, 8);
}

// A cache with a write out comes back, and goes on.
#[test]
fn opens_over_no_write_that_is_out(rt: HostRuntime) {
    let mut store = zeros(&rt, rt.alloc(), 1);
    let job = store.first_job(&rt, b"A");
    let mut store = stays_shut(&rt, rt.alloc(), store, 1, Fault::Busy);
    store.settles(&rt, job);
    opens(&rt, rt.alloc(), store, 1);
}

// Nothing of the heap is taken.
fn is_empty(rt: &impl Abort, heap: &LocalHeap) {
    same(rt, &heap.used(), &0);
}

// A desk with its rings in a heap, and its workers: it sends a write.
fn sends_one<'a>(
    rt: &impl Abort,
    desk: Desk<MemorySlot, &'a LocalHeap>,
    workers: Vec<Worker<MemorySlot, &'a LocalHeap>, &'a LocalHeap>,
) {
    let mut desk = desk;
    same(rt, &workers.len(), &8);
    submits(rt, &mut desk, Some(Ticket(1)));
}

// Opens a desk with its rings in this heap. Where there is no memory, and only then, the cache comes back.
fn opened_within(
    rt: &impl Abort,
    heap: &LocalHeap,
    store: Store<MemorySlot>,
) -> Option<Store<MemorySlot>> {
    match Desk::open(heap, store.into_cache(), 8) {
        Ok((desk, workers)) => {
            sends_one(rt, desk, workers);
            None
        }
        Err((back, fault)) => {
            same(rt, &fault, &Fault::Memory);
            Some(Store::new(back))
        }
    }
}

// With less room than the rings take the cache comes back as it was, and the heap is empty again; with room enough the
// desk opens.
fn opens_within(
    rt: &impl Abort,
    heap: &LocalHeap,
    store: Store<MemorySlot>,
) -> Option<Store<MemorySlot>> {
    let before = store.stat();
    let back = opened_within(rt, heap, store)?;
    back.counts(rt, before);
    is_empty(rt, heap);
    Some(back)
}

// A cache of one block with a change.
fn changed(rt: &impl Abort, alloc: Global) -> Store<MemorySlot> {
    let mut store = zeros(rt, alloc, 1);
    store.change(rt, b"A");
    store
}

// Heaps with ever more room refuse each allocation of the rings in turn.
#[test]
fn refused_in_turn_fst_pairs(rt: HostRuntime) {
    let mut store = changed(&rt, rt.alloc());
    for room in 1..4096usize {
        let heap = LocalHeap::new(rt.alloc(), 64 * room).expect(&rt, "there is memory");
        match opens_within(&rt, &heap, store) {
            Some(back) => store = back,
            None => {
                assert!(rt;
                    room > 16,
                    "the rings and their lists take many allocations"
                );
                return;
            }
        }
    }
    rt.panic("no heap had room enough")
}
