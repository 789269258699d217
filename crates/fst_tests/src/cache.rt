//! Each public call once, and what no clause says of failures and strangers.
ghost use Rattle.std.specs.Prelude.{◌≡◌, length};

mod checked;
mod limits;
mod strangers;

use crate::cache::checked::Checked;
use crate::list::push;
use crate::same::{same_block, same_bytes, same_count, same_patches, same_ticket};
use fst_cache::Stat;
use fst_device::{Arm, Done, Job, MemorySlot, carry};
use fst_types::{BlockNo, Fault, Grade, PatchNo, Place, Settled, Shape, Ticket, What};
use std::alloc::Global;
use std::process::Abort;

// What a call answers that makes the first patch, a hard change.
const FIRST_HARD: Result<(PatchNo, Grade), Fault> = Ok((PatchNo(1), Grade::Hard));

// A slot of four zeros.
fn zero_slot(rt: &impl Abort, alloc: Global, block: u32) -> MemorySlot
    ensures at { result.index ≡ block }
    ensures size { length result.bytes ≡ 4 }
{
    let bytes = vec![in alloc; 0u8; 4].expect(rt, "there is memory");
    MemorySlot::new(BlockNo(block), bytes)
}

// These two slots.
fn both(rt: &impl Abort, alloc: Global, first: MemorySlot, second: MemorySlot) -> Vec<MemorySlot> {
    let mut slots = Vec::new(alloc);
    push(rt, &mut slots, first);
    push(rt, &mut slots, second);
    slots
}

// A slot of zeros for each of two blocks.
fn zero_slots(rt: &impl Abort, alloc: Global) -> Vec<MemorySlot> {
    both(rt, alloc, zero_slot(rt, alloc, 0), zero_slot(rt, alloc, 1))
}

// A cache over two slots of four bytes, of which so many may be in memory at once.
fn keeping(rt: &impl Abort, alloc: Global, slots: Vec<MemorySlot>, resident: u32) -> Checked {
    Checked::open(rt, alloc, Shape::new(2, 4, resident).ok(), slots)
}

// A cache of two blocks of zeros.
fn zeros(rt: &impl Abort, alloc: Global) -> Checked {
    keeping(rt, alloc, zero_slots(rt, alloc), 2)
}

// A cache whose block 0 is out with this byte at its start, and the job.
fn sent(rt: &impl Abort, alloc: Global, byte: u8) -> (Checked, Job<MemorySlot>) {
    let mut cache = zeros(rt, alloc);
    cache.patch(rt, 0, 0, &[byte], &[], FIRST_HARD);
    let job = cache.issue(rt, 0);
    (cache, job)
}

// A completion that no cache sent out, of an image with these two bytes at its start.
fn forged(
    rt: &impl Abort,
    alloc: Global,
    ticket: u64,
    block: u32,
    bytes: [u8; 2],
) -> Done<MemorySlot> {
    let mut image = vec![in alloc; 0u8; 4].expect(rt, "there is memory");
    image[0] = bytes[0];
    image[1] = bytes[1];
    let slot = zero_slot(rt, alloc, block);
    carry(Job::new(Ticket(ticket), BlockNo(block), image, slot))
}

// The ticket, the block and the image of a job.
fn is_job(rt: &impl Abort, job: &Job<MemorySlot>, ticket: u64, block: u32, image: &[u8]) {
    same_ticket(rt, job.ticket(), ticket);
    same_block(rt, Some(job.block()), Some(BlockNo(block)));
    same_bytes(rt, job.image(), image);
}

// The flight of block 1 under the first ticket, of the first patch.
fn compare_flight(rt: &impl Abort, cache: &Checked, image: &[u8]) {
    let flight = cache.flight(rt, 1);
    same_ticket(rt, flight.ticket, 1);
    same_patches(rt, BlockNo(1), flight.patches, &[PatchNo(1)]);
    same_bytes(rt, flight.image, image);
    assert!(rt; !flight.stalled);
}

// Makes the first patch, on block 1.
fn make_first(rt: &impl Abort, cache: &mut Checked) {
    cache.headline();
    cache.patch(rt, 1, 1, b"AB", &[], FIRST_HARD);
    cache.made(rt, 1);
    cache.place(rt, 1, Some(Place::Memory));
    cache.place(rt, 2, None);
    cache.chosen(rt, 1, &[PatchNo(1)]);
}

// Writes block 1 back, the first patch being all that it has.
fn write_first(rt: &impl Abort, cache: &mut Checked) {
    let job = cache.issue(rt, 1);
    is_job(rt, &job, 1, 1, b"\0AB\0");
    compare_flight(rt, cache, b"\0AB\0");
    cache.stalled(rt, None);
    cache.settle(rt, job, Settled::Landed);
}

#[test]
fn each_call_once(rt: HostRuntime) {
    let mut cache = zeros(&rt, rt.alloc());
    make_first(&rt, &mut cache);
    write_first(&rt, &mut cache);
    cache.place(&rt, 1, Some(Place::Disk));
    cache.shows(&rt, 1, b"\0AB\0");
    cache.end();
}

// A cache whose write of block 0 failed after the bytes changed.
fn stalled(rt: &impl Abort, alloc: Global) -> Checked {
    let (mut cache, mut job) = sent(rt, alloc, b'A');
    job.arm(Arm::WriteFailsAfter);
    cache.settle(rt, job, Settled::Stalled);
    cache.stalled(rt, Some(BlockNo(0)));
    cache.place(rt, 1, Some(Place::Flight));
    cache
}

#[test]
fn a_failed_write_is_tried_again(rt: HostRuntime) {
    let mut cache = stalled(&rt, rt.alloc());
    let job = cache.retry(&rt, 0);
    is_job(&rt, &job, 2, 0, b"A\0\0\0");
    let stranger = forged(&rt, rt.alloc(), 1, 0, [b'A', 0]);
    cache.hand_back(&rt, stranger, 1, 0, b"A\0\0\0");
    cache.settle(&rt, job, Settled::Landed);
    cache.end();
}

// A job of another cache is carried and settled here, while block 0 is out with other bytes.
fn settle_another(rt: &impl Abort, alloc: Global, cache: &mut Checked) {
    let (other, job) = sent(rt, alloc, b'B');
    cache.hand_back(rt, carry(job), 1, 0, b"B\0\0\0");
    other.end();
}

#[test]
fn stranger_is_handed_back(rt: HostRuntime) {
    let (mut cache, job) = sent(&rt, rt.alloc(), b'A');
    settle_another(&rt, rt.alloc(), &mut cache);
    cache.settle(&rt, job, Settled::Landed);
    let landed = forged(&rt, rt.alloc(), 1, 0, [b'A', 0]);
    cache.hand_back(&rt, landed, 1, 0, b"A\0\0\0");
    cache.end();
}

// Two slots, of which the first fails at its first read.
fn failing_slots(rt: &impl Abort, alloc: Global) -> Vec<MemorySlot> {
    let mut slot = zero_slot(rt, alloc, 0);
    slot.arm(Arm::ReadFails);
    both(rt, alloc, slot, zero_slot(rt, alloc, 1))
}

#[test]
fn a_failed_read_is_told_once(rt: HostRuntime) {
    same_count(&rt, Fault::Device.number() as usize, 15);
    let mut cache = keeping(&rt, rt.alloc(), failing_slots(&rt, rt.alloc()), 2);
    cache.show_refused(&rt, 0, Fault::Device);
    cache.shows(&rt, 0, b"\0\0\0\0");
    cache.end();
}

// The guide's example: data that comes after a journal waits until the journal is on disk.
#[test]
fn journal_before_data(rt: HostRuntime) {
    let mut cache = zeros(&rt, rt.alloc());
    cache.patch(&rt, 0, 0, b"J", &[], FIRST_HARD);
    let second = Ok((PatchNo(2), Grade::Hard));
    cache.patch(&rt, 1, 0, b"D", &[PatchNo(1)], second);
    cache.issue_refused(&rt, 1, Fault::NothingReady);
    let job = cache.issue(&rt, 0);
    cache.settle(&rt, job, Settled::Landed);
    cache.place(&rt, 1, Some(Place::Disk));
    cache.goes_out(&rt, 1);
    cache.end();
}

const SECOND_SOFT: Result<(PatchNo, Grade), Fault> = Ok((PatchNo(2), Grade::Soft));

const FOURTH_HARD: Result<(PatchNo, Grade), Fault> = Ok((PatchNo(4), Grade::Hard));

// Makes a gate, a change behind it, and an empty patch behind that.
fn make_behind_a_gate(rt: &impl Abort, cache: &mut Checked) {
    cache.gate(rt, Ok(PatchNo(1)));
    cache.patch(rt, 0, 0, b"A", &[PatchNo(1)], SECOND_SOFT);
    cache.empty(rt, &[PatchNo(2)], Ok(PatchNo(3)));
}

// The gate gains nothing that depends on it, and a change gains nothing. A change that stands alone is made.
fn make_alone(rt: &impl Abort, cache: &mut Checked) {
    cache.depend(rt, 1, &[PatchNo(3)], Err(Fault::Cycle));
    cache.depend(rt, 2, &[], Err(Fault::NotGate));
    cache.patch(rt, 1, 0, b"B", &[], FOURTH_HARD);
    cache.made(rt, 4);
}

// The gate gains the change that stands alone, and is sealed.
fn seal_behind(rt: &impl Abort, cache: &mut Checked) {
    cache.depend(rt, 1, &[PatchNo(4)], Ok(()));
    cache.seal(rt, 1, Ok(()));
    cache.seal(rt, 1, Err(Fault::Sealed));
    cache.pick(rt, Some(BlockNo(1)));
}

#[test]
fn gates_and_empty_patches(rt: HostRuntime) {
    let mut cache = zeros(&rt, rt.alloc());
    make_behind_a_gate(&rt, &mut cache);
    make_alone(&rt, &mut cache);
    seal_behind(&rt, &mut cache);
    let counted = Stat {
        made: 4,
        live: 4,
        undo: 1,
        flights: 0,
    };
    cache.counts(&rt, counted);
    cache.blocks(&rt, 2);
    cache.forget(&rt, 0);
    cache.end();
}

#[test]
fn a_clean_block_gives_up_its_place(rt: HostRuntime) {
    let mut cache = keeping(&rt, rt.alloc(), zero_slots(&rt, rt.alloc()), 1);
    cache.shows(&rt, 0, b"\0\0\0\0");
    cache.patch(&rt, 1, 0, b"B", &[], FIRST_HARD);
    cache.show_refused(&rt, 0, Fault::Full(What::Resident));
    cache.evict(&rt, 1, Err(Fault::Dirty));
    cache.evict(&rt, 0, Ok(()));
    cache.end();
}

// A cache of one block over which so many numbers and tickets are used.
fn used(rt: &impl Abort, alloc: Global, numbers: u32, tickets: u64) -> Checked {
    let mut slots = Vec::new(alloc);
    push(rt, &mut slots, zero_slot(rt, alloc, 0));
    Checked::open_at(rt, alloc, Shape::new(1, 4, 1).ok(), slots, numbers, tickets)
}

// Numbers and tickets that are used up.
#[test]
fn numbers_and_tickets_end(rt: HostRuntime) {
    let mut numbered = used(&rt, rt.alloc(), u32::MAX, 0);
    numbered.gate(&rt, Err(Fault::Full(What::Numbers)));
    let mut sent = used(&rt, rt.alloc(), 0, u64::MAX);
    sent.patch(&rt, 0, 0, b"A", &[], FIRST_HARD);
    sent.issue_refused(&rt, 0, Fault::Full(What::Tickets));
    numbered.end();
    sent.end();
}
