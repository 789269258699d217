//! Slots that fail as they were told to, writes that are tried again, jobs that cross threads, and a slot of one's own.
ghost use Rattle.std.specs.Prelude.{◌≡◌, length};
ghost use Rattle.fst_device.specs.Armed.{armed};
ghost use Rattle.fst_device.specs.MemoryCalls.{works};

mod read_only;

use crate::same::{same, same_block, same_bytes, same_count, same_ticket};
use fst_device::{Arm, BlockSlot, Done, FaultCount, Job, MemorySlot, Outcome, SlotFault, carry};
use fst_types::{BlockNo, Ticket};
use read_only::ReadOnly;
use std::alloc::Global;
use std::marker::Model;
use std::process::Abort;
use std::thread;
use std::thread::Threads;

// What a call of a slot answers.
fn same_answer(rt: &impl Abort, answer: Result<(), SlotFault>, expected: Result<(), SlotFault>) {
    same(rt, &answer, &expected);
}

// What came of a write.
fn same_outcome(rt: &impl Abort, outcome: Outcome, expected: Outcome) {
    same(rt, &outcome, &expected);
}

// A write and then a read, through the trait.
fn write_and_read<S: BlockSlot>(
    slot: &mut S,
    image: &[u8],
    into: &mut [u8],
) -> Result<(), SlotFault>
    requires { (length image.now ≡ S.size slot.old) × (length into.old ≡ S.size slot.old) }
{
    slot.write(image)?;
    slot.read(into)
}

// A slot in memory. The contracts here say nothing, so that a test carries no facts from call to call.
#[derive(Drop)]
struct Checked {
    slot: MemorySlot,
}

impl Model for Checked {
    ghost Value = { Unit {0} };

    ghost view = { λ _. tt };
}

impl Checked {
    // Of one or two zeros.
    fn new(rt: &impl Abort, alloc: Global, block: u32, size: u8) -> Checked {
        let bytes = vec![in alloc; 0u8; size as usize].expect(rt, "there is memory");
        Checked {
            slot: MemorySlot::new(BlockNo(block), bytes),
        }
    }

    fn is_block(&self, rt: &impl Abort, block: u32, size: usize) {
        same_block(rt, Some(self.slot.index()), Some(BlockNo(block)));
        same_count(rt, self.slot.size() as usize, size);
    }

    fn arm(&mut self, arm: Arm) {
        self.slot.arm(arm);
    }

    fn disarm_write(&mut self) {
        self.slot.disarm_write();
    }

    fn holds(&self, rt: &impl Abort, bytes: &[u8]) {
        same_bytes(rt, self.slot.bytes(), bytes);
    }

    fn write(&mut self, rt: &impl Abort, bytes: &[u8], expected: Result<(), SlotFault>) {
        assert!(rt; bytes.len() == self.slot.bytes().len());
        same_answer(rt, self.slot.write(bytes), expected);
    }

    fn read(&mut self, rt: &impl Abort, into: &mut [u8], expected: Result<(), SlotFault>) {
        assert!(rt; into.len() == self.slot.bytes().len());
        same_answer(rt, self.slot.read(into), expected);
    }

    fn write_and_read(
        &mut self,
        rt: &impl Abort,
        image: &[u8],
        into: &mut [u8],
        expected: Result<(), SlotFault>,
    ) {
        assert!(rt; image.len() == self.slot.bytes().len());
        assert!(rt; into.len() == self.slot.bytes().len());
        same_answer(rt, write_and_read(&mut self.slot, image, into), expected);
    }
}

// The next write and read fail at the one that was armed, and the write after that works.
fn fails_once(rt: &impl Abort, alloc: Global, arm: Arm, fault: SlotFault, left: u8) {
    let mut slot = Checked::new(rt, alloc, 3, 2);
    slot.is_block(rt, 3, 2);
    slot.arm(arm);
    let mut into = [9u8; 2];
    slot.write_and_read(rt, &[7, 7], &mut into, Err(fault));
    slot.holds(rt, &[left; 2]);
    slot.write_and_read(rt, &[8, 8], &mut into, Ok(()));
    same_bytes(rt, &into, &[8, 8]);
}

#[test]
fn each_arm_fails_one_call(rt: HostRuntime) {
    for (arm, fault, left) in [
        (Arm::ReadFails, SlotFault::Read, 7u8),
        (Arm::WriteFailsBefore, SlotFault::Write, 0),
        (Arm::WriteFailsAfter, SlotFault::Write, 7),
    ] {
        fails_once(&rt, rt.alloc(), arm, fault, left);
    }
}

#[test]
fn the_newest_arm_counts_and_reads_are_armed_apart(rt: HostRuntime) {
    let mut slot = Checked::new(&rt, rt.alloc(), 0, 1);
    slot.arm(Arm::WriteFailsAfter);
    slot.arm(Arm::ReadFails);
    slot.arm(Arm::WriteFailsBefore);
    slot.write(&rt, &[5], Err(SlotFault::Write));
    slot.holds(&rt, &[0]);
    slot.write(&rt, &[5], Ok(()));
    slot.arm(Arm::WriteFailsAfter);
    slot.disarm_write();
    slot.write(&rt, &[6], Ok(()));
    slot.read(&rt, &mut [0], Err(SlotFault::Read));
    slot.read(&rt, &mut [0], Ok(()));
}

// A job that writes two bytes to a slot of two zeros.
fn job_of(rt: &impl Abort, alloc: Global, ticket: u64, block: u32, byte: u8) -> Job<MemorySlot> {
    let bytes = vec![in alloc; 0u8; 2].expect(rt, "there is memory");
    let image = vec![in alloc; byte; 2].expect(rt, "there is memory");
    let slot = MemorySlot::new(BlockNo(block), bytes);
    Job::new(Ticket(ticket), BlockNo(block), image, slot)
}

// Makes the write of a job that was armed.
fn carry_armed(job: Job<MemorySlot>, arm: Arm) -> Done<MemorySlot>
    ensures { result.written ≡ works (armed arm job.slot).next_write }
{
    let mut job = job;
    job.arm(arm);
    carry(job)
}

// A write that fails and leaves this in the slot.
fn fails(rt: &impl Abort, job: Job<MemorySlot>, arm: Arm, left: &[u8]) -> Done<MemorySlot> {
    let done = carry_armed(job, arm);
    same_outcome(rt, done.outcome(), Outcome::Failed);
    same_bytes(rt, done.slot().bytes(), left);
    done
}

// The ticket, the block and the image of a job, and what its slot holds.
fn is_job(rt: &impl Abort, job: &Job<MemorySlot>, ticket: u64, block: u32, bytes: &[u8]) {
    same_ticket(rt, job.ticket(), ticket);
    same_block(rt, Some(job.block()), Some(BlockNo(block)));
    same_bytes(rt, job.image(), bytes);
    same_bytes(rt, job.slot().bytes(), bytes);
}

// The ticket, the block and the image of a write that worked, and what its slot holds.
fn is_written(rt: &impl Abort, done: Done<MemorySlot>, ticket: u64, block: u32, bytes: &[u8]) {
    same_ticket(rt, done.ticket(), ticket);
    same_block(rt, Some(done.block()), Some(BlockNo(block)));
    same_bytes(rt, done.image(), bytes);
    same_outcome(rt, done.outcome(), Outcome::Written);
    let slot = done.into_slot();
    same_bytes(rt, slot.bytes(), bytes);
    drop(slot);
}

#[test]
fn a_failed_write_is_tried_again(rt: HostRuntime) {
    let job = job_of(&rt, rt.alloc(), 4, 1, 6);
    let done = fails(&rt, job, Arm::WriteFailsBefore, &[0, 0]);
    let done = fails(&rt, done.again(Ticket(5)), Arm::WriteFailsAfter, &[6, 6]);
    let job = done.again(Ticket(6));
    is_job(&rt, &job, 6, 1, &[6, 6]);
    is_written(&rt, carry(job), 6, 1, &[6, 6]);
}

// Makes the write of a job on a thread of its own. The job goes there and the completion comes back, so both are `Send`.
fn carry_elsewhere<S: BlockSlot + Send + 'static>(
    rt: &impl Threads,
    job: Job<S>,
) -> Option<Done<S>> {
    let child = thread::spawn(rt, move || carry(job)).ok()?;
    Some(child.join(rt))
}

#[test]
fn jobs_and_completions_cross_threads(rt: HostRuntime) {
    let done = carry_elsewhere(&rt, job_of(&rt, rt.alloc(), 1, 0, 3));
    is_written(&rt, done.expect(&rt, "a thread"), 1, 0, &[3, 3]);
}

// A write of one byte to a slot that says no, and what it holds after that.
fn says_no(rt: &impl Abort, alloc: Global, slot: ReadOnly, byte: u8) {
    let image = vec![in alloc; 8u8; 1].expect(rt, "there is memory");
    let done = carry(Job::new(Ticket(1), BlockNo(0), image, slot));
    same_outcome(rt, done.outcome(), Outcome::Failed);
    same_bytes(rt, &[done.slot().byte], &[byte]);
}

#[test]
fn a_slot_of_another_crate_counts_its_faults(rt: HostRuntime) {
    let mut slot = ReadOnly {
        byte: 7,
        faults: FaultCount::new(),
    };
    let answer = write_and_read(&mut slot, &[8], &mut [0]);
    same_answer(&rt, answer, Err(SlotFault::Write));
    says_no(&rt, rt.alloc(), slot, 7);
}
