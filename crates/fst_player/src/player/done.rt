//! Completions: a kept job's one write is made, or told to fail, and the cache takes it in.

ghost use Rattle.std.specs.Prelude.{◌≡◌, MatchOption, None};
ghost use Rattle.fst_lines.specs.Commands as script;
ghost use Rattle.fst_player.specs.Script.{job_of, is_made};
ghost use Rattle.fst_player.specs.Kept.{jobs_kept, IsJobAt};
ghost use Rattle.fst_player.specs.Answering.{Obeyed};

use crate::player::Player;
use fst_device::{Arm, Done, Job, MemorySlot, carry};
use fst_lines::failure::Failure;
use fst_lines::output::Stopped;
use fst_lines::reply::{send_refusal, send_settled};
use fst_types::{Fault, Ticket};
use std::io::Write;

// Where the job of a ticket is.
fn job_at(jobs: &[Job<MemorySlot>], ticket: Ticket) -> Option<usize>
    ensures { MatchOption result (job_of (jobs_kept jobs.now) ticket.0 ≡ None) (λ i. IsJobAt jobs.now ticket.0 i) }
{
    for (i, job) in jobs.iter().enumerate() {
        if job.ticket() == ticket {
            return Some(i);
        }
    }
    None
}

// Makes a job's one write, which fails where it is told to. A failing read is met later.
fn carry_told(job: Job<MemorySlot>, fail: Option<Failure>) -> Done<MemorySlot>
    ensures ticket { result.ticket ≡ job.ticket }
    ensures block { result.block ≡ job.block }
    ensures image { result.image ≡ job.image }
    ensures written { result.written ≡ is_made fail }
{
    let mut job = job;
    job.disarm_write();
    match fail {
        None => {}
        Some(Failure::Before) => job.arm(Arm::WriteFailsBefore),
        Some(Failure::After) => job.arm(Arm::WriteFailsAfter),
        Some(Failure::Read) => job.arm(Arm::ReadFails),
    }
    carry(job)
}

impl Player {
    // Makes the write of a kept job, or has it fail, and tells the cache.
    pub(super) fn done<W: Write>(
        &mut self,
        writer: &mut W,
        calls: &mut u64,
        ticket: Ticket,
        fail: Option<Failure>,
    ) -> Result<(), Stopped>
        ensures { Obeyed self.old (script.done ticket.0 fail) (W.contents writer.old)
            (W.contents writer.new) result self.new }
    {
        let Some(at) = job_at(&self.jobs, ticket) else {
            return send_refusal(writer, calls, Fault::Stranger);
        };
        let job = self.jobs.remove(at);
        let block = job.block();
        let done = carry_told(job, fail);
        self.committed.take_in(&done);
        match self.cache.settle(done) {
            Ok(settled) => send_settled(writer, calls, ticket, block, settled),
            Err(_) => unreachable!(),
        }
    }
}
