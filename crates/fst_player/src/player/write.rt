//! Writes: what may be written of a block now, and jobs, which are kept until `done` names them.

ghost use Rattle.std.specs.Prelude.{◌≡◌, ◌<◌, ◌++◌, ◌∷◌, [], IfOk, MatchResult, vec_len, vec_capacity};
ghost use Rattle.fst_types.specs.Flights.{IsOut};
ghost use Rattle.fst_lines.specs.Commands as script;
ghost use Rattle.fst_lines.specs.Replies.{flight_text, refusal};
ghost use Rattle.fst_player.specs.Script.{in_flight};
ghost use Rattle.fst_lines.specs.Sending.{Sends};
ghost use Rattle.fst_player.specs.Answering.{Obeyed};

use crate::player::Player;
use fst_cache::Cache;
use fst_device::{Job, MemorySlot};
use fst_lines::output::Stopped;
use fst_lines::reply::{send_chosen, send_flight, send_pick, send_refusal};
use fst_types::{BlockNo, Fault};
use std::io::Write;

// Tells of a job that was given just now.
fn send_job<W: Write>(
    writer: &mut W,
    calls: &mut u64,
    cache: &Cache<MemorySlot>,
    job: &Job<MemorySlot>,
) -> Result<(), Stopped>
    requires { IsOut cache.now.state job.now.ticket job.now.block job.now.image }
    ensures { Sends (W.contents writer.old) (W.contents writer.new) result
        (flight_text job.now.ticket job.now.block (in_flight cache.now.state job.now.block) job.now.image ++ 10 ∷ []) }
{
    let Some(flight) = cache.flight(job.block()) else {
        unreachable!()
    };
    send_flight(
        writer,
        calls,
        job.ticket(),
        job.block(),
        flight.patches,
        job.image(),
    )
}

// Keeps a job, where one was given just now and there is a place for it, and tells of it or why none was.
fn keep_job<W: Write>(
    writer: &mut W,
    calls: &mut u64,
    cache: &Cache<MemorySlot>,
    jobs: &mut Vec<Job<MemorySlot>>,
    given: Result<Job<MemorySlot>, Fault>,
) -> Result<(), Stopped>
    requires room { vec_len jobs.old < vec_capacity jobs.old }
    requires out { IfOk given (λ job. IsOut cache.now.state job.ticket job.block job.image) }
    ensures kept { MatchResult given (λ job. jobs.new.items ≡ jobs.old.items ++ job ∷ []) (λ fault. jobs.new.items ≡ jobs.old.items) }
    ensures told { MatchResult given
        (λ job. Sends (W.contents writer.old) (W.contents writer.new) result
        (flight_text job.ticket job.block (in_flight cache.now.state job.block) job.image ++ 10 ∷ []))
        (λ fault. Sends (W.contents writer.old) (W.contents writer.new) result (refusal fault ++ 10 ∷ [])) }
{
    match given {
        Ok(job) => {
            let told = send_job(writer, calls, cache, &job);
            jobs.push_reserved(job);
            told
        }
        Err(fault) => send_refusal(writer, calls, fault),
    }
}

impl Player {
    // Tells what may be written of a block now.
    pub(super) fn choose<W: Write>(
        &mut self,
        writer: &mut W,
        calls: &mut u64,
        block: BlockNo,
    ) -> Result<(), Stopped>
        ensures { Obeyed self.old (script.choose block.0) (W.contents writer.old)
            (W.contents writer.new) result self.new }
    {
        match self.cache.choose(block) {
            Ok(patches) => send_chosen(writer, calls, block, &patches),
            Err(fault) => send_refusal(writer, calls, fault),
        }
    }

    // Tells which block may be written now.
    pub(super) fn pick<W: Write>(&mut self, writer: &mut W, calls: &mut u64) -> Result<(), Stopped>
        ensures { Obeyed self.old script.pick (W.contents writer.old) (W.contents writer.new)
            result self.new }
    {
        let block = self.cache.pick();
        send_pick(writer, calls, block)
    }

    // Sends a block out, and keeps its job.
    pub(super) fn write<W: Write>(
        &mut self,
        writer: &mut W,
        calls: &mut u64,
        block: BlockNo,
    ) -> Result<(), Stopped>
        ensures { Obeyed self.old (script.write block.0) (W.contents writer.old)
            (W.contents writer.new) result self.new }
    {
        if self.jobs.try_reserve(1).is_err() {
            return send_refusal(writer, calls, Fault::Memory);
        }
        let given = self.cache.issue(block);
        keep_job(writer, calls, &self.cache, &mut self.jobs, given)
    }

    // Sends a stalled write out again, and keeps its job.
    pub(super) fn retry<W: Write>(
        &mut self,
        writer: &mut W,
        calls: &mut u64,
        block: BlockNo,
    ) -> Result<(), Stopped>
        ensures { Obeyed self.old (script.retry block.0) (W.contents writer.old)
            (W.contents writer.new) result self.new }
    {
        if self.jobs.try_reserve(1).is_err() {
            return send_refusal(writer, calls, Fault::Memory);
        }
        let given = self.cache.retry(block);
        keep_job(writer, calls, &self.cache, &mut self.jobs, given)
    }
}
