//! The player of a script: a cache over disks in memory, the jobs that it keeps until `done` names them, and what is
//! committed of each block, which a crash leaves.

mod buffer;
mod crash;
mod done;
mod gate;
mod group;
mod heads;
mod open;
mod patch;
mod told;
mod write;

ghost use Rattle.fst_lines.specs.Parsing.{command};
ghost use Rattle.fst_player.specs.Answering.{Answered, Obeyed};

use crate::committed::Committed;
use crate::line::Line;
use crate::made::Made;
use fst_cache::{Cache, Share};
use fst_device::{Job, MemorySlot};
use fst_lines::Scratch;
use fst_lines::command::{Command, parse};
use fst_lines::output::Stopped;
use fst_lines::reply::send_refusal;
use fst_types::{Fault, Shape};
use std::alloc::Global;
use std::io::Write;
use std::marker::Model;

/// A player.
#[derive(Drop)]
pub struct Player {
    shape: Shape,
    cache: Cache<MemorySlot>,
    share: Share,
    jobs: Vec<Job<MemorySlot>>,
    committed: Committed,
    made: Made,
}

impl Model for Player {
    ghost use Rattle.fst_player.specs.Script.{PlayerState};
    ghost use Rattle.fst_player.specs.Kept.{jobs_kept, IsKept};

    ghost Value = { PlayerState };

    ghost view = { λ p. record { cache = p.cache.state; jobs = jobs_kept p.jobs.items; made = p.made.items } };

    ghost invariant = { λ p. IsKept p.shape p.share p.cache.state p.jobs.items p.made.items p.committed };
}

impl Player {
    fn obey<W: Write>(
        &mut self,
        writer: &mut W,
        calls: &mut u64,
        asked: &Command,
    ) -> Result<(), Stopped>
        ensures { Obeyed self.old (command asked.now) (W.contents writer.old) (W.contents writer.new)
            result self.new }
    {
        match asked {
            Command::Patch {
                block,
                at,
                data,
                after,
            } => self.patch(writer, calls, *block, *at, data, after),
            Command::Empty { after } => self.empty(writer, calls, after),
            Command::Gate => self.gate(writer, calls),
            Command::Depend { gate, on } => self.depend(writer, calls, *gate, on),
            Command::Seal { gate } => self.seal(writer, calls, *gate),
            Command::Choose { block } => self.choose(writer, calls, *block),
            Command::Pick => self.pick(writer, calls),
            Command::Write { block } => self.write(writer, calls, *block),
            Command::Done { ticket, fail } => self.done(writer, calls, *ticket, *fail),
            Command::Retry { block } => self.retry(writer, calls, *block),
            Command::Evict { block } => self.evict(writer, calls, *block),
            Command::Show { block } => self.show(writer, calls, *block),
            Command::Place { patch } => self.place(writer, calls, *patch),
            Command::Forget => self.forget(writer, calls),
            Command::Stat => self.stat(writer, calls),
            Command::Crash { finish } => self.crash(writer, calls, finish),
            Command::GroupNew => self.group_new(writer, calls),
            Command::GroupAfter { group, on } => self.group_after(writer, calls, *group, *on),
            Command::GroupPatch {
                group,
                block,
                at,
                data,
            } => self.group_patch(writer, calls, *group, *block, *at, data),
            Command::GroupClose { group } => self.group_close(writer, calls, *group),
        }
    }

    /// Does what a line asks and sends the reply. A line that is refused changes nothing. The scratch is for reading the
    /// line, and may be kept from line to line.
    pub fn answer<W: Write>(
        &mut self,
        alloc: Global,
        scratch: &mut Scratch,
        writer: &mut W,
        calls: &mut u64,
        line: &Line,
    ) -> Result<(), Stopped>
        ensures { Answered self.old line.now (W.contents writer.old) (W.contents writer.new) result self.new }
    {
        match line {
            Line::Kept(bytes) => match parse(alloc, scratch, bytes.as_slice()) {
                Ok(command) => self.obey(writer, calls, &command),
                Err(fault) => send_refusal(writer, calls, fault),
            },
            Line::Long => send_refusal(writer, calls, Fault::BadLine),
            Line::Refused(_) => send_refusal(writer, calls, Fault::Memory),
        }
    }
}
