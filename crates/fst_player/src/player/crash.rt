//! What a crash would leave: of each block what is committed, or the image in flight where its write is taken to finish.
//! No change is looked at, so that a crash takes as long as its reply, whatever came before it.

ghost use Rattle.std.specs.Prelude.{◌≡◌, ◌<◌, length};
ghost use Rattle.std.specs.List.{flat_map};
ghost use Rattle.fst_types.specs.Crash.{crash};
ghost use Rattle.fst_lines.specs.Commands as script;
ghost use Rattle.fst_lines.specs.Parsing.{block_numbers};
ghost use Rattle.fst_lines.specs.Replies.{crash_part};
ghost use Rattle.fst_player.specs.Script.{finish_fault, first_finish_fault, left_of_each};
ghost use Rattle.fst_lines.specs.Sending.{Sends};
ghost use Rattle.fst_player.specs.Answering.{Obeyed};
ghost use Rattle.fst_player.specs.Marks.{AreMarks};

use crate::player::Player;
use fst_lines::output::{Stopped, send};
use fst_lines::reply::{send_crash_part, send_refusal};
use fst_types::{BlockNo, Fault, MAX_BLOCKS};
use std::io::Write;

// Marks those of all blocks that are in a list.
fn marks_of(blocks: &[BlockNo]) -> [bool; MAX_BLOCKS as usize]
    ensures { AreMarks result (block_numbers blocks.now) }
{
    let mut marks = [false; MAX_BLOCKS as usize];
    for block in blocks {
        let at = block.0 as usize;
        if at < marks.len() {
            marks[at] = true;
        }
    }
    marks
}

impl Player {
    // Why the write of a block can not be taken to finish.
    fn finish_fault(&self, block: BlockNo) -> Option<Fault>
        ensures { result ≡ finish_fault self.now.cache block.0 }
    {
        if block.0 >= self.shape.blocks {
            return Some(Fault::NoBlock);
        }
        if self.cache.flight(block).is_some() {
            return None;
        }
        Some(Fault::Stranger)
    }

    // The first such reason of a list.
    fn first_finish_fault(&self, finish: &[BlockNo]) -> Option<Fault>
        ensures { result ≡ first_finish_fault self.now.cache (block_numbers finish.now) }
    {
        for block in finish {
            if let Some(fault) = self.finish_fault(*block) {
                return Some(fault);
            }
        }
        None
    }

    // The bytes that a crash leaves of a block, its write being finished or not.
    fn left(&self, block: u32, is_finished: bool) -> &[u8]
        requires { block < length self.now.cache.blocks }
        ensures { result.now ≡ crash self.now.cache (λ b. is_finished) block }
    {
        if is_finished {
            if let Some(flight) = self.cache.flight(BlockNo(block)) {
                return flight.image;
            }
        }
        self.committed.of(block)
    }

    // Tells the bytes that a crash leaves of each block.
    fn send_each_left<W: Write>(
        &self,
        writer: &mut W,
        calls: &mut u64,
        finish: &[BlockNo],
    ) -> Result<(), Stopped>
        ensures { Sends (W.contents writer.old) (W.contents writer.new) result
            (flat_map crash_part (left_of_each self.now (block_numbers finish.now))) }
    {
        let marks = marks_of(finish);
        for block in 0..self.shape.blocks {
            let left = self.left(block, marks[block as usize]);
            send_crash_part(writer, calls, left)?;
        }
        Ok(())
    }

    // Tells what a crash would leave, the writes of these blocks being finished.
    pub(super) fn crash<W: Write>(
        &self,
        writer: &mut W,
        calls: &mut u64,
        finish: &[BlockNo],
    ) -> Result<(), Stopped>
        ensures { Obeyed self.now (script.crash (block_numbers finish.now))
            (W.contents writer.old) (W.contents writer.new) result self.now }
    {
        if let Some(fault) = self.first_finish_fault(finish) {
            return send_refusal(writer, calls, fault);
        }
        send(writer, calls, b"crash")?;
        self.send_each_left(writer, calls, finish)?;
        send(writer, calls, b"\n")
    }
}
