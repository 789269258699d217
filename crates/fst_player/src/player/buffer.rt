//! Blocks in memory: the bytes of one as its changes leave them, and making room.

ghost use Rattle.fst_lines.specs.Commands as script;
ghost use Rattle.fst_player.specs.Answering.{Obeyed};

use crate::player::Player;
use crate::player::told::send_accepted;
use fst_lines::output::Stopped;
use fst_lines::reply::{send_refusal, send_show};
use fst_types::BlockNo;
use std::io::Write;

impl Player {
    // Tells the bytes of a block.
    pub(super) fn show<W: Write>(
        &mut self,
        writer: &mut W,
        calls: &mut u64,
        block: BlockNo,
    ) -> Result<(), Stopped>
        ensures { Obeyed self.old (script.show block.0) (W.contents writer.old)
            (W.contents writer.new) result self.new }
    {
        match self.cache.show(block) {
            Ok(bytes) => send_show(writer, calls, block, bytes),
            Err(fault) => send_refusal(writer, calls, fault),
        }
    }

    // Puts a block out of memory.
    pub(super) fn evict<W: Write>(
        &mut self,
        writer: &mut W,
        calls: &mut u64,
        block: BlockNo,
    ) -> Result<(), Stopped>
        ensures { Obeyed self.old (script.evict block.0) (W.contents writer.old)
            (W.contents writer.new) result self.new }
    {
        let answer = self.cache.evict(block);
        send_accepted(writer, calls, "evict", block.0, answer)
    }
}
