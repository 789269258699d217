//! New patches: changes and empty patches.

ghost use Rattle.fst_lines.specs.Commands as script;
ghost use Rattle.fst_lines.specs.Parsing.{patch_numbers};
ghost use Rattle.fst_player.specs.Answering.{Obeyed};

use crate::player::Player;
use crate::player::told::send_made;
use fst_lines::output::Stopped;
use fst_lines::reply::{send_numbered, send_refusal};
use fst_types::{BlockNo, PatchNo};
use std::io::Write;

impl Player {
    // Makes a change.
    pub(super) fn patch<W: Write>(
        &mut self,
        writer: &mut W,
        calls: &mut u64,
        block: BlockNo,
        at: u32,
        bytes: &[u8],
        after: &[PatchNo],
    ) -> Result<(), Stopped>
        ensures { Obeyed self.old (script.patch block.0 at bytes.now (patch_numbers after.now))
            (W.contents writer.old) (W.contents writer.new) result self.new }
    {
        let answer = self.cache.patch(&mut self.share, block, at, bytes, after);
        self.made = self.made.with(&answer, block, at, bytes);
        send_made(writer, calls, answer)
    }

    // Makes an empty patch.
    pub(super) fn empty<W: Write>(
        &mut self,
        writer: &mut W,
        calls: &mut u64,
        after: &[PatchNo],
    ) -> Result<(), Stopped>
        ensures { Obeyed self.old (script.empty (patch_numbers after.now))
            (W.contents writer.old) (W.contents writer.new) result self.new }
    {
        match self.cache.empty(&mut self.share, after) {
            Ok(number) => send_numbered(writer, calls, "empty", number.0),
            Err(fault) => send_refusal(writer, calls, fault),
        }
    }
}
