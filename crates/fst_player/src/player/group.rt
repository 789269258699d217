//! Groups: made, put after one another, given changes, then closed.

ghost use Rattle.fst_lines.specs.Commands as script;
ghost use Rattle.fst_player.specs.Answering.{Obeyed};

use crate::player::Player;
use crate::player::told::{send_accepted, send_made};
use fst_lines::output::Stopped;
use fst_lines::reply::{send_numbered, send_refusal};
use fst_types::{BlockNo, GroupNo};
use std::io::Write;

impl Player {
    // Makes a group.
    pub(super) fn group_new<W: Write>(
        &mut self,
        writer: &mut W,
        calls: &mut u64,
    ) -> Result<(), Stopped>
        ensures { Obeyed self.old script.group_new (W.contents writer.old)
            (W.contents writer.new) result self.new }
    {
        match self.cache.group_new(&mut self.share) {
            Ok(group) => send_numbered(writer, calls, "group", group.0),
            Err(fault) => send_refusal(writer, calls, fault),
        }
    }

    // Puts a group after another one.
    pub(super) fn group_after<W: Write>(
        &mut self,
        writer: &mut W,
        calls: &mut u64,
        group: GroupNo,
        on: GroupNo,
    ) -> Result<(), Stopped>
        ensures { Obeyed self.old (script.group_after group.0 on.0) (W.contents writer.old)
            (W.contents writer.new) result self.new }
    {
        let answer = self.cache.group_after(group, on);
        send_accepted(writer, calls, "group_after", group.0, answer)
    }

    // Makes a change for a group.
    pub(super) fn group_patch<W: Write>(
        &mut self,
        writer: &mut W,
        calls: &mut u64,
        group: GroupNo,
        block: BlockNo,
        at: u32,
        bytes: &[u8],
    ) -> Result<(), Stopped>
        ensures { Obeyed self.old (script.group_patch group.0 block.0 at bytes.now)
            (W.contents writer.old) (W.contents writer.new) result self.new }
    {
        let answer = self
            .cache
            .group_patch(&mut self.share, group, block, at, bytes);
        self.made = self.made.with(&answer, block, at, bytes);
        send_made(writer, calls, answer)
    }

    // Closes a group.
    pub(super) fn group_close<W: Write>(
        &mut self,
        writer: &mut W,
        calls: &mut u64,
        group: GroupNo,
    ) -> Result<(), Stopped>
        ensures { Obeyed self.old (script.group_close group.0) (W.contents writer.old)
            (W.contents writer.new) result self.new }
    {
        let answer = self.cache.group_close(group);
        send_accepted(writer, calls, "group_close", group.0, answer)
    }
}
