//! The patches that the cache keeps: where one is, forgetting those on disk, and counts.

ghost use Rattle.std.specs.Prelude.{◌++◌, ◌∷◌, []};
ghost use Rattle.fst_cache.specs.Replies.{stat_view};
ghost use Rattle.fst_lines.specs.Replies.{stat_text};
ghost use Rattle.fst_lines.specs.Sending.{Sends};
ghost use Rattle.fst_lines.specs.Commands as script;
ghost use Rattle.fst_player.specs.Answering.{Obeyed};

use crate::player::Player;
use fst_cache::Stat;
use fst_lines::output::{Piece, Stopped, send_all};
use fst_lines::reply::{send_numbered, send_place};
use fst_types::PatchNo;
use std::io::Write;

// `stat made A live B undo C flights D`.
fn send_stat<W: Write>(writer: &mut W, calls: &mut u64, stat: Stat) -> Result<(), Stopped>
    ensures { Sends (W.contents writer.old) (W.contents writer.new) result
        (stat_text (stat_view stat) ++ 10 ∷ []) }
{
    send_all(
        writer,
        calls,
        &[
            Piece::Text("stat made "),
            Piece::Number(stat.made),
            Piece::Text(" live "),
            Piece::Number(u64::from(stat.live)),
            Piece::Text(" undo "),
            Piece::Number(stat.undo),
            Piece::Text(" flights "),
            Piece::Number(u64::from(stat.flights)),
            Piece::Text("\n"),
        ],
    )
}

impl Player {
    // Tells where a patch is.
    pub(super) fn place<W: Write>(
        &self,
        writer: &mut W,
        calls: &mut u64,
        patch: PatchNo,
    ) -> Result<(), Stopped>
        ensures { Obeyed self.now (script.place patch.0) (W.contents writer.old)
            (W.contents writer.new) result self.now }
    {
        send_place(writer, calls, patch, self.cache.place(patch))
    }

    // Has the cache forget what is on disk.
    pub(super) fn forget<W: Write>(
        &mut self,
        writer: &mut W,
        calls: &mut u64,
    ) -> Result<(), Stopped>
        ensures { Obeyed self.old script.forget (W.contents writer.old) (W.contents writer.new)
            result self.new }
    {
        let dropped = self.cache.forget();
        send_numbered(writer, calls, "forget", dropped)
    }

    // Tells how many patches there are, and what of them is in memory and in flight.
    pub(super) fn stat<W: Write>(&self, writer: &mut W, calls: &mut u64) -> Result<(), Stopped>
        ensures { Obeyed self.now script.stat (W.contents writer.old) (W.contents writer.new)
            result self.now }
    {
        send_stat(writer, calls, self.cache.stat())
    }
}
