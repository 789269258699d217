//! A play in progress: the line so far, and the player.

ghost use Rattle.std.specs.Prelude.{◌≡◌, ◌++◌, ℕ, List, [], IsTrue, ◌<◌, length, false};
ghost use Rattle.fst_player.specs.Lines.{Holds};
ghost use Rattle.fst_player.specs.Answering.{Answered};
ghost use Rattle.fst_player.specs.Session.{Feeds, Finishes};

use crate::line::Line;
use crate::player::Player;
use fst_lines::Scratch;
use fst_lines::command::MAX_LINE;
use fst_lines::output::{Stopped, pass_on};
use memchr::memchr;
use std::alloc::Global;
use std::io::Write;

/// A play in progress.
#[derive(Drop)]
pub struct Session {
    line: Line,
    // What reading a line needs for a while, kept from line to line.
    scratch: Scratch,
    player: Player,
}

impl Session {
    /// A play of which nothing was read yet.
    pub fn new(alloc: Global, player: Player) -> Session
        ensures line { Holds result.line [] }
        ensures player { result.player ≡ player }
    {
        Session {
            line: Line::Kept(Vec::new(alloc)),
            scratch: Scratch::new(alloc),
            player,
        }
    }

    // Answers the line, which has ended. The next one is kept where it was.
    fn end_line<W: Write>(
        &mut self,
        alloc: Global,
        writer: &mut W,
        calls: &mut u64,
    ) -> Result<(), Stopped>
        ensures line { Holds self.new.line [] }
        ensures answered { Answered self.old.player self.old.line (W.contents writer.old) (W.contents writer.new) result self.new.player }
    {
        let line = std::mem::replace(&mut self.line, Line::Long);
        let answered = self
            .player
            .answer(alloc, &mut self.scratch, writer, calls, &line);
        self.line = line.clear(alloc);
        answered
    }

    // Keeps more bytes of the line, if it does not get too long and there is memory for them.
    fn keep(&mut self, bytes: &[u8])
        ensures held { (text : List ℕ) → Holds self.old.line text
            → Holds self.new.line (text ++ bytes.now) }
        ensures kept { self.new.player ≡ self.old.player }
    {
        if bytes.is_empty() {
            return;
        }
        let so_far = match &self.line {
            Line::Kept(line) => line.len(),
            Line::Refused(len) => *len,
            Line::Long => return,
        };
        if MAX_LINE.saturating_sub(so_far) < bytes.len() {
            self.line = Line::Long;
            return;
        }
        let is_kept = match &mut self.line {
            Line::Kept(line) => line.extend_from_slice(bytes).is_ok(),
            Line::Refused(_) | Line::Long => false,
        };
        if !is_kept {
            self.line = Line::Refused(so_far + bytes.len());
        }
    }

    /// Takes the next piece of the stream, and answers each line that ends in it. The writer then passes the replies on,
    /// since whoever writes the lines may wait for them.
    pub fn feed<W: Write>(
        &mut self,
        alloc: Global,
        writer: &mut W,
        calls: &mut u64,
        piece: &[u8],
    ) -> Result<(), Stopped>
        ensures { Feeds self.old piece.now (W.contents writer.old) (W.contents writer.new)
            result self.new }
    {
        let mut at = 0;
        while let Some(end) = memchr(b'\n', &piece[at..]) {
            self.keep(&piece[at..at + end]);
            self.end_line(alloc, writer, calls)?;
            at += end + 1;
        }
        self.keep(&piece[at..]);
        pass_on(writer, calls)
    }

    fn has_bytes(&self) -> bool
        ensures some { IsTrue result → (text : List ℕ) → Holds self.now.line text → 0 < length text }
        ensures none { result ≡ false → (text : List ℕ) → Holds self.now.line text → text ≡ [] }
    {
        match &self.line {
            Line::Kept(bytes) => !bytes.is_empty(),
            Line::Long | Line::Refused(_) => true,
        }
    }

    /// Answers a last line that has no end, if it has a byte.
    pub fn finish<W: Write>(
        &mut self,
        alloc: Global,
        writer: &mut W,
        calls: &mut u64,
    ) -> Result<(), Stopped>
        ensures { Finishes self.old (W.contents writer.old) (W.contents writer.new) result }
    {
        if !self.has_bytes() {
            return Ok(());
        }
        self.end_line(alloc, writer, calls)?;
        pass_on(writer, calls)
    }
}
