//! A script from a reader, its replies to a writer.

ghost use Rattle.std.specs.Prelude.{◌≡◌, ℕ, List, [], OnOk};
ghost use Rattle.std.specs.Io.KnownBytes.{Appends, Consumes, IsAtEnd};
ghost use Rattle.fst_types.specs.declared.shape.Shape.{Shape};
ghost use Rattle.fst_player.specs.Script.{opened};
ghost use Rattle.fst_player.specs.Lines.{Holds};
ghost use Rattle.fst_player.specs.Play.{Plays};

use crate::player::Player;
use crate::session::Session;
use fst_lines::output::Stopped;
use fst_types::{Fault, Shape};
use std::alloc::Global;
use std::io::{Read, Write};

/// What ended a play.
#[derive(Debug, Drop)]
pub enum PlayFault {
    /// The reader failed, or its calls were used up.
    Read,
    /// The writer failed, also to flush, or took nothing, or its calls were used up.
    Write,
    /// The player could not start.
    Start(Fault),
}

// Plays all that the reader gives to a session that has read nothing yet. The session stays with the caller: what holds it
// drops it at each way out.
fn play_on<R: Read, W: Write>(
    alloc: Global,
    reader: &mut R,
    writer: &mut W,
    session: &mut Session,
) -> Result<(), PlayFault>
    requires { Holds session.old.line [] }
    ensures played { (shape : Shape) → session.old.player ≡ opened shape → (given : List ℕ) × (sent : List ℕ)
        × Consumes (R.remaining reader.old) (R.remaining reader.new) given
        × Appends (W.contents writer.old) (W.contents writer.new) sent
        × Plays shape given (R.remaining reader.new) sent result }
    ensures end { OnOk result (IsAtEnd (R.remaining reader.new)) }
{
    let mut calls = u64::MAX;
    let mut piece = [0u8; 4096];
    'stream: for _ in 0..u64::MAX {
        let Ok(n) = reader.read(&mut piece) else {
            return Err(PlayFault::Read);
        };
        if n == 0 {
            match session.finish(alloc, writer, &mut calls) {
                Ok(()) => return Ok(()),
                Err(Stopped) => return Err(PlayFault::Write),
            }
        }
        match session.feed(alloc, writer, &mut calls, &piece[..n]) {
            Ok(()) => {}
            Err(Stopped) => return Err(PlayFault::Write),
        }
    }
    Err(PlayFault::Read)
}

/// Plays all that the reader gives to the writer, over zero blocks: one reply a line, and nothing else. A line is at most
/// 65,536 bytes long: one that is longer is refused as that, and takes no memory. A reply is written in several writes, and
/// the writer is flushed before the reader is asked for more: whoever waits for a reply has it, also where the writer is a
/// `BufWriter`. The reader and the writer are called at most 18,446,744,073,709,551,615 times each. Memory is taken for the
/// player, for the line that is read, and for what it asks; a line for which memory is refused is answered so, and the play
/// goes on. What the longest line took is kept for those after it.
pub fn play<R: Read, W: Write>(
    alloc: Global,
    reader: &mut R,
    writer: &mut W,
    shape: Shape,
) -> Result<(), PlayFault>
    ensures played { (given : List ℕ) × (sent : List ℕ)
        × Consumes (R.remaining reader.old) (R.remaining reader.new) given
        × Appends (W.contents writer.old) (W.contents writer.new) sent
        × Plays shape given (R.remaining reader.new) sent result }
    ensures end { OnOk result (IsAtEnd (R.remaining reader.new)) }
{
    match Player::new(alloc, shape) {
        Ok(player) => {
            let mut session = Session::new(alloc, player);
            play_on(alloc, reader, writer, &mut session)
        }
        Err(fault) => Err(PlayFault::Start(fault)),
    }
}
