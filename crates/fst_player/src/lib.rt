//! A player: it answers the lines of a script, one reply each, over a cache whose blocks are in memory.
//!
//! `play` reads a script from any reader, in whatever pieces it comes, and writes the replies to any writer. What it
//! promises is a run of the definitions in `specs/Script.antt` over the lines of what was given: each line is one step of the
//! cache with its reply, or a refusal that changes nothing. Where the reader or the writer fails, what was written is a
//! beginning of such a run.
//!
//! From the bottom: `player` has a file for each group of commands, over a cache, the jobs that wait for their `done`, and
//! what is committed of each block (`committed`), from which `crash` tells what the disk would hold without a look at
//! the cache's blocks. The changes that were accepted are kept for contracts alone (`made`): no line takes memory for
//! longer than it is answered, whatever was said before it. `line` is the line that is read, as far as it is kept, and
//! `session` answers each line where it ends. `play` is the loop over the stream, and `zeros` the slots that a play
//! begins with. `laws` says, over the definitions alone, that a script's run is a run of the cache, and that what is told
//! of a crash is what the crash leaves.
//!
//! How a line is read and how a reply is spelled is a layer below (`fst_lines`); the words of a command line are the
//! program's.
#![tactic(auto)]

mod committed;
pub mod laws;
mod line;
mod made;
pub mod play;
mod player;
mod session;
pub mod zeros;
