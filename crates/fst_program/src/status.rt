//! What the program does: from its words and its streams to its status.
//!
//! Status 0: done, also for help. Status 1: a stream failed, the player could not start, the crew was stopped, or memory
//! was refused. Status 2: words or numbers that are refused.

ghost use Rattle.std.specs.Prelude.{◌≡◌, ◌≢◌, ◌≤◌, ◌⊎◌, ℕ, List, Option, map};
ghost use Rattle.fst_program.specs.Arguments.{Asks};
ghost use Rattle.fst_program.specs.Status.{AreRefused, AsksHelp, IsInRange, Ran, RanNothing, WasStopped};
ghost use Rattle.fst_program.specs.declared.arguments.Run.{Run};
ghost use Rattle.clap.specs.Words.{kind_of};

use crate::arguments::{Run, args};
use clap::Error;
use clap::error::ErrorKind;
use fst_crew::crew;
use fst_crew::plan::{CREW_BLOCKS, Crew};
use fst_player::play::play;
use fst_player::zeros::zero_slots;
use fst_types::Shape;
use std::alloc::Global;
use std::io::{Read, Write};
use std::sync::Wait;
use std::thread::Threads;

const DONE: u8 = 0;

const STOPPED: u8 = 1;

const REFUSED: u8 = 2;

/// Tells that the program was stopped.
pub fn stopped<E: Write>(err: &mut E) -> u8
    ensures { result ≡ 1 }
{
    let _ = err.write_all(b"feather: stopped\n");
    STOPPED
}

// Tells that a number is out of its limits.
fn refused<E: Write>(err: &mut E) -> u8
    ensures { result ≡ 2 }
{
    let _ = err.write_all(b"feather: refused 2\n");
    REFUSED
}

// Plays a script. As many blocks as there are may be in memory at once, unless it is said how many.
fn plays<I: Read, O: Write, E: Write>(
    alloc: Global,
    blocks: u32,
    size: u32,
    resident: Option<u32>,
    reader: &mut I,
    out: &mut O,
    err: &mut E,
) -> u8
    ensures done { result ≡ 0 → Ran (Run.Play blocks size resident) (I.remaining reader.old) (I.remaining reader.new) (O.contents out.old) (O.contents out.new) }
    ensures refused { result ≡ 2 → (IsInRange (Run.Play blocks size resident) → ⊥) × (I.remaining reader.new ≡ I.remaining reader.old) × (O.contents out.new ≡ O.contents out.old) }
    ensures stopped { result ≡ 1 → WasStopped (Run.Play blocks size resident) (I.remaining reader.old) (I.remaining reader.new) (O.contents out.old) (O.contents out.new) }
    ensures quiet { result ≡ 0 → E.contents err.new ≡ E.contents err.old }
    ensures known { result ≤ 2 }
{
    let Ok(shape) = Shape::new(blocks, size, resident.unwrap_or(blocks)) else {
        return refused(err);
    };
    match play(alloc, reader, out, shape) {
        Ok(()) => match out.flush() {
            Ok(()) => DONE,
            Err(_) => stopped(err),
        },
        Err(_) => stopped(err),
    }
}

// Runs a crew over zero blocks in memory.
fn crews<R: Threads + Wait + Sync, O: Write, E: Write>(
    rt: &R,
    alloc: Global,
    files: u32,
    workers: u32,
    rounds: u32,
    out: &mut O,
    err: &mut E,
) -> u8
    ensures done { result ≡ 0 → (unread : Option (List ℕ)) → Ran (Run.Crew files workers rounds) unread unread (O.contents out.old) (O.contents out.new) }
    ensures refused { result ≡ 2 → (IsInRange (Run.Crew files workers rounds) → ⊥) × (O.contents out.new ≡ O.contents out.old) }
    ensures quiet { result ≡ 0 → E.contents err.new ≡ E.contents err.old }
    ensures known { result ≤ 2 }
{
    let Ok(plan) = Crew::new(files, workers, rounds) else {
        return refused(err);
    };
    let Ok(slots) = zero_slots(alloc, CREW_BLOCKS, CREW_BLOCKS) else {
        return stopped(err);
    };
    let worked = crew(rt, alloc, slots, plan, out);
    if worked.is_ok() && out.flush().is_ok() {
        return DONE;
    }
    stopped(err)
}

// Tells what `clap` answered in place of a run: help, or why the words are refused.
fn tell<O: Write, E: Write>(error: &Error, out: &mut O, err: &mut E) -> u8
    ensures done { result ≡ 0 → kind_of error.now ≡ ErrorKind.DisplayHelp }
    ensures refused { result ≡ 2 → (kind_of error.now ≢ ErrorKind.DisplayHelp) × (kind_of error.now ≢ ErrorKind.OutOfMemory) × (O.contents out.new ≡ O.contents out.old) }
    ensures stopped { result ≡ 1 → (kind_of error.now ≡ ErrorKind.DisplayHelp) ⊎ (O.contents out.new ≡ O.contents out.old) }
    ensures quiet { result ≡ 0 → E.contents err.new ≡ E.contents err.old }
    ensures known { result ≤ 2 }
{
    match error.kind() {
        ErrorKind::OutOfMemory => stopped(err),
        ErrorKind::DisplayHelp => {
            if write!(out, "{error}").is_ok() && out.flush().is_ok() {
                return DONE;
            }
            stopped(err)
        }
        _ => {
            let _ = write!(err, "{error}");
            REFUSED
        }
    }
}

/// Does what the words ask, the program's name first, and answers the status. Replies, what a crew prints and help go
/// to `out`; why the words are refused, and that the program was stopped, to `err`, where a failure is passed over. Nothing
/// goes there where the status is 0.
pub fn carry_out<R: Threads + Wait + Sync, I: Read, O: Write, E: Write>(
    rt: &R,
    alloc: Global,
    words: &[&str],
    reader: &mut I,
    out: &mut O,
    err: &mut E,
) -> u8
    ensures done { result ≡ 0 → ((run : Run) × Asks (map (λ w. w.now) words.now) run × Ran run (I.remaining reader.old) (I.remaining reader.new) (O.contents out.old) (O.contents out.new)) ⊎ (AsksHelp (map (λ w. w.now) words.now) × (I.remaining reader.new ≡ I.remaining reader.old)) }
    ensures refused { result ≡ 2 → AreRefused (map (λ w. w.now) words.now) × (I.remaining reader.new ≡ I.remaining reader.old) × (O.contents out.new ≡ O.contents out.old) }
    ensures stopped { result ≡ 1 → ((run : Run) × Asks (map (λ w. w.now) words.now) run × WasStopped run (I.remaining reader.old) (I.remaining reader.new) (O.contents out.old) (O.contents out.new)) ⊎ RanNothing (map (λ w. w.now) words.now) (I.remaining reader.old) (I.remaining reader.new) (O.contents out.old) (O.contents out.new) }
    ensures quiet { result ≡ 0 → E.contents err.new ≡ E.contents err.old }
    ensures known { result ≤ 2 }
{
    match args(alloc, words) {
        Ok(
            Run::Play {
                blocks,
                size,
                resident,
            },
        ) => plays(alloc, blocks, size, resident, reader, out, err),
        Ok(
            Run::Crew {
                files,
                workers,
                rounds,
            },
        ) => crews(rt, alloc, files, workers, rounds, out, err),
        Err(error) => tell(&error, out, err),
    }
}
