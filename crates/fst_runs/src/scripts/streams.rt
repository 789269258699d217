//! Streams in pieces, and streams that fail.

ghost use Rattle.std.specs.Prelude.{Some};

use crate::scripts::rows::order::CYCLE_OF_BLOCKS;
use crate::scripts::{
    is_done, is_unread, is_unwritten, played, plays_to, put, put_line, put_rows, row_of,
    same_replies,
};
use crate::stopping::{NoRoom, with_room};
use std::alloc::Global;
use std::io;
use std::io::{BufWriter, Read, Write};
use std::process::Abort;

const SCRIPT: &[u8] =
    b"{\"do\":\"pat\n{\"do\":\"fly\"}\n{\"do\":\"patch\",\"block\":0,\"at\":0,\"data\":\"4\"}\n\n{\"do\":";

const REPLIES: &[u8] = b"refused 1\nrefused 2\nrefused 2\nrefused 1\nrefused 1\n";

// Gives a byte at a time, and at the end an error, if it fails.
#[derive(Drop)]
struct Single<'a> {
    rest: &'a [u8],
    fails: bool,
}

impl Read for Single<'_> {
    ghost remaining = { λ s. Some s.rest.now };

    fn read(&mut self, buf: &mut [u8]) -> io::Result<usize> {
        let Some((first, rest)) = self.rest.split_first() else {
            if self.fails {
                return Err(io::Error::from(io::ErrorKind::Other));
            }
            return Ok(0);
        };
        if buf.is_empty() {
            return Ok(0);
        }
        buf[0] = *first;
        self.rest = rest;
        Ok(1)
    }
}

// Takes all, counts the writes, and is never flushed if it fails to be.
#[derive(Drop)]
struct Counting {
    held: Vec<u8>,
    writes: usize,
    fails_to_flush: bool,
}

impl Write for Counting {
    ghost contents = { λ w. Some w.held.items };

    fn write(&mut self, buf: &[u8]) -> io::Result<usize> {
        self.held.extend_from_slice(buf)?;
        self.writes = self.writes.saturating_add(1);
        Ok(buf.len())
    }

    fn flush(&mut self) -> io::Result<()> {
        if self.fails_to_flush {
            return Err(io::Error::from(io::ErrorKind::Other));
        }
        Ok(())
    }
}

#[test]
fn no_input(rt: HostRuntime) {
    plays_to(&rt, rt.alloc(), 4, b"", b"");
}

// A byte of the script at a time, and at its end an error, if it fails.
fn bytewise(fails: bool) -> Single<'static> {
    Single {
        rest: SCRIPT,
        fails,
    }
}

// From a reader of single bytes to a writer of such, which has room for all replies.
fn plays_bytewise(rt: &impl Abort, alloc: Global) {
    let mut writer = with_room(alloc, REPLIES.len(), NoRoom::Fails);
    is_done(rt, played(rt, alloc, &mut bytewise(false), &mut writer));
    same_replies(rt, &writer.held, REPLIES);
}

#[test]
fn one_piece_or_many(rt: HostRuntime) {
    plays_to(&rt, rt.alloc(), 4, SCRIPT, REPLIES);
    plays_bytewise(&rt, rt.alloc());
}

#[test]
fn failing_reader(rt: HostRuntime) {
    let mut writer = Vec::new(rt.alloc());
    let ended = played(&rt, rt.alloc(), &mut bytewise(true), &mut writer);
    is_unread(&rt, ended);
    same_replies(&rt, &writer, &REPLIES[..40]);
}

// The writer takes these bytes, and then fails.
fn fails_after(rt: &impl Abort, alloc: Global, written: &[u8]) {
    let mut writer = with_room(alloc, written.len(), NoRoom::Fails);
    is_unwritten(rt, played(rt, alloc, &mut bytewise(false), &mut writer));
    same_replies(rt, &writer.held, written);
}

#[test]
fn failing_writer(rt: HostRuntime) {
    for room in 0..REPLIES.len() {
        fails_after(&rt, rt.alloc(), &REPLIES[..room]);
    }
}

// Plays whole lines and a part of one, which is no JSON.
fn plays_part(rt: &impl Abort, alloc: Global, script: &[u8], replies: &[u8], part: &[u8]) {
    let mut cut = Vec::new(alloc);
    put(rt, &mut cut, script);
    put(rt, &mut cut, part);
    let mut told = Vec::new(alloc);
    put(rt, &mut told, replies);
    put(rt, &mut told, b"refused 1\n");
    plays_to(rt, alloc, 4, &cut, &told);
}

// A script cut at each byte: its whole lines are answered as they were, and a part of a line is no JSON.
#[test]
fn cut_at_each_byte(rt: HostRuntime) {
    let mut script = Vec::new(rt.alloc());
    let mut replies = Vec::new(rt.alloc());
    for row in CYCLE_OF_BLOCKS.lines() {
        let (line, reply) = row_of(&rt, row);
        for end in 1..line.len() {
            plays_part(&rt, rt.alloc(), &script, &replies, &line.as_bytes()[..end]);
        }
        put(&rt, &mut script, line.as_bytes());
        put_line(&rt, &mut replies, reply);
        plays_to(&rt, rt.alloc(), 4, &script, &replies);
        put(&rt, &mut script, b"\n");
    }
}

// A writer that stops after so many bytes has these, and nothing more.
fn stops(rt: &impl Abort, alloc: Global, script: &[u8], then: NoRoom, written: &[u8]) {
    let mut reader = script;
    let mut writer = with_room(alloc, written.len(), then);
    is_unwritten(rt, played(rt, alloc, &mut reader, &mut writer));
    same_replies(rt, &writer.held, written);
}

// After one error of the writer, or a write of no byte, nothing more is written.
#[test]
fn writer_that_stops_once(rt: HostRuntime) {
    let mut script = Vec::new(rt.alloc());
    let mut replies = Vec::new(rt.alloc());
    put_rows(&rt, &mut script, &mut replies, CYCLE_OF_BLOCKS);
    for then in [NoRoom::TakesNothing, NoRoom::FailsOnce] {
        for room in 0..replies.len() {
            stops(&rt, rt.alloc(), &script, then, &replies[..room]);
        }
    }
}

// The reader fails behind the script, and a buffer before the writer holds none of these replies back.
fn holds_nothing_back(rt: &impl Abort, alloc: Global, script: &[u8], replies: Option<&[u8]>) {
    let mut reader = Single {
        rest: script,
        fails: true,
    };
    let mut writer = BufWriter::new(alloc, Vec::new(alloc)).expect(rt, "there is memory");
    is_unread(rt, played(rt, alloc, &mut reader, &mut writer));
    assert!(rt; writer.buffer().is_empty());
    same_replies(rt, writer.get_ref(), replies.expect(rt, "a beginning"));
}

// Wherever the reader fails, a buffer before the writer holds nothing back: the next line may wait for the replies.
#[test]
fn replies_before_the_next_read(rt: HostRuntime) {
    let mut ended = 0;
    for (end, byte) in SCRIPT.iter().enumerate() {
        holds_nothing_back(&rt, rt.alloc(), &SCRIPT[..end], REPLIES.get(..ended));
        if *byte == b'\n' {
            ended = ended.saturating_add(b"refused 1\n".len());
        }
    }
}

// Behind a buffer, one write for the lines of a piece, and one for a last line without an end.
#[test]
fn one_write_a_piece(rt: HostRuntime) {
    let counting = Counting {
        held: Vec::new(rt.alloc()),
        writes: 0,
        fails_to_flush: false,
    };
    let mut reader = SCRIPT;
    let mut writer = BufWriter::new(rt.alloc(), counting).expect(&rt, "there is memory");
    is_done(&rt, played(&rt, rt.alloc(), &mut reader, &mut writer));
    assert!(rt; writer.buffer().is_empty());
    same_replies(&rt, &writer.get_ref().held, REPLIES);
    assert!(rt; writer.get_ref().writes == 2);
}

// A writer that took the replies and can not be flushed has failed.
#[test]
fn failing_flush(rt: HostRuntime) {
    let mut reader = SCRIPT;
    let mut writer = Counting {
        held: Vec::new(rt.alloc()),
        writes: 0,
        fails_to_flush: true,
    };
    is_unwritten(&rt, played(&rt, rt.alloc(), &mut reader, &mut writer));
    same_replies(&rt, &writer.held, &REPLIES[..40]);
}
