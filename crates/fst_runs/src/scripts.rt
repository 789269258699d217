//! Whole scripts with each reply, whole runs, hostile lines and such that are nearly right, limits, and streams in pieces
//! or failing.

mod devices;
mod examples;
mod groups;
mod hostile;
mod limits;
mod nearly_right;
mod pages;
mod refusals;
mod rows;
mod streams;
mod told;

use crate::list::push;
use crate::same::same;
use fst_player::play::{PlayFault, play};
use fst_types::Shape;
use std::alloc::{AllocError, Global};
use std::io::{Read, Write};
use std::process::Abort;

// Four blocks of four bytes, of which so many may be in memory at once.
fn shape_of(rt: &impl Abort, resident: u32) -> Shape {
    Shape::new(4, 4, resident).expect(rt, "the shape is within its limits")
}

// Plays what a reader gives over blocks of this shape. The contract says nothing: a test that called `play` itself would
// be proved with all that `play` promises.
fn played_over<R: Read, W: Write>(
    alloc: Global,
    reader: &mut R,
    writer: &mut W,
    shape: Shape,
) -> Option<PlayFault> {
    match play(alloc, reader, writer, shape) {
        Ok(()) => None,
        Err(fault) => Some(fault),
    }
}

// Plays what a reader gives over four blocks of four bytes.
fn played<R: Read, W: Write>(
    rt: &impl Abort,
    alloc: Global,
    reader: &mut R,
    writer: &mut W,
) -> Option<PlayFault> {
    played_over(alloc, reader, writer, shape_of(rt, 4))
}

// The play came to its end.
fn is_done(rt: &impl Abort, ended: Option<PlayFault>) {
    assert!(rt; ended.is_none());
}

// The reader failed.
fn is_unread(rt: &impl Abort, ended: Option<PlayFault>) {
    assert!(rt; matches!(ended, Some(PlayFault::Read)));
}

// The writer failed.
fn is_unwritten(rt: &impl Abort, ended: Option<PlayFault>) {
    assert!(rt; matches!(ended, Some(PlayFault::Write)));
}

// The replies are these.
fn same_replies(rt: &impl Abort, replies: &[u8], expected: &[u8]) {
    same(rt, &replies, &expected);
}

// What is replied to a script over blocks of this shape.
fn replies_over(rt: &impl Abort, alloc: Global, shape: Shape, script: &[u8]) -> Vec<u8> {
    let mut reader = script;
    let mut writer = Vec::new(alloc);
    is_done(rt, played_over(alloc, &mut reader, &mut writer, shape));
    writer
}

// What is replied to a script over four blocks of four bytes, of which so many may be in memory.
fn replies_to(rt: &impl Abort, alloc: Global, resident: u32, script: &[u8]) -> Vec<u8> {
    replies_over(rt, alloc, shape_of(rt, resident), script)
}

// Plays a script over blocks of this shape, and compares all the replies.
fn plays_over(rt: &impl Abort, alloc: Global, shape: Shape, script: &[u8], replies: &[u8]) {
    same_replies(rt, &replies_over(rt, alloc, shape, script), replies);
}

// Plays a script over four blocks of four bytes, of which so many may be in memory, and compares all the replies.
fn plays_to(rt: &impl Abort, alloc: Global, resident: u32, script: &[u8], replies: &[u8]) {
    plays_over(rt, alloc, shape_of(rt, resident), script, replies);
}

// Puts bytes behind a text. Nothing here answers with a `Result`: after each `?` a test's proof has one more path, on
// which all that the test holds is dropped.
fn put(rt: &impl Abort, text: &mut Vec<u8>, more: &[u8]) {
    text.extend_from_slice(more).expect(rt, "there is memory");
}

// Puts a line and its end behind a text.
fn put_line(rt: &impl Abort, text: &mut Vec<u8>, line: &str) {
    put(rt, text, line.as_bytes());
    put(rt, text, b"\n");
}

// Puts a line that was made, and its end, behind a text.
fn put_made(rt: &impl Abort, text: &mut Vec<u8>, line: Result<String, AllocError>) {
    put_line(rt, text, &line.expect(rt, "there is memory"));
}

// A line and its reply: a row has them on both sides of its first arrow.
fn row_of<'a>(rt: &impl Abort, row: &'a str) -> (&'a str, &'a str) {
    row.split_once(" -> ").expect(rt, "an arrow")
}

// Puts the line of a row behind a script, and its reply behind the replies.
fn put_row(rt: &impl Abort, script: &mut Vec<u8>, replies: &mut Vec<u8>, row: &str) {
    let (line, reply) = row_of(rt, row);
    put_line(rt, script, line);
    put_line(rt, replies, reply);
}

// Puts the lines of these rows behind a script, and their replies behind the replies.
fn put_rows(rt: &impl Abort, script: &mut Vec<u8>, replies: &mut Vec<u8>, rows: &str) {
    for row in rows.lines() {
        put_row(rt, script, replies, row);
    }
}

// The rows of a text.
fn rows_of<'a>(rt: &impl Abort, alloc: Global, text: &'a str) -> Vec<&'a str> {
    let mut rows = Vec::new(alloc);
    for row in text.lines() {
        push(rt, &mut rows, row);
    }
    rows
}

// A script by its name, how many of its four blocks may be in memory, and its rows.
type Script = (&'static str, u32, &'static str);

// Plays each of these scripts, and compares all the replies.
fn plays_each(rt: &impl Abort, alloc: Global, scripts: &[Script]) {
    for (name, resident, rows) in scripts {
        let mut script = Vec::new(alloc);
        let mut replies = Vec::new(alloc);
        put_rows(rt, &mut script, &mut replies, rows);
        let told = replies_to(rt, alloc, *resident, &script);
        same(rt, &(*name, told), &(*name, replies));
    }
}
