//! Devices that fail, and crashes at any time: each write of a script fails once, before the bytes change and after, and
//! the disk at the end is the same; and after each line, whichever writes are finished, a crash leaves what a plain list
//! of the changes says.

mod plain;
mod scripts;

use crate::scripts::devices::plain::{is_closed, out_of, put_told};
use crate::scripts::devices::scripts::SCRIPTS;
use crate::scripts::told::landed;
use crate::scripts::{plays_to, put_line, put_made, put_row, replies_to, row_of, rows_of};
use std::alloc::Global;
use std::process::Abort;

// Puts a crash after these lines, which finishes this block's write, and the reply that tells what it is to leave.
fn put_crash(
    rt: &impl Abort,
    alloc: Global,
    lines: &mut Vec<u8>,
    replies: &mut Vec<u8>,
    rows: &[&str],
    finished: Option<u32>,
) {
    match finished {
        None => put_line(rt, lines, r#"{"do":"crash","finish":[]}"#),
        Some(block) => {
            let crash = format!(in alloc; "{{\"do\":\"crash\",\"finish\":[{block}]}}");
            put_made(rt, lines, crash);
        }
    }
    put_told(rt, alloc, replies, rows, finished.is_some());
}

// Puts a crash after these lines for each set of writes that may be finished, and the replies. With each change that is
// left, all that it needs is left.
fn put_crashes(
    rt: &impl Abort,
    alloc: Global,
    lines: &mut Vec<u8>,
    replies: &mut Vec<u8>,
    rows: &[&str],
    needs: &[(u32, u32)],
) {
    assert!(rt; is_closed(rows, false, needs) && is_closed(rows, true, needs));
    put_crash(rt, alloc, lines, replies, rows, None);
    if let Some(block) = out_of(rows) {
        put_crash(rt, alloc, lines, replies, rows, Some(block));
    }
}

// The script with a crash after each line for each set of writes that may be finished, and the replies.
fn crashes(rt: &impl Abort, alloc: Global, text: &str, needs: &[(u32, u32)]) {
    let rows = rows_of(rt, alloc, text);
    let mut lines = Vec::new(alloc);
    let mut replies = Vec::new(alloc);
    for (at, row) in rows.iter().enumerate() {
        put_row(rt, &mut lines, &mut replies, row);
        put_crashes(rt, alloc, &mut lines, &mut replies, &rows[..at + 1], needs);
    }
    plays_to(rt, alloc, 4, &lines, &replies);
}

#[test]
fn every_crash_leaves_a_closed_set(rt: HostRuntime) {
    for (text, needs, _) in SCRIPTS {
        crashes(&rt, rt.alloc(), text, needs);
    }
}

// Puts a completion that fails this way, and a retry of the block.
fn put_failure(
    rt: &impl Abort,
    alloc: Global,
    lines: &mut Vec<u8>,
    ticket: u32,
    block: u32,
    how: &str,
) {
    let done = format!(in alloc; "{{\"do\":\"done\",\"ticket\":{ticket},\"fail\":\"{how}\"}}");
    put_made(rt, lines, done);
    let retry = format!(in alloc; "{{\"do\":\"retry\",\"block\":{block}}}");
    put_made(rt, lines, retry);
}

// Puts a completion that works.
fn put_done(rt: &impl Abort, alloc: Global, lines: &mut Vec<u8>, ticket: u32) {
    let done = format!(in alloc; "{{\"do\":\"done\",\"ticket\":{ticket}}}");
    put_made(rt, lines, done);
}

// The script's lines with its nth write failing once, and being tried again: each ticket from there on is one more.
fn failing_once(rt: &impl Abort, alloc: Global, rows: &[&str], nth: u32, how: &str) -> Vec<u8> {
    let mut lines = Vec::new(alloc);
    let mut ticket = 0u32;
    let mut count = 0u32;
    for row in rows {
        if let Some(block) = landed(row) {
            ticket = ticket.saturating_add(1);
            if count == nth {
                put_failure(rt, alloc, &mut lines, ticket, block, how);
                ticket = ticket.saturating_add(1);
            }
            put_done(rt, alloc, &mut lines, ticket);
            count = count.saturating_add(1);
        } else {
            put_line(rt, &mut lines, row_of(rt, row).0);
        }
    }
    assert!(rt; nth < count);
    lines
}

// Plays the script with its nth write failing once, and being tried again. The disk at the end is that of all the changes
// that landed.
fn fails_once(rt: &impl Abort, alloc: Global, rows: &[&str], nth: u32, how: &str) {
    let mut lines = failing_once(rt, alloc, rows, nth, how);
    let mut want = Vec::new(alloc);
    put_crash(rt, alloc, &mut lines, &mut want, rows, None);
    assert!(rt;
        replies_to(rt, alloc, 4, &lines).ends_with(&want),
        "write {nth} fails {how} the bytes change"
    );
}

// Each write of the script fails, before the bytes change and after.
#[test]
fn each_write_fails_once_and_is_tried_again(rt: HostRuntime) {
    for (text, _, writes) in SCRIPTS {
        let rows = rows_of(&rt, rt.alloc(), text);
        for nth in 0..*writes {
            fails_once(&rt, rt.alloc(), &rows, nth, "before");
            fails_once(&rt, rt.alloc(), &rows, nth, "after");
        }
    }
}
