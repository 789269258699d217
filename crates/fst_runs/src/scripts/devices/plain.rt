//! What a crash leaves of the changes of a script, told from the rows so far.

use crate::scripts::put;
use crate::scripts::told::{landed, made, number, sent};
use std::alloc::Global;
use std::process::Abort;

/// The block whose write is out after these rows.
pub fn out_of(rows: &[&str]) -> Option<u32> {
    let mut out = None;
    for row in rows {
        if landed(row).is_some() {
            out = None;
        } else if let Some(block) = sent(row) {
            out = Some(block);
        }
    }
    out
}

// Whether the write that goes out has the change.
fn carries(row: &str, change: u32) -> bool {
    let Some((_, patches)) = row.split_once(" patches ") else {
        return false;
    };
    let mut number = 0u32;
    for byte in patches.as_bytes() {
        let digit = byte.wrapping_sub(b'0');
        if digit <= 9 {
            number = number.saturating_mul(10).saturating_add(u32::from(digit));
        } else if number == change {
            return true;
        } else if *byte == b',' {
            number = 0;
        } else {
            return false;
        }
    }
    false
}

// Whether a crash after these rows leaves the change, the write that is out being finished or not.
fn is_left(rows: &[&str], finished: bool, change: u32) -> bool {
    let mut is_out = false;
    let mut has_landed = false;
    for row in rows {
        if landed(row).is_some() {
            has_landed = has_landed || is_out;
        } else if sent(row).is_some() {
            is_out = carries(row, change);
        }
    }
    has_landed || (finished && is_out)
}

/// Whether with each change that is left all that it needs is.
pub fn is_closed(rows: &[&str], finished: bool, needs: &[(u32, u32)]) -> bool {
    for (later, earlier) in needs {
        if is_left(rows, finished, *later) && !is_left(rows, finished, *earlier) {
            return false;
        }
    }
    true
}

// Puts a sign into the reply.
fn put_sign(told: &mut [u8], place: usize, sign: u8) {
    if let Some(there) = told.get_mut(place) {
        *there = sign;
    }
}

// Puts the change of a row into the reply, if it is left.
fn put_change(told: &mut [u8], rows: &[&str], finished: bool, row: &str) {
    let (Some((place, first, second)), Some(change)) = (made(row), number(row, " -> patch ")) else {
        return;
    };
    if is_left(rows, finished, change) {
        put_sign(told, place, first);
        put_sign(told, place.saturating_add(1), second);
    }
}

/// Puts the reply to a crash behind the replies: what all blocks hold, with the changes that are left one over the other.
pub fn put_told(
    rt: &impl Abort,
    alloc: Global,
    replies: &mut Vec<u8>,
    rows: &[&str],
    finished: bool,
) {
    let mut told = Vec::new(alloc);
    put(
        rt,
        &mut told,
        b"crash 00000000 00000000 00000000 00000000\n",
    );
    for row in rows {
        put_change(&mut told, rows, finished, row);
    }
    put(rt, replies, &told);
}
