//! Whole runs of the program: its words, what it prints, and its status.

use crate::program::words_of;
use crate::same::{same_text, starts_with};
use crate::stopping::{NoRoom, with_room};
use crate::workers::crew::ROW;
use fst_program::status::carry_out;
use std::alloc::Global;
use std::io::Write;
use std::process::Abort;
use std::sync::Wait;
use std::thread::Threads;

// Runs the program on the words of a line and on a script, its replies to this writer: its status, and what it complained
// of. The contract says nothing, as that of each helper of the tests.
fn ran_to<R: Threads + Wait + Sync + Abort, W: Write>(
    rt: &R,
    alloc: Global,
    line: &str,
    script: &str,
    out: &mut W,
) -> (u8, Vec<u8>) {
    let words = words_of(rt, alloc, line);
    let mut reader = script.as_bytes();
    let mut err = Vec::new(alloc);
    let status = carry_out(rt, alloc, &words, &mut reader, out, &mut err);
    (status, err)
}

// The status, and what was printed where.
fn ran<R: Threads + Wait + Sync + Abort>(
    rt: &R,
    alloc: Global,
    line: &str,
    script: &str,
) -> (u8, Vec<u8>, Vec<u8>) {
    let mut out = Vec::new(alloc);
    let (status, err) = ran_to(rt, alloc, line, script, &mut out);
    (status, out, err)
}

fn has_status(rt: &impl Abort, line: &str, status: u8, expected: u8) {
    assert!(rt; status == expected, "{line} ends with {status}");
}

const PICK: &str = "{\"do\":\"pick\"}\n";

const CREW_HELP: &str =
    "Has threads change 8 blocks of 8 bytes while other threads write them, and prints what they hold\n\nUsage: feather crew [OPTIONS]\n\nOptions:\n      --files <files>      How many threads change blocks: 1 to 8 [default: 2]\n      --workers <workers>  How many threads write blocks: 1 to 8 [default: 2]\n      --rounds <rounds>    How many changes each file thread makes: 1 to 1000 [default: 10]\n  -h, --help               Print help\n";

// Words, a script, the status that they end with, and what is printed to the one stream and the other.
const RUNS: &[(&str, &str, u8, &str, &str)] = &[
    ("feather", PICK, 0, "pick none\n", ""),
    (
        "feather crew --files 2 --workers 2 --rounds 10",
        "",
        0,
        ROW,
        "",
    ),
    (
        "feather play --blocks 4097",
        PICK,
        2,
        "",
        "feather: refused 2\n",
    ),
    (
        "feather crew --rounds 1001",
        "",
        2,
        "",
        "feather: refused 2\n",
    ),
    ("feather crew --help", "", 0, CREW_HELP, ""),
];

#[test]
fn whole_runs(rt: HostRuntime) {
    for (line, script, expected, told, complained) in RUNS {
        let (status, out, err) = ran(&rt, rt.alloc(), line, script);
        has_status(&rt, line, status, *expected);
        same_text(&rt, &out, told);
        same_text(&rt, &err, complained);
    }
}

// The writer takes four bytes of the reply, and then fails.
#[test]
fn stopped_run(rt: HostRuntime) {
    let mut out = with_room(rt.alloc(), 4, NoRoom::Fails);
    let (status, err) = ran_to(&rt, rt.alloc(), "feather", PICK, &mut out);
    has_status(&rt, "feather", status, 1);
    same_text(&rt, &out.held, "pick");
    same_text(&rt, &err, "feather: stopped\n");
}

// The last words of `clap`'s texts are its own.
const BEGINNINGS: &[(&str, u8, &str, &str)] = &[
    (
        "feather crew --blocks 4",
        2,
        "",
        "error: unexpected argument '--blocks' found\n",
    ),
    (
        "feather --help",
        0,
        "A cache of disk blocks whose changes say what they come after.",
        "",
    ),
];

// A text that begins so, or is empty.
fn begins(rt: &impl Abort, bytes: &[u8], expected: &str) {
    assert!(rt; bytes.is_empty() == expected.is_empty());
    starts_with(rt, bytes, expected);
}

#[test]
fn beginnings_of_texts(rt: HostRuntime) {
    for (line, expected, told, complained) in BEGINNINGS {
        let (status, out, err) = ran(&rt, rt.alloc(), line, "");
        has_status(&rt, line, status, *expected);
        begins(&rt, &out, told);
        begins(&rt, &err, complained);
    }
}
