//! The calls of a graph as text: each row has a call on the left of its arrow, and its answer on the right. Proving a test
//! costs what its code is long, so what the rows have in common is code once, here, and rows are text: as values of a type
//! with a form for each call they would cost several times as much.
//!
//! A call is its name, the numbers that it takes, and behind `after` those that it names, `7*65` being 65 times 7. An answer
//! is as `Debug` prints it. The calls are those of `Checked`, but that `byte` and `pair` make a change of one byte at a place
//! and of the first two bytes of a block, and `empties` and `groups` so many of these, the first of all.

use crate::graph::checked::Checked;
use crate::list::push;
use fst_types::{BlockNo, GroupNo, PatchNo, Span};
use std::alloc::Global;
use std::fmt::Debug;
use std::process::Abort;

const PAIR: Span = Span { at: 0, len: 2 };

// One byte.
fn byte(at: u32) -> Span {
    Span { at, len: 1 }
}

// A number that stands alone, or before a sign.
fn parsed(rt: &impl Abort, text: &str) -> u32 {
    text.parse::<u32>().ok().expect(rt, "a number")
}

// Puts a number so many times behind the numbers.
fn put(rt: &impl Abort, numbers: &mut Vec<PatchNo>, no: u32, times: u32) {
    for _ in 0..times {
        push(rt, numbers, PatchNo(no));
    }
}

// The numbers of a text.
fn numbers_of(rt: &impl Abort, alloc: Global, text: &str) -> Vec<PatchNo> {
    let mut numbers = Vec::new(alloc);
    for word in text.split_whitespace() {
        let (no, times) = word.split_once("*").unwrap_or((word, "1"));
        put(rt, &mut numbers, parsed(rt, no), parsed(rt, times));
    }
    numbers
}

// One of the numbers of a call, by its place.
fn number(rt: &impl Abort, numbers: &[PatchNo], at: usize) -> u32 {
    numbers.get(at).expect(rt, "a number").0
}

// The answer is the one of the row.
fn told<T: Debug>(rt: &impl Abort, alloc: Global, row: &str, answer: &T) {
    let text = format!(in alloc; "{answer:?}").expect(rt, "there is memory");
    let (_, expected) = row.split_once(" -> ").expect(rt, "an arrow");
    assert_eq!(rt; text.as_str(), expected, "{row}");
}

// The group with one of the numbers of a call.
fn group(rt: &impl Abort, numbers: &[PatchNo], at: usize) -> GroupNo {
    GroupNo(number(rt, numbers, at))
}

// A call that makes a patch or tells what would be made.
fn make(
    rt: &impl Abort,
    alloc: Global,
    graph: &mut Checked,
    row: &str,
    call: &str,
    numbers: &[PatchNo],
    after: &[PatchNo],
) {
    match call {
        "gate" => told(rt, alloc, row, &graph.gate()),
        "empty" => told(rt, alloc, row, &graph.empty(after)),
        "byte" => {
            let span = byte(number(rt, numbers, 1));
            let answer = graph.change(rt, number(rt, numbers, 0), span, after);
            told(rt, alloc, row, &answer);
        }
        "pair" => {
            let answer = graph.change(rt, number(rt, numbers, 0), PAIR, after);
            told(rt, alloc, row, &answer);
        }
        "room" => {
            let answer = graph.room(rt, number(rt, numbers, 0), PAIR, after);
            told(rt, alloc, row, &answer);
        }
        "depend" => {
            let answer = graph.depend(PatchNo(number(rt, numbers, 0)), after);
            told(rt, alloc, row, &answer);
        }
        "seal" => told(rt, alloc, row, &graph.seal(PatchNo(number(rt, numbers, 0)))),
        _ => make_group(rt, alloc, graph, row, call, numbers),
    }
}

// A call of a group.
fn make_group(
    rt: &impl Abort,
    alloc: Global,
    graph: &mut Checked,
    row: &str,
    call: &str,
    numbers: &[PatchNo],
) {
    match call {
        "group" => told(rt, alloc, row, &graph.group()),
        "member" => {
            let span = byte(number(rt, numbers, 2));
            let answer = graph.member(rt, group(rt, numbers, 0), number(rt, numbers, 1), span);
            told(rt, alloc, row, &answer);
        }
        "group_room" => {
            let span = byte(number(rt, numbers, 2));
            let answer = graph.group_room(rt, group(rt, numbers, 0), number(rt, numbers, 1), span);
            told(rt, alloc, row, &answer);
        }
        "group_after" => {
            let answer = graph.group_after(group(rt, numbers, 0), group(rt, numbers, 1));
            told(rt, alloc, row, &answer);
        }
        "group_close" => told(rt, alloc, row, &graph.group_close(group(rt, numbers, 0))),
        _ => look(rt, alloc, graph, row, call, numbers),
    }
}

// A call that looks, or forgets.
fn look(
    rt: &impl Abort,
    alloc: Global,
    graph: &mut Checked,
    row: &str,
    call: &str,
    numbers: &[PatchNo],
) {
    match call {
        "live" => told(rt, alloc, row, &graph.live()),
        "forget" => told(rt, alloc, row, &graph.forget()),
        "pick" => told(rt, alloc, row, &graph.pick()),
        "place" => told(
            rt,
            alloc,
            row,
            &graph.place(PatchNo(number(rt, numbers, 0))),
        ),
        "chosen" => told(rt, alloc, row, &graph.chosen(rt, number(rt, numbers, 0))),
        "held" => told(rt, alloc, row, &graph.held(number(rt, numbers, 0))),
        _ => write(rt, alloc, graph, row, call, numbers),
    }
}

// A call that writes, or many calls.
fn write(
    rt: &impl Abort,
    alloc: Global,
    graph: &mut Checked,
    row: &str,
    call: &str,
    numbers: &[PatchNo],
) {
    match call {
        "launch" => told(rt, alloc, row, &graph.launch_next(rt)),
        "land" => told(rt, alloc, row, &graph.land(number(rt, numbers, 0))),
        "write" => told(rt, alloc, row, &graph.write(rt, number(rt, numbers, 0))),
        "empties" => graph.empties(rt, number(rt, numbers, 0)),
        "groups" => graph.groups(rt, number(rt, numbers, 0)),
        _ => rt.panic("a row that no call takes"),
    }
}

// Takes the call of a row, and compares its answer.
fn take(rt: &impl Abort, alloc: Global, graph: &mut Checked, row: &str) {
    let (asked, _) = row.split_once(" -> ").unwrap_or((row, ""));
    let (asked, after) = asked.split_once(" after ").unwrap_or((asked, ""));
    let (call, numbers) = asked.split_once(" ").unwrap_or((asked, ""));
    let numbers = numbers_of(rt, alloc, numbers);
    let after = numbers_of(rt, alloc, after);
    make(rt, alloc, graph, row, call, &numbers, &after);
}

// Takes each row, over a graph without patches, the numbers up to the given one counting as on disk and forgotten.
fn walk(rt: &impl Abort, alloc: Global, numbers: u32, rows: &str) {
    let mut graph = Checked::new(rt, alloc, 4, numbers);
    for row in rows.lines() {
        take(rt, alloc, &mut graph, row);
    }
    graph.end();
}

/// Takes the rows of each of these, over a new graph each, with so many numbers used.
pub fn walk_each(rt: &impl Abort, alloc: Global, tables: &[(u32, &str)]) {
    for (numbers, rows) in tables {
        walk(rt, alloc, *numbers, rows);
    }
}
