//! The program's words, and whole runs.

mod whole;

use crate::list::push;
use crate::same::same;
use fst_program::arguments::{Run, args};
use std::alloc::Global;
use std::process::Abort;

// The words of a line, between its spaces.
fn words_of<'a>(rt: &impl Abort, alloc: Global, line: &'a str) -> Vec<&'a str> {
    let mut words = Vec::new(alloc);
    for word in line.split_whitespace() {
        push(rt, &mut words, word);
    }
    words
}

// What the words of a line ask, unless they are refused. The contract says nothing: a test that called `args` itself would
// be proved with all that `args` promises.
fn asked(rt: &impl Abort, alloc: Global, line: &str) -> Option<Run> {
    args(alloc, &words_of(rt, alloc, line)).ok()
}

// The words ask for a script to be played, over so many blocks of so many bytes, of which so many may be in memory.
fn asks_to_play(rt: &impl Abort, alloc: Global, line: &str, expected: (u32, u32, Option<u32>)) {
    let Some(
        Run::Play {
            blocks,
            size,
            resident,
        },
    ) = asked(rt, alloc, line)
    else {
        rt.panic("the words are taken")
    };
    same(rt, &(blocks, size, resident), &expected);
}

// The words ask for a crew of so many file threads, workers and rounds.
fn asks_for_crew(rt: &impl Abort, alloc: Global, line: &str, expected: (u32, u32, u32)) {
    let Some(
        Run::Crew {
            files,
            workers,
            rounds,
        },
    ) = asked(rt, alloc, line)
    else {
        rt.panic("the words are taken")
    };
    same(rt, &(files, workers, rounds), &expected);
}

// Each of these lines is refused.
fn are_refused(rt: &impl Abort, alloc: Global, lines: &[&str]) {
    for line in lines {
        assert!(rt; asked(rt, alloc, line).is_none(), "{line}");
    }
}

#[test]
fn words(rt: HostRuntime) {
    let line = "feather play --size 7 --resident 2";
    asks_to_play(&rt, rt.alloc(), line, (4, 7, Some(2)));
    let refused = [
        "feather play --size 4294967296",
        "feather play --resident -1",
    ];
    are_refused(&rt, rt.alloc(), &refused);
}

#[test]
fn crew_words(rt: HostRuntime) {
    asks_for_crew(&rt, rt.alloc(), "feather crew --rounds 7", (2, 2, 7));
    let refused = [
        "feather crew --blocks 4",
        "feather help crew",
        "feather crews",
    ];
    are_refused(&rt, rt.alloc(), &refused);
}
