//! Groups: which may come after which one, what is left of them once their changes were forgotten, and after each line,
//! whichever writes are finished, what a crash leaves of them. What a lost block holds back.

mod order;
mod scripts;

use crate::scripts::groups::order::{are_out, is_in_order, is_whole};
use crate::scripts::groups::scripts::{
    FORGOTTEN_CHANGES, LOST_CHANGE, OWN_TAIL, THROUGH_AN_EMPTY_GROUP, TWO_GROUPS,
};
use crate::scripts::{Script, plays_each, put_line, put_made, replies_to, row_of, rows_of};
use std::alloc::Global;
use std::process::Abort;
use std::str::Lines;

// Which group comes after which one, in one call or through other groups.
type Order = &'static [(u32, u32)];

// Each set of four blocks as a line has it, and its blocks. A set stands behind all its parts.
const SETS: &[(&str, &[u32])] = &[
    ("", &[]),
    ("0", &[0]),
    ("1", &[1]),
    ("0,1", &[0, 1]),
    ("2", &[2]),
    ("0,2", &[0, 2]),
    ("1,2", &[1, 2]),
    ("0,1,2", &[0, 1, 2]),
    ("3", &[3]),
    ("0,3", &[0, 3]),
    ("1,3", &[1, 3]),
    ("0,1,3", &[0, 1, 3]),
    ("2,3", &[2, 3]),
    ("0,2,3", &[0, 2, 3]),
    ("1,2,3", &[1, 2, 3]),
    ("0,1,2,3", &[0, 1, 2, 3]),
];

// Puts a crash for each set of the writes that are out after these lines behind a script.
fn put_crashes(rt: &impl Abort, alloc: Global, script: &mut Vec<u8>, rows: &[&str]) {
    for (set, blocks) in SETS {
        if are_out(rows, blocks) {
            let crash = format!(in alloc; "{{\"do\":\"crash\",\"finish\":[{set}]}}");
            put_made(rt, script, crash);
        }
    }
}

// The lines, with a crash after each one for each set of the writes that are out.
fn with_crashes(rt: &impl Abort, alloc: Global, rows: &[&str]) -> Vec<u8> {
    let mut script = Vec::new(alloc);
    for (at, row) in rows.iter().enumerate() {
        let (line, _) = row_of(rt, row);
        put_line(rt, &mut script, line);
        put_crashes(rt, alloc, &mut script, &rows[..at + 1]);
    }
    script
}

// Judges the replies to the crashes after a line. Whether the last one leaves all changes.
fn judge_crashes(
    rt: &impl Abort,
    rows: &[&str],
    order: Order,
    line: &str,
    told: &mut Lines<'_>,
) -> bool {
    let mut whole = true;
    for (set, blocks) in SETS {
        if are_out(rows, blocks) {
            let crash = told.next().unwrap_or("");
            assert!(rt;
                crash.starts_with("crash ") && is_in_order(rows, order, crash),
                "{crash} after {line}, [{set}] being finished"
            );
            whole = is_whole(rows, crash);
        }
    }
    whole
}

// Judges the replies to the lines and to the crashes. Whether the last crash leaves all changes.
fn judge(rt: &impl Abort, rows: &[&str], order: Order, replies: &str) -> bool {
    let mut told = replies.lines();
    let mut whole = true;
    for (at, row) in rows.iter().enumerate() {
        let (line, expected) = row_of(rt, row);
        let reply = told.next().unwrap_or("");
        assert!(rt; reply == expected, "{reply} to {line}");
        whole = judge_crashes(rt, &rows[..at + 1], order, line, &mut told);
    }
    assert!(rt; told.next().is_none());
    whole
}

// Plays the rows with all crashes. Whether the last one, which finishes all writes, leaves all changes.
fn ends_whole(rt: &impl Abort, alloc: Global, text: &str, order: Order) -> bool {
    let rows = rows_of(rt, alloc, text);
    let replies = replies_to(rt, alloc, 4, &with_crashes(rt, alloc, &rows));
    let replies = std::str::from_utf8(&replies).expect(rt, "the replies are text");
    judge(rt, &rows, order, replies)
}

// The rows of a script, which group comes after which one, and whether all changes are left at the end.
const ORDERS: &[(&str, Order, bool)] = &[
    (TWO_GROUPS, &[(3, 1)], true),
    (OWN_TAIL, &[(3, 1)], true),
    (THROUGH_AN_EMPTY_GROUP, &[(5, 3), (3, 1), (5, 1)], true),
    (FORGOTTEN_CHANGES, &[(4, 1), (8, 1), (8, 4)], true),
    (LOST_CHANGE, &[(3, 1)], false),
];

#[test]
fn every_crash_leaves_groups_in_order(rt: HostRuntime) {
    for (text, order, whole) in ORDERS {
        assert!(rt; ends_whole(&rt, rt.alloc(), text, *order) == *whole);
    }
}

// Whether the judge finds the groups of two in order that a crash after so many lines leaves.
fn is_judged(rt: &impl Abort, rows: &[&str], lines: usize, crash: &str, expected: bool) {
    let rows = rows.get(..lines).expect(rt, "so many lines");
    assert!(rt; is_in_order(rows, &[(3, 1)], crash) == expected, "{crash}");
}

// After so many lines of the two groups, what a crash leaves, and whether it may. What the judge refuses: a change of the
// second group without one of the first, or with an open first group, which is closed by the eleventh line.
const JUDGED: &[(usize, &str, bool)] = &[
    (10, "crash 41000000 42000000 43000000 00000000", false),
    (16, "crash 41000000 42000000 43000000 00000000", true),
    (16, "crash 41000000 42000000 00000000 00000000", false),
    (16, "crash 41000000 00000000 00000000 00000000", true),
];

#[test]
fn groups_out_of_order(rt: HostRuntime) {
    let rows = rows_of(&rt, rt.alloc(), TWO_GROUPS);
    for (lines, crash, expected) in JUDGED {
        is_judged(&rt, &rows, *lines, crash, *expected);
    }
}

// Groups without changes, each after the one before it: the first cannot come after the last.
const GROUPS_WITHOUT_CHANGES: &str = r#"{"do":"group"} -> group 1
{"do":"group"} -> group 3
{"do":"group"} -> group 5
{"do":"group_after","group":3,"on":1} -> group_after 3
{"do":"group_after","group":5,"on":3} -> group_after 5
{"do":"group_after","group":1,"on":5} -> refused 8
{"do":"group_after","group":1,"on":1} -> refused 8
{"do":"group_close","group":5} -> group_close 5
{"do":"group_close","group":3} -> group_close 3
{"do":"stat"} -> stat made 6 live 6 undo 0 flights 0
{"do":"group_close","group":1} -> group_close 1
{"do":"stat"} -> stat made 6 live 0 undo 0 flights 0
"#;

// What waits for a lost block waits for good, and with a hard change all of its block and what waits for that.
const BEHIND_A_LOST_BLOCK: &str = r#"{"do":"patch","block":0,"at":0,"data":"41"} -> patch 1 hard
{"do":"patch","block":1,"at":0,"data":"42","after":[1]} -> patch 2 hard
{"do":"write","block":0} -> flight 1 block 0 patches 1 image 41000000
{"do":"done","ticket":1,"fail":"before"} -> stalled 1 block 0
{"do":"retry","block":0} -> flight 2 block 0 patches 1 image 41000000
{"do":"done","ticket":2,"fail":"after"} -> stalled 2 block 0
{"do":"retry","block":0} -> flight 3 block 0 patches 1 image 41000000
{"do":"done","ticket":3,"fail":"before"} -> lost 3 block 0
{"do":"done","ticket":3} -> refused 14
{"do":"patch","block":1,"at":1,"data":"43"} -> patch 3 hard
{"do":"choose","block":1} -> chosen 1 patches 3
{"do":"write","block":1} -> refused 11 held 2
{"do":"patch","block":2,"at":0,"data":"44","after":[3]} -> patch 4 hard
{"do":"write","block":2} -> refused 10
{"do":"pick"} -> pick none
{"do":"patch","block":3,"at":0,"data":"45"} -> patch 5 hard
{"do":"pick"} -> pick 3
{"do":"write","block":3} -> flight 4 block 3 patches 5 image 45000000
{"do":"done","ticket":4} -> done 4 block 3
{"do":"pick"} -> pick none
{"do":"empty","after":[4,5]} -> empty 6
{"do":"place","patch":6} -> place 6 memory
{"do":"place","patch":1} -> place 1 flight
{"do":"evict","block":0} -> refused 12
{"do":"show","block":0} -> show 0 41000000
{"do":"forget"} -> forget 1
{"do":"stat"} -> stat made 6 live 5 undo 0 flights 1
{"do":"crash","finish":[0]} -> crash 41000000 00000000 00000000 45000000
"#;

const SCRIPTS: &[Script] = &[
    ("groups without changes", 4, GROUPS_WITHOUT_CHANGES),
    ("behind a lost block", 4, BEHIND_A_LOST_BLOCK),
];

#[test]
fn scripts_of_groups(rt: HostRuntime) {
    plays_each(&rt, rt.alloc(), SCRIPTS);
}
