//! A thousand lines, good ones of every command, each once as it is and once nearly right: with a byte that is another,
//! left out, or there twice. Each gets one reply of those that there are, and the player counts what was accepted.

use crate::same::same;
use crate::scripts::{put, put_line, replies_to};
use std::alloc::Global;
use std::process::Abort;

const GOOD: &[&str] = &[
    r#"{"do":"patch","block":0,"at":0,"data":"41"}"#,
    r#"{"do":"patch","block":1,"at":1,"data":"4243","after":[1]}"#,
    r#"{"do":"patch","block":2,"at":0,"data":"44454647","after":[1,2]}"#,
    r#"{"do":"empty"}"#,
    r#"{"do":"empty","after":[2,3]}"#,
    r#"{"do":"gate"}"#,
    r#"{"do":"depend","gate":5,"on":[1,2]}"#,
    r#"{"do":"seal","gate":5}"#,
    r#"{"do":"choose","block":1}"#,
    r#"{"do":"pick"}"#,
    r#"{"do":"write","block":0}"#,
    r#"{"do":"done","ticket":1}"#,
    r#"{"do":"done","ticket":2,"fail":"after"}"#,
    r#"{"do":"retry","block":0}"#,
    r#"{"do":"evict","block":3}"#,
    r#"{"do":"show","block":3}"#,
    r#"{"do":"place","patch":2}"#,
    r#"{"do":"forget"}"#,
    r#"{"do":"stat"}"#,
    r#"{"do":"crash","finish":[0,1]}"#,
    r#"{"do":"group"}"#,
    r#"{"do":"group_after","group":7,"on":9}"#,
    r#"{"do":"group_patch","group":7,"block":3,"at":2,"data":"4849"}"#,
    r#"{"do":"group_close","group":9}"#,
    r#"{ "on" : [ 1 ] , "gate" : 12 , "do" : "depend" }"#,
];

const ROUNDS: u32 = 20;

// How each reply begins, but for refusals.
const REPLIES: &[&str] = &[
    "patch ",
    "empty ",
    "gate ",
    "depend ",
    "seal ",
    "chosen ",
    "pick ",
    "flight ",
    "done ",
    "stalled ",
    "lost ",
    "evict ",
    "show ",
    "place ",
    "forget ",
    "stat made ",
    "crash ",
    "group ",
    "group_after ",
    "group_close ",
];

// Memory is there, and no read was armed to fail: neither 17 nor 15.
const REFUSALS: &[&str] = &[
    "1",
    "2",
    "3",
    "4",
    "5",
    "6",
    "7",
    "8",
    "9",
    "10",
    "11 held ",
    "12",
    "13",
    "14",
    "16 resident",
    "18",
    "19",
];

// What a byte of a line may become, nearly a line still.
const SIGNS: &[u8] = br#"0123456789abcdef"{}[]:,.-+ eE_tu\"#;

// A number below this one, of a small generator, the same at each run.
fn roll(dice: &mut u32, sides: usize) -> usize {
    *dice = dice.wrapping_mul(1_664_525).wrapping_add(1_013_904_223);
    ((*dice >> 8) as usize).checked_rem(sides).unwrap_or(0)
}

// Mostly a byte that lines have, and else any but the end of a line.
fn sign(dice: &mut u32) -> u8 {
    let any = dice.to_le_bytes()[3];
    if roll(dice, 4) == 0 && any != b'\n' {
        return any;
    }
    match SIGNS.get(roll(dice, SIGNS.len())) {
        Some(sign) => *sign,
        None => b'?',
    }
}

// The line with one byte changed, left out or doubled, and its end.
fn nearly(rt: &impl Abort, alloc: Global, dice: &mut u32, line: &str) -> Vec<u8> {
    let at = roll(dice, line.len());
    let how = roll(dice, 3);
    let other = sign(dice);
    let mut text = Vec::new(alloc);
    for (place, byte) in line.as_bytes().iter().enumerate() {
        match how {
            0 if place == at => put(rt, &mut text, &[other]),
            1 if place == at => {}
            2 if place == at => put(rt, &mut text, &[*byte, *byte]),
            _ => put(rt, &mut text, &[*byte]),
        }
    }
    put(rt, &mut text, b"\n");
    text
}

// Whether it is one of the replies that a player gives.
fn is_reply(reply: &str) -> bool {
    for beginning in REPLIES {
        if reply.starts_with(*beginning) {
            return true;
        }
    }
    let Some(refusal) = reply.strip_prefix("refused ") else {
        return false;
    };
    for number in REFUSALS {
        if refusal == *number || (number.ends_with(' ') && refusal.starts_with(*number)) {
            return true;
        }
    }
    false
}

// How many patches were made where this was answered.
fn made_by(reply: &str) -> u32 {
    if reply.starts_with("group ") {
        return 2;
    }
    if reply.starts_with("patch ") || reply.starts_with("empty ") || reply.starts_with("gate ") {
        return 1;
    }
    0
}

// The reply to `stat` counts what was made so far.
fn counts(rt: &impl Abort, alloc: Global, reply: &str, made: u32) {
    let told = format!(in alloc; "stat made {made} ").expect(rt, "there is memory");
    assert!(rt;
        reply.starts_with(told.as_str()),
        "{reply}, and {made} were made"
    );
}

// Whether a reply is to no line.
fn is_to_none(reply: &str) -> bool {
    reply == "refused 1"
}

// So many replies are there, and many of both kinds: such as made a patch, and such as are to no line.
fn are_many(rt: &impl Abort, all: u32, lines: u32, made: u32, bad: u32) {
    same(rt, &all, &lines);
    assert!(rt; made > 100, "{made} were made");
    assert!(rt; bad > 200, "{bad} were no lines");
}

// Each line has a reply, which is one of those that there are, each `stat` counts what was made so far, and many lines of
// both kinds are there.
fn judge(rt: &impl Abort, alloc: Global, lines: u32, replies: &str) {
    let mut made = 0u32;
    let mut all = 0u32;
    let mut bad = 0u32;
    for reply in replies.lines() {
        assert!(rt; is_reply(reply), "{reply}");
        if reply.starts_with("stat ") {
            counts(rt, alloc, reply, made);
        }
        made = made.saturating_add(made_by(reply));
        bad = bad.saturating_add(u32::from(is_to_none(reply)));
        all = all.saturating_add(1);
    }
    are_many(rt, all, lines, made, bad);
}

// The good lines, each once as it is and once nearly right.
fn put_round(rt: &impl Abort, alloc: Global, dice: &mut u32, script: &mut Vec<u8>) {
    for line in GOOD {
        put_line(rt, script, line);
        put(rt, script, &nearly(rt, alloc, dice, line));
    }
}

#[test]
fn nearly_right(rt: HostRuntime) {
    let mut dice = 2007u32;
    let mut script = Vec::new(rt.alloc());
    let mut lines = 1u32;
    for _ in 0..ROUNDS {
        put_round(&rt, rt.alloc(), &mut dice, &mut script);
        lines = lines.saturating_add(2 * GOOD.len() as u32);
    }
    put(&rt, &mut script, br#"{"do":"stat"}"#);
    let replies = replies_to(&rt, rt.alloc(), 2, &script);
    let replies = std::str::from_utf8(&replies).expect(&rt, "the replies are text");
    judge(&rt, rt.alloc(), lines, replies);
}
