//! How many patches a line may name, and how many the cache keeps.

use crate::scripts::{plays_to, put, put_line, put_made};
use std::alloc::Global;
use std::process::Abort;

// Puts a line that names patch 1 so many times.
fn put_names(rt: &impl Abort, script: &mut Vec<u8>, count: usize) {
    put(rt, script, br#"{"do":"empty","after":[1"#);
    for _ in 1..count {
        put(rt, script, b",1");
    }
    put(rt, script, b"]}\n");
}

#[test]
fn named_patches(rt: HostRuntime) {
    let mut script = Vec::new(rt.alloc());
    put_line(&rt, &mut script, r#"{"do":"gate"}"#);
    for count in [64, 65] {
        put_names(&rt, &mut script, count);
    }
    plays_to(&rt, rt.alloc(), 4, &script, b"gate 1\nempty 2\nrefused 2\n");
}

// Puts an empty patch, and its reply.
fn put_empty(
    rt: &impl Abort,
    alloc: Global,
    script: &mut Vec<u8>,
    replies: &mut Vec<u8>,
    number: u32,
) {
    put_line(rt, script, r#"{"do":"empty"}"#);
    put_made(rt, replies, format!(in alloc; "empty {number}"));
}

// As many patches as may stand, one more, and another once they were forgotten.
#[test]
fn standing_patches(rt: HostRuntime) {
    let mut script = Vec::new(rt.alloc());
    let mut replies = Vec::new(rt.alloc());
    for number in 1..65_536 {
        put_empty(&rt, rt.alloc(), &mut script, &mut replies, number);
    }
    put(
        &rt,
        &mut script,
        b"{\"do\":\"empty\"}\n{\"do\":\"forget\"}\n{\"do\":\"empty\"}\n",
    );
    put(
        &rt,
        &mut replies,
        b"refused 16 heads\nforget 65535\nempty 65536\n",
    );
    plays_to(&rt, rt.alloc(), 4, &script, &replies);
}
