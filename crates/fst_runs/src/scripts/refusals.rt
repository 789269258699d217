//! Each refusal of each line that a script can meet, in the order of the lines.

use crate::scripts::{Script, plays_each, plays_over, put, put_made};
use fst_types::Shape;
use std::alloc::Global;
use std::process::Abort;

// A block that is not there, in each line that names one. A line whose block is not there is refused so before all else.
const NO_SUCH_BLOCK: &str = r#"{"do":"patch","block":4,"at":9,"data":"","after":[7]} -> refused 3
{"do":"choose","block":4} -> refused 3
{"do":"write","block":4} -> refused 3
{"do":"retry","block":4} -> refused 3
{"do":"evict","block":4} -> refused 3
{"do":"show","block":4} -> refused 3
{"do":"crash","finish":[4]} -> refused 3
{"do":"crash","finish":[4294967295]} -> refused 3
"#;

// A patch that was never made, in each line that names one.
const NO_SUCH_PATCH: &str = r#"{"do":"patch","block":0,"at":0,"data":"41","after":[1]} -> refused 5
{"do":"empty","after":[0]} -> refused 5
{"do":"depend","gate":1,"on":[]} -> refused 5
{"do":"seal","gate":1} -> refused 5
{"do":"place","patch":1} -> refused 5
{"do":"gate"} -> gate 1
{"do":"depend","gate":1,"on":[2]} -> refused 5
{"do":"stat"} -> stat made 1 live 1 undo 0 flights 0
"#;

// A number that is no gate's, and one that is forgotten; both say so before the gate's being sealed.
const NO_GATE: &str = r#"{"do":"empty"} -> empty 1
{"do":"patch","block":0,"at":0,"data":"41"} -> patch 2 hard
{"do":"gate"} -> gate 3
{"do":"seal","gate":3} -> seal 3
{"do":"seal","gate":1} -> refused 6
{"do":"seal","gate":2} -> refused 6
{"do":"depend","gate":1,"on":[9]} -> refused 6
{"do":"depend","gate":3,"on":[9]} -> refused 7
{"do":"forget"} -> forget 2
{"do":"seal","gate":3} -> refused 6
{"do":"depend","gate":3,"on":[2]} -> refused 6
"#;

// Of a block: nothing is ready, a write is out, it has not failed, it has a change that is not on disk.
const STATE_OF_A_BLOCK: &str = r#"{"do":"write","block":0} -> refused 10
{"do":"retry","block":0} -> refused 13
{"do":"patch","block":0,"at":0,"data":"41"} -> patch 1 hard
{"do":"evict","block":0} -> refused 12
{"do":"retry","block":0} -> refused 13
{"do":"write","block":0} -> flight 1 block 0 patches 1 image 41000000
{"do":"write","block":0} -> refused 9
{"do":"retry","block":0} -> refused 13
{"do":"evict","block":0} -> refused 12
{"do":"done","ticket":0} -> refused 14
{"do":"done","ticket":2} -> refused 14
{"do":"crash","finish":[0,1]} -> refused 14
{"do":"crash","finish":[1,4]} -> refused 14
{"do":"crash","finish":[4,1]} -> refused 3
"#;

// A change of the first byte of a block, and its reply.
fn put_change(
    rt: &impl Abort,
    alloc: Global,
    script: &mut Vec<u8>,
    replies: &mut Vec<u8>,
    block: u32,
) {
    let number = block.saturating_add(1);
    let line = format!(in alloc; "{{\"do\":\"patch\",\"block\":{block},\"at\":0,\"data\":\"41\"}}");
    put_made(rt, script, line);
    put_made(rt, replies, format!(in alloc; "patch {number} hard"));
}

// A write of a block of one byte, and its reply.
fn put_write(
    rt: &impl Abort,
    alloc: Global,
    script: &mut Vec<u8>,
    replies: &mut Vec<u8>,
    block: u32,
) {
    let number = block.saturating_add(1);
    put_made(
        rt,
        script,
        format!(in alloc; "{{\"do\":\"write\",\"block\":{block}}}"),
    );
    let reply = format!(in alloc; "flight {number} block {block} patches {number} image 41");
    put_made(rt, replies, reply);
}

// 64 writes are out, and the block of another may be written.
#[test]
fn all_flights(rt: HostRuntime) {
    let alloc = rt.alloc();
    let mut script = Vec::new(alloc);
    let mut replies = Vec::new(alloc);
    for block in 0..65 {
        put_change(&rt, alloc, &mut script, &mut replies, block);
    }
    for block in 0..64 {
        put_write(&rt, alloc, &mut script, &mut replies, block);
    }
    put(
        &rt,
        &mut script,
        b"{\"do\":\"pick\"}\n{\"do\":\"write\",\"block\":64}\n{\"do\":\"done\",\"ticket\":1}\n{\"do\":\"write\",\"block\":64}\n",
    );
    put(
        &rt,
        &mut replies,
        b"pick 64\nrefused 16 flights\ndone 1 block 0\nflight 65 block 64 patches 65 image 41\n",
    );
    let shape = Shape::new(65, 1, 65).expect(&rt, "the shape is within its limits");
    plays_over(&rt, alloc, shape, &script, &replies);
}

const SCRIPTS: &[Script] = &[
    ("no such block", 4, NO_SUCH_BLOCK),
    ("no such patch", 4, NO_SUCH_PATCH),
    ("no gate", 4, NO_GATE),
    ("state of a block", 4, STATE_OF_A_BLOCK),
];

#[test]
fn refusals_of_each_line(rt: HostRuntime) {
    plays_each(&rt, rt.alloc(), SCRIPTS);
}
