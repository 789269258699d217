//! What failures and crashes leave, which blocks are in memory, what is forgotten, and every command once.

use crate::scripts::{Script, plays_each};

const CRASH_SETS: &str = r#"{"do":"patch","block":0,"at":0,"data":"41"} -> patch 1 hard
{"do":"patch","block":1,"at":0,"data":"42"} -> patch 2 hard
{"do":"write","block":0} -> flight 1 block 0 patches 1 image 41000000
{"do":"write","block":1} -> flight 2 block 1 patches 2 image 42000000
{"do":"crash","finish":[]} -> crash 00000000 00000000 00000000 00000000
{"do":"crash","finish":[0]} -> crash 41000000 00000000 00000000 00000000
{"do":"crash","finish":[0,1]} -> crash 41000000 42000000 00000000 00000000
{"do":"crash","finish":[2]} -> refused 14
"#;

const FAILED_WRITE_AFTER_THE_BYTES: &str =
    r#"{"do":"patch","block":0,"at":0,"data":"41"} -> patch 1 hard
{"do":"write","block":0} -> flight 1 block 0 patches 1 image 41000000
{"do":"done","ticket":1,"fail":"after"} -> stalled 1 block 0
{"do":"crash","finish":[]} -> crash 00000000 00000000 00000000 00000000
{"do":"crash","finish":[0]} -> crash 41000000 00000000 00000000 00000000
{"do":"write","block":0} -> refused 9
{"do":"retry","block":0} -> flight 2 block 0 patches 1 image 41000000
{"do":"done","ticket":1} -> refused 14
{"do":"done","ticket":2} -> done 2 block 0
{"do":"retry","block":0} -> refused 13
"#;

const BUSY_BLOCK: &str = r#"{"do":"patch","block":0,"at":0,"data":"41"} -> patch 1 hard
{"do":"write","block":0} -> flight 1 block 0 patches 1 image 41000000
{"do":"write","block":0} -> refused 9
{"do":"patch","block":0,"at":0,"data":"51"} -> patch 2 hard
{"do":"show","block":0} -> show 0 51000000
{"do":"choose","block":0} -> chosen 0 none
{"do":"done","ticket":1} -> done 1 block 0
{"do":"write","block":0} -> flight 2 block 0 patches 2 image 51000000
"#;

const EVICTION_AND_A_FAILING_READ: &str =
    r#"{"do":"patch","block":0,"at":0,"data":"41"} -> patch 1 hard
{"do":"write","block":0} -> flight 1 block 0 patches 1 image 41000000
{"do":"evict","block":0} -> refused 12
{"do":"done","ticket":1,"fail":"read"} -> done 1 block 0
{"do":"evict","block":0} -> evict 0
{"do":"show","block":0} -> refused 15
{"do":"show","block":0} -> show 0 41000000
"#;

const ONE_RESIDENT_BLOCK: &str = r#"{"do":"patch","block":0,"at":0,"data":"41"} -> patch 1 hard
{"do":"patch","block":1,"at":0,"data":"42"} -> refused 16 resident
{"do":"write","block":0} -> flight 1 block 0 patches 1 image 41000000
{"do":"done","ticket":1} -> done 1 block 0
{"do":"patch","block":1,"at":0,"data":"42"} -> patch 2 hard
{"do":"show","block":0} -> refused 16 resident
"#;

const FORGETTING: &str = r#"{"do":"patch","block":0,"at":0,"data":"41"} -> patch 1 hard
{"do":"write","block":0} -> flight 1 block 0 patches 1 image 41000000
{"do":"done","ticket":1} -> done 1 block 0
{"do":"forget"} -> forget 1
{"do":"place","patch":1} -> place 1 disk
{"do":"seal","gate":1} -> refused 6
{"do":"place","patch":2} -> refused 5
{"do":"stat"} -> stat made 1 live 0 undo 0 flights 0
"#;

// Each command once, and each way in which a write can fail.
const EVERY_COMMAND: &str = r#"{"do":"gate"} -> gate 1
{"do":"patch","block":0,"at":0,"data":"41"} -> patch 2 hard
{"do":"depend","gate":1,"on":[2]} -> depend 1
{"do":"seal","gate":1} -> seal 1
{"do":"empty","after":[1]} -> empty 3
{"do":"choose","block":0} -> chosen 0 patches 2
{"do":"pick"} -> pick 0
{"do":"write","block":0} -> flight 1 block 0 patches 2 image 41000000
{"do":"place","patch":2} -> place 2 flight
{"do":"done","ticket":1,"fail":"before"} -> stalled 1 block 0
{"do":"retry","block":0} -> flight 2 block 0 patches 2 image 41000000
{"do":"done","ticket":2,"fail":"after"} -> stalled 2 block 0
{"do":"retry","block":0} -> flight 3 block 0 patches 2 image 41000000
{"do":"done","ticket":3,"fail":"read"} -> done 3 block 0
{"do":"place","patch":3} -> place 3 disk
{"do":"evict","block":0} -> evict 0
{"do":"show","block":0} -> refused 15
{"do":"show","block":0} -> show 0 41000000
{"do":"forget"} -> forget 3
{"do":"stat"} -> stat made 3 live 0 undo 0 flights 0
{"do":"crash"} -> crash 41000000 00000000 00000000 00000000
"#;

const LOST_BLOCK: &str = r#"{"do":"patch","block":0,"at":0,"data":"41"} -> patch 1 hard
{"do":"write","block":0} -> flight 1 block 0 patches 1 image 41000000
{"do":"done","ticket":1,"fail":"before"} -> stalled 1 block 0
{"do":"retry","block":0} -> flight 2 block 0 patches 1 image 41000000
{"do":"done","ticket":2,"fail":"before"} -> stalled 2 block 0
{"do":"retry","block":0} -> flight 3 block 0 patches 1 image 41000000
{"do":"done","ticket":3,"fail":"after"} -> lost 3 block 0
{"do":"retry","block":0} -> refused 19
{"do":"patch","block":0,"at":1,"data":"42"} -> refused 19
{"do":"write","block":0} -> refused 9
{"do":"crash","finish":[]} -> crash 00000000 00000000 00000000 00000000
{"do":"crash","finish":[0]} -> crash 41000000 00000000 00000000 00000000
"#;

const SCRIPTS: &[Script] = &[
    ("crash sets", 4, CRASH_SETS),
    (
        "failed write after the bytes",
        4,
        FAILED_WRITE_AFTER_THE_BYTES,
    ),
    ("busy block", 4, BUSY_BLOCK),
    (
        "eviction and a failing read",
        4,
        EVICTION_AND_A_FAILING_READ,
    ),
    ("one resident block", 1, ONE_RESIDENT_BLOCK),
    ("forgetting", 4, FORGETTING),
    ("every command", 4, EVERY_COMMAND),
    ("lost block", 4, LOST_BLOCK),
];

#[test]
fn scripts_of_failures(rt: HostRuntime) {
    plays_each(&rt, rt.alloc(), SCRIPTS);
}
