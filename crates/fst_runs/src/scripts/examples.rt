//! The scripts of examples/ with their replies. Written by tools/examples --test; change those files, and not this one.

use crate::scripts::{Script, plays_each};

const CRASHES: &str = r#"{"do":"patch","block":0,"at":0,"data":"41"} -> patch 1 hard
{"do":"patch","block":1,"at":0,"data":"42"} -> patch 2 hard
{"do":"patch","block":2,"at":0,"data":"43","after":[1,2]} -> patch 3 hard
{"do":"write","block":0} -> flight 1 block 0 patches 1 image 41000000
{"do":"write","block":1} -> flight 2 block 1 patches 2 image 42000000
{"do":"write","block":2} -> refused 10
{"do":"crash","finish":[]} -> crash 00000000 00000000 00000000 00000000
{"do":"crash","finish":[0]} -> crash 41000000 00000000 00000000 00000000
{"do":"crash","finish":[1]} -> crash 00000000 42000000 00000000 00000000
{"do":"crash","finish":[0,1]} -> crash 41000000 42000000 00000000 00000000
{"do":"crash","finish":[2]} -> refused 14
{"do":"done","ticket":2} -> done 2 block 1
{"do":"done","ticket":1} -> done 1 block 0
{"do":"write","block":2} -> flight 3 block 2 patches 3 image 43000000
{"do":"crash","finish":[]} -> crash 41000000 42000000 00000000 00000000
{"do":"crash","finish":[2]} -> crash 41000000 42000000 43000000 00000000
"#;

const CROSSWISE_HOLD: &str = r#"{"do":"patch","block":0,"at":0,"data":"41"} -> patch 1 hard
{"do":"patch","block":1,"at":0,"data":"42"} -> patch 2 hard
{"do":"patch","block":0,"at":1,"data":"43","after":[2]} -> patch 3 hard
{"do":"patch","block":1,"at":1,"data":"44","after":[1]} -> patch 4 soft
{"do":"choose","block":0} -> chosen 0 patches 1
{"do":"write","block":0} -> refused 11 held 3
{"do":"pick"} -> pick 1
{"do":"write","block":1} -> flight 1 block 1 patches 2 image 42000000
{"do":"write","block":0} -> refused 11 held 3
{"do":"done","ticket":1} -> done 1 block 1
{"do":"write","block":0} -> flight 2 block 0 patches 1,3 image 41430000
{"do":"done","ticket":2} -> done 2 block 0
{"do":"write","block":1} -> flight 3 block 1 patches 4 image 42440000
{"do":"done","ticket":3} -> done 3 block 1
{"do":"crash"} -> crash 41430000 42440000 00000000 00000000
"#;

const CYCLE_OF_BLOCKS: &str = r#"{"do":"patch","block":0,"at":0,"data":"41"} -> patch 1 hard
{"do":"patch","block":1,"at":0,"data":"42","after":[1]} -> patch 2 hard
{"do":"patch","block":0,"at":1,"data":"43","after":[2]} -> patch 3 soft
{"do":"show","block":0} -> show 0 41430000
{"do":"pick"} -> pick 0
{"do":"choose","block":0} -> chosen 0 patches 1
{"do":"write","block":0} -> flight 1 block 0 patches 1 image 41000000
{"do":"show","block":0} -> show 0 41430000
{"do":"done","ticket":1} -> done 1 block 0
{"do":"pick"} -> pick 1
{"do":"write","block":1} -> flight 2 block 1 patches 2 image 42000000
{"do":"done","ticket":2} -> done 2 block 1
{"do":"write","block":0} -> flight 3 block 0 patches 3 image 41430000
{"do":"done","ticket":3} -> done 3 block 0
{"do":"stat"} -> stat made 3 live 0 undo 0 flights 0
{"do":"crash"} -> crash 41430000 42000000 00000000 00000000
"#;

const EVICTION_AND_FORGETTING: &str = r#"{"do":"patch","block":0,"at":0,"data":"41"} -> patch 1 hard
{"do":"patch","block":1,"at":0,"data":"42"} -> refused 16 resident
{"do":"evict","block":0} -> refused 12
{"do":"write","block":0} -> flight 1 block 0 patches 1 image 41000000
{"do":"done","ticket":1} -> done 1 block 0
{"do":"patch","block":1,"at":0,"data":"42","after":[1]} -> patch 2 hard
{"do":"show","block":0} -> refused 16 resident
{"do":"write","block":1} -> flight 2 block 1 patches 2 image 42000000
{"do":"done","ticket":2,"fail":"read"} -> done 2 block 1
{"do":"show","block":0} -> show 0 41000000
{"do":"evict","block":0} -> evict 0
{"do":"show","block":1} -> refused 15
{"do":"show","block":1} -> show 1 42000000
{"do":"forget"} -> forget 2
{"do":"stat"} -> stat made 2 live 0 undo 0 flights 0
{"do":"place","patch":2} -> place 2 disk
{"do":"place","patch":3} -> refused 5
"#;

const FAILED_WRITE: &str = r#"{"do":"patch","block":0,"at":0,"data":"41"} -> patch 1 hard
{"do":"write","block":0} -> flight 1 block 0 patches 1 image 41000000
{"do":"done","ticket":1,"fail":"after"} -> stalled 1 block 0
{"do":"crash","finish":[]} -> crash 00000000 00000000 00000000 00000000
{"do":"crash","finish":[0]} -> crash 41000000 00000000 00000000 00000000
{"do":"patch","block":0,"at":1,"data":"42"} -> patch 2 hard
{"do":"write","block":0} -> refused 9
{"do":"retry","block":0} -> flight 2 block 0 patches 1 image 41000000
{"do":"done","ticket":1} -> refused 14
{"do":"done","ticket":2} -> done 2 block 0
{"do":"retry","block":0} -> refused 13
{"do":"write","block":0} -> flight 3 block 0 patches 2 image 41420000
{"do":"done","ticket":3} -> done 3 block 0
"#;

const GATE: &str = r#"{"do":"gate"} -> gate 1
{"do":"patch","block":0,"at":0,"data":"41","after":[1]} -> patch 2 soft
{"do":"pick"} -> pick none
{"do":"write","block":0} -> refused 10
{"do":"patch","block":1,"at":0,"data":"42"} -> patch 3 hard
{"do":"depend","gate":1,"on":[3]} -> depend 1
{"do":"depend","gate":1,"on":[2]} -> refused 8
{"do":"seal","gate":1} -> seal 1
{"do":"place","patch":1} -> place 1 memory
{"do":"pick"} -> pick 1
{"do":"write","block":1} -> flight 1 block 1 patches 3 image 42000000
{"do":"done","ticket":1} -> done 1 block 1
{"do":"place","patch":1} -> place 1 disk
{"do":"write","block":0} -> flight 2 block 0 patches 2 image 41000000
{"do":"done","ticket":2} -> done 2 block 0
"#;

const GROUPS_IN_ORDER: &str = r#"{"do":"group"} -> group 1
{"do":"group"} -> group 3
{"do":"group_after","group":3,"on":1} -> group_after 3
{"do":"group_patch","group":3,"block":1,"at":0,"data":"42"} -> patch 5 soft
{"do":"group_patch","group":1,"block":0,"at":0,"data":"41"} -> patch 6 hard
{"do":"group_after","group":1,"on":3} -> refused 18
{"do":"write","block":0} -> flight 1 block 0 patches 6 image 41000000
{"do":"done","ticket":1} -> done 1 block 0
{"do":"write","block":1} -> refused 10
{"do":"group_patch","group":1,"block":2,"at":0,"data":"43"} -> patch 7 hard
{"do":"group_close","group":1} -> group_close 1
{"do":"write","block":1} -> refused 10
{"do":"write","block":2} -> flight 2 block 2 patches 7 image 43000000
{"do":"crash","finish":[2]} -> crash 41000000 00000000 43000000 00000000
{"do":"done","ticket":2} -> done 2 block 2
{"do":"write","block":1} -> flight 3 block 1 patches 5 image 42000000
{"do":"crash","finish":[1]} -> crash 41000000 42000000 43000000 00000000
{"do":"done","ticket":3} -> done 3 block 1
"#;

const LOST_BLOCK: &str = r#"{"do":"patch","block":0,"at":0,"data":"41"} -> patch 1 hard
{"do":"patch","block":1,"at":0,"data":"42","after":[1]} -> patch 2 hard
{"do":"patch","block":2,"at":0,"data":"43"} -> patch 3 hard
{"do":"write","block":0} -> flight 1 block 0 patches 1 image 41000000
{"do":"done","ticket":1,"fail":"before"} -> stalled 1 block 0
{"do":"retry","block":0} -> flight 2 block 0 patches 1 image 41000000
{"do":"done","ticket":2,"fail":"before"} -> stalled 2 block 0
{"do":"retry","block":0} -> flight 3 block 0 patches 1 image 41000000
{"do":"done","ticket":3,"fail":"after"} -> lost 3 block 0
{"do":"retry","block":0} -> refused 19
{"do":"patch","block":0,"at":1,"data":"44"} -> refused 19
{"do":"write","block":1} -> refused 10
{"do":"write","block":2} -> flight 4 block 2 patches 3 image 43000000
{"do":"done","ticket":4} -> done 4 block 2
{"do":"pick"} -> pick none
{"do":"crash","finish":[]} -> crash 00000000 00000000 43000000 00000000
{"do":"crash","finish":[0]} -> crash 41000000 00000000 43000000 00000000
"#;

const ONE_WRITE: &str = r#"{"do":"patch","block":0,"at":0,"data":"41"} -> patch 1 hard
{"do":"write","block":0} -> flight 1 block 0 patches 1 image 41000000
{"do":"done","ticket":1} -> done 1 block 0
{"do":"crash","finish":[]} -> crash 41000000 00000000 00000000 00000000
"#;

const RENAME: &str = r#"{"do":"group"} -> group 1
{"do":"group_patch","group":1,"block":1,"at":0,"data":"6e6f6465"} -> patch 3 hard
{"do":"group_patch","group":1,"block":2,"at":0,"data":"746f0001"} -> patch 4 hard
{"do":"group_close","group":1} -> group_close 1
{"do":"group"} -> group 5
{"do":"group_after","group":5,"on":1} -> group_after 5
{"do":"group_patch","group":5,"block":3,"at":0,"data":"00000000"} -> patch 7 hard
{"do":"group_close","group":5} -> group_close 5
{"do":"empty","after":[6]} -> empty 8
{"do":"write","block":3} -> refused 10
{"do":"write","block":1} -> flight 1 block 1 patches 3 image 6e6f6465
{"do":"write","block":2} -> flight 2 block 2 patches 4 image 746f0001
{"do":"crash","finish":[2]} -> crash 00000000 00000000 746f0001 00000000
{"do":"done","ticket":2} -> done 2 block 2
{"do":"write","block":3} -> refused 10
{"do":"done","ticket":1} -> done 1 block 1
{"do":"write","block":3} -> flight 3 block 3 patches 7 image 00000000
{"do":"crash","finish":[3]} -> crash 00000000 6e6f6465 746f0001 00000000
{"do":"done","ticket":3} -> done 3 block 3
{"do":"place","patch":8} -> place 8 disk
"#;

const SCRIPTS: &[Script] = &[
    ("crashes", 4, CRASHES),
    ("crosswise_hold", 4, CROSSWISE_HOLD),
    ("cycle_of_blocks", 4, CYCLE_OF_BLOCKS),
    ("eviction_and_forgetting", 1, EVICTION_AND_FORGETTING),
    ("failed_write", 4, FAILED_WRITE),
    ("gate", 4, GATE),
    ("groups_in_order", 4, GROUPS_IN_ORDER),
    ("lost_block", 4, LOST_BLOCK),
    ("one_write", 4, ONE_WRITE),
    ("rename", 4, RENAME),
];

#[test]
fn scripts_of_the_examples(rt: HostRuntime) {
    plays_each(&rt, rt.alloc(), SCRIPTS);
}
