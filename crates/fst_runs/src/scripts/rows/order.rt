//! What depends on what, and what goes in a write.

use crate::scripts::{Script, plays_each};

const THINNEST_PATH: &str = r#"{"do":"patch","block":0,"at":0,"data":"41"} -> patch 1 hard
{"do":"write","block":0} -> flight 1 block 0 patches 1 image 41000000
{"do":"done","ticket":1} -> done 1 block 0
{"do":"crash","finish":[]} -> crash 41000000 00000000 00000000 00000000
"#;

// Three patches that make a cycle of two blocks.
pub const CYCLE_OF_BLOCKS: &str = r#"{"do":"patch","block":0,"at":0,"data":"41"} -> patch 1 hard
{"do":"patch","block":1,"at":0,"data":"42","after":[1]} -> patch 2 hard
{"do":"patch","block":0,"at":1,"data":"43","after":[2]} -> patch 3 soft
{"do":"write","block":0} -> flight 1 block 0 patches 1 image 41000000
{"do":"show","block":0} -> show 0 41430000
{"do":"stat"} -> stat made 3 live 3 undo 1 flights 1
"#;

const CROSSWISE_HOLD: &str = r#"{"do":"patch","block":0,"at":0,"data":"41"} -> patch 1 hard
{"do":"patch","block":1,"at":0,"data":"42"} -> patch 2 hard
{"do":"patch","block":0,"at":1,"data":"43","after":[2]} -> patch 3 hard
{"do":"patch","block":1,"at":1,"data":"44","after":[1]} -> patch 4 soft
{"do":"choose","block":0} -> chosen 0 patches 1
{"do":"write","block":0} -> refused 11 held 3
{"do":"pick"} -> pick 1
{"do":"write","block":1} -> flight 1 block 1 patches 2 image 42000000
{"do":"done","ticket":1} -> done 1 block 1
{"do":"write","block":0} -> flight 2 block 0 patches 1,3 image 41430000
"#;

const OVERLAPS_REVERTED_NEWEST_FIRST: &str = r#"{"do":"gate"} -> gate 1
{"do":"patch","block":0,"at":0,"data":"4142","after":[1]} -> patch 2 soft
{"do":"patch","block":0,"at":1,"data":"5152"} -> patch 3 soft
{"do":"patch","block":0,"at":3,"data":"61"} -> patch 4 hard
{"do":"write","block":0} -> flight 1 block 0 patches 4 image 00000061
{"do":"show","block":0} -> show 0 41515261
{"do":"stat"} -> stat made 4 live 4 undo 4 flights 1
"#;

const SPANS_AT_THE_BOUNDARY: &str = r#"{"do":"patch","block":0,"at":3,"data":"41"} -> patch 1 hard
{"do":"patch","block":0,"at":3,"data":"4142"} -> refused 4
{"do":"patch","block":0,"at":0,"data":""} -> refused 4
{"do":"patch","block":0,"at":0,"data":"51525354"} -> patch 2 hard
{"do":"write","block":0} -> flight 1 block 0 patches 1,2 image 51525354
"#;

const OPEN_GATE_BLOCKS: &str = r#"{"do":"gate"} -> gate 1
{"do":"patch","block":0,"at":0,"data":"41","after":[1]} -> patch 2 soft
{"do":"write","block":0} -> refused 10
{"do":"seal","gate":1} -> seal 1
{"do":"place","patch":1} -> place 1 disk
{"do":"write","block":0} -> flight 1 block 0 patches 2 image 41000000
"#;

const LANDING_ORDER_AGAINST_NUMBER_ORDER: &str = r#"{"do":"gate"} -> gate 1
{"do":"patch","block":0,"at":0,"data":"41","after":[1]} -> patch 2 soft
{"do":"patch","block":0,"at":1,"data":"42"} -> patch 3 hard
{"do":"write","block":0} -> flight 1 block 0 patches 3 image 00420000
{"do":"done","ticket":1} -> done 1 block 0
{"do":"seal","gate":1} -> seal 1
{"do":"write","block":0} -> flight 2 block 0 patches 2 image 41420000
{"do":"done","ticket":2} -> done 2 block 0
{"do":"crash","finish":[]} -> crash 41420000 00000000 00000000 00000000
"#;

const CYCLES_AND_REPEATS: &str = r#"{"do":"gate"} -> gate 1
{"do":"patch","block":0,"at":0,"data":"41","after":[1]} -> patch 2 soft
{"do":"depend","gate":1,"on":[2]} -> refused 8
{"do":"depend","gate":1,"on":[1]} -> refused 8
{"do":"depend","gate":2,"on":[1]} -> refused 6
{"do":"patch","block":1,"at":0,"data":"42"} -> patch 3 hard
{"do":"depend","gate":1,"on":[3]} -> depend 1
{"do":"seal","gate":1} -> seal 1
{"do":"seal","gate":1} -> refused 7
{"do":"depend","gate":1,"on":[]} -> refused 7
"#;

const CASCADE_THROUGH_AN_EMPTY_PATCH: &str =
    r#"{"do":"patch","block":0,"at":0,"data":"41"} -> patch 1 hard
{"do":"patch","block":1,"at":0,"data":"42"} -> patch 2 hard
{"do":"empty","after":[1,2]} -> empty 3
{"do":"patch","block":2,"at":0,"data":"43","after":[3]} -> patch 4 hard
{"do":"write","block":2} -> refused 10
{"do":"write","block":0} -> flight 1 block 0 patches 1 image 41000000
{"do":"done","ticket":1} -> done 1 block 0
{"do":"place","patch":3} -> place 3 memory
{"do":"write","block":1} -> flight 2 block 1 patches 2 image 42000000
{"do":"done","ticket":2} -> done 2 block 1
{"do":"place","patch":3} -> place 3 disk
{"do":"write","block":2} -> flight 3 block 2 patches 4 image 43000000
"#;

// A name that is repeated counts once.
const REPEATED_NAME: &str = r#"{"do":"patch","block":0,"at":0,"data":"41"} -> patch 1 hard
{"do":"patch","block":1,"at":0,"data":"42","after":[1,1]} -> patch 2 hard
{"do":"write","block":0} -> flight 1 block 0 patches 1 image 41000000
{"do":"pick"} -> pick none
{"do":"done","ticket":1} -> done 1 block 0
{"do":"pick"} -> pick 1
{"do":"write","block":1} -> flight 2 block 1 patches 2 image 42000000
"#;

const SCRIPTS: &[Script] = &[
    ("thinnest path", 4, THINNEST_PATH),
    ("cycle of blocks", 4, CYCLE_OF_BLOCKS),
    ("crosswise hold", 4, CROSSWISE_HOLD),
    (
        "overlaps reverted newest first",
        4,
        OVERLAPS_REVERTED_NEWEST_FIRST,
    ),
    ("spans at the boundary", 4, SPANS_AT_THE_BOUNDARY),
    ("open gate blocks", 4, OPEN_GATE_BLOCKS),
    (
        "landing order against number order",
        4,
        LANDING_ORDER_AGAINST_NUMBER_ORDER,
    ),
    ("cycles and repeats", 4, CYCLES_AND_REPEATS),
    (
        "cascade through an empty patch",
        4,
        CASCADE_THROUGH_AN_EMPTY_PATCH,
    ),
    ("repeated name", 4, REPEATED_NAME),
];

#[test]
fn scripts_of_order(rt: HostRuntime) {
    plays_each(&rt, rt.alloc(), SCRIPTS);
}
