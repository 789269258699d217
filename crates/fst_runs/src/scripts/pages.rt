//! The scripts of the pages with their replies. Written by tools/examples --test; change those files, and not this one.

use crate::scripts::{Script, plays_each};

const README_1: &str = r#"{"do":"patch","block":0,"at":0,"data":"41"} -> patch 1 hard
{"do":"patch","block":1,"at":0,"data":"42","after":[1]} -> patch 2 hard
{"do":"pick"} -> pick 0
{"do":"write","block":1} -> refused 10
{"do":"write","block":0} -> flight 1 block 0 patches 1 image 41000000
{"do":"crash","finish":[0]} -> crash 41000000 00000000 00000000 00000000
"#;

const LINES_1: &str = r#"{"do":"patch","block":0,"at":0,"data":"41"} -> patch 1 hard
{"do":"patch","block":1,"at":0,"data":"42"} -> patch 2 hard
{"do":"patch","block":0,"at":1,"data":"43","after":[2]} -> patch 3 hard
{"do":"write","block":0} -> refused 11 held 3
{"do":"write","block":1} -> flight 1 block 1 patches 2 image 42000000
{"do":"write","block":0} -> refused 11 held 3
{"do":"done","ticket":1} -> done 1 block 1
{"do":"write","block":0} -> flight 2 block 0 patches 1,3 image 41430000
"#;

const LINES_2: &str = r#"{"do":"patch","block":0,"at":0,"data":"4a"} -> patch 1 hard
{"do":"patch","block":1,"at":0,"data":"43","after":[1]} -> patch 2 hard
{"do":"patch","block":2,"at":0,"data":"48","after":[2]} -> patch 3 hard
{"do":"empty","after":[3]} -> empty 4
{"do":"write","block":2} -> refused 10
{"do":"write","block":0} -> flight 1 block 0 patches 1 image 4a000000
{"do":"crash","finish":[0]} -> crash 4a000000 00000000 00000000 00000000
{"do":"done","ticket":1,"fail":"before"} -> stalled 1 block 0
{"do":"write","block":1} -> refused 10
{"do":"retry","block":0} -> flight 2 block 0 patches 1 image 4a000000
{"do":"done","ticket":2} -> done 2 block 0
{"do":"write","block":1} -> flight 3 block 1 patches 2 image 43000000
{"do":"done","ticket":3} -> done 3 block 1
{"do":"write","block":2} -> flight 4 block 2 patches 3 image 48000000
{"do":"place","patch":4} -> place 4 memory
{"do":"done","ticket":4} -> done 4 block 2
{"do":"place","patch":4} -> place 4 disk
{"do":"forget"} -> forget 4
"#;

const GRADES_1: &str = r#"{"do":"patch","block":0,"at":0,"data":"41"} -> patch 1 hard
{"do":"patch","block":1,"at":0,"data":"42","after":[1]} -> patch 2 hard
{"do":"patch","block":1,"at":1,"data":"43"} -> patch 3 hard
{"do":"patch","block":2,"at":0,"data":"44","after":[3]} -> patch 4 hard
{"do":"patch","block":0,"at":1,"data":"45","after":[4]} -> patch 5 soft
"#;

const SCRIPTS: &[Script] = &[
    ("readme_1", 4, README_1),
    ("lines_1", 4, LINES_1),
    ("lines_2", 4, LINES_2),
    ("grades_1", 4, GRADES_1),
];

#[test]
fn scripts_of_the_pages(rt: HostRuntime) {
    plays_each(&rt, rt.alloc(), SCRIPTS);
}
