//! The scripts whose writes fail and whose disk is looked at after a crash: each line with its reply behind an arrow.

/// A script, which change needs which other one, and how many writes land.
pub type Script = (&'static str, &'static [(u32, u32)], u32);

const CYCLE_OF_BLOCKS: &str = r#"{"do":"patch","block":0,"at":0,"data":"41"} -> patch 1 hard
{"do":"patch","block":1,"at":0,"data":"42","after":[1]} -> patch 2 hard
{"do":"patch","block":0,"at":1,"data":"43","after":[2]} -> patch 3 soft
{"do":"write","block":0} -> flight 1 block 0 patches 1 image 41000000
{"do":"show","block":0} -> show 0 41430000
{"do":"stat"} -> stat made 3 live 3 undo 1 flights 1
{"do":"done","ticket":1} -> done 1 block 0
"#;

const CROSSWISE_HOLD: &str = r#"{"do":"patch","block":0,"at":0,"data":"41"} -> patch 1 hard
{"do":"patch","block":1,"at":0,"data":"42"} -> patch 2 hard
{"do":"patch","block":0,"at":1,"data":"43","after":[2]} -> patch 3 hard
{"do":"patch","block":1,"at":1,"data":"44","after":[1]} -> patch 4 soft
{"do":"write","block":0} -> refused 11 held 3
{"do":"write","block":1} -> flight 1 block 1 patches 2 image 42000000
{"do":"done","ticket":1} -> done 1 block 1
{"do":"write","block":0} -> flight 2 block 0 patches 1,3 image 41430000
{"do":"done","ticket":2} -> done 2 block 0
"#;

const LANDING_ORDER_AGAINST_NUMBER_ORDER: &str = r#"{"do":"gate"} -> gate 1
{"do":"patch","block":0,"at":0,"data":"41","after":[1]} -> patch 2 soft
{"do":"patch","block":0,"at":1,"data":"42"} -> patch 3 hard
{"do":"write","block":0} -> flight 1 block 0 patches 3 image 00420000
{"do":"done","ticket":1} -> done 1 block 0
{"do":"seal","gate":1} -> seal 1
{"do":"write","block":0} -> flight 2 block 0 patches 2 image 41420000
{"do":"done","ticket":2} -> done 2 block 0
"#;

const CASCADE_THROUGH_AN_EMPTY_PATCH: &str =
    r#"{"do":"patch","block":0,"at":0,"data":"41"} -> patch 1 hard
{"do":"patch","block":1,"at":0,"data":"42"} -> patch 2 hard
{"do":"empty","after":[1,2]} -> empty 3
{"do":"patch","block":2,"at":0,"data":"43","after":[3]} -> patch 4 hard
{"do":"write","block":0} -> flight 1 block 0 patches 1 image 41000000
{"do":"done","ticket":1} -> done 1 block 0
{"do":"write","block":1} -> flight 2 block 1 patches 2 image 42000000
{"do":"done","ticket":2} -> done 2 block 1
{"do":"write","block":2} -> flight 3 block 2 patches 4 image 43000000
{"do":"done","ticket":3} -> done 3 block 2
"#;

/// All of them.
pub const SCRIPTS: &[Script] = &[
    (CYCLE_OF_BLOCKS, &[(2, 1), (3, 2), (3, 1)], 1),
    (CROSSWISE_HOLD, &[(3, 2), (4, 1)], 2),
    (LANDING_ORDER_AGAINST_NUMBER_ORDER, &[], 2),
    (CASCADE_THROUGH_AN_EMPTY_PATCH, &[(4, 1), (4, 2)], 3),
];
