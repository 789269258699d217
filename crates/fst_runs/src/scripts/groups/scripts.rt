//! Scripts of groups: each line with its reply behind an arrow.

/// The change of the second group waits until the first is closed and on disk.
pub const TWO_GROUPS: &str = r#"{"do":"group"} -> group 1
{"do":"group"} -> group 3
{"do":"group_after","group":3,"on":1} -> group_after 3
{"do":"group_patch","group":3,"block":1,"at":0,"data":"42"} -> patch 5 soft
{"do":"group_patch","group":1,"block":0,"at":0,"data":"41"} -> patch 6 hard
{"do":"group_after","group":1,"on":3} -> refused 18
{"do":"write","block":0} -> flight 1 block 0 patches 6 image 41000000
{"do":"done","ticket":1} -> done 1 block 0
{"do":"write","block":1} -> refused 10
{"do":"group_patch","group":1,"block":2,"at":0,"data":"43"} -> patch 7 hard
{"do":"group_close","group":1} -> group_close 1
{"do":"write","block":1} -> refused 10
{"do":"write","block":2} -> flight 2 block 2 patches 7 image 43000000
{"do":"done","ticket":2} -> done 2 block 2
{"do":"write","block":1} -> flight 3 block 1 patches 5 image 42000000
{"do":"done","ticket":3} -> done 3 block 1
"#;

/// The first group's change of the same byte would wait for its own group's end. Of another byte it is taken, and both
/// groups go in one write.
pub const OWN_TAIL: &str = r#"{"do":"group"} -> group 1
{"do":"group"} -> group 3
{"do":"group_after","group":3,"on":1} -> group_after 3
{"do":"group_patch","group":3,"block":1,"at":0,"data":"42"} -> patch 5 soft
{"do":"group_patch","group":1,"block":1,"at":0,"data":"41"} -> refused 8
{"do":"group_patch","group":1,"block":1,"at":1,"data":"41"} -> patch 6 hard
{"do":"group_close","group":1} -> group_close 1
{"do":"write","block":1} -> flight 1 block 1 patches 5,6 image 42410000
{"do":"done","ticket":1} -> done 1 block 1
"#;

/// The last of three groups comes after the first only through the second, which has no change. Three writes are out at
/// once, of which one fails and is tried again.
pub const THROUGH_AN_EMPTY_GROUP: &str = r#"{"do":"group"} -> group 1
{"do":"group"} -> group 3
{"do":"group"} -> group 5
{"do":"group_after","group":5,"on":3} -> group_after 5
{"do":"group_after","group":3,"on":1} -> group_after 3
{"do":"group_patch","group":5,"block":3,"at":0,"data":"44"} -> patch 7 soft
{"do":"group_patch","group":1,"block":0,"at":0,"data":"41"} -> patch 8 hard
{"do":"group_patch","group":1,"block":1,"at":0,"data":"42"} -> patch 9 hard
{"do":"group_close","group":3} -> group_close 3
{"do":"write","block":3} -> refused 10
{"do":"write","block":0} -> flight 1 block 0 patches 8 image 41000000
{"do":"group_patch","group":1,"block":2,"at":0,"data":"43"} -> patch 10 hard
{"do":"write","block":1} -> flight 2 block 1 patches 9 image 42000000
{"do":"write","block":2} -> flight 3 block 2 patches 10 image 43000000
{"do":"group_close","group":1} -> group_close 1
{"do":"write","block":3} -> refused 10
{"do":"done","ticket":2,"fail":"after"} -> stalled 2 block 1
{"do":"done","ticket":3} -> done 3 block 2
{"do":"done","ticket":1} -> done 1 block 0
{"do":"write","block":3} -> refused 10
{"do":"retry","block":1} -> flight 4 block 1 patches 9 image 42000000
{"do":"done","ticket":4} -> done 4 block 1
{"do":"write","block":3} -> flight 5 block 3 patches 7 image 44000000
{"do":"done","ticket":5} -> done 5 block 3
"#;

/// The first group goes on after its change was forgotten, also when it was closed and its end was forgotten.
pub const FORGOTTEN_CHANGES: &str = r#"{"do":"group"} -> group 1
{"do":"group_patch","group":1,"block":0,"at":0,"data":"41"} -> patch 3 hard
{"do":"write","block":0} -> flight 1 block 0 patches 3 image 41000000
{"do":"done","ticket":1} -> done 1 block 0
{"do":"forget"} -> forget 2
{"do":"place","patch":3} -> place 3 disk
{"do":"group"} -> group 4
{"do":"group_after","group":4,"on":1} -> group_after 4
{"do":"group_after","group":1,"on":4} -> refused 18
{"do":"group_patch","group":4,"block":1,"at":0,"data":"42"} -> patch 6 soft
{"do":"group_patch","group":1,"block":0,"at":1,"data":"43"} -> patch 7 hard
{"do":"write","block":1} -> refused 10
{"do":"group_close","group":1} -> group_close 1
{"do":"group_close","group":1} -> refused 7
{"do":"group_patch","group":1,"block":2,"at":0,"data":"44"} -> refused 7
{"do":"write","block":1} -> refused 10
{"do":"write","block":0} -> flight 2 block 0 patches 7 image 41430000
{"do":"done","ticket":2} -> done 2 block 0
{"do":"place","patch":2} -> place 2 disk
{"do":"forget"} -> forget 3
{"do":"seal","gate":1} -> refused 6
{"do":"group_close","group":1} -> refused 7
{"do":"group"} -> group 8
{"do":"group_after","group":8,"on":1} -> group_after 8
{"do":"group_after","group":8,"on":4} -> group_after 8
{"do":"group_patch","group":8,"block":2,"at":0,"data":"44"} -> patch 10 soft
{"do":"write","block":1} -> flight 3 block 1 patches 6 image 42000000
{"do":"write","block":2} -> refused 10
{"do":"group_close","group":4} -> group_close 4
{"do":"done","ticket":3} -> done 3 block 1
{"do":"write","block":2} -> flight 4 block 2 patches 10 image 44000000
{"do":"done","ticket":4} -> done 4 block 2
"#;

/// A change of the first group is lost, so no change of the second group is ever written.
pub const LOST_CHANGE: &str = r#"{"do":"group"} -> group 1
{"do":"group"} -> group 3
{"do":"group_after","group":3,"on":1} -> group_after 3
{"do":"group_patch","group":3,"block":1,"at":0,"data":"42"} -> patch 5 soft
{"do":"group_patch","group":1,"block":0,"at":0,"data":"41"} -> patch 6 hard
{"do":"group_patch","group":1,"block":2,"at":0,"data":"43"} -> patch 7 hard
{"do":"group_close","group":1} -> group_close 1
{"do":"write","block":0} -> flight 1 block 0 patches 6 image 41000000
{"do":"write","block":2} -> flight 2 block 2 patches 7 image 43000000
{"do":"done","ticket":1,"fail":"before"} -> stalled 1 block 0
{"do":"retry","block":0} -> flight 3 block 0 patches 6 image 41000000
{"do":"done","ticket":3,"fail":"after"} -> stalled 3 block 0
{"do":"done","ticket":2} -> done 2 block 2
{"do":"retry","block":0} -> flight 4 block 0 patches 6 image 41000000
{"do":"done","ticket":4,"fail":"before"} -> lost 4 block 0
{"do":"group_patch","group":3,"block":0,"at":1,"data":"44"} -> refused 19
{"do":"group_patch","group":3,"block":3,"at":0,"data":"44"} -> patch 8 hard
{"do":"write","block":1} -> refused 10
{"do":"write","block":3} -> refused 10
{"do":"pick"} -> pick none
"#;
