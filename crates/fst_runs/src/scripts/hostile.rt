//! Lines that are refused before any call, and lines at their limits.

use crate::scripts::{Script, plays_each, plays_to, put};

// Lines that are no command, or name what is not there.
const HOSTILE_TABLE: &str = r#" -> refused 1
[] -> refused 1
{} -> refused 2
{"do":"pick","block":0} -> refused 2
{"do":"place","patch":0} -> refused 5
{"do":"place","patch":4294967295} -> refused 5
{"do":"place","patch":4294967296} -> refused 2
{"do":"place","patch":-1} -> refused 2
{"do":"patch","block":0,"at":4294967295,"data":"41"} -> refused 4
{"do":"patch","block":0,"at":0,"data":"zz"} -> refused 2
{"do":"done","ticket":18446744073709551615} -> refused 14
"#;

// Members that are missing, not given for the line, or of the wrong kind; their order does not matter.
const MEMBERS_OF_THE_LINES: &str = r#"{"do":"gate","after":[]} -> refused 2
{"do":"empty","after":1} -> refused 2
{"do":"empty","after":[1.5]} -> refused 2
{"do":"depend","gate":1} -> refused 2
{"do":"depend","on":[]} -> refused 2
{"do":"seal"} -> refused 2
{"do":"seal","patch":1} -> refused 2
{"do":"evict","block":"0"} -> refused 2
{"do":"forget","block":0} -> refused 2
{"do":"stat","gate":null} -> refused 2
{"do":"place","patch":true} -> refused 2
{"on":[],"gate":1,"do":"depend"} -> refused 5
"#;

// The last line has no end.
#[test]
fn hostile_lines(rt: HostRuntime) {
    plays_to(
        &rt,
        rt.alloc(),
        4,
        br#"{"do":"pat
{"do":"fly"}
{"do":"patch","block":0,"at":0,"data":"4"}
{"do":"patch","block":0,"at":0,"data":"41","after":[1]}
{"do":"patch","block":4,"at":0,"data":"41"}
{"do":"patch","block":0,"at":0,"data":"41"}
{"do":"#,
        b"refused 1\nrefused 2\nrefused 2\nrefused 5\nrefused 3\npatch 1 hard\nrefused 1\n",
    );
}

// Two bytes that are no text, and white space that JSON allows.
#[test]
fn bytes_round_a_line(rt: HostRuntime) {
    plays_to(
        &rt,
        rt.alloc(),
        4,
        b"\xff\xfe\n \t{\"do\":\"gate\"} \r\n",
        b"refused 1\ngate 1\n",
    );
}

// A line of the greatest length is read as JSON, with white space after its object; of a longer one nothing is kept.
#[test]
fn long_lines(rt: HostRuntime) {
    let line = r#"{"do":"pick"}"#;
    let mut script = Vec::new(rt.alloc());
    for length in [65_536usize, 65_537] {
        put(&rt, &mut script, line.as_bytes());
        for _ in line.len()..length {
            put(&rt, &mut script, b" ");
        }
        put(&rt, &mut script, b"\n");
    }
    put(&rt, &mut script, line.as_bytes());
    plays_to(
        &rt,
        rt.alloc(),
        4,
        &script,
        b"pick none\nrefused 1\npick none\n",
    );
}

const SCRIPTS: &[Script] = &[
    ("hostile table", 4, HOSTILE_TABLE),
    ("members of the lines", 4, MEMBERS_OF_THE_LINES),
];

#[test]
fn hostile_tables(rt: HostRuntime) {
    plays_each(&rt, rt.alloc(), SCRIPTS);
}
