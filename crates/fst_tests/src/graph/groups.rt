//! Groups: what their calls answer, and what becomes of their gates.

use crate::graph::step::walk_each;

// Two groups, the second after the first: its change waits until the first is closed and on disk.
const GROUPS_IN_ORDER: &str = "\
group -> Ok(GroupNo(1))
group -> Ok(GroupNo(3))
group_after 3 1 -> Ok(())
member 3 1 0 -> Ok((PatchNo(5), Soft))
member 1 0 0 -> Ok((PatchNo(6), Hard))
group_after 1 3 -> Err(GroupBegun)
write 0 -> [PatchNo(6)]
chosen 1 -> []
held 1 -> None
member 1 2 0 -> Ok((PatchNo(7), Hard))
group_close 1 -> Ok(())
chosen 1 -> []
held 1 -> None
write 2 -> [PatchNo(7)]
write 1 -> [PatchNo(5)]
";

// A change that would depend on the tail of its own group is refused, and leaves the head open.
const MEMBER_THAT_REACHES_ITS_OWN_TAIL: &str = "\
group -> Ok(GroupNo(1))
group -> Ok(GroupNo(3))
group_after 3 1 -> Ok(())
member 3 1 0 -> Ok((PatchNo(5), Soft))
group_room 1 1 0 -> Err(Cycle)
member 1 1 0 -> Err(Cycle)
place 1 -> Some(Memory)
group_room 1 1 1 -> Ok((PatchNo(6), Hard))
place 1 -> Some(Memory)
member 1 1 1 -> Ok((PatchNo(6), Hard))
place 1 -> Some(Disk)
group_close 1 -> Ok(())
write 1 -> [PatchNo(5), PatchNo(6)]
";

// A group whose changes were forgotten gets more, and its tail comes after them. Closed, it gets none.
const GROUP_WHOSE_CHANGES_WERE_FORGOTTEN: &str = "\
group -> Ok(GroupNo(1))
member 1 0 0 -> Ok((PatchNo(3), Hard))
write 0 -> [PatchNo(3)]
forget -> 2
member 1 0 0 -> Ok((PatchNo(4), Hard))
group -> Ok(GroupNo(5))
group_after 5 1 -> Ok(())
member 5 1 0 -> Ok((PatchNo(7), Soft))
group_close 1 -> Ok(())
member 1 2 0 -> Err(Sealed)
member 3 2 0 -> Err(NoPatch)
chosen 1 -> []
held 1 -> None
write 0 -> [PatchNo(4)]
place 2 -> Some(Disk)
pick -> Some(BlockNo(1))
write 1 -> [PatchNo(7)]
";

// Three groups without changes, each after the one before it: none can come after the last, nor after itself.
const GROUPS_WITHOUT_CHANGES: &str = "\
group -> Ok(GroupNo(1))
group -> Ok(GroupNo(3))
group -> Ok(GroupNo(5))
group_after 3 1 -> Ok(())
group_after 5 3 -> Ok(())
group_after 1 5 -> Err(Cycle)
group_after 1 1 -> Err(Cycle)
group_after 5 1 -> Ok(())
group_close 5 -> Ok(())
group_close 3 -> Ok(())
live -> 6
group_close 1 -> Ok(())
live -> 0
forget -> 6
";

// A tail waits for its head, and a head for the tails of the groups before it, as changes do that name them.
const GATES_OF_GROUPS_WAIT: &str = "\
group -> Ok(GroupNo(1))
group -> Ok(GroupNo(3))
group_after 3 1 -> Ok(())
group_close 3 -> Ok(())
empty after 4 -> Ok(PatchNo(5))
empty after 3 -> Ok(PatchNo(6))
place 1 -> Some(Memory)
place 2 -> Some(Memory)
place 3 -> Some(Memory)
place 4 -> Some(Memory)
place 5 -> Some(Memory)
place 6 -> Some(Memory)
group_close 1 -> Ok(())
live -> 0
";

// The gates of a group are none to the calls of gates, also where they are on disk or forgotten.
const GATES_OF_GROUPS_ARE_NOT_NAMED: &str = "\
group -> Ok(GroupNo(1))
gate -> Ok(PatchNo(3))
seal 1 -> Err(NotGate)
depend 1 after 3*65 -> Err(NotGate)
seal 2 -> Err(NotGate)
depend 2 after 3*65 -> Err(NotGate)
depend 3 after 2 -> Ok(())
seal 0 -> Err(NoPatch)
seal 3 -> Ok(())
group_close 1 -> Ok(())
seal 1 -> Err(NotGate)
forget -> 3
seal 2 -> Err(NotGate)
depend 1 -> Err(NotGate)
";

// Of two reasons the first decides. A group that is closed, and forgotten, may be named as the one before.
const REFUSALS_OF_GROUPS: &str = "\
group -> Ok(GroupNo(1))
group_after 1 3 -> Err(NoPatch)
group_after 3 1 -> Err(NoPatch)
group_after 2 1 -> Err(NoPatch)
group_close 0 -> Err(NoPatch)
group_close 2 -> Err(NoPatch)
group_close 1 -> Ok(())
group_close 1 -> Err(Sealed)
group_after 1 1 -> Err(Sealed)
group_after 1 3 -> Err(NoPatch)
forget -> 2
group -> Ok(GroupNo(3))
group_after 3 1 -> Ok(())
group_close 3 -> Ok(())
live -> 0
";

const TWO_NUMBERS_LEFT: &str = "\
group -> Ok(GroupNo(4294967294))
group -> Err(Full(Numbers))
";

const ONE_NUMBER_LEFT: &str = "\
group -> Err(Full(Numbers))
";

const LIMIT_OF_GROUPS: &str = "\
groups 4096
group -> Err(Full(Groups))
gate -> Ok(PatchNo(8193))
";

// A group takes two patches.
const TWO_HEADS_ARE_NOT_LEFT: &str = "\
empties 65534
group -> Err(Full(Heads))
forget -> 65534
group -> Ok(GroupNo(65535))
";

const ROWS: &[(u32, &str)] = &[
    (0, GROUPS_IN_ORDER),
    (0, MEMBER_THAT_REACHES_ITS_OWN_TAIL),
    (0, GROUP_WHOSE_CHANGES_WERE_FORGOTTEN),
    (0, GROUPS_WITHOUT_CHANGES),
    (0, GATES_OF_GROUPS_WAIT),
    (0, GATES_OF_GROUPS_ARE_NOT_NAMED),
    (0, REFUSALS_OF_GROUPS),
    (4_294_967_293, TWO_NUMBERS_LEFT),
    (4_294_967_294, ONE_NUMBER_LEFT),
    (0, LIMIT_OF_GROUPS),
    (0, TWO_HEADS_ARE_NOT_LEFT),
];

#[test]
fn rows_of_groups(rt: HostRuntime) {
    walk_each(&rt, rt.alloc(), ROWS);
}
