//! Changes of groups: what they depend on, how they are graded, and when there is none.

use crate::graph::step::walk_each;

// The first change seals the head, and room for it does not.
const FIRST_CHANGE_SEALS_THE_HEAD: &str = "\
group -> Ok(GroupNo(1))
group_room 1 0 0 -> Ok((PatchNo(3), Hard))
place 1 -> Some(Memory)
member 1 0 0 -> Ok((PatchNo(3), Hard))
place 1 -> Some(Disk)
member 1 1 0 -> Ok((PatchNo(4), Hard))
group_close 1 -> Ok(())
write 0 -> [PatchNo(3)]
place 2 -> Some(Memory)
write 1 -> [PatchNo(4)]
place 2 -> Some(Disk)
live -> 0
";

// Its own head alone makes no change soft, also where the change waits for it by way of what it overlaps, or where the
// head waits for a change of another block.
const HEAD_IS_GRADED_AS_SEALED: &str = "\
group -> Ok(GroupNo(1))
group -> Ok(GroupNo(3))
byte 0 0 after 1 -> Ok((PatchNo(5), Soft))
member 1 0 0 -> Ok((PatchNo(6), Hard))
group_close 1 -> Ok(())
group_after 3 1 -> Ok(())
member 3 1 0 -> Ok((PatchNo(7), Hard))
chosen 1 -> []
held 1 -> Some(PatchNo(7))
write 0 -> [PatchNo(5), PatchNo(6)]
write 1 -> [PatchNo(7)]
";

// Another open gate below makes it soft, as the tail of the group before it is.
const OTHER_GATES_COUNT: &str = "\
group -> Ok(GroupNo(1))
group -> Ok(GroupNo(3))
group_after 3 1 -> Ok(())
member 3 0 0 -> Ok((PatchNo(5), Soft))
chosen 0 -> []
held 0 -> None
group_after 3 1 -> Err(GroupBegun)
group_close 1 -> Ok(())
chosen 0 -> [PatchNo(5)]
held 0 -> None
";

// A change that overlaps one that waits for the tail would wait for itself. The head stays open.
const OVERLAP_THAT_WAITS_FOR_THE_TAIL: &str = "\
group -> Ok(GroupNo(1))
byte 0 1 after 2 -> Ok((PatchNo(3), Soft))
member 1 0 1 -> Err(Cycle)
place 1 -> Some(Memory)
live -> 3
member 1 0 2 -> Ok((PatchNo(4), Hard))
place 1 -> Some(Disk)
group_close 1 -> Ok(())
member 1 0 1 -> Err(Sealed)
member 3 0 1 -> Err(NoPatch)
write 0 -> [PatchNo(3), PatchNo(4)]
";

const ROWS: &[(u32, &str)] = &[
    (0, FIRST_CHANGE_SEALS_THE_HEAD),
    (0, HEAD_IS_GRADED_AS_SEALED),
    (0, OTHER_GATES_COUNT),
    (0, OVERLAP_THAT_WAITS_FOR_THE_TAIL),
];

#[test]
fn rows_of_members(rt: HostRuntime) {
    walk_each(&rt, rt.alloc(), ROWS);
}
