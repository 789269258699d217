//! The worked rows, as far as they speak of the graph. Beside them stand random graphs against a plain twin, and what
//! large graphs take.

mod checked;
mod groups;
mod members;
mod random;
mod step;
mod twin;

use crate::graph::step::walk_each;

// A block with a hard change, another that needs it, and again the first, which needs that.
const CYCLE_OF_BLOCKS: &str = "\
byte 0 0 -> Ok((PatchNo(1), Hard))
byte 1 0 after 1 -> Ok((PatchNo(2), Hard))
byte 0 1 after 2 -> Ok((PatchNo(3), Soft))
chosen 0 -> [PatchNo(1)]
held 0 -> None
chosen 1 -> []
held 1 -> Some(PatchNo(2))
launch -> Some((BlockNo(0), [PatchNo(1)]))
live -> 3
chosen 0 -> []
held 0 -> None
pick -> None
land 0 -> ()
write 1 -> [PatchNo(2)]
write 0 -> [PatchNo(3)]
";

// A change in flight, and behind it, by an empty patch, a change of the same block, and another behind that. One change
// waits for neither. Past the last block there is nothing to write.
const BEHIND_A_FLIGHT: &str = "\
byte 0 0 -> Ok((PatchNo(1), Hard))
launch -> Some((BlockNo(0), [PatchNo(1)]))
empty after 1 -> Ok(PatchNo(2))
byte 0 1 after 2 -> Ok((PatchNo(3), Hard))
byte 0 2 -> Ok((PatchNo(4), Hard))
byte 0 3 after 3 -> Ok((PatchNo(5), Hard))
chosen 0 -> [PatchNo(4)]
held 0 -> Some(PatchNo(3))
chosen 4 -> []
held 4 -> None
pick -> None
land 0 -> ()
chosen 0 -> [PatchNo(3), PatchNo(4), PatchNo(5)]
held 0 -> None
write 0 -> [PatchNo(3), PatchNo(4), PatchNo(5)]
";

// Two blocks with a hard change each, and then one each that needs the other's first.
const CROSSWISE_HOLD: &str = "\
byte 0 0 -> Ok((PatchNo(1), Hard))
byte 1 0 -> Ok((PatchNo(2), Hard))
byte 0 1 after 2 -> Ok((PatchNo(3), Hard))
byte 1 1 after 1 -> Ok((PatchNo(4), Soft))
chosen 0 -> [PatchNo(1)]
held 0 -> Some(PatchNo(3))
chosen 1 -> [PatchNo(2)]
held 1 -> None
write 1 -> [PatchNo(2)]
chosen 0 -> [PatchNo(1), PatchNo(3)]
held 0 -> None
write 0 -> [PatchNo(1), PatchNo(3)]
write 1 -> [PatchNo(4)]
";

// Three blocks with a change each, and edges from the third to the second and from the second to the first. So two edges
// lead from block 2 to block 0, and none to block 3.
const PATH_OF_BLOCKS: &str = "\
byte 0 0 -> Ok((PatchNo(1), Hard))
byte 1 0 -> Ok((PatchNo(2), Hard))
byte 2 0 -> Ok((PatchNo(3), Hard))
byte 1 1 after 1 -> Ok((PatchNo(4), Hard))
byte 2 1 after 2 -> Ok((PatchNo(5), Hard))
byte 0 1 after 3 -> Ok((PatchNo(6), Soft))
byte 3 0 after 3 -> Ok((PatchNo(7), Hard))
";

// The third is soft, since it waited for a gate: it makes no edge, and yet what needs it returns to block 0.
const SOFT_CHANGE_BETWEEN: &str = "\
gate -> Ok(PatchNo(1))
byte 0 0 -> Ok((PatchNo(2), Hard))
byte 1 0 after 1 2 -> Ok((PatchNo(3), Soft))
seal 1 -> Ok(())
byte 1 1 -> Ok((PatchNo(4), Hard))
byte 0 1 after 4 -> Ok((PatchNo(5), Hard))
byte 0 2 after 3 -> Ok((PatchNo(6), Soft))
";

const OPEN_GATE_BLOCKS: &str = "\
gate -> Ok(PatchNo(1))
byte 0 0 after 1 -> Ok((PatchNo(2), Soft))
chosen 0 -> []
held 0 -> None
pick -> None
place 1 -> Some(Memory)
seal 1 -> Ok(())
place 1 -> Some(Disk)
write 0 -> [PatchNo(2)]
";

// The later of two patches lands first.
const LANDING_ORDER_AGAINST_NUMBER_ORDER: &str = "\
gate -> Ok(PatchNo(1))
byte 0 0 after 1 -> Ok((PatchNo(2), Soft))
byte 0 1 -> Ok((PatchNo(3), Hard))
write 0 -> [PatchNo(3)]
place 2 -> Some(Memory)
seal 1 -> Ok(())
write 0 -> [PatchNo(2)]
live -> 0
";

// A change over the bytes of one in flight waits for it.
const BUSY_BLOCK: &str = "\
byte 0 0 -> Ok((PatchNo(1), Hard))
launch -> Some((BlockNo(0), [PatchNo(1)]))
byte 0 0 -> Ok((PatchNo(2), Hard))
chosen 0 -> []
held 0 -> Some(PatchNo(2))
pick -> None
land 0 -> ()
write 0 -> [PatchNo(2)]
";

const CYCLES_AND_REPEATS: &str = "\
gate -> Ok(PatchNo(1))
byte 0 0 after 1 -> Ok((PatchNo(2), Soft))
depend 1 after 2 -> Err(Cycle)
depend 1 after 1 -> Err(Cycle)
depend 2 after 1 -> Err(NotGate)
byte 1 0 -> Ok((PatchNo(3), Hard))
depend 1 after 3 -> Ok(())
seal 1 -> Ok(())
seal 1 -> Err(Sealed)
depend 1 -> Err(Sealed)
place 1 -> Some(Memory)
write 1 -> [PatchNo(3)]
place 1 -> Some(Disk)
write 0 -> [PatchNo(2)]
";

// A cycle through the change of another block, and the order in which `depend` refuses.
const REFUSALS_OF_DEPEND: &str = "\
gate -> Ok(PatchNo(1))
byte 0 0 after 1 -> Ok((PatchNo(2), Soft))
byte 1 0 after 2 -> Ok((PatchNo(3), Soft))
depend 0 after 1*65 -> Err(NoPatch)
depend 9 after 1*65 -> Err(NoPatch)
depend 2 after 1*65 -> Err(NotGate)
depend 1 after 9*65 -> Err(BadField)
depend 1 after 3 9 -> Err(NoPatch)
depend 1 after 3 -> Err(Cycle)
depend 1 -> Ok(())
";

// A cycle through a sealed gate and an empty patch. What no longer waits for the gate closes none.
const CYCLE_THROUGH_A_SEALED_GATE: &str = "\
gate -> Ok(PatchNo(1))
gate -> Ok(PatchNo(2))
depend 2 after 1 -> Ok(())
seal 2 -> Ok(())
empty after 2 -> Ok(PatchNo(3))
byte 0 0 after 3 -> Ok((PatchNo(4), Soft))
depend 1 after 4 -> Err(Cycle)
depend 1 after 2 -> Err(Cycle)
byte 1 0 -> Ok((PatchNo(5), Hard))
depend 1 after 5 -> Ok(())
";

// A name that is given again counts once.
const REPEATED_NAMES: &str = "\
gate -> Ok(PatchNo(1))
byte 2 0 -> Ok((PatchNo(2), Hard))
depend 1 after 2*64 -> Ok(())
depend 1 after 2 -> Ok(())
seal 1 -> Ok(())
byte 0 0 after 1 1 1 -> Ok((PatchNo(3), Hard))
empty after 3 1 3 -> Ok(PatchNo(4))
place 1 -> Some(Memory)
place 4 -> Some(Memory)
write 2 -> [PatchNo(2)]
place 1 -> Some(Disk)
write 0 -> [PatchNo(3)]
place 4 -> Some(Disk)
";

const CASCADE_THROUGH_AN_EMPTY_PATCH: &str = "\
byte 0 0 -> Ok((PatchNo(1), Hard))
byte 1 0 -> Ok((PatchNo(2), Hard))
empty after 1 2 -> Ok(PatchNo(3))
byte 2 0 after 3 -> Ok((PatchNo(4), Hard))
chosen 2 -> []
held 2 -> Some(PatchNo(4))
write 0 -> [PatchNo(1)]
place 3 -> Some(Memory)
write 1 -> [PatchNo(2)]
place 3 -> Some(Disk)
write 2 -> [PatchNo(4)]
";

const FORGETTING: &str = "\
byte 0 0 -> Ok((PatchNo(1), Hard))
forget -> 0
write 0 -> [PatchNo(1)]
forget -> 1
place 1 -> Some(Disk)
seal 1 -> Err(NotGate)
depend 1 -> Err(NotGate)
place 2 -> None
live -> 0
byte 0 0 after 1 -> Ok((PatchNo(2), Hard))
write 0 -> [PatchNo(2)]
";

const ROOM_ANSWERS_WHAT_ADD_DATA_WILL: &str = "\
byte 0 0 -> Ok((PatchNo(1), Hard))
room 0 after 1 -> Ok((PatchNo(2), Hard))
place 2 -> None
pair 0 after 1 -> Ok((PatchNo(2), Hard))
place 2 -> Some(Memory)
";

// Another call between `room` and `add_data`, a refused `room`, and another change than the one prepared.
const ROOM_AND_ANOTHER_CALL: &str = "\
byte 0 0 -> Ok((PatchNo(1), Hard))
room 1 after 1 -> Ok((PatchNo(2), Hard))
pick -> Some(BlockNo(0))
pair 1 after 1 -> Ok((PatchNo(2), Hard))
room 2 after 1 -> Ok((PatchNo(3), Hard))
room 2 after 9 -> Err(NoPatch)
pair 2 after 1 -> Ok((PatchNo(3), Hard))
room 3 after 1 -> Ok((PatchNo(4), Hard))
byte 3 0 -> Ok((PatchNo(4), Hard))
pair 3 after 1 -> Ok((PatchNo(5), Hard))
";

const LIVE_PATCHES: &str = "\
live -> 0
byte 0 0 -> Ok((PatchNo(1), Hard))
empty after 1 -> Ok(PatchNo(2))
empty -> Ok(PatchNo(3))
live -> 2
launch -> Some((BlockNo(0), [PatchNo(1)]))
live -> 2
land 0 -> ()
live -> 0
";

const LIMIT_OF_NAMES: &str = "\
gate -> Ok(PatchNo(1))
empty after 1*64 -> Ok(PatchNo(2))
empty after 1*65 -> Err(BadField)
empty after 9*65 -> Err(BadField)
empty after 3 -> Err(NoPatch)
empty after 0 -> Err(NoPatch)
byte 0 0 after 1*64 -> Ok((PatchNo(3), Soft))
byte 0 0 after 1*65 -> Err(BadField)
";

const LIMIT_OF_HEADS: &str = "\
empties 65535
empty -> Err(Full(Heads))
gate -> Err(Full(Heads))
empty after 65536 -> Err(NoPatch)
forget -> 65535
empty -> Ok(PatchNo(65536))
";

const ONE_NUMBER_LEFT: &str = "\
gate -> Ok(PatchNo(4294967295))
gate -> Err(Full(Numbers))
";

const NO_NUMBER_LEFT: &str = "\
gate -> Err(Full(Numbers))
empty after 1 -> Err(Full(Numbers))
byte 0 0 -> Err(Full(Numbers))
place 4294967295 -> Some(Disk)
place 0 -> None
";

const ROWS: &[(u32, &str)] = &[
    (0, CYCLE_OF_BLOCKS),
    (0, BEHIND_A_FLIGHT),
    (0, CROSSWISE_HOLD),
    (0, PATH_OF_BLOCKS),
    (0, SOFT_CHANGE_BETWEEN),
    (0, OPEN_GATE_BLOCKS),
    (0, LANDING_ORDER_AGAINST_NUMBER_ORDER),
    (0, BUSY_BLOCK),
    (0, CYCLES_AND_REPEATS),
    (0, REFUSALS_OF_DEPEND),
    (0, CYCLE_THROUGH_A_SEALED_GATE),
    (0, REPEATED_NAMES),
    (0, CASCADE_THROUGH_AN_EMPTY_PATCH),
    (0, FORGETTING),
    (0, ROOM_ANSWERS_WHAT_ADD_DATA_WILL),
    (0, ROOM_AND_ANOTHER_CALL),
    (0, LIVE_PATCHES),
    (0, LIMIT_OF_NAMES),
    (0, LIMIT_OF_HEADS),
    (4_294_967_294, ONE_NUMBER_LEFT),
    (4_294_967_295, NO_NUMBER_LEFT),
];

#[test]
fn rows_of_patches(rt: HostRuntime) {
    walk_each(&rt, rt.alloc(), ROWS);
}
