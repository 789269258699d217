//! Searches over heads, for what neither the heads near a patch tell nor what is kept beside them (`fst_levels`).
//!
//! Two questions need them. *Is a new change hard?* A block is written only with all its hard changes, so a change may be hard
//! only where nothing that it depends on can come to wait for its block. Mostly a look tells (`grade` has them in order): at
//! levels, at ancestors, at ways back that are known. Or the change comes after the same as an earlier change of the block, and
//! is graded as that was (`before`). Else a way back is looked for down alone for a while (`below`), then over the newest of
//! what blocks need alone (`skim`), then from both ends at once (`both_ends`): up from the changes of the block (`way_up`), and
//! down (`way_down`) from the first changes of other blocks at or below what the new change depends on (`first_away`), which
//! goes on from a block to what its hard changes need.
//! Where the two meet, the end of the way is traced (`trace`). Where a new hard change would stand over the floor of its block,
//! what has to go up with it is looked for too (`lift`). *May a gate gain these names, and may a group have this change?* Where
//! the ancestors of a name do not lead to the gate, a walk goes down from them (`starts`) through what waits for an open gate,
//! and one up from the gate to what depends on it, until they meet or one of them is at its end (`cycle`, `overlap_cycle`).
//! Which gates a row waits for is looked for down alone: by a way to one that is near (`gate_below`), or else over all that
//! waits (`other_gates`).
//!
//! A walk keeps what it has met, and visits it in turn (`descent`). One that crosses blocks keeps besides which it has crossed
//! (`block_walk`), and a search from both ends has two such (`ends`), for search after search.
//!
//! All of it only reads the heads and what is kept beside them. Each answer is that of the definition, exactly: a walk that
//! gives up says so. The modules of a search's steps are private.
#![tactic(auto)]

mod before;
mod below;
pub mod block_walk;
mod both_ends;
pub mod cycle;
mod descent;
pub mod ends;
mod first_away;
mod gate_below;
pub mod grade;
pub mod graded;
pub mod lift;
mod other_gates;
pub mod overlap_cycle;
mod skim;
mod starts;
mod trace;
mod way_down;
mod way_up;
