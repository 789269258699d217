//! What is kept beside the heads so that searches over them are rare and short, and what a look near a patch tells.
//!
//! A block is written only with all its hard changes, so a new change may be hard only where no *way back* leads from it:
//! where nothing that it depends on can come to wait for its block. What is kept tells of ways that nobody has to go.
//!
//! Each patch has a level and each block a floor, so that no way down rises, and what lies below the floor of a block leads
//! nowhere (`levels`, over `ranks`, their list). Each patch has two ancestors that it depends on, a near one and a far one, so
//! that some dozens of steps tell that it depends on another (`ancestors`).
//! Of each block it is kept what its hard changes in memory need, where a way that crosses the block goes on (`needs`), but for
//! what such a way comes to anyway (`spared`), with some of what lies below that (`below_row`), and which need is the newest of
//! each other block (`latest`); and of the ways back that were found each with its end, since it is there until that is on disk.
//!
//! A look asks one patch or one row (`shortcuts`): is it hard, does it wait for an open gate or for its own block alone, does
//! it lie below the floor, or below a hard change of the block (`under_hard`), and is a way back known of it (`known`)? Such a
//! look says yes only where it is so; where it does not tell, a search does (`fst_walks`).
//!
//! What is looked at is one value (`sight`): the heads, the lists of the blocks, the newest change over each of their bytes,
//! and what is kept here. What was met on the way is another (`walk`), so that each patch is looked at once; it can be used for
//! walk after walk, each of which begins where nothing was met.
//!
//! What is kept follows the heads. What stands over a block goes up with its floor; what was put behind a gate comes down as
//! the gate is sealed, and a floor as the last change of its block lands (`sink`); and patches are forgotten whose heads stay
//! (`flags`). Only here is any of it written, and no search does.
#![tactic(auto)]

pub mod ancestors;
mod below_row;
pub mod flags;
pub mod known;
mod latest;
pub mod levels;
pub mod needs;
mod ranks;
pub mod shortcuts;
pub mod sight;
pub mod sink;
mod spared;
pub mod under_hard;
pub mod walk;
