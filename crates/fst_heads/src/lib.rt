//! What is kept of each patch, and what follows when one changes.
//!
//! A patch has a `Head`: its number, what it is, where it is, the numbers that it directly depends on and the numbers of
//! those that directly depend on it. Heads stand in order of number, which is a fact of their type, `Heads`. That of a patch
//! which is forgotten stays for a while, marked so: dropping heads moves those behind them, so that many are dropped at once.
//!
//! So that nobody has to walk from patch to patch to learn what may be written, each head also has what is *pending* of it,
//! which says what has still to reach the disk before it may: nothing; changes of one block alone, all in memory, or some
//! of them in flight (*behind*); or more, which is an open gate (*held*) or several blocks (*apart*). Beside that stand the
//! sums of its row, from which pending is told at once, so that one of 60,000 dependencies may land without a look at the
//! others.
//!
//! A seal or a landing changes what is pending of a patch, and the *cascade* notifies those that directly depend on it:
//! then what is pending only sinks. An empty patch or a sealed gate of which nothing is pending any more goes to disk there. A
//! *launch* notifies them too, that what was pending in memory is in flight. What it takes along lands at once, so that
//! this befalls a patch once, and each dependency is looked at five times at most.
//!
//! For each block there is a list of its changes that are not on disk, and its *standing*: how many of them are ready, hard
//! and held back, and in flight, and where in the list those of each kind lie. Those that are ready wait for such changes
//! alone: at every moment they are what may be written of the block. Where some are ready, none is held back and none flies,
//! it may be written now, and that is its mark. The standings of all blocks tell by sixty-four whether one has it, so that the
//! least is found without a look at each.
//!
//! Nothing here knows a grade's rule, a refusal or a group: what is kept for searches over heads (`fst_levels`) and the
//! searches (`fst_walks`) are layers above, and what callers see of it all is `fst_graph`.
#![tactic(auto)]

pub mod cascade;
pub mod choice;
pub mod cover;
pub mod directory;
pub mod forgotten;
pub mod growth;
pub mod head;
pub mod heads;
pub mod launch;
pub mod links;
pub mod lists;
pub mod numbered;
pub mod pending;
pub mod places;
pub mod row;
pub mod sparse;
pub mod standing;
pub mod standings;
pub mod stretch;
pub mod test;
mod turns;
