//! A cache under a lock, and workers that write without it.
//!
//! A desk keeps the cache and, for each worker, its ends of two rings: jobs go out on one, completions come back on the
//! other. The desk's calls are made under a lock; a worker's step takes neither the lock nor anything else that can wait.
//! Tickets rise on each ring, so a completion out of order is seen.
#![tactic(auto)]

mod choosing;
mod desk;
mod lane;
mod law;
mod rising;
mod totals;
mod worker;

pub use desk::{Desk, PLACES, Shared};
pub use law::{
    no_stray, nothing_lost, one_crash_tells_all_slots, rings_in_order,
    slots_hold_what_a_crash_leaves,
};
pub use rising::{DonesRise, JobsRise};
pub use totals::{Collected, Refused, Totals};
pub use worker::{FarEnds, Step, Worker};
