//! The types of the buffer cache, and in `specs/` the definitions that its contracts speak of.
#![tactic(auto)]

mod fault;
mod fold;
mod grade;
mod laws;
mod limits;
mod noted;
mod number;
mod place;
mod settled;
mod shape;
mod span;

pub use fault::{Fault, What};
pub use fold::{Write, fold_over, write_over};
pub use grade::Grade;
pub use laws::{
    changes_go_one_way, changes_stay_fit, crash_leaves_a_closed_set, depend_makes_no_cycle,
    faults_have_their_own_numbers, groups_stand_in_order, headline_holds, heads_stay_lawful,
    images_stay_folds, landing_order_does_not_matter, lost_for_good, never_stuck,
    new_change_is_sound, opening_is_lawful, overlaps_land_in_order, runs_stay_lawful, settled_once,
    step_keeps_lawful, steps_are_fixed,
};
pub use limits::{
    MAX_BLOCKS, MAX_FLIGHTS, MAX_GROUPS, MAX_HEADS, MAX_NAMES, MAX_NUMBER, MAX_SIZE, MAX_TICKET,
    MAX_TRIES,
};
pub use noted::{Items, Noted, Notes};
pub use number::{BlockNo, GroupNo, PatchNo, Ticket};
pub use place::Place;
pub use settled::Settled;
pub use shape::Shape;
pub use span::Span;
