//! Which patches depend on which, and what may be written: the patches without their bytes.
//!
//! `Graph` is what callers see, and its value is `Known` in `specs/`, the one file there that is theirs to read: the heads as
//! patches of the definitions, the greatest number given, how many blocks there are, the groups, and the change that is
//! prepared. Each call is one record there, or the first refusal of its order.
//!
//! A change is made in two calls. `room` finds what it will depend on and its grade, and makes every growth that adding it
//! takes; `add_data` with the same arguments then adds it and is not refused. So a caller can load a block between the
//! two, and nothing has to be taken back.
//!
//! Below it `sparse` has all calls that know no groups, over what is kept of each patch (`fst_heads`), what is kept beside them
//! for searches (`fst_levels`) and the searches that find grades and cycles (`fst_walks`): there a change keeps so much of its
//! row that the rest is below it, and the type keeps, between calls, that what stands beside the patches tells the truth: sums,
//! what is pending, lists, covers, marks. The head of a patch that was forgotten stays there for a while, marked so, and
//! contracts see the others alone.
//! `Graph` stands over it with the groups. It carries the whole rows, for contracts alone (`rows`), and keeps that the
//! patches are as the definitions want them, and what holds of the groups.
#![tactic(auto)]

mod columns;
mod fresh;
mod gates;
mod graph;
mod group;
mod groups;
mod member;
mod prepared;
mod refusals;
mod rows;
mod sparse;

pub use graph::Graph;
