//! The text of a script: what a line asks, and what a reply says.
//!
//! A line is one JSON object with a member `do` and the members that its command has (`members`, `command`; `failure` is how
//! a write that a line names goes wrong). What a line's bytes mean is a definition over JSON as `serde_json` reads it:
//! `command_of` in `specs/Commands.antt`; `parse` gives that command, that refusal, or want of memory.
//! A line of a change, in a group or in none, of an empty patch, of what a gate gains or of the group that a group comes after,
//! or with one number or no other member, is read from its tokens first (`short`, `patch_line`, `order_line`; `names` are the
//! patches that a line names), which says the same. `small` has the names of commands with one number or no other member.
//!
//! A reply is a line of words, decimal numbers and bytes in hex, whose text is a definition too (`specs/Replies.antt`). It
//! goes out in pieces, through a loop over `write` (`output`, `reply`): so no reply takes memory or has a greatest length,
//! and a writer that stops has taken a beginning of it.
//!
//! Nothing here knows a cache: who answers is a layer above (`fst_player`).
#![tactic(auto)]

pub mod command;
pub mod failure;
mod members;
mod names;
mod order_line;
pub mod output;
mod patch_line;
pub mod reply;
mod short;
mod small;
mod taking;

pub use json::Scratch;
