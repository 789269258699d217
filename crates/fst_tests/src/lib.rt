//! Tests of the public calls of the types, the chain, the block, the slots, the graph and the cache.
//!
//! `types` has each plain function of the types once; `chain` has the chain's worked rows, and what its nodes take from a
//! heap and give back; `block` has the worked block, random blocks against a plain fold, and what an image takes; `device`
//! has slots that fail as they were told to, and writes that are tried again; `graph` has the worked rows as far as they
//! speak of patches alone, random graphs against a plain twin, and what large graphs take; `cache` has each call once, the
//! limits, and what comes of failures and strangers.
//!
//! They stand in a crate above these, and need nothing but their public calls: beside their code, the tests' proofs would
//! take a second proof of all of it. What a test holds for long, contracts see nothing of: each call is then proved with no
//! more than that call needs.
#![tactic(auto)]

#[cfg(test)]
mod block;
#[cfg(test)]
mod cache;
#[cfg(test)]
mod chain;
#[cfg(test)]
mod device;
#[cfg(test)]
mod dice;
#[cfg(test)]
mod graph;
#[cfg(test)]
mod list;
#[cfg(test)]
mod same;
#[cfg(test)]
mod types;
