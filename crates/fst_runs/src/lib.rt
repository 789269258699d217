//! Tests of whole runs, by public calls: scripts, a desk and its workers, crews, the program and the demo.
//!
//! `scripts` has worked rows, the scripts of the pages and of `examples/`, groups beside a plain order, lines that are
//! hostile or nearly right, limits, devices that fail, and streams in pieces or failing; `workers` has full rings, strays,
//! writes that fail, and threads that cannot be made; `program` has words, and what is printed by each status; `demo` has
//! what its guides tell, and a file that is opened again.
//!
//! They stand in a crate above all these, as the tests of the graph and the cache do in `fst_tests`: beside the code, the
//! tests' proofs would take a second proof of all of it. They stand in one crate, since each crate of tests reads anew what
//! it links, and proves anew what it takes of the standard library.
#![tactic(auto)]

#[cfg(test)]
mod demo;
#[cfg(test)]
mod list;
#[cfg(test)]
mod program;
#[cfg(test)]
mod same;
#[cfg(test)]
mod scripts;
#[cfg(test)]
mod slots;
#[cfg(test)]
mod stopping;
#[cfg(test)]
mod store;
#[cfg(test)]
mod workers;
