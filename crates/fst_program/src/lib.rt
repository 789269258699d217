//! What the program does with its words: what they ask, and from words and streams to a status.
//!
//! It keeps nothing between two calls. It touches the streams that it is given, and the threads and the time that a crew
//! takes of the host; the program itself, `feather`, only gathers its words and streams and passes them on. The tests of
//! whole runs stand in `fst_runs`.
#![tactic(auto)]

pub mod arguments;
pub mod status;
