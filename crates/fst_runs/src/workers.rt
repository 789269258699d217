//! A desk and its workers, and crews, over slots in memory and slots that fail.

pub mod crew;
mod failing;
mod pairs;
