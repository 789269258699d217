//! What ends a crew.

use fst_types::Fault;
use std::alloc::{AllocError, AllocFailed};

/// What ended a crew.
#[derive(Debug, Drop)]
pub enum CrewFault {
    /// The writer failed or took nothing. What the crew made is on disk then, and how much of the text the writer took is
    /// not told.
    Write,
    /// A call of the cache or the desk was refused, a stray came, or memory was refused.
    Cache(Fault),
    /// A thread could not be made.
    Thread,
}

impl From<Fault> for CrewFault {
    fn from(fault: Fault) -> CrewFault {
        CrewFault::Cache(fault)
    }
}

impl From<AllocError> for CrewFault {
    fn from(_error: AllocError) -> CrewFault {
        CrewFault::Cache(Fault::Memory)
    }
}

impl<T: Drop> From<AllocFailed<T>> for CrewFault {
    fn from(_error: AllocFailed<T>) -> CrewFault {
        CrewFault::Cache(Fault::Memory)
    }
}
