//! Why a call of the store failed.

use fst_types::Fault;
use std::alloc::{AllocError, AllocFailed};
use std::io;
use thiserror::Error;

/// Why a call of the store failed.
#[derive(Debug, Drop, Error)]
pub enum StoreFault {
    #[error("{0}")]
    Cache(Fault),
    #[error("{0}")]
    File(io::Error),
    #[error("nothing more can be written")]
    Stuck,
    #[error("a transfer is between two accounts, from one that has as much")]
    NoTransfer,
    #[error("a line is a transfer: FROM TO AMOUNT, three numbers")]
    NoLine,
    #[error("the file is no store")]
    NoStore,
}

impl From<Fault> for StoreFault {
    ghost use Rattle.std.specs.Prelude.{◌≡◌};
    ghost use Rattle.journal_parts.specs.declared.fault.StoreFault.TheVariants as store_fault;

    ghost from_gives = { λ fault refused. refused ≡ store_fault.Cache fault };

    fn from(fault: Fault) -> StoreFault {
        StoreFault::Cache(fault)
    }
}

// what `Cache::open` and `Cache::settle` hand back with a fault is let go
impl<T: Drop> From<(T, Fault)> for StoreFault {
    fn from(refused: (T, Fault)) -> StoreFault {
        StoreFault::Cache(refused.1)
    }
}

impl From<AllocError> for StoreFault {
    fn from(_refused: AllocError) -> StoreFault {
        StoreFault::Cache(Fault::Memory)
    }
}

impl<T: Drop> From<AllocFailed<T>> for StoreFault {
    fn from(_refused: AllocFailed<T>) -> StoreFault {
        StoreFault::Cache(Fault::Memory)
    }
}

impl From<io::Error> for StoreFault {
    fn from(error: io::Error) -> StoreFault {
        StoreFault::File(error)
    }
}
