// What the journal's calls answer in place of a journal or a body.
ghost use Rattle.std.specs.Prelude.{◌≡◌};
ghost use Rattle.scitt_journal.specs.declared.stops.BodyStop.TheVariants as of_body;
ghost use Rattle.scitt_journal.specs.declared.stops.CreateStop.TheVariants as of_create;
ghost use Rattle.scitt_journal.specs.declared.stops.LoadStop.TheVariants as of_load;

use scitt_disk::DiskFault;
use std::alloc::{AllocError, AllocFailed};
use thiserror::Error;

/// A disk that is handed back, and why.
#[derive(Debug, Drop)]
pub struct Refused<D, E> {
    pub disk: D,
    pub why: E,
}

/// Why a journal wasn't created.
#[derive(Debug, Clone, Copy, PartialEq, Eq, Error)]
pub enum CreateStop {
    /// The file has at least six bytes and the first is 1.
    #[error("the file begins a log")]
    LogExists,
    /// A call of the disk failed, and its count of faults rose.
    #[error("disk fault")]
    DiskFault,
    /// Memory was wanting, before the first call of the disk.
    #[error("out of memory")]
    OutOfMemory,
}

/// Why a journal wasn't loaded.
#[derive(Debug, Clone, Copy, PartialEq, Eq, Error)]
pub enum LoadStop {
    /// The file has fewer than six bytes, or the first isn't 1.
    #[error("the file begins no log")]
    NoLog,
    /// The record of the first open gate that isn't whole passes the end; that gate's offset.
    #[error("the record at {0} is short")]
    Short(u64),
    /// A call of the disk failed, and its count of faults rose.
    #[error("disk fault")]
    DiskFault,
    /// Memory was wanting.
    #[error("out of memory")]
    OutOfMemory,
}

/// Why a body wasn't read.
#[derive(Debug, Clone, Copy, PartialEq, Eq, Error)]
pub enum BodyStop {
    /// A call of the disk failed, and its count of faults rose.
    #[error("disk fault")]
    DiskFault,
    /// Memory was wanting.
    #[error("out of memory")]
    OutOfMemory,
}

impl From<DiskFault> for CreateStop {
    ghost from_gives = { λ _ stop. stop ≡ of_create.DiskFault };

    fn from(_fault: DiskFault) -> CreateStop {
        CreateStop::DiskFault
    }
}

impl From<AllocError> for CreateStop {
    ghost from_gives = { λ _ stop. stop ≡ of_create.OutOfMemory };

    fn from(_fault: AllocError) -> CreateStop {
        CreateStop::OutOfMemory
    }
}

impl From<DiskFault> for LoadStop {
    ghost from_gives = { λ _ stop. stop ≡ of_load.DiskFault };

    fn from(_fault: DiskFault) -> LoadStop {
        LoadStop::DiskFault
    }
}

impl From<AllocError> for LoadStop {
    ghost from_gives = { λ _ stop. stop ≡ of_load.OutOfMemory };

    fn from(_fault: AllocError) -> LoadStop {
        LoadStop::OutOfMemory
    }
}

impl<T: Drop> From<AllocFailed<T>> for LoadStop {
    ghost from_gives = { λ _ stop. stop ≡ of_load.OutOfMemory };

    fn from(_fault: AllocFailed<T>) -> LoadStop {
        LoadStop::OutOfMemory
    }
}

impl From<DiskFault> for BodyStop {
    ghost from_gives = { λ _ stop. stop ≡ of_body.DiskFault };

    fn from(_fault: DiskFault) -> BodyStop {
        BodyStop::DiskFault
    }
}

impl From<AllocError> for BodyStop {
    ghost from_gives = { λ _ stop. stop ≡ of_body.OutOfMemory };

    fn from(_fault: AllocError) -> BodyStop {
        BodyStop::OutOfMemory
    }
}
