// What the calls of a key file answer in place of a file or an index.
ghost use Rattle.std.specs.Prelude.{◌≡◌};
ghost use Rattle.key_store.specs.Stops as words;
ghost use Rattle.key_store.specs.declared.stops.KeyStop.TheVariants as of_key;
ghost use Rattle.key_store.specs.declared.stops.TakeStop.TheVariants as of_take;

use scitt_disk::DiskFault;
use scitt_journal::{BodyStop, CreateStop, LoadStop};
use std::alloc::AllocError;
use thiserror::Error;

/// Why a key file wasn't made or loaded.
#[derive(Debug, Clone, Copy, PartialEq, Eq, Error)]
pub enum KeyStop {
    /// The file has at least six bytes and the first is 1.
    #[error("the file begins a key file")]
    KeyExists,
    /// The file has fewer than six bytes, or the first isn't 1.
    #[error("the file begins no key file")]
    NoKey,
    /// The record of the first open gate that isn't whole passes the end; that gate's offset.
    #[error("the record at {0} is short")]
    Short(u64),
    /// The number of the first record that doesn't fit.
    #[error("record {0} doesn't fit")]
    BadKeyFile(u64),
    /// A call of the disk failed, and its count of faults rose.
    #[error("disk fault")]
    DiskFault,
    /// Memory was wanting.
    #[error("out of memory")]
    OutOfMemory,
}

/// Why no index was given.
#[derive(Debug, Clone, Copy, PartialEq, Eq, Error)]
pub enum TakeStop {
    /// The next index is the capacity.
    #[error("the key is used up: {next} of {capacity}")]
    Exhausted { next: u64, capacity: u64 },
    /// A call of the disk failed, and its count of faults rose.
    #[error("disk fault")]
    DiskFault,
    /// Memory was wanting, before a reservation was written.
    #[error("out of memory")]
    OutOfMemory,
}

/// The same of the journal's making.
pub fn made_stop(why: CreateStop) -> KeyStop
    ensures { result ≡ words.made_stop why }
{
    match why {
        CreateStop::LogExists => KeyStop::KeyExists,
        CreateStop::DiskFault => KeyStop::DiskFault,
        CreateStop::OutOfMemory => KeyStop::OutOfMemory,
    }
}

/// The same of the journal's loading.
pub fn loaded_stop(why: LoadStop) -> KeyStop
    ensures { result ≡ words.loaded_stop why }
{
    match why {
        LoadStop::NoLog => KeyStop::NoKey,
        LoadStop::Short(at) => KeyStop::Short(at),
        LoadStop::DiskFault => KeyStop::DiskFault,
        LoadStop::OutOfMemory => KeyStop::OutOfMemory,
    }
}

impl From<BodyStop> for KeyStop {
    ghost from_gives = { λ why stop. stop ≡ words.read_stop why };

    fn from(why: BodyStop) -> KeyStop {
        match why {
            BodyStop::DiskFault => KeyStop::DiskFault,
            BodyStop::OutOfMemory => KeyStop::OutOfMemory,
        }
    }
}

impl From<AllocError> for KeyStop {
    ghost from_gives = { λ _ stop. stop ≡ of_key.OutOfMemory };

    fn from(_fault: AllocError) -> KeyStop {
        KeyStop::OutOfMemory
    }
}

impl From<AllocError> for TakeStop {
    ghost from_gives = { λ _ stop. stop ≡ of_take.OutOfMemory };

    fn from(_fault: AllocError) -> TakeStop {
        TakeStop::OutOfMemory
    }
}

impl From<DiskFault> for TakeStop {
    ghost from_gives = { λ _ stop. stop ≡ of_take.DiskFault };

    fn from(_fault: DiskFault) -> TakeStop {
        TakeStop::DiskFault
    }
}
