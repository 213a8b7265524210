// What the calls of a registrar answer.

use cbor_core::{Bytes, Text};
use hss_keys::{Key60, Levels};
use log_replay::Why;
use policy_rules::Holder;
use thiserror::Error;

/// What a log is begun with.
#[derive(Drop)]
pub struct Params {
    /// The service's name, of 1 to 128 bytes.
    pub name: Text,
    /// The governor of the bootstrap policy.
    pub governor: Holder,
    /// The levels of the service's trees.
    pub levels: Levels,
    /// The most entries, 1 to 65,536.
    pub max_entries: u32,
    /// How many indices one reservation adds at most, 1 to 64.
    pub block: u32,
}

/// What a registration answers.
#[derive(Drop)]
pub enum Outcome {
    /// The log holds the statement already, as the entry at this index.
    Known { index: u32, receipt: Bytes },
    /// The statement is denied by this rule, on the log of this size, at this moment.
    Denied { rule: u16, size: u32, moment: u64 },
    /// The log has no room: its entries, and its logged bytes with this statement.
    LogFull { entries: u32, bytes: u64 },
    /// No signing index is left.
    KeyExhausted { next: u64, capacity: u64 },
    /// Memory ran out. Nothing of a record was written.
    OutOfMemory,
    /// A call of the disk failed, and its count of faults rose. The entries are as before.
    DiskFault,
    /// What was read of this record isn't what is kept of it.
    Changed { number: u64 },
    /// The statement is the entry at this index.
    Admitted { index: u32, receipt: Bytes },
}

/// Why nothing was read back.
#[derive(Clone, Copy, PartialEq, Eq, Debug, Error)]
pub enum ReadBack {
    /// The log has no such entry.
    #[error("no entry {index} among {size}")]
    NoEntry { index: u32, size: u32 },
    /// The log had no such size, or it is 0.
    #[error("no size {old} among those up to {size}")]
    NoSuchSize { old: u32, size: u32 },
    /// What was read of this record isn't what is kept of it.
    #[error("record {number} was changed")]
    Changed { number: u64 },
    /// A call of the disk failed, and its count of faults rose.
    #[error("disk fault")]
    DiskFault,
    /// Memory ran out.
    #[error("out of memory")]
    OutOfMemory,
}

/// Why a registrar wasn't created or loaded.
#[derive(Clone, Copy, PartialEq, Eq, Debug, Error)]
pub enum RegistrarStop {
    /// A limit of the header is broken.
    #[error("parameters against their limits")]
    BadParams,
    /// The file has at least six bytes and the first is 1.
    #[error("the file begins a log")]
    LogExists,
    /// The file has fewer than six bytes, or the first isn't 1.
    #[error("the file begins no log")]
    NoLog,
    /// The record of the first open gate that isn't whole passes the end; that gate's offset.
    #[error("the record at {0} is short")]
    Short(u64),
    /// The first record with which the list isn't well made, and the first rule that it fails.
    #[error("record {number}: {why}")]
    BadLog { number: u64, why: Why },
    /// The log's key isn't the one that the seed derives.
    #[error("the log's key isn't the one of the seed")]
    WrongKey { kept: Key60, derived: Key60 },
    /// A call of the disk failed, and its count of faults rose.
    #[error("disk fault")]
    DiskFault,
    /// Memory was wanting.
    #[error("out of memory")]
    OutOfMemory,
}
