// What an audit answers.
ghost use Rattle.std.specs.Prelude.{◌≡◌};
ghost use Rattle.auditor.specs.declared.words.AuditStop.TheVariants as of_audit;

use log_replay::Why;
use merkle_tree::Hash;
use std::alloc::AllocError;
use std::error::Error;
use std::fmt;

/// What a log's bytes say.
#[derive(Clone, Copy, PartialEq, Eq, Debug)]
pub enum Report {
    /// A list of records that is well made: their number, the number of their entries, the number of bytes after the gate that ends
    /// them, and the Merkle root of the entries (RFC 9162, 2.1.1).
    Clean {
        records: u64,
        entries: u32,
        rest: u64,
        root: Hash,
    },
    /// The number of the first record that fails a rule, and the first rule that it fails; with the recorded and the judged rule of the
    /// policy where that is the verdict, and else 0.
    Bad {
        number: u64,
        why: Why,
        recorded: u16,
        found: u16,
    },
    /// Fewer than six bytes, or a first byte that isn't 1.
    NoLog,
    /// A record passes the end, and those before it are well made: the offset of its gate.
    Short(u64),
}

/// What a log's bytes say beside an older size and root.
#[derive(Clone, Copy, PartialEq, Eq, Debug)]
pub enum Since {
    /// The report; a clean one where the log begins with the entries of that size and root.
    Report(Report),
    /// The log is clean, and has fewer entries than that size: how many.
    OldSize { entries: u32 },
    /// The log is clean, and its first entries of that size have another root: this one.
    OldRoot { found: Hash },
}

/// Why no report is given.
#[derive(Clone, Copy, PartialEq, Eq, Debug)]
pub enum AuditStop {
    /// The source refused a read, and its count of faults rose.
    ReadFault,
    /// More than the limit was left.
    TooLong,
    /// Memory was wanting.
    OutOfMemory,
}

impl fmt::Display for AuditStop {
    fn fmt<W: fmt::Write>(&self, f: &mut fmt::Formatter<W>) -> fmt::Result {
        f.write_str(match self {
            AuditStop::ReadFault => "read fault",
            AuditStop::TooLong => "too long",
            AuditStop::OutOfMemory => "out of memory",
        })
    }
}

impl Error for AuditStop {}

impl From<AllocError> for AuditStop {
    ghost from_gives = { λ _ stop. stop ≡ of_audit.OutOfMemory };

    fn from(_error: AllocError) -> AuditStop {
        AuditStop::OutOfMemory
    }
}
