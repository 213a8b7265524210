// What a reader of a log's records answers.
ghost use Rattle.std.specs.Prelude.{◌≡◌};
ghost use Rattle.auditor.specs.Fetches.{read_of, ended_of};

use cbor_core::Bytes;
use scitt_io::ReadStop;

/// The next record of a log, or why there is none.
#[derive(Drop)]
pub enum Read {
    /// The body of the next record.
    Record(Bytes),
    /// The gate behind the last record isn't open: how many bytes follow that gate.
    End { rest: u64 },
    /// Fewer than six bytes, or a first byte that isn't 1.
    NoLog,
    /// A record passes the end: the offset of its gate.
    Short(u64),
    /// The source refused a read, and its count of faults rose.
    ReadFault,
    /// More than the limit was left.
    TooLong,
    /// Memory was wanting.
    OutOfMemory,
}

/// Why there is no next record.
#[derive(Clone, Copy)]
pub(crate) enum Ended {
    End(u64),
    NoLog,
    Short(u64),
    ReadFault,
    TooLong,
    OutOfMemory,
}

impl From<ReadStop> for Ended {
    ghost from_gives = { λ stop ended. ended ≡ ended_of stop };

    fn from(stop: ReadStop) -> Ended {
        match stop {
            ReadStop::TooLong => Ended::TooLong,
            ReadStop::ReadFault => Ended::ReadFault,
            ReadStop::OutOfMemory => Ended::OutOfMemory,
        }
    }
}

impl Ended {
    /// The answer.
    pub(crate) fn answer(self) -> Read
        ensures { result ≡ read_of self }
    {
        match self {
            Ended::End(rest) => Read::End { rest },
            Ended::NoLog => Read::NoLog,
            Ended::Short(at) => Read::Short(at),
            Ended::ReadFault => Read::ReadFault,
            Ended::TooLong => Read::TooLong,
            Ended::OutOfMemory => Read::OutOfMemory,
        }
    }
}
