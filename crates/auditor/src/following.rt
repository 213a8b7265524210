// The walk over the records of a source.
ghost use Rattle.std.specs.Prelude.{◌≡◌, ℕ, List, OnOk, IsErrOf, is_some};
ghost use Rattle.std.specs.Io.KnownBytes.{IsAtEnd};
ghost use Rattle.auditor.specs.Reading.{Audits};
ghost use Rattle.auditor.specs.Streams.{HasReadCause};
ghost use Rattle.auditor.specs.Walks.{IsFound};

use crate::answers::Read;
use crate::reader::LogReader;
use crate::walk::{End, Found, Walk};
use crate::words::AuditStop;
use scitt_io::Source;
use std::alloc::Global;

/// What a source's bytes hold, all of them that are left, at most `limit`. One record is kept at a time.
pub(crate) fn follow<S: Source>(
    alloc: Global,
    source: &mut S,
    limit: u64,
) -> Result<Found, AuditStop>
    ensures audits { Audits limit IsFound (S.left source.old) (S.left source.new) result }
    ensures end { OnOk result (IsAtEnd (S.left source.new)) }
    ensures telling { is_some (S.left source.new) ≡ is_some (S.left source.old) }
    ensures cause { HasReadCause (S.faults source.old) (S.faults source.new) (IsErrOf result AuditStop.ReadFault) }
    ensures keeps { S.read_keeps source.old source.new }
{
    let mut reader = LogReader::new(alloc, limit);
    let mut walk = Walk::new(alloc);
    'records: loop {
        match reader.next(source) {
            Read::Record(body) => walk.take(body.as_slice())?,
            Read::End { rest } => {
                return Ok(Found {
                    walk,
                    end: End::Shut(rest),
                });
            }
            Read::NoLog => {
                return Ok(Found {
                    walk,
                    end: End::NoLog,
                });
            }
            Read::Short(at) => {
                return Ok(Found {
                    walk,
                    end: End::Cut(at),
                });
            }
            Read::ReadFault => return Err(AuditStop::ReadFault),
            Read::TooLong => return Err(AuditStop::TooLong),
            Read::OutOfMemory => return Err(AuditStop::OutOfMemory),
        }
    }
}
