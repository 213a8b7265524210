// The audits.
ghost use Rattle.std.specs.Prelude.{◌≡◌, ◌≤◌, ℕ, List, IfOk, IfSome, OnOk, IsErrOf, is_some};
ghost use Rattle.std.specs.Io.KnownBytes.{IsAtEnd};
ghost use Rattle.scitt_io.specs.Causes.{Rose};
ghost use Rattle.auditor.specs.Reading.{Audits};
ghost use Rattle.auditor.specs.Reports.{Reports, ReportsSince};

use crate::following::follow;
use crate::reports::{report_of, since_of};
use crate::walk::find;
use crate::words::{AuditStop, Report, Since};
use merkle_tree::Hash;
use scitt_io::Source;
use std::alloc::{AllocError, Global};

/// Audits the log that these bytes are, as `audit` does those of a source. The only error is the want of memory.
pub fn audit_bytes(alloc: Global, bytes: &[u8]) -> Result<Report, AllocError>
    ensures { IfOk result (Reports bytes.now) }
{
    let found = find(alloc, bytes)?;
    Ok(report_of(&found))
}

/// Audits the log that a source's bytes are, all of them that are left, at most `limit`. One record is kept at a time.
///
/// Each record is judged by the records before it: `Report::Bad` tells the first that fails a rule, also where a later one passes the
/// end, and `Report::Clean` comes exactly where none fails and none passes it. `AuditStop::TooLong` comes exactly where more than
/// the limit was left, and one byte past it was taken then; `ReadFault` only where the source's count of faults rose. After any other
/// answer, want of memory among them, the count is as before.
pub fn audit<S: Source>(alloc: Global, source: &mut S, limit: u64) -> Result<Report, AuditStop>
    ensures audits { Audits limit Reports (S.left source.old) (S.left source.new) result }
    ensures all { IfOk result (λ report. IfSome (S.left source.old) (λ left. Reports left report)) }
    ensures end { OnOk result (IsAtEnd (S.left source.new)) }
    ensures telling { is_some (S.left source.new) ≡ is_some (S.left source.old) }
    ensures fault { IsErrOf result AuditStop.ReadFault → Rose (S.faults source.old) (S.faults source.new) }
    ensures no_fault { (IsErrOf result AuditStop.ReadFault → ⊥) → S.faults source.new ≡ S.faults source.old }
    ensures later { S.faults source.old ≤ S.faults source.new }
    ensures keeps { S.read_keeps source.old source.new }
{
    match follow(alloc, source, limit) {
        Ok(found) => Ok(report_of(&found)),
        Err(stop) => Err(stop),
    }
}

/// Audits the log as `audit` does, and compares it with an older size and root: a clean log that has fewer entries is `OldSize`, and one
/// whose first entries of that size have another root is `OldRoot`.
pub fn audit_since<S: Source>(
    alloc: Global,
    source: &mut S,
    limit: u64,
    size: u32,
    root: &Hash,
) -> Result<Since, AuditStop>
    ensures audits { Audits limit (ReportsSince size root.now) (S.left source.old) (S.left source.new) result }
    ensures all { IfOk result (λ since. IfSome (S.left source.old) (λ left. ReportsSince size root.now left since)) }
    ensures end { OnOk result (IsAtEnd (S.left source.new)) }
    ensures telling { is_some (S.left source.new) ≡ is_some (S.left source.old) }
    ensures fault { IsErrOf result AuditStop.ReadFault → Rose (S.faults source.old) (S.faults source.new) }
    ensures no_fault { (IsErrOf result AuditStop.ReadFault → ⊥) → S.faults source.new ≡ S.faults source.old }
    ensures later { S.faults source.old ≤ S.faults source.new }
    ensures keeps { S.read_keeps source.old source.new }
{
    match follow(alloc, source, limit) {
        Ok(found) => Ok(since_of(&found, size, root)),
        Err(stop) => Err(stop),
    }
}
