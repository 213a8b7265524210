// The report of what was found.
ghost use Rattle.std.specs.Prelude.{◌≡◌, ℕ, List, None};
ghost use Rattle.scitt_journal.specs.Layout.{RecordsOf, CutAfter};
ghost use Rattle.log_replay.specs.Records.{Log};
ghost use Rattle.auditor.specs.Reports.{Reports, ReportsSince};
ghost use Rattle.auditor.specs.Walks.{Knows, IsFound, bad_report};

use crate::walk::{BadRecord, End, Found, Walk};
use crate::words::{Report, Since};
use log_replay::growth_laws;
use merkle_tree::Hash;

fn bad(first: BadRecord) -> Report
    ensures { result ≡ bad_report first }
{
    Report::Bad {
        number: first.number,
        why: first.failing.why,
        recorded: first.failing.recorded,
        found: first.failing.found,
    }
}

// The report of a log without a bad record.
fn clean(walk: &Walk, rest: u64) -> Report
    requires { walk.now.bad ≡ None }
    ensures { (bytes : List ℕ) (R : Log) → Knows walk.now R → RecordsOf bytes R rest → Reports bytes result }
{
    Report::Clean {
        records: walk.number,
        entries: walk.state.size(),
        rest,
        root: walk.state.root(),
    }
}

// The report of a file whose records end at a gate that isn't open.
fn whole(walk: &Walk, rest: u64) -> Report
    ensures { (bytes : List ℕ) (R : Log) → Knows walk.now R → RecordsOf bytes R rest → Reports bytes result }
{
    match walk.bad {
        Some(first) => bad(first),
        None => clean(walk, rest),
    }
}

// The report of a file whose last record passes the end.
fn cut(walk: &Walk, at: u64) -> Report
    ensures { (bytes : List ℕ) (R : Log) → Knows walk.now R → CutAfter bytes R at → Reports bytes result }
{
    match walk.bad {
        Some(first) => bad(first),
        None => Report::Short(at),
    }
}

/// The report.
pub(crate) fn report_of(found: &Found) -> Report
    ensures { (bytes : List ℕ) → IsFound bytes found.now → Reports bytes result }
{
    match found.end {
        End::NoLog => Report::NoLog,
        End::Shut(rest) => whole(&found.walk, rest),
        End::Cut(at) => cut(&found.walk, at),
    }
}

// What a log without a bad record says beside an older size and root.
fn clean_since(walk: &Walk, rest: u64, size: u32, root: &Hash) -> Since
    requires { walk.now.bad ≡ None }
    ensures { (bytes : List ℕ) (R : Log) → Knows walk.now R → RecordsOf bytes R rest → ReportsSince size root.now bytes result }
{
    growth_laws();
    let table = walk.state.tree();
    let entries = table.size();
    if size > entries {
        return Since::OldSize { entries };
    }
    let found = table.root_at(size);
    if found != *root {
        return Since::OldRoot { found };
    }
    Since::Report(Report::Clean {
        records: walk.number,
        entries,
        rest,
        root: walk.state.root(),
    })
}

// The same of a file whose records end at a gate that isn't open.
fn whole_since(walk: &Walk, rest: u64, size: u32, root: &Hash) -> Since
    ensures { (bytes : List ℕ) (R : Log) → Knows walk.now R → RecordsOf bytes R rest → ReportsSince size root.now bytes result }
{
    match walk.bad {
        Some(first) => Since::Report(bad(first)),
        None => clean_since(walk, rest, size, root),
    }
}

// The same of a file whose last record passes the end.
fn cut_since(walk: &Walk, at: u64) -> Since
    ensures { (bytes : List ℕ) (R : Log) (size : ℕ) (root : List ℕ) → Knows walk.now R → CutAfter bytes R at → ReportsSince size root bytes result }
{
    match walk.bad {
        Some(first) => Since::Report(bad(first)),
        None => Since::Report(Report::Short(at)),
    }
}

/// What the file says beside an older size and root.
pub(crate) fn since_of(found: &Found, size: u32, root: &Hash) -> Since
    ensures { (bytes : List ℕ) → IsFound bytes found.now → ReportsSince size root.now bytes result }
{
    match found.end {
        End::NoLog => Since::Report(Report::NoLog),
        End::Shut(rest) => whole_since(&found.walk, rest, size, root),
        End::Cut(at) => cut_since(&found.walk, at),
    }
}
