ghost use Rattle.std.specs.Prelude.{◌≡◌, ◌≤◌, ◌⊎◌, ℕ, List, [], ◌∷◌, ◌++◌, Option, IfOk, OnOk, OnErr, IsErrOf, is_some};
ghost use Rattle.std.specs.Io.KnownBytes.{IsAtEnd};
ghost use Rattle.std.specs.String.{string_bytes};
ghost use Rattle.scitt_io.specs.Causes.{Rose};
ghost use Rattle.scitt_tool.specs.Answer.{line, too_long};
ghost use Rattle.scitt_tool.specs.Reads.{TellsFile};
ghost use Rattle.scitt_tool.specs.Audit.{AuditedOf, AuditsFile, log_limit, report_answer, count_text, end_text, clean_text, record_text, verdict_text, bad_text, rule_name as name_of_rule};

use crate::lines::push_line;
use auditor::{AuditStop, Report, audit as audit_log};
use command_line::{Answer, unread};
use log_replay::Why;
use merkle_tree::Hash;
use scitt_io::{Folder, ReadStop};
use std::alloc::{AllocError, Global};

/// How long a log's file may be, in bytes.
pub(crate) const LOG_LIMIT: u64 = 3_221_225_472;

// What the named file of at most so many bytes says as a log. One record of it is kept at a time.
fn audit_file<F: Folder>(
    alloc: Global,
    files: &mut F,
    name: &str,
    limit: u64,
) -> Result<Report, ReadStop>
    ensures reads { (content : Option (List ℕ)) × TellsFile (F.files files.old) name.now content × AuditedOf limit content result }
    ensures end { OnOk result (IsAtEnd (F.left files.new)) }
    ensures fault { IsErrOf result ReadStop.ReadFault → Rose (F.faults files.old) (F.faults files.new) }
    ensures no_fault { (IsErrOf result ReadStop.ReadFault → ⊥) → F.faults files.new ≡ F.faults files.old }
    ensures later { F.faults files.old ≤ F.faults files.new }
    ensures kept { F.files files.new ≡ F.files files.old }
    ensures telling { is_some (F.left files.new) ≡ is_some (F.left files.old) }
    ensures asked { F.asked files.new ≡ F.asked files.old ++ name.now ∷ [] }
{
    files.choose(name)?;
    match audit_log(alloc, files, limit) {
        Ok(report) => Ok(report),
        Err(AuditStop::ReadFault) => Err(ReadStop::ReadFault),
        Err(AuditStop::TooLong) => Err(ReadStop::TooLong),
        Err(AuditStop::OutOfMemory) => Err(ReadStop::OutOfMemory),
    }
}

/// What `audit` answers of the named file.
pub(crate) fn audit<F: Folder>(
    alloc: Global,
    files: &mut F,
    name: &str,
) -> Result<Answer, AllocError>
    ensures audits { IfOk result (AuditsFile (F.files files.old) name.now (F.faults files.old) (F.faults files.new)) }
    ensures status { IfOk result (λ answer. (answer.status ≤ 1) ⊎ ((answer.status ≡ 3) ⊎ (answer.status ≡ 8))) }
    ensures end { IfOk result (λ answer. answer.status ≡ 0 → IsAtEnd (F.left files.new)) }
    ensures no_memory { OnErr result (F.faults files.new ≡ F.faults files.old) }
    ensures later { F.faults files.old ≤ F.faults files.new }
    ensures kept { F.files files.new ≡ F.files files.old }
    ensures telling { is_some (F.left files.new) ≡ is_some (F.left files.old) }
    ensures asked { F.asked files.new ≡ F.asked files.old ++ name.now ∷ [] }
{
    match audit_file(alloc, files, name, LOG_LIMIT) {
        Ok(report) => report_answer(alloc, report),
        Err(ReadStop::TooLong) => Ok(log_too_long()),
        Err(ReadStop::ReadFault) => Ok(unread()),
        Err(ReadStop::OutOfMemory) => Err(AllocError),
    }
}

// A log's file is longer than its limit.
fn log_too_long() -> Answer
    ensures { result ≡ too_long log_limit }
{
    Answer::fixed(8, "too long 3221225472\n")
}

// How a report is printed.
fn report_answer(alloc: Global, report: Report) -> Result<Answer, AllocError>
    ensures { IfOk result (λ answer. answer ≡ report_answer report) }
{
    match report {
        Report::Clean {
            records,
            entries,
            rest,
            root,
        } => {
            let text = clean_text(alloc, records, entries, rest, &root)?;
            Ok(Answer::made(0, text))
        }
        Report::Bad {
            number,
            why,
            recorded,
            found,
        } => {
            let text = bad_text(alloc, number, why, recorded, found)?;
            Ok(Answer::made(1, text))
        }
        Report::NoLog => Ok(Answer::fixed(1, "refused no log\n")),
        Report::Short(at) => {
            let text = format!(in alloc; "refused short {at}\n")?;
            Ok(Answer::made(1, text))
        }
    }
}

fn count_text(alloc: Global, records: u64, entries: u32) -> Result<String, AllocError>
    ensures { IfOk result (λ text. string_bytes text ≡ count_text records entries) }
{
    let mut text = format!(in alloc; "clean records {records}")?;
    let entries = format!(in alloc; " entries {entries}")?;
    text.push_str(entries.as_str())?;
    Ok(text)
}

fn end_text(alloc: Global, rest: u64, root: &Hash) -> Result<String, AllocError>
    ensures { IfOk result (λ text. string_bytes text ≡ end_text rest root.now) }
{
    let root = hex::encode(alloc, root.as_slice())?;
    let text = format!(in alloc; " rest {rest} root {root}")?;
    Ok(text)
}

fn clean_text(
    alloc: Global,
    records: u64,
    entries: u32,
    rest: u64,
    root: &Hash,
) -> Result<String, AllocError>
    ensures { IfOk result (λ text. string_bytes text ≡ line (clean_text records entries rest root.now)) }
{
    let counts = count_text(alloc, records, entries)?;
    let end = end_text(alloc, rest, root)?;
    let mut text = String::new(alloc);
    push_line(&mut text, counts.as_str(), end.as_str())?;
    Ok(text)
}

fn record_text(alloc: Global, number: u64, why: Why) -> Result<String, AllocError>
    ensures { IfOk result (λ text. string_bytes text ≡ record_text number why) }
{
    let mut text = format!(in alloc; "bad record {number}")?;
    text.push_str(" ")?;
    text.push_str(rule_name(why))?;
    Ok(text)
}

fn verdict_text(alloc: Global, recorded: u16, found: u16) -> Result<String, AllocError>
    ensures { IfOk result (λ text. string_bytes text ≡ verdict_text recorded found) }
{
    let text = format!(in alloc; " recorded {recorded} found {found}")?;
    Ok(text)
}

fn bad_text(
    alloc: Global,
    number: u64,
    why: Why,
    recorded: u16,
    found: u16,
) -> Result<String, AllocError>
    ensures { IfOk result (λ text. string_bytes text ≡ line (bad_text number why recorded found)) }
{
    let record = record_text(alloc, number, why)?;
    let verdict = verdict_text(alloc, recorded, found)?;
    let mut text = String::new(alloc);
    push_line(&mut text, record.as_str(), verdict.as_str())?;
    Ok(text)
}

fn rule_name(why: Why) -> &'static str
    ensures { result.now ≡ name_of_rule why }
{
    match why {
        Why::Form => "Form",
        Why::Order => "Order",
        Why::Header => "Header",
        Why::Reserve => "Reserve",
        Why::EntryForm => "EntryForm",
        Why::Moment => "Moment",
        Why::Verdict => "Verdict",
        Why::Full => "Full",
        Why::Index => "Index",
        Why::Signature => "Signature",
    }
}
