// Journals by the names of their pieces, and reports as the tables spell them.

use crate::audit_vectors::{PIECES_0, PIECES_1};
use auditor::{Report, Since};
use log_replay::Why;
use merkle_tree::Hash;
use std::alloc::Global;
use std::test::Fail;

// The digits behind a name, where a table has it.
fn digits_in(table: &[&'static str], name: &str) -> Option<&'static str> {
    for line in table {
        match line.split_once('|') {
            Some((known, digits)) if known == name => return Some(digits),
            _ => {}
        }
    }
    None
}

fn in_first(name: &str) -> Option<&'static str> {
    digits_in(PIECES_0, name)
}

fn in_second(name: &str) -> Option<&'static str> {
    digits_in(PIECES_1, name)
}

fn piece(alloc: Global, name: &str) -> Result<Vec<u8>, Fail> {
    let found = match in_first(name) {
        Some(digits) => Some(digits),
        None => in_second(name),
    };
    let digits = found.ok_or("no such piece")?;
    Ok(hex::decode(alloc, digits)?)
}

pub(crate) fn journal(alloc: Global, names: &[&str]) -> Result<Vec<u8>, Fail> {
    let mut bytes = Vec::new(alloc);
    for name in names {
        if !name.is_empty() {
            let piece = piece(alloc, name)?;
            bytes.extend_from_slice(piece.as_slice())?;
        }
    }
    Ok(bytes)
}

pub(crate) fn hash(alloc: Global, digits: &str) -> Result<Hash, Fail> {
    let bytes = hex::decode(alloc, digits)?;
    let mut hash = [0; 32];
    if bytes.len() != hash.len() {
        return Err("no hash".into());
    }
    hash.copy_from_slice(bytes.as_slice());
    Ok(hash)
}

fn name_of(why: Why) -> &'static str {
    match why {
        Why::Form => "Form",
        Why::Order => "Order",
        Why::Header => "Header",
        Why::Reserve => "Reserve",
        Why::EntryForm => "EntryForm",
        Why::Moment => "Moment",
        Why::Verdict => "Verdict",
        Why::Full => "Full",
        Why::Index => "Index",
        Why::Signature => "Signature",
    }
}

pub(crate) fn said(alloc: Global, report: &Report) -> Result<String, Fail> {
    match *report {
        Report::Clean {
            records,
            entries,
            rest,
            root,
        } => {
            let root = hex::encode(alloc, root.as_slice())?;
            Ok(format!(in alloc; "clean {records} {entries} {rest} {root}")?)
        }
        Report::Bad {
            number,
            why,
            recorded,
            found,
        } => {
            let name = name_of(why);
            Ok(format!(in alloc; "bad {number} {name} {recorded} {found}")?)
        }
        Report::NoLog => Ok(String::from_str(alloc, "no log")?),
        Report::Short(at) => Ok(format!(in alloc; "short {at}")?),
    }
}

pub(crate) fn said_beside(alloc: Global, since: &Since) -> Result<String, Fail> {
    match since {
        Since::Report(report) => said(alloc, report),
        Since::OldSize { entries } => Ok(format!(in alloc; "old size {entries}")?),
        Since::OldRoot { found } => {
            let found = hex::encode(alloc, found.as_slice())?;
            Ok(format!(in alloc; "old root {found}")?)
        }
    }
}
