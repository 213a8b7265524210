use super::vectors::{ISSUER, OTHER, RECEIPTS, SERVICE, SIGNATURE, STATEMENTS};
use relying_party::{ReceiptResult, StatementCheck, Trust, Verdict, verify_transparent};
use std::alloc::Global;
use std::test::Fail;

/// The trust file whose services and issuers have these strict bytes.
pub fn trust_of(alloc: Global, issuers: &str) -> Result<Trust, Fail> {
    let text = format!(in alloc; "83018182636c6f67583c{SERVICE}{issuers}")?;
    let bytes = hex::decode(alloc, text.as_str())?;
    Trust::decode(alloc, bytes.as_slice()).map_err(|_| "no trust file".into())
}

/// A byte string's head in hexadecimal and the string.
pub fn string(alloc: Global, text: &str) -> Result<String, Fail> {
    let len = text.len() / 2;
    let head = if len < 24 {
        format!(in alloc; "{:02x}", 0x40 + len)?
    } else if len < 256 {
        format!(in alloc; "58{len:02x}")?
    } else {
        format!(in alloc; "59{len:04x}")?
    };
    Ok(format!(in alloc; "{head}{text}")?)
}

/// A receipt in hexadecimal, by its parts.
pub fn receipt(
    alloc: Global,
    protected: &str,
    unprotected: &str,
    signature: &str,
) -> Result<String, Fail> {
    let protected = string(alloc, protected)?;
    let signature = string(alloc, signature)?;
    Ok(format!(in alloc; "d284{protected}{unprotected}f6{signature}")?)
}

fn check_name(check: &StatementCheck) -> &str {
    match check {
        StatementCheck::Parse(_) => "Parse",
        StatementCheck::NoReceipts => "NoReceipts",
        StatementCheck::IssuerUnknown => "IssuerUnknown",
        StatementCheck::IssuerSignature => "IssuerSignature",
        StatementCheck::Fine => "Fine",
    }
}

fn result_text(alloc: Global, answer: &ReceiptResult) -> Result<String, Fail> {
    let text = match answer {
        ReceiptResult::Accepted {
            size,
            root,
            index,
            registered_at,
            rule,
        } => {
            let root = hex::encode(alloc, root.as_slice())?;
            format!(in alloc; "accepted {size} {root} {index} {registered_at} {rule}")?
        }
        ReceiptResult::Refused(rule) => format!(in alloc; "refused {rule}")?,
    };
    Ok(text)
}

fn verdict_text(alloc: Global, verdict: &Verdict) -> Result<String, Fail> {
    let mut text = String::from_str(alloc, check_name(&verdict.statement))?;
    for result in verdict.receipts.as_slice() {
        let one = result_text(alloc, result)?;
        text = format!(in alloc; "{text}, {one}")?;
    }
    let end = if verdict.accepted { "yes" } else { "no" };
    Ok(format!(in alloc; "{text}: {end}")?)
}

/// What a relying party says of the statement of this number with this unprotected map.
fn said(alloc: Global, trust: &Trust, number: usize, unprotected: &str) -> Result<String, Fail> {
    let parts = STATEMENTS.get(number).ok_or("no statement")?;
    let text = format!(in alloc; "{}{unprotected}{}", parts[0], parts[1])?;
    let bytes = hex::decode(alloc, text.as_str())?;
    let verdict = verify_transparent(alloc, trust, bytes.as_slice())?;
    verdict_text(alloc, &verdict)
}

pub fn worked(alloc: Global, row: &str) -> Result<(String, String), Fail> {
    let (protected, rest) = row.split_once("|").ok_or("no bar")?;
    let (unprotected, wanted) = rest.split_once("|").ok_or("no bar")?;
    let text = receipt(alloc, protected, unprotected, SIGNATURE)?;
    Ok((text, String::from_str(alloc, wanted)?))
}

/// The first receipt of the table: of the service `log`, two entries, entry 1 by rule 100 at 1,700,000,000, of two levels.
#[test]
fn the_worked_receipt_has_2768_bytes(rt: HostRuntime) -> Result<(), Fail> {
    let alloc = rt.alloc();
    let (text, _) = worked(alloc, RECEIPTS[0])?;
    assert_eq!(rt; text.len(), 2 * 2768);
    Ok(())
}

#[test]
fn receipts_are_accepted_and_refused_so(rt: HostRuntime) -> Result<(), Fail> {
    let alloc = rt.alloc();
    let trust = trust_of(alloc, "80")?;
    let mut all = String::new(alloc);
    let mut results = String::from_str(alloc, "Fine")?;
    for row in RECEIPTS {
        let (text, wanted) = worked(alloc, row)?;
        let one = string(alloc, text.as_str())?;
        all = format!(in alloc; "{all}{one}")?;
        results = format!(in alloc; "{results}, {wanted}")?;
    }
    assert_eq!(rt; RECEIPTS.len(), 16);
    let map = format!(in alloc; "a119018a90{all}")?;
    let text = said(alloc, &trust, 0, map.as_str())?;
    let wanted = format!(in alloc; "{results}: yes")?;
    assert_eq!(rt; text.as_str(), wanted.as_str());
    Ok(())
}

const ACME: [&str; 3] = ["6461636d65", "4161", ISSUER];

const ACME_OTHER: [&str; 3] = ["6461636d65", "4161", OTHER];

const ACME_B: [&str; 3] = ["6461636d65", "4162", ISSUER];

const BOLT: [&str; 3] = ["64626f6c74", "4161", ISSUER];

/// Issuers by their name, their kid and their key, the statement's number, its unprotected map, where `worked` stands for one with the
/// worked receipt, and the verdict.
static CHECKS: [(&[[&str; 3]], usize, &str, &str); 13] = [
    (&[], 0, "worked", "Fine"),
    (&[ACME], 0, "worked", "Fine"),
    (&[ACME, ACME_OTHER], 0, "worked", "Fine"),
    (&[BOLT, ACME_B, ACME], 0, "worked", "Fine"),
    (&[], 0, "a0", "NoReceipts"),
    (&[], 0, "a119018a80", "NoReceipts"),
    (&[ACME_OTHER], 0, "a0", "NoReceipts"),
    (&[ACME_B], 0, "worked", "IssuerUnknown"),
    (&[BOLT], 1, "worked", "IssuerUnknown"),
    (&[ACME_OTHER, ACME], 0, "worked", "IssuerSignature"),
    (&[ACME], 1, "worked", "IssuerSignature"),
    (&[ACME], 2, "worked", "IssuerSignature"),
    (&[], 0, "a119018a0f", "Parse"),
];

fn issuers_text(alloc: Global, issuers: &[[&str; 3]]) -> Result<String, Fail> {
    let mut text = format!(in alloc; "{:02x}", 0x80 + issuers.len())?;
    for issuer in issuers {
        text = format!(in alloc; "{text}83{}{}583c{}", issuer[0], issuer[1], issuer[2])?;
    }
    Ok(text)
}

/// The verdict on a statement of this check, where the worked receipt has this result.
fn wanted_text(alloc: Global, check: &str, worked: &str) -> Result<String, Fail> {
    if check == "Fine" {
        return Ok(format!(in alloc; "Fine, {worked}: yes")?);
    }
    Ok(format!(in alloc; "{check}: no")?)
}

#[test]
fn statements_are_checked_so(rt: HostRuntime) -> Result<(), Fail> {
    let alloc = rt.alloc();
    let (receipt, result) = worked(alloc, RECEIPTS[0])?;
    let receipt = string(alloc, receipt.as_str())?;
    let with_it = format!(in alloc; "a119018a81{receipt}")?;
    for (issuers, number, map, check) in CHECKS {
        let issuers = issuers_text(alloc, issuers)?;
        let trust = trust_of(alloc, issuers.as_str())?;
        let map = if map == "worked" {
            with_it.as_str()
        } else {
            map
        };
        let text = said(alloc, &trust, number, map)?;
        let wanted = wanted_text(alloc, check, result.as_str())?;
        assert_eq!(rt; text.as_str(), wanted.as_str(), "{check}");
    }
    Ok(())
}
