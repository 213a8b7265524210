//! As many receipts as a statement takes.
use super::statements::{receipt, string, trust_of};
use super::vectors::{RECEIPTS, STATEMENTS};
use relying_party::{ReceiptResult, StatementCheck, Verdict, verify_transparent};
use std::alloc::Global;
use std::test::Fail;

/// The first receipt of the table that is refused by this rule, with a signature of one byte.
fn refused_by(alloc: Global, rule: &str) -> Result<String, Fail> {
    for row in RECEIPTS {
        let (protected, rest) = row.split_once("|").ok_or("no bar")?;
        let (unprotected, wanted) = rest.split_once("|").ok_or("no bar")?;
        if wanted == rule {
            return receipt(alloc, protected, unprotected, "00");
        }
    }
    Err("no such receipt".into())
}

/// The verdict on the statement with so many times this receipt; the number has the four digits.
fn judged(alloc: Global, receipt: &str, count: usize, digits: &str) -> Result<Verdict, Fail> {
    let trust = trust_of(alloc, "80")?;
    let receipt = string(alloc, receipt)?;
    let [front, behind] = STATEMENTS[0];
    let mut text = format!(in alloc; "{front}a119018a99{digits}")?;
    for _ in 0..count {
        text.push_str(receipt.as_str())?;
    }
    text.push_str(behind)?;
    let bytes = hex::decode(alloc, text.as_str())?;
    Ok(verify_transparent(alloc, &trust, bytes.as_slice())?)
}

/// How many results are a refusal by this rule.
fn refusals(verdict: &Verdict, rule: u8) -> usize {
    let mut count = 0usize;
    for result in verdict.receipts.as_slice() {
        if let ReceiptResult::Refused(by) = result {
            if *by == rule {
                count = count.saturating_add(1);
            }
        }
    }
    count
}

// Each is read, its path followed and its signature checked, and the work grows with their number alone. One more isn't read.
#[test]
fn judges_4096_receipts_and_no_more(rt: HostRuntime) -> Result<(), Fail> {
    let alloc = rt.alloc();
    for (name, rule) in [("refused 1", 1), ("refused 6", 6), ("refused 7", 7)] {
        let receipt = refused_by(alloc, name)?;
        let verdict = judged(alloc, receipt.as_str(), 4096, "1000")?;
        assert!(rt; matches!(&verdict.statement, StatementCheck::Fine));
        assert_eq!(rt; verdict.receipts.as_slice().len(), 4096);
        assert_eq!(rt; refusals(&verdict, rule), 4096, "{name}");
        assert!(rt; !verdict.accepted);
        let more = judged(alloc, receipt.as_str(), 4097, "1001")?;
        assert!(rt; matches!(&more.statement, StatementCheck::Parse(_)));
        assert_eq!(rt; more.receipts.as_slice().len(), 0);
    }
    Ok(())
}
