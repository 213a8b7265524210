//! `verify` and `consistent`, over a folder of two files.
use crate::runs::run_two;
use crate::transparent::{GROWTH, INCLUSION, ISSUER, LONGER, RECEIPT, ROOT, SERVICE, STATEMENT};
use scitt_tool::Status;
use std::alloc::Global;
use std::test::Fail;

// A trust file of the service `log` and these issuers.
fn trust(alloc: Global, issuers: &str) -> Result<Vec<u8>, Fail> {
    let text = format!(in alloc; "83018182636c6f67583c{SERVICE}{issuers}")?;
    Ok(hex::decode(alloc, text.as_str())?)
}

// A receipt with this unprotected map.
fn receipt(alloc: Global, map: &str) -> Result<String, Fail> {
    let [front, behind] = RECEIPT;
    Ok(format!(in alloc; "{front}{map}{behind}")?)
}

// The head of an array of so many receipts under label 394, and of each receipt.
fn statement(alloc: Global, receipts: &[String]) -> Result<Vec<u8>, Fail> {
    let [front, behind] = STATEMENT;
    let mut map = format!(in alloc; "a119018a{:02x}", 0x80 + receipts.len())?;
    for receipt in receipts {
        let len = receipt.len() / 2;
        map = format!(in alloc; "{map}59{len:04x}{receipt}")?;
    }
    let text = format!(in alloc; "{front}{map}{behind}")?;
    Ok(hex::decode(alloc, text.as_str())?)
}

// Whether `verify` has this status and this text.
fn verifies(
    alloc: Global,
    trust: &[u8],
    statement: &[u8],
    status: Status,
    text: &str,
) -> Result<bool, Fail> {
    let (had, said) = run_two(alloc, &["verify", "a", "b"], trust, statement, &[])?;
    Ok(had == status && said.as_slice() == text.as_bytes())
}

#[test]
fn verifies_a_statement(rt: HostRuntime) -> Result<(), Fail> {
    let alloc = rt.alloc();
    let all = trust(alloc, "80")?;
    let mut receipts = Vec::new(alloc);
    let none = statement(alloc, receipts.as_slice())?;
    let text = "statement refused NoReceipts\nrefused\n";
    assert!(rt; verifies(alloc, &all, &none, 1, text)?);
    receipts.push(receipt(alloc, LONGER)?)?;
    let bad = statement(alloc, receipts.as_slice())?;
    let text = "statement fine\nreceipt 0 refused rule 6\nrefused\n";
    assert!(rt; verifies(alloc, &all, &bad, 1, text)?);
    receipts.push(receipt(alloc, GROWTH)?)?;
    receipts.push(receipt(alloc, INCLUSION)?)?;
    let good = statement(alloc, receipts.as_slice())?;
    let text =
        "statement fine\nreceipt 0 refused rule 6\nreceipt 1 refused rule 2\nreceipt 2 accepted size 2 index 1 registered 1700000000 rule 100\naccepted\n";
    assert!(rt; verifies(alloc, &all, &good, 0, text)?);
    let acme = format!(in alloc; "81836461636d654161583c{ISSUER}")?;
    assert!(rt; verifies(alloc, &trust(alloc, acme.as_str())?, &good, 0, text)?);
    let other = format!(in alloc; "81836461636d654162583c{ISSUER}")?;
    let text = "statement refused IssuerUnknown\nrefused\n";
    assert!(rt; verifies(alloc, &trust(alloc, other.as_str())?, &good, 1, text)?);
    let other = format!(in alloc; "81836461636d654161583c{SERVICE}")?;
    let text = "statement refused IssuerSignature\nrefused\n";
    assert!(rt; verifies(alloc, &trust(alloc, other.as_str())?, &good, 1, text)?);
    let text = "statement refused Parse\nrefused\n";
    assert!(rt; verifies(alloc, &all, &[0x80], 1, text)?);
    assert!(rt; verifies(alloc, &[0x80], &good, 1, "refused trust\n")?);
    assert!(rt; verifies(alloc, &[], &[], 1, "refused trust\n")?);
    Ok(())
}

// Whether `consistent` has this status and this text.
fn grows(
    alloc: Global,
    files: [&[u8]; 2],
    size: &str,
    root: &str,
    status: Status,
    text: &str,
) -> Result<bool, Fail> {
    let [trust, receipt] = files;
    let words = ["consistent", "a", "b", size, root];
    let (had, said) = run_two(alloc, &words, trust, receipt, &[])?;
    Ok(had == status && said.as_slice() == text.as_bytes())
}

#[test]
fn tells_growth(rt: HostRuntime) -> Result<(), Fail> {
    let alloc = rt.alloc();
    let all = trust(alloc, "80")?;
    let growth = hex::decode(alloc, receipt(alloc, GROWTH)?.as_str())?;
    let inclusion = hex::decode(alloc, receipt(alloc, INCLUSION)?.as_str())?;
    let files = [all.as_slice(), growth.as_slice()];
    let text = "consistent 2 f3cc20d9f273a56f3b7689cf941fdb7e24db30f5552d3efbc1a18c90f39509b4\n";
    let upper = "5E531FEA30EC9E63576124517C4BDF36F8EA35CE50553001F157493381B0DA8B";
    assert!(rt; grows(alloc, files, "1", ROOT, 0, text)?);
    assert!(rt; grows(alloc, files, "1", upper, 0, text)?);
    for size in ["0", "2", "4294967295"] {
        assert!(rt;
            grows(alloc, files, size, ROOT, 1, "refused rule 5\n")?,
            "{size}"
        );
    }
    let other = "0000000000000000000000000000000000000000000000000000000000000000";
    assert!(rt; grows(alloc, files, "1", other, 1, "refused rule 7\n")?);
    let files = [all.as_slice(), inclusion.as_slice()];
    assert!(rt; grows(alloc, files, "1", ROOT, 1, "refused rule 2\n")?);
    let files = [all.as_slice(), [0x80].as_slice()];
    assert!(rt; grows(alloc, files, "1", ROOT, 1, "refused rule 1\n")?);
    let files = [growth.as_slice(), growth.as_slice()];
    assert!(rt; grows(alloc, files, "1", ROOT, 1, "refused trust\n")?);
    Ok(())
}

// No file is read: there is none of these names.
#[test]
fn refuses_sizes_and_roots(rt: HostRuntime) -> Result<(), Fail> {
    let alloc = rt.alloc();
    for size in [
        "",
        "x",
        "01",
        "+1",
        "-1",
        " 1",
        "4294967296",
        "18446744073709551617",
    ] {
        let (status, text) = run_two(alloc, &["consistent", "x", "y", size, ROOT], &[], &[], &[])?;
        assert_eq!(rt; status, 2, "{size}");
        assert_eq!(rt; text.as_slice(), b"words refused\n".as_slice(), "{size}");
    }
    for digits in [0, 2, 62, 63, 65, 66] {
        let mut root = String::new(alloc);
        for _ in 0..digits {
            root.push('a')?;
        }
        let words = ["consistent", "x", "y", "1", root.as_str()];
        let (status, _) = run_two(alloc, &words, &[], &[], &[])?;
        assert_eq!(rt; status, 2, "{digits}");
    }
    let bad = "5e531fea30ec9e63576124517c4bdf36f8ea35ce50553001f157493381b0da8g";
    let (status, _) = run_two(alloc, &["consistent", "x", "y", "1", bad], &[], &[], &[])?;
    assert_eq!(rt; status, 2);
    let (status, _) = run_two(alloc, &["consistent", "x", "y", "1", ROOT], &[], &[], &[])?;
    assert_eq!(rt; status, 3);
    Ok(())
}
