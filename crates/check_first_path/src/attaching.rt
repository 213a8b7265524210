//! `attach`, over a folder of two files.
use crate::runs::run_two;
use scitt_tool::Status;
use std::alloc::{AllocError, Global};
use std::test::Fail;

// A statement, and receipts that another program in Python made: of an entry, and of consistency.
const STATEMENT: &str = "d28454a301382d0441010fa2016461636d650263706b67a04268694100";

const RECEIPT: &str =
    "d2845838a501382d045820000102030405060708090a0b0c0d0e0f101112131415161718191a1b1c1d1e1f0fa101636c6f6719018b013a0001117002a219018ca120815826830201815820404142434445464748494a4b4c4d4e4f505152535455565758595a5b5c5d5e5f3a00011171821a6553f1001864f64173";

const CONSISTENCY: &str =
    "d2845838a501382d045820000102030405060708090a0b0c0d0e0f101112131415161718191a1b1c1d1e1f0fa101636c6f6719018b013a0001117002a119018ca121815826830102815820404142434445464748494a4b4c4d4e4f505152535455565758595a5b5c5d5e5ff64173";

// The status and the text of `attach`, with so many calls of the folder that fail.
fn attach(
    alloc: Global,
    statement: &[u8],
    receipt: &[u8],
    fails: &[u32],
) -> Result<(Status, Vec<u8>), AllocError> {
    run_two(alloc, &["attach", "a", "b"], statement, receipt, fails)
}

// The attached statements are written out by the profile's page on messages: tag 18, the protected string, label 394 alone
// with the receipts, the payload and the signature.
#[test]
fn attaches_a_receipt(rt: HostRuntime) -> Result<(), Fail> {
    let alloc = rt.alloc();
    let receipt = hex::decode(alloc, RECEIPT)?;
    let once = format!(in alloc;
        "d28454a301382d0441010fa2016461636d650263706b67a119018a81587b{RECEIPT}4268694100"
    )?;
    let twice = format!(in alloc;
        "d28454a301382d0441010fa2016461636d650263706b67a119018a82587b{RECEIPT}587b{RECEIPT}4268694100"
    )?;
    let (status, text) = attach(alloc, &hex::decode(alloc, STATEMENT)?, &receipt, &[])?;
    assert_eq!(rt; status, 0);
    assert_eq!(rt; hex::encode(alloc, &text)?.as_str(), once.as_str());
    let (status, text) = attach(alloc, &text, &receipt, &[])?;
    assert_eq!(rt; status, 0);
    assert_eq!(rt; hex::encode(alloc, &text)?.as_str(), twice.as_str());
    Ok(())
}

#[test]
fn refuses_to_attach(rt: HostRuntime) -> Result<(), Fail> {
    let alloc = rt.alloc();
    for (statement, receipt, text) in [
        (STATEMENT, CONSISTENCY, "refused receipt\n"),
        (STATEMENT, "80", "refused receipt\n"),
        (STATEMENT, "", "refused receipt\n"),
        (STATEMENT, STATEMENT, "refused receipt\n"),
        ("80", RECEIPT, "refused NotSign1\n"),
        ("80", "80", "refused NotSign1\n"),
        ("d28440a04040", RECEIPT, "refused NoClaims\n"),
        ("", "", "refused cbor Truncated at 0\n"),
    ] {
        let statement = hex::decode(alloc, statement)?;
        let receipt = hex::decode(alloc, receipt)?;
        let (status, said) = attach(alloc, &statement, &receipt, &[])?;
        assert_eq!(rt; status, 1, "the status at {text}");
        assert_eq!(rt; said.as_slice(), text.as_bytes(), "the text at {text}");
    }
    Ok(())
}

// A statement with so many empty receipts.
fn with_receipts(alloc: Global, count: u16) -> Result<Vec<u8>, Fail> {
    let mut bytes = hex::decode(
        alloc,
        "d28454a301382d0441010fa2016461636d650263706b67a119018a99",
    )?;
    bytes.extend_from_slice(&count.to_be_bytes())?;
    for _ in 0..count {
        bytes.push(0x40)?;
    }
    bytes.extend_from_slice(&hex::decode(alloc, "4268694100")?)?;
    Ok(bytes)
}

// An array has at most 4,096 items; the receipt is judged before its room.
#[test]
fn attaches_up_to_the_most_receipts(rt: HostRuntime) -> Result<(), Fail> {
    let alloc = rt.alloc();
    let receipt = hex::decode(alloc, RECEIPT)?;
    let (status, _) = attach(alloc, &with_receipts(alloc, 4095)?, &receipt, &[])?;
    assert_eq!(rt; status, 0);
    let full = with_receipts(alloc, 4096)?;
    let (status, text) = attach(alloc, &full, &receipt, &[])?;
    assert_eq!(rt; status, 1);
    assert_eq!(rt; text.as_slice(), b"refused BadHeader 394\n".as_slice());
    let (status, text) = attach(alloc, &full, &[0x80], &[])?;
    assert_eq!(rt; status, 1);
    assert_eq!(rt; text.as_slice(), b"refused receipt\n".as_slice());
    Ok(())
}

// Both files are read before any is judged: three calls each, and a longer second file is refused as such.
#[test]
fn reads_both_files_first(rt: HostRuntime) -> Result<(), Fail> {
    let alloc = rt.alloc();
    for k in 0..7 {
        let (status, text) = attach(alloc, &[0x80], &[0x80], &[k])?;
        let want = if k < 6 {
            "read fault\n"
        } else {
            "refused NotSign1\n"
        };
        assert_eq!(rt; status, if k < 6 { 3 } else { 1 }, "at call {k}");
        assert_eq!(rt; text.as_slice(), want.as_bytes(), "at call {k}");
    }
    let long = vec![in alloc; 0; 16_777_217]?;
    let (status, text) = attach(alloc, &[0x80], &long, &[])?;
    assert_eq!(rt; status, 8);
    assert_eq!(rt; text.as_slice(), b"too long 16777216\n".as_slice());
    Ok(())
}
