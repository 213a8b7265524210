use super::receipt_vectors::RECEIPTS;
use receipts::{Proof, Receipt, ReceiptStop, decode, encode};
use std::alloc::Global;
use std::test::Fail;

/// Whether the receipt is encoded as these bytes.
fn is_encoded_so(alloc: Global, receipt: &Receipt, bytes: &[u8]) -> bool {
    let path = match &receipt.proof {
        Proof::Inclusion { path, .. } => path.len(),
        Proof::Consistency { path, .. } => path.len(),
    };
    let name = receipt.name.len();
    if name < 1 || name > 128 || path > 32 {
        return false;
    }
    match encode(alloc, receipt) {
        Ok(again) => again.as_slice() == bytes,
        Err(_) => false,
    }
}

/// What the decoder says of these bytes.
pub fn said(alloc: Global, bytes: &[u8]) -> Result<String, Fail> {
    let text = match decode(alloc, bytes) {
        Ok(receipt) => {
            if is_encoded_so(alloc, &receipt, bytes) {
                "ok"
            } else {
                "encoded otherwise"
            }
        }
        Err(ReceiptStop::Cbor(fault)) => {
            return Ok(format!(in alloc; "Cbor {:?} at {}", fault.why, fault.at)?);
        }
        Err(ReceiptStop::NotReceipt) => "NotReceipt",
        Err(ReceiptStop::BadProtected) => "BadProtected",
        Err(ReceiptStop::BadProof) => "BadProof",
        Err(ReceiptStop::OutOfMemory) => "OutOfMemory",
    };
    Ok(String::from_str(alloc, text)?)
}

#[test]
fn receipts_are_read_and_refused_so(rt: HostRuntime) -> Result<(), Fail> {
    let alloc = rt.alloc();
    for row in RECEIPTS {
        let (bytes, wanted) = row.split_once("|").ok_or("no bar")?;
        let bytes = hex::decode(alloc, bytes)?;
        let text = said(alloc, bytes.as_slice())?;
        assert_eq!(rt; text.as_str(), wanted, "{row}");
    }
    Ok(())
}

/// What a receipt says: the name, the size, the proof's numbers, its path's length, and the signature's length.
fn words(alloc: Global, receipt: &Receipt) -> Result<String, Fail> {
    let name = receipt.name.as_str();
    let signature = receipt.signature.len();
    let proof = match &receipt.proof {
        Proof::Inclusion {
            size,
            index,
            path,
            at,
            rule,
        } => format!(in alloc; "inclusion {size} {index} {at} {rule} path {}", path.len())?,
        Proof::Consistency { old, size, path } => {
            format!(in alloc; "consistency {old} {size} path {}", path.len())?
        }
    };
    Ok(format!(in alloc; "{name} {} {proof} signature {signature}", receipt.size)?)
}

fn words_of(alloc: Global, bytes: &[u8]) -> Result<String, Fail> {
    match decode(alloc, bytes) {
        Ok(receipt) => words(alloc, &receipt),
        Err(_) => Err("no receipt".into()),
    }
}

/// A receipt of 2,768 bytes: the service `log`, two entries, entry 1 by rule 100 at 1,700,000,000, and a signature as long as one of
/// two levels of H5 and W8, 2,644 bytes.
#[test]
fn a_receipt_of_two_levels_has_2768_bytes(rt: HostRuntime) -> Result<(), Fail> {
    let alloc = rt.alloc();
    let front =
        "d2845838a501382d045820000102030405060708090a0b0c0d0e0f101112131415161718191a1b1c1d1e1f0fa101636c6f6719018b013a0001117002a219018ca120815826830201815820404142434445464748494a4b4c4d4e4f505152535455565758595a5b5c5d5e5f3a00011171821a6553f1001864f6590a54";
    let mut bytes = hex::decode(alloc, front)?;
    for _ in 0..2644 {
        bytes.push(b's')?;
    }
    assert_eq!(rt; bytes.len(), 2768);
    let text = said(alloc, bytes.as_slice())?;
    assert_eq!(rt; text.as_str(), "ok");
    let text = words_of(alloc, bytes.as_slice())?;
    let wanted = "log 2 inclusion 2 1 1700000000 100 path 1 signature 2644";
    assert_eq!(rt; text.as_str(), wanted);
    Ok(())
}
