use super::message_vectors::{ATTACHED, KEY_SETS};
use cose_sign1::{Label, Sign1Stop, attach, key_set};
use statement::parse;
use std::alloc::Global;
use std::test::Fail;

fn label_text(alloc: Global, label: &Label) -> Result<String, Fail> {
    match label {
        Label::Int(n) => Ok(format!(in alloc; "{n}")?),
        Label::Text(text) => Ok(String::from_str(alloc, text.as_str())?),
    }
}

/// The message with the receipt in hexadecimal, or why there is none.
fn attached(alloc: Global, bytes: &[u8], receipt: &[u8]) -> Result<String, Fail> {
    if receipt.len() > 4_198_400 {
        return Err("too long".into());
    }
    let text = match attach(alloc, bytes, receipt) {
        Ok(attached) => hex::encode(alloc, attached.as_slice())?,
        Err(Sign1Stop::Cbor(fault)) => format!(in alloc; "cbor {:?} at {}", fault.why, fault.at)?,
        Err(Sign1Stop::Protected(fault)) => {
            format!(in alloc; "protected {:?} at {}", fault.why, fault.at)?
        }
        Err(Sign1Stop::NotSign1) => String::from_str(alloc, "NotSign1")?,
        Err(Sign1Stop::BadHeader(label)) => {
            let label = label_text(alloc, &label)?;
            format!(in alloc; "BadHeader {label}")?
        }
        Err(Sign1Stop::DupLabel(label)) => {
            let label = label_text(alloc, &label)?;
            format!(in alloc; "DupLabel {label}")?
        }
        Err(Sign1Stop::BadCrit) => String::from_str(alloc, "BadCrit")?,
        Err(Sign1Stop::OutOfMemory) => String::from_str(alloc, "OutOfMemory")?,
    };
    Ok(text)
}

#[test]
fn receipts_are_attached_so(rt: HostRuntime) -> Result<(), Fail> {
    let alloc = rt.alloc();
    for row in ATTACHED {
        let (bytes, rest) = row.split_once("|").ok_or("no bar")?;
        let (receipt, wanted) = rest.split_once("|").ok_or("no bar")?;
        let bytes = hex::decode(alloc, bytes)?;
        let receipt = hex::decode(alloc, receipt)?;
        let text = attached(alloc, bytes.as_slice(), receipt.as_slice())?;
        assert_eq!(rt; text.as_str(), wanted, "{row}");
    }
    Ok(())
}

/// A message with so many empty receipts.
fn with_receipts(alloc: Global, count: u16) -> Result<Vec<u8>, Fail> {
    let mut bytes = hex::decode(alloc, "d28440a119018a99")?;
    for byte in count.to_be_bytes() {
        bytes.push(byte)?;
    }
    for _ in 0..count {
        bytes.push(0x40)?;
    }
    bytes.push(0x40)?;
    bytes.push(0x40)?;
    Ok(bytes)
}

#[test]
fn a_message_has_at_most_4096_receipts(rt: HostRuntime) -> Result<(), Fail> {
    let alloc = rt.alloc();
    let bytes = with_receipts(alloc, 4095)?;
    let text = attached(alloc, bytes.as_slice(), [].as_slice())?;
    let all = with_receipts(alloc, 4096)?;
    let wanted = hex::encode(alloc, all.as_slice())?;
    assert_eq!(rt; text.as_str(), wanted.as_str());
    let text = attached(alloc, all.as_slice(), [].as_slice())?;
    assert_eq!(rt; text.as_str(), "BadHeader 394");
    Ok(())
}

/// The logged form, the id and the number of receipts of a statement.
fn kept(alloc: Global, bytes: &[u8]) -> Result<String, Fail> {
    match parse(alloc, bytes) {
        Ok(statement) => {
            let logged = hex::encode(alloc, statement.logged.as_slice())?;
            let id = hex::encode(alloc, statement.id.as_slice())?;
            let receipts = statement.receipts.len();
            Ok(format!(in alloc; "{logged} {id} {receipts}")?)
        }
        Err(_) => Err("no statement".into()),
    }
}

const BARE: &str = "d28454a301382d0441010fa2016461636d650263706b67a04268694100";

/// SHA-256 of these bytes, by Python's hashlib.
const ID: &str = "8b5653a76fb53316a0610a48be11fe18c53185d61344fcd1cd530ffebec24ee6";

/// Attaching changes neither what is logged nor the id.
#[test]
fn an_attached_statement_has_the_same_id(rt: HostRuntime) -> Result<(), Fail> {
    let alloc = rt.alloc();
    let bytes = hex::decode(alloc, BARE)?;
    let text = kept(alloc, bytes.as_slice())?;
    let wanted = format!(in alloc; "{BARE} {ID} 0")?;
    assert_eq!(rt; text.as_str(), wanted.as_str());
    let receipt = hex::decode(alloc, "aabb")?;
    let text = attached(alloc, bytes.as_slice(), receipt.as_slice())?;
    let bytes = hex::decode(alloc, text.as_str())?;
    let text = kept(alloc, bytes.as_slice())?;
    let wanted = format!(in alloc; "{BARE} {ID} 1")?;
    assert_eq!(rt; text.as_str(), wanted.as_str());
    Ok(())
}

#[test]
fn key_sets_have_these_bytes(rt: HostRuntime) -> Result<(), Fail> {
    let alloc = rt.alloc();
    let zeros = [0; 60];
    let mut counted = [0; 60];
    for i in 0..60u8 {
        counted[usize::from(i)] = i;
    }
    let keys = [zeros, counted];
    for (count, wanted) in KEY_SETS.iter().enumerate() {
        if count > 2 {
            return Err("too many".into());
        }
        let set = key_set(alloc, &keys[..count])?;
        let text = hex::encode(alloc, set.as_slice())?;
        assert_eq!(rt; text.as_str(), *wanted);
    }
    Ok(())
}
