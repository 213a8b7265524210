// What a registrar answers, as texts.
use cbor_core::Bytes;
use log_replay::check;
use registrar::{Outcome, ReadBack, Registrar};
use scitt_disk::Disk;
use sha2::{Digest, Sha256};
use statement::parse;
use std::alloc::Global;
use std::test::Fail;

/// The SHA-256 of bytes, in hexadecimal.
pub fn digest(alloc: Global, bytes: &[u8]) -> Result<String, Fail> {
    Ok(hex::encode(alloc, Sha256::digest(bytes).as_slice())?)
}

/// An answer with its numbers, and the receipt that came with it.
pub fn told(alloc: Global, outcome: Outcome) -> Result<(String, Option<Bytes>), Fail> {
    let text = match outcome {
        Outcome::Known { index, receipt } => {
            return Ok((format!(in alloc; "known {index}")?, Some(receipt)));
        }
        Outcome::Admitted { index, receipt } => {
            return Ok((format!(in alloc; "admitted {index}")?, Some(receipt)));
        }
        Outcome::Denied { rule, size, moment } => {
            format!(in alloc; "denied {rule} {size} {moment}")?
        }
        Outcome::LogFull { entries, bytes } => format!(in alloc; "full {entries} {bytes}")?,
        Outcome::KeyExhausted { next, capacity } => format!(in alloc; "spent {next} {capacity}")?,
        Outcome::OutOfMemory => String::from_str(alloc, "no memory")?,
        Outcome::DiskFault => String::from_str(alloc, "disk fault")?,
        Outcome::Changed { number } => format!(in alloc; "changed {number}")?,
    };
    Ok((text, None))
}

/// The answer to a statement's bytes, and the receipt.
pub fn admission<D: Disk>(
    alloc: Global,
    log: &mut Registrar<D>,
    bytes: &Bytes,
    moment: u64,
) -> Result<(String, Option<Bytes>), Fail> {
    if bytes.len() > 16_777_216 {
        return Err("a long statement".into());
    }
    let Ok(statement) = parse(alloc, bytes.as_slice()) else {
        return Err("no statement".into());
    };
    let key = log.key_hint(&statement);
    let Ok(checked) = check(alloc, statement, key) else {
        return Err("no memory".into());
    };
    told(alloc, log.register(alloc, &checked, moment))
}

/// The answer to a statement's bytes.
pub fn answer<D: Disk>(
    alloc: Global,
    log: &mut Registrar<D>,
    bytes: &Bytes,
    moment: u64,
) -> Result<String, Fail> {
    let (text, _) = admission(alloc, log, bytes, moment)?;
    Ok(text)
}

/// What was read back: the SHA-256 of the bytes, or why there are none.
pub fn read_back(alloc: Global, answer: Result<Bytes, ReadBack>) -> Result<String, Fail> {
    let text = match answer {
        Ok(bytes) => digest(alloc, bytes.as_slice())?,
        Err(ReadBack::NoEntry { index, size }) => format!(in alloc; "no entry {index} {size}")?,
        Err(ReadBack::NoSuchSize { old, size }) => format!(in alloc; "no size {old} {size}")?,
        Err(ReadBack::Changed { number }) => format!(in alloc; "changed {number}")?,
        Err(ReadBack::DiskFault) => String::from_str(alloc, "disk fault")?,
        Err(ReadBack::OutOfMemory) => String::from_str(alloc, "no memory")?,
    };
    Ok(text)
}
