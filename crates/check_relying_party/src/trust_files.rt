use super::vectors::{SERVICE, TRUST};
use relying_party::{Trust, TrustStop};
use std::alloc::Global;
use std::test::Fail;

/// The numbers of services and issuers, or why there are none.
fn said(alloc: Global, bytes: &[u8]) -> Result<String, Fail> {
    let text = match Trust::decode(alloc, bytes) {
        Ok(trust) => { format!(in alloc; "{} {}", trust.services.len(), trust.issuers.len())? }
        Err(TrustStop::Cbor(fault)) => {
            format!(in alloc; "Cbor {:?} at {}", fault.why, fault.at)?
        }
        Err(TrustStop::BadTrust) => String::from_str(alloc, "BadTrust")?,
        Err(TrustStop::OutOfMemory) => String::from_str(alloc, "OutOfMemory")?,
    };
    Ok(text)
}

#[test]
fn trust_files_are_read_and_refused_so(rt: HostRuntime) -> Result<(), Fail> {
    let alloc = rt.alloc();
    for row in TRUST {
        let (bytes, wanted) = row.split_once("|").ok_or("no bar")?;
        let bytes = hex::decode(alloc, bytes)?;
        let text = said(alloc, bytes.as_slice())?;
        assert_eq!(rt; text.as_str(), wanted, "{row}");
    }
    Ok(())
}

/// An array's head in hexadecimal.
fn array_head(alloc: Global, len: usize) -> Result<String, Fail> {
    let text = if len < 24 {
        format!(in alloc; "{:02x}", 0x80 + len)?
    } else if len < 256 {
        format!(in alloc; "98{len:02x}")?
    } else {
        format!(in alloc; "99{len:04x}")?
    };
    Ok(text)
}

/// An array of so many times this item, in hexadecimal.
fn array_of(alloc: Global, len: usize, item: &str) -> Result<String, Fail> {
    let mut text = array_head(alloc, len)?;
    for _ in 0..len {
        text.push_str(item)?;
    }
    Ok(text)
}

/// The numbers of services and issuers, and what the decoder says of a file of so many.
static COUNTS: [(usize, usize, &str); 6] = [
    (1, 0, "1 0"),
    (64, 0, "64 0"),
    (1, 256, "1 256"),
    (0, 1, "BadTrust"),
    (65, 0, "BadTrust"),
    (1, 257, "BadTrust"),
];

#[test]
fn files_have_1_to_64_services_and_at_most_256_issuers(rt: HostRuntime) -> Result<(), Fail> {
    let alloc = rt.alloc();
    let service = format!(in alloc; "8260583c{SERVICE}")?;
    let issuer = format!(in alloc; "836040583c{SERVICE}")?;
    for (services, issuers, wanted) in COUNTS {
        let services = array_of(alloc, services, service.as_str())?;
        let issuers = array_of(alloc, issuers, issuer.as_str())?;
        let text = format!(in alloc; "8301{services}{issuers}")?;
        let bytes = hex::decode(alloc, text.as_str())?;
        let text = said(alloc, bytes.as_slice())?;
        assert_eq!(rt; text.as_str(), wanted, "{wanted}");
    }
    Ok(())
}
