// What an audit says of journals.

use crate::audit_vectors::{BESIDE, FILES, LENGTHS, SMALL};
use crate::journals::{hash, journal, said, said_beside};
use auditor::{audit, audit_bytes, audit_since};
use scitt_io::MemSource;
use std::test::Fail;

// More than any of the journals has.
const LIMIT: u64 = 65_536;

#[test]
fn each_journal_has_its_report(rt: HostRuntime) -> Result<(), Fail> {
    let alloc = rt.alloc();
    for (wanted, names) in FILES {
        let bytes = journal(alloc, names)?;
        let mut source = MemSource::new(bytes, Vec::new(alloc));
        let Ok(report) = audit(alloc, &mut source, LIMIT) else {
            return Err("no report".into());
        };
        assert_eq!(rt; said(alloc, &report)?.as_str(), *wanted);
        assert_eq!(rt; source.faults(), 0);
    }
    Ok(())
}

#[test]
fn each_journal_is_compared_with_an_older_root(rt: HostRuntime) -> Result<(), Fail> {
    let alloc = rt.alloc();
    for (size, root, wanted, names) in BESIDE {
        let bytes = journal(alloc, names)?;
        let root = hash(alloc, root)?;
        let mut source = MemSource::new(bytes, Vec::new(alloc));
        let Ok(since) = audit_since(alloc, &mut source, LIMIT, *size, &root) else {
            return Err("no report".into());
        };
        assert_eq!(rt; said_beside(alloc, &since)?.as_str(), *wanted);
    }
    Ok(())
}

// The last line whose length isn't above this one.
fn wanted_at(length: usize) -> &'static str {
    let mut wanted = "";
    for (from, said) in LENGTHS {
        if *from <= length {
            wanted = *said;
        }
    }
    wanted
}

#[test]
fn each_prefix_of_a_small_journal_is_short_at_its_gate(rt: HostRuntime) -> Result<(), Fail> {
    let alloc = rt.alloc();
    let bytes = journal(alloc, &SMALL)?;
    for length in 0..=bytes.len() {
        let report = audit_bytes(alloc, &bytes[..length])?;
        assert_eq!(rt;
            said(alloc, &report)?.as_str(),
            wanted_at(length),
            "{length} bytes"
        );
    }
    Ok(())
}
