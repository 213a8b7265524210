// What an audit takes from its source.

use crate::journals::{journal, said};
use auditor::{AuditStop, audit};
use scitt_io::{MemSource, SureSource};
use std::test::Fail;

const CLEAN: &str = "clean 1 0 3 e3b0c44298fc1c149afbf4c8996fb92427ae41e4649b934ca495991b7852b855";

// It reads the first gate, the length, the body with the gate behind it, the rest, and the end.
#[test]
fn a_failed_read_is_a_read_fault(rt: HostRuntime) -> Result<(), Fail> {
    let alloc = rt.alloc();
    for call in 0..8 {
        let fails = Vec::from_slice(alloc, &[call])?;
        let mut source = MemSource::new(journal(alloc, &["header", "rest"])?, fails);
        match audit(alloc, &mut source, 1_000) {
            Ok(report) => {
                assert!(rt; call > 4, "call {call}");
                assert_eq!(rt; said(alloc, &report)?.as_str(), CLEAN);
                assert_eq!(rt; source.faults(), 0);
            }
            Err(stop) => {
                assert!(rt; call < 5, "call {call}");
                assert!(rt; stop == AuditStop::ReadFault);
                assert_eq!(rt; source.faults(), 1);
            }
        }
    }
    Ok(())
}

#[test]
fn a_byte_above_the_limit_is_too_long(rt: HostRuntime) -> Result<(), Fail> {
    let alloc = rt.alloc();
    let bytes = journal(alloc, &["header", "rest"])?;
    let length = bytes.len() as u64;
    for limit in [0, 1, length.saturating_sub(1), length, length + 1] {
        let mut source = SureSource::new(bytes.clone()?);
        match audit(alloc, &mut source, limit) {
            Ok(report) => {
                assert!(rt; limit >= length);
                assert_eq!(rt; said(alloc, &report)?.as_str(), CLEAN);
            }
            Err(stop) => {
                assert!(rt; limit < length);
                assert!(rt; stop == AuditStop::TooLong);
            }
        }
    }
    Ok(())
}
