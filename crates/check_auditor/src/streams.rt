// What a reader of records answers, and audits of a source that gives one byte a read.
ghost use Rattle.std.specs.Prelude.{None};

use crate::audit_vectors::{BESIDE, FILES};
use crate::journals::{hash, journal, said, said_beside};
use auditor::{LogReader, Read, audit, audit_since};
use scitt_io::{MemSource, ReadFault, Source};
use std::alloc::Global;
use std::test::Fail;

// More than any of the journals has.
const LIMIT: u64 = 65_536;

// The bytes, the limit, and what a reader answers, one answer after another.
const ANSWERS: &[(&str, u64, &str)] = &[
    ("", 0, "no log"),
    ("", 100, "no log"),
    ("01", 100, "no log"),
    ("0100000000", 100, "no log"),
    ("00", 100, "no log"),
    ("000000000000", 100, "no log"),
    ("0200000001aa00", 100, "no log"),
    ("010000000000", 100, "record , end 0"),
    ("010000000000", 6, "record , end 0"),
    ("010000000000", 5, "too long"),
    ("0100000001aa00", 100, "record aa, end 0"),
    ("0100000001aaff", 100, "record aa, end 0"),
    ("0100000001aa00010203", 100, "record aa, end 3"),
    ("0100000001aa0001000000", 100, "record aa, end 4"),
    (
        "0100000001aa01000000000100000002bbcc0511",
        100,
        "record aa, record , record bbcc, end 1",
    ),
    ("010000000100", 100, "short 0"),
    ("01ffffffff00", 100, "short 0"),
    ("0100000001aa01", 100, "record aa, short 6"),
    ("0100000001aa01000000", 100, "record aa, short 6"),
    ("0100000001aa0100000000", 100, "record aa, short 6"),
    ("0100000001aa0100000002bb00", 100, "record aa, short 6"),
    ("0100000001aa00", 7, "record aa, end 0"),
    ("0100000001aa00", 6, "too long"),
    ("0100000001aa00", 5, "too long"),
    ("0100000001aa00", 4, "too long"),
    ("0100000001aa00", 0, "too long"),
    ("0100000001aa0007", 8, "record aa, end 1"),
    ("0100000001aa0007", 7, "record aa, too long"),
    ("0100000001aa01", 7, "record aa, short 6"),
    ("0100000001aa01ff", 7, "record aa, too long"),
    ("0100000001aa01000000", 10, "record aa, short 6"),
    ("000000000000", 5, "too long"),
    ("000000000000", 6, "no log"),
    (
        "0100000001aa00",
        18_446_744_073_709_551_615,
        "record aa, end 0",
    ),
];

// The bytes, the first of three reads that fail, and what a reader answers: one read gives the first gate, one each length, one each body
// with the gate behind it, and one or more the bytes behind the last gate and their end.
const FAULTS: &[(&str, u32, &str)] = &[
    ("0100000001aa00", 0, "read fault"),
    ("0100000001aa00", 1, "read fault"),
    ("0100000001aa00", 2, "read fault"),
    ("0100000001aa00", 3, "record aa, read fault"),
    ("0100000001aa00", 4, "record aa, end 0"),
    ("0100000001aa0007", 4, "record aa, read fault"),
    ("0100000001aa0007", 5, "record aa, end 1"),
    (
        "0100000001aa010000000000",
        5,
        "record aa, record , read fault",
    ),
    ("000000000000", 1, "read fault"),
    ("000000000000", 2, "read fault"),
    ("000000000000", 3, "no log"),
];

/// A source that gives one byte a read.
#[derive(Drop)]
struct Drip {
    bytes: Vec<u8>,
    at: usize,
}

impl Source for Drip {
    ghost left = { λ _. None };

    ghost faults = { λ _. 0 };

    ghost read_keeps = { λ _ _. Unit {0} };

    ghost read_keeps_self = { λ _. tt };

    ghost read_keeps_then = { λ _ _ _ _ _. tt };

    fn read(&mut self, buf: &mut [u8]) -> Result<usize, ReadFault> {
        if self.at < self.bytes.len() && !buf.is_empty() {
            buf[0] = self.bytes[self.at];
            self.at += 1;
            return Ok(1);
        }
        Ok(0)
    }
}

// An answer, and how many bytes are held behind it.
fn told(alloc: Global, read: &Read) -> Result<(String, u64), Fail> {
    Ok(match read {
        Read::Record(body) => {
            let digits = hex::encode(alloc, body.as_slice())?;
            (format!(in alloc; "record {digits}")?, 1)
        }
        Read::End { rest } => (format!(in alloc; "end {rest}")?, 0),
        Read::NoLog => (String::from_str(alloc, "no log")?, 0),
        Read::Short(at) => (format!(in alloc; "short {at}")?, 0),
        Read::ReadFault => (String::from_str(alloc, "read fault")?, 0),
        Read::TooLong => (String::from_str(alloc, "too long")?, 0),
        Read::OutOfMemory => (String::from_str(alloc, "out of memory")?, 0),
    })
}

// A reader's answers up to the one that it repeats, which it is asked for twice more.
fn answers<S: Source>(alloc: Global, source: &mut S, limit: u64) -> Result<String, Fail> {
    let mut reader = LogReader::new(alloc, limit);
    let mut text = String::new(alloc);
    for _ in 0..100 {
        let read = reader.next(source);
        let (line, held) = told(alloc, &read)?;
        if reader.held() != held {
            return Err("other bytes held".into());
        }
        text.push_str(line.as_str())?;
        if !matches!(&read, Read::Record(_)) {
            for _ in 0..2 {
                let again = reader.next(source);
                if told(alloc, &again)?.0 != line || reader.held() != 0 {
                    return Err("another answer".into());
                }
            }
            return Ok(text);
        }
        text.push_str(", ")?;
    }
    Err("no end".into())
}

#[test]
fn each_answer_of_a_reader(rt: HostRuntime) -> Result<(), Fail> {
    let alloc = rt.alloc();
    for (digits, limit, wanted) in ANSWERS {
        let bytes = hex::decode(alloc, digits)?;
        let mut whole = MemSource::new(bytes.clone()?, Vec::new(alloc));
        assert_eq!(rt;
            answers(alloc, &mut whole, *limit)?.as_str(),
            *wanted,
            "{digits} at most {limit}"
        );
        assert_eq!(rt; whole.faults(), 0);
        let mut drip = Drip { bytes, at: 0 };
        assert_eq!(rt;
            answers(alloc, &mut drip, *limit)?.as_str(),
            *wanted,
            "{digits} at most {limit}, one byte a read"
        );
    }
    Ok(())
}

#[test]
fn a_read_fault_is_answered_once_and_then_repeated(rt: HostRuntime) -> Result<(), Fail> {
    let alloc = rt.alloc();
    for (digits, first, wanted) in FAULTS {
        let fails = Vec::from_slice(alloc, &[*first, *first + 1, *first + 2])?;
        let mut source = MemSource::new(hex::decode(alloc, digits)?, fails);
        assert_eq!(rt;
            answers(alloc, &mut source, LIMIT)?.as_str(),
            *wanted,
            "{digits} failing at {first}"
        );
        let faults = if wanted.ends_with("read fault") { 1 } else { 0 };
        assert_eq!(rt; source.faults(), faults);
    }
    Ok(())
}

#[test]
fn each_journal_has_its_report_from_one_byte_a_read(rt: HostRuntime) -> Result<(), Fail> {
    let alloc = rt.alloc();
    for (wanted, names) in FILES {
        let bytes = journal(alloc, names)?;
        let mut source = Drip { bytes, at: 0 };
        let Ok(report) = audit(alloc, &mut source, LIMIT) else {
            return Err("no report".into());
        };
        assert_eq!(rt; said(alloc, &report)?.as_str(), *wanted);
    }
    for (size, root, wanted, names) in BESIDE {
        let bytes = journal(alloc, names)?;
        let root = hash(alloc, root)?;
        let mut source = Drip { bytes, at: 0 };
        let Ok(since) = audit_since(alloc, &mut source, LIMIT, *size, &root) else {
            return Err("no report".into());
        };
        assert_eq!(rt; said_beside(alloc, &since)?.as_str(), *wanted);
    }
    Ok(())
}
