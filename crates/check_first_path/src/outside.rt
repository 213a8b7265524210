//! What the tool answers where the outside refuses a call, and where it gives or takes one byte at a time.
ghost use Rattle.std.specs.Prelude.{None, ◌≡◌};

use crate::runs::{folder, no_key, run, words};
use scitt_disk::SureDisk;
use scitt_io::{
    Folder, MemSink, Names, ReadFault, Sink, Source, SureFolder, SureSink, SureSource, WriteFault,
};
use scitt_tool::run_tool;
use std::test::Fail;

const EMPTY: &[u8] =
    b"size 0\nroot e3b0c44298fc1c149afbf4c8996fb92427ae41e4649b934ca495991b7852b855\n";

// `root` makes three calls: it chooses, reads the byte, and reads the end.
#[test]
fn says_that_a_read_failed(rt: HostRuntime) -> Result<(), Fail> {
    for k in 0..5 {
        let mut files = folder(rt.alloc(), &[0x80], &[k])?;
        let mut out = MemSink::new(rt.alloc(), Vec::new(rt.alloc()));
        let (mut key, mut random) = no_key(rt.alloc());
        let status = run_tool(
            rt.alloc(),
            &words(rt.alloc(), &["root", "f"])?,
            &mut files,
            &mut key,
            &mut random,
            &mut out,
        );
        assert_eq!(rt; out.faults(), 0);
        let text = out.into_content();
        if k < 3 {
            assert_eq!(rt; (status, files.faults()), (3, 1), "at call {k}");
            assert_eq!(rt; text.as_slice(), b"read fault\n".as_slice());
        } else {
            assert_eq!(rt; (status, files.faults()), (0, 0), "at call {k}");
            assert_eq!(rt; text.as_slice(), EMPTY);
        }
    }
    Ok(())
}

#[test]
fn says_that_a_file_is_missing(rt: HostRuntime) -> Result<(), Fail> {
    let (status, text) = run(rt.alloc(), &["root", "g"], &[0x80])?;
    assert_eq!(rt; status, 3);
    assert_eq!(rt; text.as_slice(), b"read fault\n".as_slice());
    Ok(())
}

#[test]
fn ends_where_a_write_failed(rt: HostRuntime) -> Result<(), Fail> {
    let mut files = folder(rt.alloc(), &[0x80], &[])?;
    let mut out = MemSink::new(rt.alloc(), Vec::from_slice(rt.alloc(), &[0])?);
    let (mut key, mut random) = no_key(rt.alloc());
    let status = run_tool(
        rt.alloc(),
        &words(rt.alloc(), &["root", "f"])?,
        &mut files,
        &mut key,
        &mut random,
        &mut out,
    );
    assert_eq!(rt; (status, out.faults()), (4, 1));
    assert_eq!(rt; out.into_content().len(), 0);
    Ok(())
}

/// A sink that takes one byte a call, of so many calls, and fails after them.
#[derive(Drop)]
struct Slow {
    taken: Vec<u8>,
    calls: usize,
    faults: u64,
}

impl Sink for Slow {
    ghost taken = { λ _. None };

    ghost refused = { λ s. s.faults };

    ghost write_keeps = { λ _ _. Unit {0} };

    ghost write_keeps_self = { λ _. tt };

    ghost write_keeps_then = { λ _ _ _ _ _. tt };

    fn write(&mut self, bytes: &[u8]) -> Result<usize, WriteFault> {
        let Some(first) = bytes.first() else {
            return Ok(0);
        };
        if self.taken.len() >= self.calls || self.taken.push(*first).is_err() {
            self.faults = self.faults.saturating_add(1);
            return Err(WriteFault);
        }
        Ok(1)
    }
}

#[test]
fn writes_a_part_of_the_text(rt: HostRuntime) -> Result<(), Fail> {
    for calls in 0..EMPTY.len() + 2 {
        let mut files = folder(rt.alloc(), &[0x80], &[])?;
        let mut out = Slow {
            taken: Vec::new(rt.alloc()),
            calls,
            faults: 0,
        };
        let (mut key, mut random) = no_key(rt.alloc());
        let status = run_tool(
            rt.alloc(),
            &words(rt.alloc(), &["root", "f"])?,
            &mut files,
            &mut key,
            &mut random,
            &mut out,
        );
        let count = calls.min(EMPTY.len());
        assert_eq!(rt;
            status,
            if calls < EMPTY.len() { 4 } else { 0 },
            "at {calls}"
        );
        assert_eq!(rt;
            Some(out.taken.as_slice()),
            EMPTY.get(..count),
            "at {calls}"
        );
    }
    Ok(())
}

/// A folder of one file that gives one byte a read.
#[derive(Drop)]
struct Drip {
    bytes: Vec<u8>,
    at: usize,
    asked: Names,
}

impl Source for Drip {
    ghost left = { λ _. None };

    ghost faults = { λ _. 0 };

    ghost read_keeps = { λ a b. b.asked ≡ a.asked };

    ghost use Rattle.std.proofs.Common.{refl, ◌∙◌};

    ghost read_keeps_self = { λ _. refl };

    ghost read_keeps_then = { λ _ _ _ p q. q ∙ p };

    fn read(&mut self, buf: &mut [u8]) -> Result<usize, ReadFault> {
        if buf.is_empty() || self.at >= self.bytes.len() {
            return Ok(0);
        }
        buf[0] = self.bytes[self.at];
        self.at += 1;
        Ok(1)
    }
}

impl Folder for Drip {
    ghost files = { λ _. None };

    ghost asked = { λ d. d.asked };

    ghost use Rattle.std.proofs.Common.{refl};

    ghost files_kept = { λ _ _ _. refl };

    ghost asked_kept = { λ _ _ same. same };

    fn choose(&mut self, name: &str) -> Result<(), ReadFault> {
        self.asked.add(name);
        self.at = 0;
        Ok(())
    }
}

#[test]
fn reads_a_byte_at_a_time(rt: HostRuntime) -> Result<(), Fail> {
    let mut files = Drip {
        bytes: Vec::from_slice(rt.alloc(), &[0x81, 0x43, 1, 2, 3])?,
        at: 5,
        asked: Names::new(),
    };
    let mut out = MemSink::new(rt.alloc(), Vec::new(rt.alloc()));
    let (mut key, mut random) = no_key(rt.alloc());
    let status = run_tool(
        rt.alloc(),
        &words(rt.alloc(), &["root", "f"])?,
        &mut files,
        &mut key,
        &mut random,
        &mut out,
    );
    assert_eq!(rt; status, 0);
    // SHA-256 of the bytes 00 01 02 03, as sha256sum prints it.
    let text = b"size 1\nroot 054edec1d0211f624fed0cbca9d4f9400b0e491c43742af2c5b0abebf0c990d8\n";
    assert_eq!(rt; out.into_content().as_slice(), text.as_slice());
    Ok(())
}

// Over the objects that never fail, an unknown name is an empty file.
#[test]
fn answers_over_sure_objects(rt: HostRuntime) -> Result<(), Fail> {
    let mut files = SureFolder::new(Vec::new(rt.alloc()));
    let mut out = MemSink::new(rt.alloc(), Vec::new(rt.alloc()));
    let mut key = SureDisk::new();
    let mut random = SureSource::new(Vec::new(rt.alloc()));
    let status = run_tool(
        rt.alloc(),
        &words(rt.alloc(), &["root", "f"])?,
        &mut files,
        &mut key,
        &mut random,
        &mut out,
    );
    assert_eq!(rt; status, 1);
    assert_eq!(rt;
        out.into_content().as_slice(),
        b"refused cbor Truncated at 0\n".as_slice()
    );
    let status = run_tool(
        rt.alloc(),
        &words(rt.alloc(), &[])?,
        &mut files,
        &mut key,
        &mut random,
        &mut SureSink::new(),
    );
    assert_eq!(rt; status, 2);
    Ok(())
}
