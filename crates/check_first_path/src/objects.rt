//! The objects of `scitt_io` and the calls over them.
use scitt_io::{
    FileFolder, Folder, MemFolder, MemSink, MemSource, ReadStop, Sink, Source, StdSink, SureSink,
    SureSource, Words, WriteFault, read_to_end, write_all,
};
use std::cell::Cell;
use std::fmt::Display;
use std::io::{ErrorKind, Print};
use std::test::Fail;
use std::{fs, io};

#[test]
fn reads_to_the_limit(rt: HostRuntime) -> Result<(), Fail> {
    let bytes = vec![in rt.alloc(); 9; 20_000]?;
    let mut source = SureSource::new(bytes.clone()?);
    assert_eq!(rt;
        read_to_end(rt.alloc(), &mut source, 20_000).ok(),
        Some(bytes)
    );
    assert_eq!(rt; read_to_end(rt.alloc(), &mut source, 0)?.len(), 0);
    let mut source = SureSource::new(vec![in rt.alloc(); 9; 20_001]?);
    assert_eq!(rt;
        read_to_end(rt.alloc(), &mut source, 20_000).err(),
        Some(ReadStop::TooLong)
    );
    Ok(())
}

#[test]
fn counts_the_listed_calls(rt: HostRuntime) -> Result<(), Fail> {
    let fails = Vec::from_slice(rt.alloc(), &[1, 3])?;
    let mut source = MemSource::new(Vec::from_slice(rt.alloc(), &[1, 2, 3])?, fails);
    let mut buf = [0; 2];
    assert_eq!(rt; source.read(&mut buf).ok(), Some(2));
    assert!(rt; source.read(&mut buf).is_err());
    assert_eq!(rt; source.read(&mut buf).ok(), Some(1));
    assert_eq!(rt; buf, [3, 2]);
    assert_eq!(rt;
        read_to_end(rt.alloc(), &mut source, 9).err(),
        Some(ReadStop::ReadFault)
    );
    assert_eq!(rt; source.faults(), 2);
    Ok(())
}

#[test]
fn writes_to_the_listed_call(rt: HostRuntime) -> Result<(), Fail> {
    let mut sink = MemSink::new(rt.alloc(), Vec::from_slice(rt.alloc(), &[1])?);
    assert_eq!(rt; write_all(&mut sink, b"ab").ok(), Some(()));
    assert_eq!(rt; write_all(&mut sink, b"cd").err(), Some(WriteFault));
    assert_eq!(rt; write_all(&mut sink, b"").ok(), Some(()));
    assert_eq!(rt; write_all(&mut sink, b"ef").ok(), Some(()));
    assert_eq!(rt; sink.faults(), 1);
    assert_eq!(rt; sink.into_content().as_slice(), b"abef".as_slice());
    assert_eq!(rt; SureSink::new().write(b"gone").ok(), Some(4));
    Ok(())
}

// Of two files with one name the first counts, and nothing is left before the first choice.
#[test]
fn chooses_the_first_of_a_name(rt: HostRuntime) -> Result<(), Fail> {
    let alloc = rt.alloc();
    let mut files = Vec::new(alloc);
    for (name, byte) in [("a", 1), ("b", 2), ("b", 3)] {
        files.push((
            String::from_str(alloc, name)?,
            Vec::from_slice(alloc, &[byte])?,
        ))?;
    }
    let mut folder = MemFolder::new(files, Vec::new(alloc));
    assert_eq!(rt; read_to_end(alloc, &mut folder, 9)?.len(), 0);
    for (name, byte) in [("b", 2), ("a", 1), ("b", 2)] {
        assert!(rt; folder.choose(name).is_ok());
        assert_eq!(rt;
            read_to_end(alloc, &mut folder, 9)?.as_slice(),
            [byte].as_slice()
        );
    }
    assert!(rt; folder.choose("c").is_err());
    assert_eq!(rt; folder.faults(), 1);
    Ok(())
}

// A real file, one that isn't there, and a folder in the place of a file.
#[test]
fn reads_real_files(rt: HostRuntime) -> Result<(), Fail> {
    fs::write(&rt, "real", "bytes")?;
    let mut files = FileFolder::new(&rt);
    let mut buf = [0; 4];
    assert_eq!(rt; files.read(&mut buf).ok(), Some(0));
    assert!(rt; files.choose("real").is_ok());
    assert_eq!(rt;
        read_to_end(rt.alloc(), &mut files, 5)?.as_slice(),
        b"bytes".as_slice()
    );
    assert!(rt; files.choose("missing").is_err());
    assert_eq!(rt; files.read(&mut buf).ok(), Some(0));
    assert!(rt; files.choose(".").is_ok());
    assert!(rt; files.read(&mut buf).is_err());
    let mut out = StdSink::new(&rt);
    assert_eq!(rt; write_all(&mut out, b"").ok(), Some(()));
    assert_eq!(rt; write_all(&mut out, b"a line of a test\n").ok(), Some(()));
    Ok(())
}

// What was being read goes on after a choice that failed, and a file that is chosen again begins anew.
#[test]
fn goes_on_after_a_failed_choice(rt: HostRuntime) -> Result<(), Fail> {
    fs::write(&rt, "front", "abcdef")?;
    let mut files = FileFolder::new(&rt);
    let mut buf = [0; 2];
    assert!(rt; files.choose("front").is_ok());
    for want in [b"ab", b"cd"] {
        assert_eq!(rt; files.read(&mut buf).ok(), Some(2));
        assert_eq!(rt; buf, *want);
        assert!(rt; files.choose("missing").is_err());
    }
    assert!(rt; files.choose("front").is_ok());
    assert_eq!(rt;
        read_to_end(rt.alloc(), &mut files, 6)?.as_slice(),
        b"abcdef".as_slice()
    );
    Ok(())
}

/// An output whose first calls answer as listed: a count of bytes, or none for an error; the later ones take all.
#[derive(Drop)]
struct Listed<'a> {
    answers: &'a [Result<usize, ErrorKind>],
    calls: &'a Cell<usize>,
}

impl Print for Listed<'_> {
    fn print<D: Display + Drop>(&self, _value: D) -> io::Result<()> {
        Ok(())
    }

    fn println<D: Display + Drop>(&self, _value: D) -> io::Result<()> {
        Ok(())
    }

    fn write_all(&self, _bytes: &[u8]) -> io::Result<()> {
        Ok(())
    }

    fn write_some(&self, bytes: &[u8]) -> io::Result<usize> {
        let call = self.calls.get();
        self.calls.set(call.saturating_add(1));
        match self.answers.get(call) {
            None => Ok(bytes.len()),
            Some(Ok(count)) => Ok((*count).min(bytes.len())),
            Some(Err(kind)) => Err(io::Error::from(*kind)),
        }
    }
}

// A signal is tried through, and every other error is a fault, as is an output that takes nothing.
#[test]
fn tells_a_refused_write(rt: HostRuntime) -> Result<(), Fail> {
    let again = Err(ErrorKind::Interrupted);
    let calls = Cell::new(0);
    let answers = [again, again, Ok(1), Err(ErrorKind::StorageFull), Ok(0)];
    let mut out = StdSink::new(Listed {
        answers: &answers,
        calls: &calls,
    });
    assert_eq!(rt; out.write(b"").ok(), Some(0));
    assert_eq!(rt; out.write(b"ab").ok(), Some(1));
    assert_eq!(rt; calls.get(), 3);
    assert_eq!(rt; out.write(b"b").err(), Some(WriteFault));
    assert_eq!(rt; out.write(b"b").err(), Some(WriteFault));
    assert_eq!(rt; write_all(&mut out, b"b").ok(), Some(()));
    assert_eq!(rt; calls.get(), 6);
    let answers = [again; 16];
    calls.set(0);
    let mut out = StdSink::new(Listed {
        answers: &answers,
        calls: &calls,
    });
    assert_eq!(rt; write_all(&mut out, b"b").err(), Some(WriteFault));
    assert_eq!(rt; calls.get(), 16);
    Ok(())
}

// More than the first room for an input, and one byte a read.
#[test]
fn reads_long_inputs(rt: HostRuntime) -> Result<(), Fail> {
    let mut bytes = Vec::new(rt.alloc());
    for i in 0..200_000u32 {
        bytes.push((i % 251) as u8)?;
    }
    let mut source = SureSource::new(bytes.clone()?);
    assert_eq!(rt; read_to_end(rt.alloc(), &mut source, 1_000_000)?, bytes);
    Ok(())
}

#[test]
fn keeps_words_in_order(rt: HostRuntime) -> Result<(), Fail> {
    let mut words = Words::new(rt.alloc());
    assert!(rt; words.is_empty());
    words.push("root")?;
    words.push("-")?;
    assert_eq!(rt; words.len(), 2);
    assert_eq!(rt; words.word(0), "root");
    assert_eq!(rt; words.word(1), "-");
    Ok(())
}
