// The trusted edge: real files and streams. They tell nothing, and count what the system refuses.
ghost use Rattle.std.specs.Prelude.{◌≡◌, ℕ, List, [], None};
ghost use Rattle.std.specs.declared.option.Option.{Option};
ghost use Rattle.std.specs.Io.{ReadsAtMost, WritesAtMost};
ghost use Rattle.std.specs.Io.KnownBytes.{ReadConsumes, WriteAppends};

use crate::folder::Folder;
use crate::names::Names;
use crate::sink::{Sink, WriteFault};
use crate::source::{ReadFault, Source};
use std::io::{ErrorKind, Input, Print, Read, Write};
use std::rt::Files;
use std::{fs, io};

/// How often a read that a signal interrupts is tried before it counts as a fault.
const TRIES: u32 = 16;

#[derive(Drop)]
enum Chosen<R: Files + Input> {
    Nothing,
    Input(R::Reader),
    File(R::File),
}

/// The files of the system by their paths. The name `-` is standard input.
#[derive(Drop)]
pub struct FileFolder<R: Files + Input + Drop> {
    system: R,
    chosen: Chosen<R>,
    faults: u64,
    asked: Names,
}

impl<R: Files + Input + Drop> FileFolder<R> {
    /// Files of which none is chosen yet, with no fault counted.
    pub fn new(system: R) -> Self
        ensures faults { ⟦<FileFolder<R> as Source>⟧.faults result ≡ 0 }
        ensures asked { ⟦<FileFolder<R> as Folder>⟧.asked result ≡ [] }
    {
        FileFolder {
            system,
            chosen: Chosen::Nothing,
            faults: 0,
            asked: Names::new(),
        }
    }
}

impl<R: Files + Input + Drop> Source for FileFolder<R> {
    ghost left = { λ _. None };

    ghost faults = { λ f. f.faults };

    ghost read_keeps = { λ a b. b.asked ≡ a.asked };

    ghost use Rattle.std.proofs.Common.{refl, ◌∙◌};

    ghost read_keeps_self = { λ _. refl };

    ghost read_keeps_then = { λ _ _ _ p q. q ∙ p };

    fn read(&mut self, buf: &mut [u8]) -> Result<usize, ReadFault> {
        let answer = match &mut self.chosen {
            Chosen::Nothing => Ok(0),
            Chosen::Input(input) => read_retrying(input, buf),
            Chosen::File(file) => read_retrying(file, buf),
        };
        let Ok(count) = answer else {
            self.faults = self.faults.saturating_add(1);
            return Err(ReadFault);
        };
        Ok(count)
    }
}

impl<R: Files + Input + Drop> Folder for FileFolder<R> {
    ghost files = { λ _. None };

    ghost asked = { λ f. f.asked };

    ghost use Rattle.std.proofs.Common.{refl};

    ghost files_kept = { λ _ _ _. refl };

    ghost asked_kept = { λ _ _ same. same };

    fn choose(&mut self, name: &str) -> Result<(), ReadFault> {
        self.asked.add(name);
        if name == "-" {
            self.chosen = Chosen::Input(self.system.reader());
            return Ok(());
        }
        let Ok(file) = fs::open(&self.system, name) else {
            self.faults = self.faults.saturating_add(1);
            return Err(ReadFault);
        };
        self.chosen = Chosen::File(file);
        Ok(())
    }
}

/// One read, which is tried again where a signal interrupts it.
pub(crate) fn read_retrying<T: Read>(reader: &mut T, buf: &mut [u8]) -> io::Result<usize>
    ensures bound { ReadsAtMost result buf.new }
    ensures bytes { ReadConsumes (T.remaining reader.old) (T.remaining reader.new) result buf.new }
{
    for _ in 0..TRIES {
        match reader.read(buf) {
            Err(e) if e.kind() == ErrorKind::Interrupted => {}
            answer => return answer,
        }
    }
    Err(io::Error::from(ErrorKind::Interrupted))
}

/// One write, which is tried again where a signal interrupts it.
pub(crate) fn write_retrying<T: Write>(writer: &mut T, bytes: &[u8]) -> io::Result<usize>
    ensures bound { WritesAtMost result bytes.now }
    ensures bytes { WriteAppends (T.contents writer.old) (T.contents writer.new) result bytes.now }
{
    for _ in 0..TRIES {
        match writer.write(bytes) {
            Err(e) if e.kind() == ErrorKind::Interrupted => {}
            answer => return answer,
        }
    }
    Err(io::Error::from(ErrorKind::Interrupted))
}

/// Standard output.
#[derive(Drop)]
pub struct StdSink<P: Print + Drop> {
    out: P,
    faults: u64,
}

impl<P: Print + Drop> StdSink<P> {
    /// Standard output with no fault counted.
    pub fn new(out: P) -> Self
        ensures { ⟦<StdSink<P> as Sink>⟧.refused result ≡ 0 }
    {
        StdSink { out, faults: 0 }
    }
}

impl<P: Print + Drop> Sink for StdSink<P> {
    ghost taken = { λ _. None };

    ghost refused = { λ s. s.faults };

    ghost write_keeps = { λ _ _. Unit {0} };

    ghost write_keeps_self = { λ _. tt };

    ghost write_keeps_then = { λ _ _ _ _ _. tt };

    fn write(&mut self, bytes: &[u8]) -> Result<usize, WriteFault> {
        if bytes.is_empty() {
            return Ok(0);
        }
        for _ in 0..TRIES {
            match self.out.write_some(bytes) {
                Err(e) if e.kind() == ErrorKind::Interrupted => {}
                Err(_) | Ok(0) => break,
                Ok(count) => return Ok(count),
            }
        }
        self.faults = self.faults.saturating_add(1);
        Err(WriteFault)
    }
}
