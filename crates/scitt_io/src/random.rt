// The system's random bytes. They aren't told, and never end.
ghost use Rattle.std.specs.Prelude.{◌≡◌, None};
ghost use Rattle.std.specs.Io.{ReadsAtMost};

use crate::real::read_retrying;
use crate::source::{ReadFault, Source};
use std::rt::Files;
use std::{fs, io};

/// The file that gives random bytes.
const URANDOM: &str = "/dev/urandom";

/// Random bytes of the system. Its file is opened at the first read, and where that fails, at the next.
#[derive(Drop)]
pub struct RandomSource<R: Files + Drop> {
    system: R,
    opened: Option<R::File>,
    faults: u64,
}

impl<R: Files + Drop> RandomSource<R> {
    /// Random bytes of which none was read yet, with no fault counted.
    pub fn new(system: R) -> Self
        ensures { ⟦<RandomSource<R> as Source>⟧.faults result ≡ 0 }
    {
        RandomSource {
            system,
            opened: None,
            faults: 0,
        }
    }

    fn read_some(&mut self, buf: &mut [u8]) -> io::Result<usize>
        ensures bound { ReadsAtMost result buf.new }
        ensures faults { self.new.faults ≡ self.old.faults }
    {
        if let Some(file) = &mut self.opened {
            return read_retrying(file, buf);
        }
        let mut file = fs::open(&self.system, URANDOM)?;
        let answer = read_retrying(&mut file, buf);
        self.opened = Some(file);
        answer
    }
}

impl<R: Files + Drop> Source for RandomSource<R> {
    ghost left = { λ _. None };

    ghost faults = { λ s. s.faults };

    ghost read_keeps = { λ _ _. Unit {0} };

    ghost read_keeps_self = { λ _. tt };

    ghost read_keeps_then = { λ _ _ _ _ _. tt };

    fn read(&mut self, buf: &mut [u8]) -> Result<usize, ReadFault> {
        let Ok(count) = self.read_some(buf) else {
            self.faults = self.faults.saturating_add(1);
            return Err(ReadFault);
        };
        Ok(count)
    }
}
