// A connection of the network. It tells nothing, and counts what the system refuses.
ghost use Rattle.std.specs.Prelude.{◌≡◌, None, IfOk};

use crate::link::Link;
use crate::real::{read_retrying, write_retrying};
use crate::sink::{Sink, WriteFault};
use crate::source::{ReadFault, Source};
use std::io;
use std::io::{Read, Write};
use std::net::OpenStream;
use std::time::Duration;

/// A TCP connection.
#[derive(Drop)]
pub struct TcpLink<S: Read + Write + Drop> {
    stream: S,
    faults: u64,
    refused: u64,
}

impl<S: Read + Write + Drop> TcpLink<S> {
    /// A connection with no fault counted. A read or write that waits longer than `limit` is a fault. The
    /// system may refuse the limit: one of 0 it always refuses.
    pub fn new(stream: S, limit: Duration) -> io::Result<Self>
    where
        S: OpenStream,
        ensures faults { IfOk result (λ link. ⟦<TcpLink<S> as Source>⟧.faults link ≡ 0) }
        ensures refused { IfOk result (λ link. ⟦<TcpLink<S> as Sink>⟧.refused link ≡ 0) }
    {
        stream.set_read_timeout(Some(limit))?;
        stream.set_write_timeout(Some(limit))?;
        Ok(TcpLink {
            stream,
            faults: 0,
            refused: 0,
        })
    }
}

impl<S: Read + Write + Drop> Source for TcpLink<S> {
    ghost left = { λ _. None };

    ghost faults = { λ l. l.faults };

    ghost read_keeps = { λ a b. b.refused ≡ a.refused };

    ghost use Rattle.std.proofs.Common.{refl, ◌∙◌};

    ghost read_keeps_self = { λ _. refl };

    ghost read_keeps_then = { λ _ _ _ p q. q ∙ p };

    fn read(&mut self, buf: &mut [u8]) -> Result<usize, ReadFault> {
        let Ok(count) = read_retrying(&mut self.stream, buf) else {
            self.faults = self.faults.saturating_add(1);
            return Err(ReadFault);
        };
        Ok(count)
    }
}

impl<S: Read + Write + Drop> Sink for TcpLink<S> {
    ghost taken = { λ _. None };

    ghost refused = { λ l. l.refused };

    ghost write_keeps = { λ a b. b.faults ≡ a.faults };

    ghost use Rattle.std.proofs.Common.{refl, ◌∙◌};

    ghost write_keeps_self = { λ _. refl };

    ghost write_keeps_then = { λ _ _ _ p q. q ∙ p };

    fn write(&mut self, bytes: &[u8]) -> Result<usize, WriteFault> {
        if bytes.is_empty() {
            return Ok(0);
        }
        match write_retrying(&mut self.stream, bytes) {
            Ok(count) if count > 0 => Ok(count),
            _ => {
                self.refused = self.refused.saturating_add(1);
                Err(WriteFault)
            }
        }
    }
}

impl<S: Read + Write + Drop> Link for TcpLink<S> {
    ghost use Rattle.std.proofs.Common.{refl};

    ghost taken_kept = { λ _ _ _. refl };

    ghost refused_kept = { λ _ _ p. p };

    ghost left_kept = { λ _ _ _. refl };

    ghost faults_kept = { λ _ _ p. p };
}
