//! What a wire answers, as text, and links that give their bytes in pieces.
ghost use Rattle.std.specs.Prelude.{None};

use http_wire::{Next, Wire};
use scitt_io::{Link, MemLink, ReadFault, Sink, Source, WriteFault};
use std::alloc::{AllocError, Global};

/// A line for each request, and one for the answer behind them; the wire is asked once more, and must answer the same.
pub fn told<L: Link>(alloc: Global, link: &mut L) -> Result<String, AllocError> {
    let mut wire = Wire::new(alloc)?;
    let mut text = String::new(alloc);
    for _ in 0..40 {
        let next = wire.next_request(alloc, link);
        text.push_str(line(alloc, &next)?.as_str())?;
        if !matches!(&next, Next::Request(_)) {
            let again = wire.next_request(alloc, link);
            if line(alloc, &again)? != line(alloc, &next)? {
                text.push_str("and then another\n")?;
            }
            return Ok(text);
        }
    }
    Ok(text)
}

/// The same of these bytes, all given at once.
pub fn told_of(alloc: Global, bytes: &[u8]) -> Result<String, AllocError> {
    told(
        alloc,
        &mut MemLink::new(alloc, Vec::from_slice(alloc, bytes)?, Vec::new(alloc)),
    )
}

fn line(alloc: Global, next: &Next) -> Result<String, AllocError> {
    match next {
        Next::Request(q) => {
            let body = hex::encode(alloc, q.body.as_slice())?;
            let cose = if q.cose { "cose" } else { "other" };
            let close = if q.close { "close" } else { "stay" };
            format!(in alloc;
                "{:?} {} {cose} {close} {}\n",
                q.method,
                q.target.as_str(),
                body.as_str()
            )
        }
        Next::Ended => format!(in alloc; "Ended\n"),
        Next::CutShort => format!(in alloc; "CutShort\n"),
        Next::Refused(fault, of_head) => format!(in alloc; "{fault:?} {of_head}\n"),
        Next::ReadFault => format!(in alloc; "ReadFault\n"),
        Next::OutOfMemory => format!(in alloc; "OutOfMemory\n"),
    }
}

/// A link whose reads stop at a place, where it may fail once, and give at most so many bytes.
#[derive(Drop)]
pub struct Cut<'a> {
    pub bytes: &'a [u8],
    pub at: usize,
    pub place: usize,
    pub most: usize,
    pub fails: bool,
    pub faults: u64,
}

impl Source for Cut<'_> {
    ghost left = { λ _. None };

    ghost faults = { λ c. c.faults };

    ghost read_keeps = { λ _ _. Unit {0} };

    ghost read_keeps_self = { λ _. tt };

    ghost read_keeps_then = { λ _ _ _ _ _. tt };

    fn read(&mut self, buf: &mut [u8]) -> Result<usize, ReadFault> {
        if self.fails && self.at == self.place {
            self.fails = false;
            self.faults = self.faults.saturating_add(1);
            return Err(ReadFault);
        }
        let end = if self.at < self.place {
            self.place.min(self.bytes.len())
        } else {
            self.bytes.len()
        };
        let count = end.saturating_sub(self.at).min(self.most).min(buf.len());
        let at = self.at;
        for i in 0..count {
            if let Some(byte) = self.bytes.get(at.saturating_add(i)) {
                buf[i] = *byte;
            }
        }
        self.at = at.saturating_add(count);
        Ok(count)
    }
}

impl Sink for Cut<'_> {
    ghost taken = { λ _. None };

    ghost refused = { λ _. 0 };

    ghost write_keeps = { λ a b. b.faults ≡ a.faults };

    ghost use Rattle.std.specs.Prelude.{◌≡◌};
    ghost use Rattle.std.proofs.Common.{refl, ◌∙◌};

    ghost write_keeps_self = { λ _. refl };

    ghost write_keeps_then = { λ _ _ _ p q. q ∙ p };

    fn write(&mut self, bytes: &[u8]) -> Result<usize, WriteFault> {
        Ok(bytes.len())
    }
}

impl Link for Cut<'_> {
    ghost use Rattle.std.proofs.Common.{refl};

    ghost taken_kept = { λ _ _ _. refl };

    ghost refused_kept = { λ _ _ _. refl };

    ghost left_kept = { λ _ _ _. refl };

    ghost faults_kept = { λ _ _ p. p };
}
