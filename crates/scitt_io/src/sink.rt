ghost use Rattle.std.specs.Prelude.{◌≡◌, ℕ, ◌≤◌, ◌<◌, ◌↔◌, ◌+◌, List, length, take, IfOk, IsOk, is_some};
ghost use Rattle.std.specs.declared.option.Option.{Option};
ghost use Rattle.std.specs.Io.{WritesAtMost};
ghost use Rattle.std.specs.Io.KnownBytes.{WriteAppends};
ghost use Rattle.scitt_io.specs.Causes.{HasCause};
ghost use Rattle.scitt_io.specs.Sink.{WritesFront};

use std::error::Error;
use std::fmt;

/// A write that the outside refused. The sink has counted it.
#[derive(Clone, Copy, Debug, PartialEq, Eq)]
pub struct WriteFault;

impl fmt::Display for WriteFault {
    fn fmt<W: fmt::Write>(&self, f: &mut fmt::Formatter<W>) -> fmt::Result {
        f.write_str("write fault")
    }
}

impl Error for WriteFault {}

/// Bytes that go outside, in order.
pub trait Sink {
    // what was written, where the sink tells it
    ghost taken: { Self → Option (List ℕ) };

    // how many writes were refused so far
    ghost refused: { Self → ℕ };

    // what writes leave as it was: everything but what was written and the count
    ghost write_keeps: { Self → Self → Type 0 };

    /// Takes some of the first of these bytes, and says how many: at least one, unless there is none.
    /// A fault leaves what was written as it was.
    fn write(&mut self, bytes: &[u8]) -> Result<usize, WriteFault>
        ensures bound { WritesAtMost result bytes.now }
        ensures some { IfOk result (λ n. 0 < length bytes.now → 0 < n) }
        ensures appends { WriteAppends (taken self.old) (taken self.new) result bytes.now }
        ensures telling { is_some (taken self.new) ≡ is_some (taken self.old) }
        ensures cause { HasCause (refused self.old) (refused self.new) result }
        ensures keeps { write_keeps self.old self.new };

    ghost write_keeps_self: { (a : Self) → write_keeps a a };

    ghost write_keeps_then: { (a b c : Self) → write_keeps a b → write_keeps b c → write_keeps a c };
}

/// Writes all of `bytes`. After a fault the sink has taken a part of them from the front, and not all.
pub fn write_all<K: Sink>(sink: &mut K, bytes: &[u8]) -> Result<(), WriteFault>
    ensures front { WritesFront bytes.now (K.taken sink.old) (K.taken sink.new) result }
    ensures telling { is_some (K.taken sink.new) ≡ is_some (K.taken sink.old) }
    ensures cause { HasCause (K.refused sink.old) (K.refused sink.new) result }
    ensures keeps { K.write_keeps sink.old sink.new }
{
    let mut done = 0;
    while done < bytes.len() {
        done += sink.write(&bytes[done..])?;
    }
    Ok(())
}
