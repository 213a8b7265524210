ghost use Rattle.std.specs.Prelude.{◌≡◌, ℕ, ◌+◌, Option, is_some};
ghost use Rattle.scitt_io.specs.Causes.{HasCause};
ghost use Rattle.scitt_io.specs.Moments.{Ticks};

use std::error::Error;
use std::fmt;

/// A reading of the clock that the outside refused. The clock has counted it.
#[derive(Clone, Copy, Debug, PartialEq, Eq)]
pub struct ClockFault;

impl fmt::Display for ClockFault {
    fn fmt<W: fmt::Write>(&self, f: &mut fmt::Formatter<W>) -> fmt::Result {
        f.write_str("clock fault")
    }
}

impl Error for ClockFault {}

/// Moments, as whole seconds since 1970.
pub trait Clock {
    // the moments to come, each at its place, where the clock tells them
    ghost moments: { Self → Option (ℕ → Option ℕ) };

    // how many readings were refused so far
    ghost misses: { Self → ℕ };

    // how often the moment was asked for so far, refused or not
    ghost readings: { Self → ℕ };

    /// The moment that it is: the first of the moments to come. A fault leaves these as they were.
    fn now(&mut self) -> Result<u64, ClockFault>
        ensures ticks { Ticks (moments self.old) (moments self.new) result }
        ensures telling { is_some (moments self.new) ≡ is_some (moments self.old) }
        ensures cause { HasCause (misses self.old) (misses self.new) result }
        ensures read { readings self.new ≡ readings self.old + 1 };
}
