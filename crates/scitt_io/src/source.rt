ghost use Rattle.std.specs.Prelude.{◌≡◌, ◌≢◌, ℕ, ◌+◌, ◌-◌, ◌^◌, ◌≤◌, ◌<◌, length, take, drop, List, IfOk, IfErr, IfSome, OnOk, OnErr, is_some, IsErrOf};
ghost use Rattle.std.specs.declared.option.Option.{Option};
ghost use Rattle.std.specs.Io.{ReadsAtMost};
ghost use Rattle.std.specs.Io.KnownBytes.{ReadConsumes, IsAtEnd};
ghost use Rattle.scitt_io.specs.Causes.{HasCause, Rose};
ghost use Rattle.scitt_io.specs.Source.{TakesAll};
ghost use Rattle.scitt_io.specs.declared.source.ReadStop.TheVariants.{OutOfMemory};
ghost use Rattle.scitt_io.specs.declared.source.ReadStop.TheVariants.{ReadFault as FaultStop};

use std::alloc::{AllocError, Global};
use std::error::Error;
use std::fmt;

/// A read that the outside refused. The source has counted it.
#[derive(Clone, Copy, Debug, PartialEq, Eq)]
pub struct ReadFault;

impl fmt::Display for ReadFault {
    fn fmt<W: fmt::Write>(&self, f: &mut fmt::Formatter<W>) -> fmt::Result {
        f.write_str("read fault")
    }
}

impl Error for ReadFault {}

/// Bytes that come in from outside, once and in order.
pub trait Source {
    // what is left to read, where the source tells it
    ghost left: { Self → Option (List ℕ) };

    // how many reads were refused so far
    ghost faults: { Self → ℕ };

    // what reads leave as it was: everything but what is left and the count
    ghost read_keeps: { Self → Self → Type 0 };

    /// Reads some of the next bytes into the front of `buf`, and says how many: 0 only at the end of
    /// the input, or where `buf` has no room. A fault leaves what is left as it was.
    fn read(&mut self, buf: &mut [u8]) -> Result<usize, ReadFault>
        ensures bound { ReadsAtMost result buf.new }
        ensures bytes { ReadConsumes (left self.old) (left self.new) result buf.new }
        ensures telling { is_some (left self.new) ≡ is_some (left self.old) }
        ensures cause { HasCause (faults self.old) (faults self.new) result }
        ensures keeps { read_keeps self.old self.new };

    ghost read_keeps_self: { (a : Self) → read_keeps a a };

    ghost read_keeps_then: { (a b c : Self) → read_keeps a b → read_keeps b c → read_keeps a c };
}

/// Why a source wasn't read to its end.
#[derive(Clone, Copy, Debug, PartialEq, Eq)]
pub enum ReadStop {
    /// More than the limit was left.
    TooLong,
    /// The source refused a read.
    ReadFault,
    OutOfMemory,
}

impl fmt::Display for ReadStop {
    fn fmt<W: fmt::Write>(&self, f: &mut fmt::Formatter<W>) -> fmt::Result {
        f.write_str(match self {
            ReadStop::TooLong => "too long",
            ReadStop::ReadFault => "read fault",
            ReadStop::OutOfMemory => "out of memory",
        })
    }
}

impl Error for ReadStop {}

impl From<ReadFault> for ReadStop {
    ghost from_gives = { λ _ stop. stop ≡ FaultStop };

    fn from(_fault: ReadFault) -> ReadStop {
        ReadStop::ReadFault
    }
}

impl From<AllocError> for ReadStop {
    ghost from_gives = { λ _ stop. stop ≡ OutOfMemory };

    fn from(_error: AllocError) -> ReadStop {
        ReadStop::OutOfMemory
    }
}

/// Reads some of the next bytes over those in `bytes` from `at` on, and says how many: 0 only at the end
/// of the input, or where there are none. What stands before `at` stays, and so does the length.
pub fn read_behind<S: Source>(
    source: &mut S,
    bytes: &mut Vec<u8>,
    at: usize,
) -> Result<usize, ReadFault>
    requires { at ≤ length bytes.old.items }
    ensures within { IfOk result (λ count. at + count ≤ length bytes.new.items) }
    ensures front { take at bytes.new.items ≡ take at bytes.old.items }
    ensures same_length { length bytes.new.items ≡ length bytes.old.items }
    ensures reads { ReadConsumes (S.left source.old) (S.left source.new) result (drop at bytes.new.items) }
    ensures telling { is_some (S.left source.new) ≡ is_some (S.left source.old) }
    ensures cause { HasCause (S.faults source.old) (S.faults source.new) result }
    ensures keeps { S.read_keeps source.old source.new }
{
    source.read(&mut bytes[at..])
}

/// How much room there is for an input at first.
const ROOM: u64 = 65536;

/// All bytes that are left in `source`, at most `limit` of them.
///
/// `TooLong` comes exactly where more than the limit was left: one byte past it was taken then.
/// `ReadFault` comes only where the source's count rose. After these two and `OutOfMemory` the bytes read
/// so far are lost, and what follows them is left.
pub fn read_to_end<S: Source>(
    alloc: Global,
    source: &mut S,
    limit: u64,
) -> Result<Vec<u8>, ReadStop>
    ensures takes { TakesAll limit (S.left source.old) (S.left source.new) result }
    ensures end { OnOk result (IsAtEnd (S.left source.new)) }
    ensures all { IfOk result (λ bytes. IfSome (S.left source.old) (λ left. bytes.items ≡ left)) }
    ensures telling { is_some (S.left source.new) ≡ is_some (S.left source.old) }
    ensures fault { IsErrOf result ReadStop.ReadFault → Rose (S.faults source.old) (S.faults source.new) }
    ensures no_fault { (IsErrOf result ReadStop.ReadFault → ⊥) → S.faults source.new ≡ S.faults source.old }
    ensures later { S.faults source.old ≤ S.faults source.new }
    ensures keeps { S.read_keeps source.old source.new }
{
    let mut bytes = Vec::new(alloc);
    let mut done = 0;
    loop {
        make_room(&mut bytes, done, limit)?;
        let count = read_behind(source, &mut bytes, done)?;
        if count == 0 {
            bytes.truncate(done);
            return Ok(bytes);
        }
        done += count;
        if done as u64 > limit {
            return Err(ReadStop::TooLong);
        }
    }
}

/// Makes room behind the bytes that were read, of which there are `done`, where they fill theirs: about as
/// much again, but at most up to one byte more than the limit, so that too long an input shows.
pub fn make_room(bytes: &mut Vec<u8>, done: usize, limit: u64) -> Result<(), AllocError>
    requires within { done ≤ length bytes.old.items }
    requires short { done ≤ limit }
    requires most { length bytes.old.items ≤ limit + 1 }
    ensures kept { OnOk result (take done bytes.new.items ≡ take done bytes.old.items) }
    ensures more { OnOk result (done < length bytes.new.items) }
    ensures most { OnOk result (length bytes.new.items ≤ limit + 1) }
{
    if done < bytes.len() {
        return Ok(());
    }
    bytes.resize(wider(done, limit), 0)
}

/// How much room is wanted where this much is full: about twice as much, but at most one byte more than
/// the limit, so that too long an input shows.
fn wider(done: usize, limit: u64) -> usize
    requires within { done ≤ limit }
    requires short { done < 2 ^ 63 }
    ensures more { done < result }
    ensures most { result ≤ limit + 1 }
{
    let twice = ((done as u64) * 2).saturating_add(ROOM);
    twice.min(limit.saturating_add(1)) as usize
}
