// Bytes from a source, of which only so many may be taken.
ghost use Rattle.std.specs.Prelude.{◌≡◌, ℕ, ◌<◌, ◌≤◌, List, length, vec_len, IfOk, IsErrOf, is_some};
ghost use Rattle.auditor.specs.Streams.{HasReadCause};
ghost use Rattle.auditor.specs.Fetches.{Took, IsFront, IsRest};

use scitt_io::{ReadStop, Source, make_room, read_behind};
use std::alloc::Global;

/// Takes as many bytes as are wanted, or fewer at the end; `room` of them may be taken, and one past those where there are more.
pub(crate) fn fetch<S: Source>(
    alloc: Global,
    source: &mut S,
    want: u64,
    room: u64,
) -> Result<Vec<u8>, ReadStop>
    requires { 0 < want }
    ensures took { Took room (IsFront want) (S.left source.old) (S.left source.new) result }
    ensures few { IfOk result (λ bytes. length bytes.items ≤ room) }
    ensures telling { is_some (S.left source.new) ≡ is_some (S.left source.old) }
    ensures cause { HasReadCause (S.faults source.old) (S.faults source.new) (IsErrOf result ReadStop.ReadFault) }
    ensures keeps { S.read_keeps source.old source.new }
{
    let most = room.min(want - 1);
    let mut bytes = Vec::new(alloc);
    let mut done = 0;
    loop {
        make_room(&mut bytes, done, most)?;
        let count = read_behind(source, &mut bytes, done)?;
        if count == 0 {
            bytes.truncate(done);
            return Ok(bytes);
        }
        done += count;
        if done as u64 > room {
            return Err(ReadStop::TooLong);
        }
        if done as u64 > most {
            return Ok(bytes);
        }
    }
}

/// How many bytes one read asks for of those that are only counted.
const PIECE: usize = 4096;

/// Takes all bytes that are left, and counts them; `room` of them may be taken, and one past those where there are more.
pub(crate) fn count_rest<S: Source>(source: &mut S, room: u64) -> Result<u64, ReadStop>
    ensures took { Took room IsRest (S.left source.old) (S.left source.new) result }
    ensures telling { is_some (S.left source.new) ≡ is_some (S.left source.old) }
    ensures cause { HasReadCause (S.faults source.old) (S.faults source.new) (IsErrOf result ReadStop.ReadFault) }
    ensures keeps { S.read_keeps source.old source.new }
{
    let mut piece = [0; PIECE];
    let mut done = 0;
    loop {
        let more = room - done;
        let wanted = more.min(PIECE as u64 - 1) as usize + 1;
        let count = source.read(&mut piece[..wanted])?;
        if count == 0 {
            return Ok(done);
        }
        if count as u64 > more {
            return Err(ReadStop::TooLong);
        }
        done += count as u64;
    }
}
