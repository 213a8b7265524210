ghost use Rattle.std.specs.Prelude.{◌≡◌, ℕ, ◌+◌, ◌-◌, ◌<◌, ◌≤◌, ◌⊎◌, min, List, length, take, drop, IfOk, IfErr, OnOk, OnErr, IsErrOf, is_some, true, false};
ghost use Rattle.std.specs.Io.KnownBytes.{Consumes, IsAtEnd};
ghost use Rattle.scitt_io.specs.Causes.{Rose};
ghost use Rattle.http_wire.specs.Taking.{Gathers, HasReadCause, FillsShort};
ghost use Rattle.http_wire.specs.declared.request.Stop.TheVariants as stop;

use crate::request::Stop;
use scitt_io::{ReadFault, Source, make_room, read_behind};
use std::alloc::AllocError;

impl From<ReadFault> for Stop {
    ghost from_gives = { λ _ why. why ≡ stop.ReadFault };

    fn from(_fault: ReadFault) -> Stop {
        Stop::ReadFault
    }
}

impl From<AllocError> for Stop {
    ghost from_gives = { λ _ why. why ≡ stop.OutOfMemory };

    fn from(_error: AllocError) -> Stop {
        Stop::OutOfMemory
    }
}

/// How many bytes one read of a head asks for at most.
const PIECE: usize = 1024;

/// Takes the first bytes away.
pub fn drop_front(bytes: &mut Vec<u8>, count: usize)
    requires { count ≤ length bytes.old.items }
    ensures { bytes.new.items ≡ drop count bytes.old.items }
{
    let rest = bytes.len() - count;
    bytes.rotate_left(count);
    bytes.truncate(rest);
}

/// Reads some of the next bytes behind these, at most `room` of them, and says whether there were any.
pub fn read_more<L: Source>(bytes: &mut Vec<u8>, link: &mut L, room: usize) -> Result<bool, Stop>
    requires some { 0 < room }
    requires few { length bytes.old.items + room ≤ 8192 }
    ensures gathers { OnOk result (Gathers bytes.old.items bytes.new.items (L.left link.old) (L.left link.new)) }
    ensures more { IfOk result (λ more. more ≡ true → length bytes.old.items < length bytes.new.items) }
    ensures bound { OnOk result (length bytes.new.items ≤ length bytes.old.items + room) }
    ensures end { IfOk result (λ more. more ≡ false → (bytes.new.items ≡ bytes.old.items) × IsAtEnd (L.left link.new)) }
    ensures why { IfErr result (λ why. (why ≡ stop.ReadFault) ⊎ (why ≡ stop.OutOfMemory)) }
    ensures kept { OnErr result (bytes.new.items ≡ bytes.old.items) }
    ensures lost { OnErr result ((got : List ℕ) × Consumes (L.left link.old) (L.left link.new) got) }
    ensures telling { is_some (L.left link.new) ≡ is_some (L.left link.old) }
    ensures cause { HasReadCause (L.faults link.old) (L.faults link.new) (IsErrOf result Stop.ReadFault) }
    ensures keeps { L.read_keeps link.old link.new }
{
    let start = bytes.len();
    bytes.resize(start + room.min(PIECE), 0)?;
    match read_behind(link, bytes, start) {
        Ok(count) => {
            bytes.truncate(start + count);
            Ok(count > 0)
        }
        Err(_) => {
            bytes.truncate(start);
            Err(Stop::ReadFault)
        }
    }
}

/// Reads until there are `size` bytes.
pub fn fill<L: Source>(bytes: &mut Vec<u8>, link: &mut L, size: usize) -> Result<(), Stop>
    requires { length bytes.old.items ≤ size }
    ensures gathers { OnOk result (Gathers bytes.old.items bytes.new.items (L.left link.old) (L.left link.new)) }
    ensures whole { OnOk result (length bytes.new.items ≡ size) }
    ensures cut { IsErrOf result Stop.CutShort → FillsShort bytes.old.items size (L.left link.old) (L.left link.new) }
    ensures why { IfErr result (λ why. (why ≡ stop.CutShort) ⊎ (why ≡ stop.ReadFault) ⊎ (why ≡ stop.OutOfMemory)) }
    ensures lost { OnErr result ((got : List ℕ) × Consumes (L.left link.old) (L.left link.new) got) }
    ensures telling { is_some (L.left link.new) ≡ is_some (L.left link.old) }
    ensures cause { HasReadCause (L.faults link.old) (L.faults link.new) (IsErrOf result Stop.ReadFault) }
    ensures keeps { L.read_keeps link.old link.new }
{
    let mut done = bytes.len();
    while done < size {
        make_room(bytes, done, size as u64 - 1)?;
        let count = read_behind(link, bytes, done)?;
        if count == 0 {
            return Err(Stop::CutShort);
        }
        done += count;
    }
    Ok(())
}
