// Bytes from the front of a source.
ghost use Rattle.std.specs.Prelude.{◌≡◌, ◌≤◌, ◌<◌, length, IfOk, Err, is_some};
ghost use Rattle.std.specs.Io.KnownBytes.{Consumes, IsAtEnd};
ghost use Rattle.scitt_tool.specs.Stopping.{CountsRandom};

use crate::stops::ToolStop;
use cbor_core::zeros;
use scitt_io::{Source, read_behind};
use std::alloc::Global;

/// The next bytes of the source, so many, or fewer only where it ended. No more are taken.
pub(crate) fn read_front<S: Source>(
    alloc: Global,
    source: &mut S,
    len: usize,
) -> Result<Vec<u8>, ToolStop>
    ensures within { IfOk result (λ bytes. length bytes.items ≤ len) }
    ensures takes { IfOk result (λ bytes. Consumes (S.left source.old) (S.left source.new) bytes.items) }
    ensures short { IfOk result (λ bytes. length bytes.items < len → IsAtEnd (S.left source.new)) }
    ensures no_disk { result ≡ Err ToolStop.DiskFault → ⊥ }
    ensures telling { is_some (S.left source.new) ≡ is_some (S.left source.old) }
    ensures counts { CountsRandom (S.faults source.old) (S.faults source.new) result }
    ensures later { S.faults source.old ≤ S.faults source.new }
{
    let mut bytes = zeros(alloc, len)?;
    let mut done = 0;
    while done < len {
        let count = read_behind(source, &mut bytes, done)?;
        if count == 0 {
            bytes.truncate(done);
            return Ok(bytes);
        }
        done += count;
    }
    Ok(bytes)
}
