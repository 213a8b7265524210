// The file that a command reads.

ghost use Rattle.std.specs.Prelude.{◌≡◌, ◌≤◌, ℕ, List, [], ◌∷◌, ◌++◌, Option, OnOk, IsErrOf, is_some};
ghost use Rattle.std.specs.Io.KnownBytes.{IsAtEnd};
ghost use Rattle.scitt_io.specs.Causes.{Rose};
ghost use Rattle.command_line.specs.Reads.{TellsFile, ReadOf};

use scitt_io::{Folder, ReadStop, read_to_end};
use std::alloc::Global;

/// The whole of the named file, of at most so many bytes.
///
/// `TooLong` comes where it has more; `ReadFault` where there is no such file or a read was refused, and only where the folder's count
/// rose; `OutOfMemory` is the want of memory.
pub fn read_file<F: Folder>(
    alloc: Global,
    files: &mut F,
    name: &str,
    limit: u64,
) -> Result<Vec<u8>, ReadStop>
    ensures reads { (content : Option (List ℕ)) × TellsFile (F.files files.old) name.now content × ReadOf limit content result }
    ensures end { OnOk result (IsAtEnd (F.left files.new)) }
    ensures fault { IsErrOf result ReadStop.ReadFault → Rose (F.faults files.old) (F.faults files.new) }
    ensures no_fault { (IsErrOf result ReadStop.ReadFault → ⊥) → F.faults files.new ≡ F.faults files.old }
    ensures later { F.faults files.old ≤ F.faults files.new }
    ensures kept { F.files files.new ≡ F.files files.old }
    ensures telling { is_some (F.left files.new) ≡ is_some (F.left files.old) }
    ensures asked { F.asked files.new ≡ F.asked files.old ++ name.now ∷ [] }
{
    files.choose(name)?;
    read_to_end(alloc, files, limit)
}
