ghost use Rattle.std.specs.Prelude.{◌≡◌, ◌≢◌, ◌≤◌, ◌⊎◌, ◌+◌, ℕ, List, [], ◌∷◌, ◌++◌, length, take, map, Option, IfOk, IfErr, IsErrOf, OnOk, is_some};
ghost use Rattle.std.specs.Io.KnownBytes.{IsAtEnd};
ghost use Rattle.scitt_io.specs.Causes.{Rose};
ghost use Rattle.scitt_tool.specs.Command.{files_of, limit_of};
ghost use Rattle.scitt_tool.specs.Meaning.{meaning, all_read};
ghost use Rattle.scitt_tool.specs.Reads.{TellsFiles, ReadAll, StopsAt};
ghost use Rattle.scitt_tool.specs.Asking.{AsksFront};

use crate::command::Command;
use command_line::read_file;
use scitt_io::{Folder, ReadStop};
use std::alloc::Global;

/// The whole of each of the command's files, in the order of the words. The first that can't be read, or that is longer than the
/// limit, ends it, and those behind it aren't asked for.
pub(crate) fn read_files<F: Folder>(
    alloc: Global,
    files: &mut F,
    command: &Command<'_>,
) -> Result<Vec<Vec<u8>>, ReadStop>
    ensures reads { IfOk result (λ read. (contents : List (Option (List ℕ)))
        × TellsFiles (F.files files.old) (files_of (meaning command.now)) contents × ReadAll (limit_of (meaning command.now)) contents (all_read read.items)) }
    ensures stops { IsErrOf result ReadStop.TooLong → (contents : List (Option (List ℕ)))
        × TellsFiles (F.files files.old) (files_of (meaning command.now)) contents × StopsAt (limit_of (meaning command.now)) contents }
    ensures none { IfOk result (λ read. files_of (meaning command.now) ≡ [] → read.items ≡ []) }
    ensures some { IsErrOf result ReadStop.TooLong → files_of (meaning command.now) ≢ [] }
    ensures end { OnOk result ((files_of (meaning command.now) ≡ []) ⊎ IsAtEnd (F.left files.new)) }
    ensures fault { IsErrOf result ReadStop.ReadFault → Rose (F.faults files.old) (F.faults files.new) }
    ensures no_fault { (IsErrOf result ReadStop.ReadFault → ⊥) → F.faults files.new ≡ F.faults files.old }
    ensures later { F.faults files.old ≤ F.faults files.new }
    ensures kept { F.files files.new ≡ F.files files.old }
    ensures telling { is_some (F.left files.new) ≡ is_some (F.left files.old) }
    ensures asked { OnOk result (F.asked files.new ≡ F.asked files.old ++ files_of (meaning command.now)) }
    ensures asked_front { AsksFront (files_of (meaning command.now)) (F.asked files.old) (F.asked files.new) }
{
    let mut read = Vec::new(alloc);
    while let Some(name) = command.file(read.len()) {
        let bytes = read_file(alloc, files, name, command.limit())?;
        let Ok(()) = read.push(bytes) else {
            return Err(ReadStop::OutOfMemory);
        };
    }
    Ok(read)
}
