// What the program ends with.
ghost use Rattle.std.specs.Prelude.{◌≡◌, ◌≢◌, IfOk, IfErr, IsTrue};
ghost use Rattle.scitt_tool.specs.Asking.{AsksFront};
ghost use Rattle.scitt_tool.specs.Command.{command_of, files_read};
ghost use Rattle.scitt_tool.specs.Run.{Answers};

use command_line::Status;
use scitt_disk::Disk;
use scitt_io::{Folder, OutOfMemory, Sink, Source, Words};
use scitt_tool::run_tool;
use std::alloc::Global;

/// There is no memory for the name of the key file.
const NO_MEMORY: Status = 5;

/// What the tool answers to these words, or the status that stands in their place; nothing is asked of the
/// files and of the random source then, and nothing is written. Where there was no memory for the key file's name, it is 5.
pub fn status_of<F: Folder, D: Disk + Drop, S: Source, K: Sink>(
    alloc: Global,
    words: Result<Words, Status>,
    files: &mut F,
    key: Result<D, OutOfMemory>,
    random: &mut S,
    out: &mut K,
) -> Status
    ensures no_words { IfErr words (λ status. (result ≡ status) × (files.new ≡ files.old) × (random.new ≡ random.old) × (out.new ≡ out.old)) }
    ensures no_name { IfOk words (λ _. IfErr key (λ _. (result ≡ 5) × (files.new ≡ files.old) × (random.new ≡ random.old) × (out.new ≡ out.old))) }
    ensures answers { IfOk words (λ given. IfOk key (λ disk. result ≢ 5 → (after : D) × Answers (IsTrue D.tells)
        (record { files = F.files files.old; random = S.left random.old; old = D.held disk; new = D.held after }) given
        (record { files = F.faults files.old; random = S.faults random.old; key = D.fault_count disk })
        (record { files = F.faults files.new; random = S.faults random.new; key = D.fault_count after })
        (F.asked files.old) (F.asked files.new) (K.taken out.old) (K.taken out.new) (K.refused out.old) (K.refused out.new) result)) }
    ensures no_memory { IfOk words (λ _. result ≡ 5 → K.taken out.new ≡ K.taken out.old) }
    ensures asked { IfOk words (λ given. AsksFront (files_read (command_of given)) (F.asked files.old) (F.asked files.new)) }
{
    match words {
        Ok(words) => match key {
            Ok(mut key) => run_tool(alloc, &words, files, &mut key, random, out),
            Err(_) => NO_MEMORY,
        },
        Err(status) => status,
    }
}
