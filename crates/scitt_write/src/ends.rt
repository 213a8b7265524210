// What the program ends with.
ghost use Rattle.std.specs.Prelude.{◌≡◌, ◌≢◌, ◌++◌, IfOk, IfErr};
ghost use Rattle.write_tool.specs.Command.{command_of, files_of};
ghost use Rattle.write_tool.specs.Run.{Answers};

use command_line::Status;
use scitt_io::{Folder, Sink, Words};
use std::alloc::Global;
use write_tool::run_write;

/// What the call answers to these words, or the status that stands in their place; nothing is asked of the files then, and nothing is
/// written.
pub fn status_of<F: Folder, K: Sink>(
    alloc: Global,
    words: Result<Words, Status>,
    files: &mut F,
    out: &mut K,
) -> Status
    ensures no_words { IfErr words (λ status. (result ≡ status) × (files.new ≡ files.old) × (out.new ≡ out.old)) }
    ensures answers { IfOk words (λ given. result ≢ 5 → Answers (F.files files.old) given (F.faults files.old) (F.faults files.new)
        (K.taken out.old) (K.taken out.new) (K.refused out.old) (K.refused out.new) result) }
    ensures no_memory { IfOk words (λ _. result ≡ 5 → K.taken out.new ≡ K.taken out.old) }
    ensures asked { IfOk words (λ given. F.asked files.new ≡ F.asked files.old ++ files_of (command_of given)) }
{
    match words {
        Ok(words) => run_write(alloc, &words, files, out),
        Err(status) => status,
    }
}
