// All that the program does.

ghost use Rattle.std.specs.Prelude.{◌≡◌, ◌≤◌, ◌⊎◌, ◌≢◌, ◌++◌, ℕ, List, None, Some, IfOk, OnErr, IsOkAnd, is_some};
ghost use Rattle.std.specs.Io.KnownBytes.{IsAtEnd};
ghost use Rattle.scitt_io.specs.Causes.{Rose};
ghost use Rattle.write_tool.specs.Command.{command_of as command_said, files_of};
ghost use Rattle.write_tool.specs.Run.{IsDue, Answers};

use crate::answer::too_long;
use crate::command::command_of;
use crate::text::answer_to;
use command_line::{Answer, Status, read_file, unread, words_refused};
use scitt_io::{Folder, ReadStop, Sink, Words};
use std::alloc::{AllocError, Global};

/// Status 5: there was no memory.
const NO_MEMORY: Status = 5;

/// The longest file, in bytes.
const LIMIT: u64 = 16_777_216;

fn answer<F: Folder>(alloc: Global, words: &Words, files: &mut F) -> Result<Answer, AllocError>
    ensures due { IfOk result (IsDue (F.files files.old) words.now (F.faults files.old) (F.faults files.new)) }
    ensures no_memory { OnErr result (F.faults files.new ≡ F.faults files.old) }
    ensures words_refused { command_said words.now ≡ None → IsOkAnd result (λ answer. answer.status ≡ 2) }
    ensures only_words { IfOk result (λ answer. answer.status ≡ 2 → command_said words.now ≡ None) }
    ensures asked { F.asked files.new ≡ F.asked files.old ++ files_of (command_said words.now) }
    ensures later { F.faults files.old ≤ F.faults files.new }
    ensures read_whole { IfOk result (λ answer. answer.status ≡ 0 → IsAtEnd (F.left files.new)) }
    ensures telling { is_some (F.left files.new) ≡ is_some (F.left files.old) }
    ensures kept { F.files files.new ≡ F.files files.old }
    ensures no_other { IfOk result (λ answer. (answer.status ≢ 4) × (answer.status ≢ 5)) }
{
    let Some(command) = command_of(words) else {
        return Ok(words_refused());
    };
    match read_file(alloc, files, command.file, LIMIT) {
        Ok(bytes) => answer_to(alloc, command.task, bytes.as_slice()),
        Err(ReadStop::TooLong) => Ok(too_long()),
        Err(ReadStop::ReadFault) => Ok(unread()),
        Err(ReadStop::OutOfMemory) => Err(AllocError),
    }
}

/// Does what these words say, over the files, and writes the answer.
///
/// | Status | Where | Text |
/// |---|---|---|
/// | 0 | the form was written, or the document shown, and the file read to its end | the strict bytes of the form's document, or the document's form |
/// | 1 | refused by a written rule | one line, `refused` with the table, the key and the reason; to `show`, `refused no document` or `refused no form` |
/// | 2 | the words name no command | `words refused` |
/// | 3 | the folder refused a call | `read fault` |
/// | 4 | the sink refused a write | a part of the text |
/// | 5 | want of memory | none |
/// | 8 | the file is longer than 16,777,216 bytes | `too long 16777216` |
pub fn run_write<F: Folder, K: Sink>(
    alloc: Global,
    words: &Words,
    files: &mut F,
    out: &mut K,
) -> Status
    ensures answers { result ≢ 5 → Answers (F.files files.old) words.now (F.faults files.old) (F.faults files.new)
        (K.taken out.old) (K.taken out.new) (K.refused out.old) (K.refused out.new) result }
    ensures no_memory { result ≡ 5 → K.taken out.new ≡ K.taken out.old }
    ensures words_refused { command_said words.now ≡ None → (result ≡ 2) ⊎ (result ≡ 4) }
    ensures only_words { result ≡ 2 → command_said words.now ≡ None }
    ensures asked { F.asked files.new ≡ F.asked files.old ++ files_of (command_said words.now) }
    ensures read_fault { result ≡ 3 → Rose (F.faults files.old) (F.faults files.new) }
    ensures no_read_fault { result ≢ 3 → result ≢ 4 → F.faults files.new ≡ F.faults files.old }
    ensures write_fault { result ≡ 4 → Rose (K.refused out.old) (K.refused out.new) }
    ensures no_write_fault { result ≢ 4 → K.refused out.new ≡ K.refused out.old }
    ensures files_later { F.faults files.old ≤ F.faults files.new }
    ensures out_later { K.refused out.old ≤ K.refused out.new }
    ensures read_whole { result ≡ 0 → IsAtEnd (F.left files.new) }
    ensures telling { is_some (K.taken out.new) ≡ is_some (K.taken out.old) }
    ensures files_telling { is_some (F.left files.new) ≡ is_some (F.left files.old) }
    ensures files_kept { F.files files.new ≡ F.files files.old }
{
    match answer(alloc, words, files) {
        Ok(answer) => answer.say(out),
        Err(_) => NO_MEMORY,
    }
}
