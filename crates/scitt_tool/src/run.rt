ghost use Rattle.std.specs.Prelude.{◌≡◌, ◌≤◌, ◌⊎◌, ◌≢◌, ◌++◌, ◌&&◌, ℕ, List, [], is_some, is_none, true, false, Some, None, IfOk, IfErr, IsOkAnd, OnErr, OnOk, IsTrue, IfSome};
ghost use Rattle.std.specs.Io.KnownBytes.{IsAtEnd};
ghost use Rattle.scitt_io.specs.Causes.{Rose};
ghost use Rattle.scitt_tool.specs.Asking.{AsksFront};
ghost use Rattle.scitt_tool.specs.Command as said;
ghost use Rattle.scitt_tool.specs.Command.{command_of, files_of, files_read, uses_key, uses_random};
ghost use Rattle.scitt_tool.specs.Meaning.{meaning, all_read};
ghost use Rattle.scitt_tool.specs.ToolText.{first as first_read, second as second_read, Judged};
ghost use Rattle.scitt_tool.specs.Run.{Answers, Completes, IsDue, JudgedOver};
ghost use Rattle.scitt_tool.specs.Stopping.{Stopped, CountsRandom, CountsKey};

use crate::answer::{disk_fault, too_long};
use crate::attach::attach;
use crate::audit::audit;
use crate::command::{Command, command_of};
use crate::consistent::consistent;
use crate::file::read_files;
use crate::generate::generate;
use crate::keygen::keygen;
use crate::policy::policy;
use crate::replay::replay;
use crate::root::root;
use crate::show::show;
use crate::sign::sign;
use crate::stops::ToolStop;
use crate::verify::verify;
use command_line::{Answer, Status, unread, words_refused};
use scitt_disk::Disk;
use scitt_io::{Folder, ReadStop, Sink, Source, Words};
use std::alloc::{AllocError, Global};

/// Status 5: there was no memory.
const NO_MEMORY: Status = 5;

/// Does what these words say, over the files, the key file's disk and the random source, and writes the answer.
///
/// | Status | Where | Text |
/// |---|---|---|
/// | 0 | done, and the input read to its end | the command's lines, or the bytes of a statement or of a session |
/// | 1 | refused by a written rule | the command's line, or the bytes of a session that was ended |
/// | 2 | the words name no command | `words refused` |
/// | 3 | the folder or the random source refused a call | `read fault` |
/// | 4 | the sink refused a write | a part of the text |
/// | 5 | want of memory | none |
/// | 6 | the key file's disk failed | `disk fault` |
/// | 7 | no index of the key is left | `exhausted N N`, the next index and how many there are |
/// | 8 | a chosen file is longer than 16,777,216 bytes, that of `audit` than 3,221,225,472 | `too long N`, this limit |
pub fn run_tool<F: Folder, D: Disk, S: Source, K: Sink>(
    alloc: Global,
    words: &Words,
    files: &mut F,
    key: &mut D,
    random: &mut S,
    out: &mut K,
) -> Status
    ensures answers { result ≢ 5 → Answers (IsTrue D.tells)
        (record { files = F.files files.old; random = S.left random.old; old = D.held key.old; new = D.held key.new }) words.now
        (record { files = F.faults files.old; random = S.faults random.old; key = D.fault_count key.old })
        (record { files = F.faults files.new; random = S.faults random.new; key = D.fault_count key.new })
        (F.asked files.old) (F.asked files.new) (K.taken out.old) (K.taken out.new) (K.refused out.old) (K.refused out.new) result }
    ensures no_memory { result ≡ 5 → K.taken out.new ≡ K.taken out.old }
    ensures words_refused { command_of words.now ≡ None → (result ≡ 2) ⊎ (result ≡ 4) }
    ensures only_words { result ≡ 2 → command_of words.now ≡ None }
    ensures asked { result ≢ 3 → result ≢ 4 → result ≢ 5 → result ≢ 8
        → F.asked files.new ≡ F.asked files.old ++ files_read (command_of words.now) }
    ensures asked_front { AsksFront (files_read (command_of words.now)) (F.asked files.old) (F.asked files.new) }
    ensures read_fault { result ≡ 3 → Rose (F.faults files.old) (F.faults files.new) ⊎ Rose (S.faults random.old) (S.faults random.new) }
    ensures no_read_fault { result ≢ 3 → result ≢ 4 → (F.faults files.new ≡ F.faults files.old) × (S.faults random.new ≡ S.faults random.old) }
    ensures disk_fault { result ≡ 6 → Rose (D.fault_count key.old) (D.fault_count key.new) }
    ensures no_disk_fault { result ≢ 6 → result ≢ 4 → D.fault_count key.new ≡ D.fault_count key.old }
    ensures files_later { F.faults files.old ≤ F.faults files.new }
    ensures random_later { S.faults random.old ≤ S.faults random.new }
    ensures key_later { D.fault_count key.old ≤ D.fault_count key.new }
    ensures write_fault { result ≡ 4 → Rose (K.refused out.old) (K.refused out.new) }
    ensures no_write_fault { result ≢ 4 → K.refused out.new ≡ K.refused out.old }
    ensures out_later { K.refused out.old ≤ K.refused out.new }
    ensures read_whole { result ≡ 0 → (files_read (command_of words.now) ≡ []) ⊎ IsAtEnd (F.left files.new) }
    ensures complete { Completes (IsTrue D.tells)
        (record { files = F.files files.old; random = S.left random.old; old = D.held key.old; new = D.held key.new }) words.now
        (record { files = F.faults files.old; random = S.faults random.old; key = D.fault_count key.old })
        (record { files = F.faults files.new; random = S.faults random.new; key = D.fault_count key.new })
        (K.taken out.old) (K.taken out.new) (K.refused out.old) (K.refused out.new) result }
    ensures no_key { uses_key (command_of words.now) ≡ false → key.new ≡ key.old }
    ensures no_random { uses_random (command_of words.now) ≡ false → random.new ≡ random.old }
    ensures strays { IsTrue D.tells → D.strays key.new ≡ D.strays key.old }
    ensures telling { is_some (K.taken out.new) ≡ is_some (K.taken out.old) }
    ensures files_telling { is_some (F.left files.new) ≡ is_some (F.left files.old) }
    ensures random_telling { is_some (S.left random.new) ≡ is_some (S.left random.old) }
    ensures files_kept { F.files files.new ≡ F.files files.old }
{
    match answer(alloc, words, files, key, random) {
        Ok(answer) => answer.say(out),
        Err(_) => NO_MEMORY,
    }
}

/// What these words call for over the outside.
fn answer<F: Folder, D: Disk, S: Source>(
    alloc: Global,
    words: &Words,
    files: &mut F,
    key: &mut D,
    random: &mut S,
) -> Result<Answer, AllocError>
    ensures due { IfOk result (IsDue (IsTrue D.tells)
        (record { files = F.files files.old; random = S.left random.old; old = D.held key.old; new = D.held key.new }) words.now
        (record { files = F.faults files.old; random = S.faults random.old; key = D.fault_count key.old })
        (record { files = F.faults files.new; random = S.faults random.new; key = D.fault_count key.new })) }
    ensures no_memory { OnErr result ((F.faults files.new ≡ F.faults files.old) × (S.faults random.new ≡ S.faults random.old)
        × (D.fault_count key.new ≡ D.fault_count key.old)) }
    ensures words_refused { command_of words.now ≡ None → IsOkAnd result (λ answer. answer.status ≡ 2) }
    ensures only_words { IfOk result (λ answer. answer.status ≡ 2 → command_of words.now ≡ None) }
    ensures asked { IfOk result (λ answer. answer.status ≢ 3 → answer.status ≢ 8
        → F.asked files.new ≡ F.asked files.old ++ files_read (command_of words.now)) }
    ensures asked_front { AsksFront (files_read (command_of words.now)) (F.asked files.old) (F.asked files.new) }
    ensures files_later { F.faults files.old ≤ F.faults files.new }
    ensures random_later { S.faults random.old ≤ S.faults random.new }
    ensures key_later { D.fault_count key.old ≤ D.fault_count key.new }
    ensures read_whole { IfOk result (λ answer. answer.status ≡ 0 → (files_read (command_of words.now) ≡ []) ⊎ IsAtEnd (F.left files.new)) }
    ensures no_key { uses_key (command_of words.now) ≡ false → key.new ≡ key.old }
    ensures no_random { uses_random (command_of words.now) ≡ false → random.new ≡ random.old }
    ensures strays { IsTrue D.tells → D.strays key.new ≡ D.strays key.old }
    ensures files_telling { is_some (F.left files.new) ≡ is_some (F.left files.old) }
    ensures random_telling { is_some (S.left random.new) ≡ is_some (S.left random.old) }
    ensures files_kept { F.files files.new ≡ F.files files.old }
    ensures no_other { IfOk result (λ answer. (answer.status ≢ 4) × (answer.status ≢ 5)) }
{
    let Some(command) = command_of(words) else {
        return Ok(words_refused());
    };
    if let Command::Audit { file } = &command {
        return audit(alloc, files, file);
    }
    match read_files(alloc, files, &command) {
        Ok(read) => stopped(judge(alloc, &command, &read, key, random)),
        Err(ReadStop::TooLong) => Ok(too_long(&command)),
        Err(ReadStop::ReadFault) => Ok(unread()),
        Err(ReadStop::OutOfMemory) => Err(AllocError),
    }
}

/// The answer, or the one that a fault of the outside calls for.
fn stopped(judged: Result<Answer, ToolStop>) -> Result<Answer, AllocError>
    ensures { Stopped judged result }
{
    match judged {
        Ok(answer) => Ok(answer),
        Err(ToolStop::ReadFault) => Ok(unread()),
        Err(ToolStop::DiskFault) => Ok(disk_fault()),
        Err(ToolStop::OutOfMemory) => Err(AllocError),
    }
}

fn first(read: &[Vec<u8>]) -> &[u8]
    ensures { result.now ≡ first_read (all_read read.now) }
{
    match read {
        [bytes, ..] => bytes.as_slice(),
        [] => &[],
    }
}

fn second(read: &[Vec<u8>]) -> &[u8]
    ensures { result.now ≡ second_read (all_read read.now) }
{
    match read {
        [_, bytes, ..] => bytes.as_slice(),
        _ => &[],
    }
}

/// What a command other than `audit` comes to by the bytes of its files, the key file and random bytes.
fn judge<D: Disk, S: Source>(
    alloc: Global,
    command: &Command<'_>,
    read: &[Vec<u8>],
    key: &mut D,
    random: &mut S,
) -> Result<Answer, ToolStop>
    requires { (file : List ℕ) → meaning command.now ≢ said.Audit file }
    ensures judged { IfOk result (JudgedOver (IsTrue D.tells) (D.held key.old) (D.held key.new) (S.left random.old) (meaning command.now) (all_read read.now)) }
    ensures status { IfOk result (λ answer. (answer.status ≤ 1) ⊎ (answer.status ≡ 7)) }
    ensures random_counts { CountsRandom (S.faults random.old) (S.faults random.new) result }
    ensures key_counts { CountsKey (D.fault_count key.old) (D.fault_count key.new) result }
    ensures random_later { S.faults random.old ≤ S.faults random.new }
    ensures key_later { D.fault_count key.old ≤ D.fault_count key.new }
    ensures no_key { uses_key (Some (meaning command.now)) ≡ false → key.new ≡ key.old }
    ensures no_random { uses_random (Some (meaning command.now)) ≡ false → random.new ≡ random.old }
    ensures strays { IsTrue D.tells → D.strays key.new ≡ D.strays key.old }
    ensures telling { is_some (S.left random.new) ≡ is_some (S.left random.old) }
{
    match command {
        Command::Root { .. } => Ok(root(alloc, first(read))?),
        Command::Show { .. } => Ok(show(alloc, first(read))?),
        Command::Policy { .. } => Ok(policy(alloc, first(read))?),
        Command::Audit { .. } => unreachable!(),
        Command::Replay { .. } => Ok(replay(alloc, first(read))?),
        Command::Generate { count } => Ok(generate(alloc, count)?),
        Command::Attach { .. } => Ok(attach(alloc, first(read), second(read))?),
        Command::Verify { .. } => Ok(verify(alloc, first(read), second(read))?),
        Command::Consistent { size, root, .. } => {
            Ok(consistent(alloc, first(read), second(read), *size, root)?)
        }
        Command::Sign { claims, .. } => sign(alloc, claims, first(read), key),
        Command::Keygen { levels } => keygen(alloc, levels, key, random),
    }
}
