ghost use Rattle.std.specs.Prelude.{◌≡◌, ◌≤◌, ◌⊎◌, ◌++◌, ℕ, List, [], length, take, drop, IsTrue, IfOk, IfErr, OnOk, is_some, IfSome, Ok, Err, None};
ghost use Rattle.std.specs.String.{string_bytes};
ghost use Rattle.hss_keys.specs.Signing.{hss_public};
ghost use Rattle.key_store.specs.Stops.{ExplainsMake};
ghost use Rattle.scitt_tool.specs.Answer.{done};
ghost use Rattle.scitt_tool.specs.Keygen.{KeygenOf, MakesOrExists, NotMade, public_of, key_lines, head_from};
ghost use Rattle.scitt_tool.specs.Outcome.{LeavesRecords, IsOver};
ghost use Rattle.scitt_tool.specs.Run.{JudgedOver};
ghost use Rattle.scitt_tool.specs.Command as said;
ghost use Rattle.scitt_tool.specs.Stopping.{CountsRandom, CountsKey};

use crate::ended::Ended;
use crate::lines::push_line;
use crate::random::read_front;
use crate::stops::ToolStop;
use command_line::Answer;
use hss_keys::{Key60, Levels};
use key_store::{KeyFile, KeyStop};
use lms_ots::Hash;
use scitt_disk::Disk;
use scitt_draft::kid_of;
use scitt_io::Source;
use scitt_journal::Refused;
use std::alloc::{AllocError, Global};

/// What `keygen` answers of random bytes and the key file's disk.
pub(crate) fn keygen<D: Disk, S: Source>(
    alloc: Global,
    levels: &Levels,
    key: &mut D,
    random: &mut S,
) -> Result<Answer, ToolStop>
    ensures judged { IfOk result (λ answer. JudgedOver (IsTrue D.tells) (D.held key.old) (D.held key.new) (S.left random.old) (said.Keygen levels.now) [] answer) }
    ensures status { IfOk result (λ answer. answer.status ≤ 1) }
    ensures random_counts { CountsRandom (S.faults random.old) (S.faults random.new) result }
    ensures key_counts { CountsKey (D.fault_count key.old) (D.fault_count key.new) result }
    ensures random_later { S.faults random.old ≤ S.faults random.new }
    ensures key_later { D.fault_count key.old ≤ D.fault_count key.new }
    ensures strays { IsTrue D.tells → D.strays key.new ≡ D.strays key.old }
    ensures telling { is_some (S.left random.new) ≡ is_some (S.left random.old) }
{
    let bytes = read_front(alloc, random, 48)?;
    if bytes.len() < 48 {
        return Ok(Answer::fixed(1, "refused random ended\n"));
    }
    make(alloc, levels, &bytes, key)
}

// Makes the key of 48 random bytes.
fn make<D: Disk>(
    alloc: Global,
    levels: &Levels,
    random: &[u8],
    key: &mut D,
) -> Result<Answer, ToolStop>
    requires { length random.now ≡ 48 }
    ensures over { IfOk result (IsOver (IsTrue D.tells) (MakesOrExists (IsTrue D.tells) levels.now (D.held key.old).seen random.now) (D.held key.old) (D.held key.new)) }
    ensures status { IfOk result (λ answer. answer.status ≤ 1) }
    ensures counts { CountsKey (D.fault_count key.old) (D.fault_count key.new) result }
    ensures no_read { result ≡ Err ToolStop.ReadFault → ⊥ }
    ensures later { D.fault_count key.old ≤ D.fault_count key.new }
    ensures strays { IsTrue D.tells → D.strays key.new ≡ D.strays key.old }
{
    let (disk, result) = make_on(alloc, levels, random, key).parts();
    let _disk = disk;
    result
}

fn seed_of(random: &[u8]) -> Hash
    requires { length random.now ≡ 48 }
    ensures { result ≡ take 32 random.now }
{
    let mut seed = [0; 32];
    seed.copy_from_slice(&random[..32]);
    seed
}

fn id_of(random: &[u8]) -> [u8; 16]
    requires { length random.now ≡ 48 }
    ensures { result ≡ take 16 (drop 32 random.now) }
{
    let mut id = [0; 16];
    id.copy_from_slice(&random[32..48]);
    id
}

fn copy_levels(levels: &Levels) -> Levels
    ensures { result ≡ levels.now }
{
    Levels::of(levels.as_slice()).unwrap()
}

fn make_on<D: Disk>(
    alloc: Global,
    levels: &Levels,
    random: &[u8],
    disk: D,
) -> Ended<D, Result<Answer, ToolStop>>
    requires { length random.now ≡ 48 }
    ensures over { IfOk result.result (IsOver (IsTrue D.tells) (MakesOrExists (IsTrue D.tells) levels.now (D.held disk).seen random.now) (D.held disk) (D.held result.disk)) }
    ensures status { IfOk result.result (λ answer. answer.status ≤ 1) }
    ensures counts { CountsKey (D.fault_count disk) (D.fault_count result.disk) result.result }
    ensures no_read { result.result ≡ Err ToolStop.ReadFault → ⊥ }
    ensures later { D.fault_count disk ≤ D.fault_count result.disk }
    ensures strays { IsTrue D.tells → D.strays result.disk ≡ D.strays disk }
    ensures same { D.same disk result.disk }
{
    match KeyFile::create(
        alloc,
        disk,
        seed_of(random),
        id_of(random),
        copy_levels(levels),
        1,
    ) {
        Ok(file) => made(alloc, file),
        Err(refused) => {
            let Refused { disk, why } = refused;
            Ended {
                disk,
                result: not_made(why),
            }
        }
    }
}

// The answer of a key file that was made.
fn made<D: Disk>(alloc: Global, file: KeyFile<D>) -> Ended<D, Result<Answer, ToolStop>>
    requires settled { file.standing.pending ≡ None }
    ensures lines { IfOk result.result (λ answer. answer ≡ done (key_lines (public_of file.head))) }
    ensures stops { IfErr result.result (λ stop. stop ≡ ToolStop.OutOfMemory) }
    ensures leaves { IsTrue D.tells → LeavesRecords (D.held result.disk) file.head file.reserved }
    ensures disk { result.disk ≡ file.disk }
{
    leaves(&file);
    let result = told(alloc, &file);
    Ended {
        disk: file.close(),
        result,
    }
}

/// A key file without a pending record leaves its records, whenever a crash comes.
pub(crate) fn leaves<D: Disk>(file: &KeyFile<D>)
    requires settled { file.now.standing.pending ≡ None }
    ensures { IsTrue D.tells → LeavesRecords (D.held file.now.disk) file.now.head file.now.reserved }
{
    file.images();
    file.sound();
}

fn not_made(why: KeyStop) -> Result<Answer, ToolStop>
    ensures { NotMade why result }
{
    match why {
        KeyStop::KeyExists => Ok(Answer::fixed(1, "refused key exists\n")),
        KeyStop::DiskFault => Err(ToolStop::DiskFault),
        _ => Err(ToolStop::OutOfMemory),
    }
}

fn told<D: Disk>(alloc: Global, file: &KeyFile<D>) -> Result<Answer, ToolStop>
    ensures lines { IfOk result (λ answer. answer ≡ done (key_lines (public_of file.now.head))) }
    ensures stops { IfErr result (λ stop. stop ≡ ToolStop.OutOfMemory) }
{
    let signer = file.signer(alloc)?;
    let text = lines(alloc, &signer.public())?;
    Ok(Answer::made(0, text))
}

fn lines(alloc: Global, key: &Key60) -> Result<String, AllocError>
    ensures { IfOk result (λ text. string_bytes text ≡ key_lines key.now) }
{
    let kid = kid_of(key);
    let kid = hex::encode(alloc, kid.as_slice())?;
    let key = hex::encode(alloc, key.as_slice())?;
    let mut text = String::new(alloc);
    push_line(&mut text, "public ", key.as_str())?;
    push_line(&mut text, "kid ", kid.as_str())?;
    Ok(text)
}
