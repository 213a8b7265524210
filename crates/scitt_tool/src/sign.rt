ghost use Rattle.std.specs.Prelude.{◌≡◌, ◌≤◌, ◌⊎◌, ◌<◌, ◌++◌, IsTrue, IfOk, None, Err, codes};
ghost use Rattle.std.specs.Fmt.{decimal};
ghost use Rattle.std.specs.String.{string_bytes};
ghost use Rattle.hss_keys.specs.Levels.{capacity};
ghost use Rattle.hss_keys.specs.Signers.{hss_sig_len};
ghost use Rattle.hss_keys.specs.Signing.{hss_sig};
ghost use Rattle.cose_sign1.specs.OneTbs.{tbs_of};
ghost use Rattle.scitt_tool.specs.Answer.{exhausted as exhausted_answer, line};
ghost use Rattle.scitt_draft.specs.Drafts.{claimed};
ghost use Rattle.scitt_tool.specs.Outcome.{IsOver};
ghost use Rattle.scitt_tool.specs.Sign.{SignOf, SignedBy, NotLoaded, refused_claim as claim_refused};
ghost use Rattle.scitt_tool.specs.Drafts.{IsDraft, IsReady, SaysStatement, SignsNext, TakesNext, signer_of};
ghost use Rattle.scitt_tool.specs.Stopping.{CountsKey};

use crate::draft::{Draft, make_draft};
use crate::ended::Ended;
use crate::lines::push_line;
use crate::stops::ToolStop;
use command_line::Answer;
use hss_keys::Signer;
use key_store::{KeyFile, KeyStop, TakeStop};
use scitt_disk::Disk;
use scitt_draft::Claims;
use scitt_journal::Refused;
use std::alloc::{AllocError, Global};

/// What `sign` answers of its claims, the payload and the key file's disk.
pub(crate) fn sign<D: Disk>(
    alloc: Global,
    claims: &Claims<'_>,
    payload: &[u8],
    key: &mut D,
) -> Result<Answer, ToolStop>
    ensures over { IfOk result (IsOver (IsTrue D.tells) (SignOf (IsTrue D.tells) (claimed claims.now) (D.held key.old).seen payload.now) (D.held key.old) (D.held key.new)) }
    ensures status { IfOk result (λ answer. (answer.status ≤ 1) ⊎ (answer.status ≡ 7)) }
    ensures counts { CountsKey (D.fault_count key.old) (D.fault_count key.new) result }
    ensures no_read { result ≡ Err ToolStop.ReadFault → ⊥ }
    ensures later { D.fault_count key.old ≤ D.fault_count key.new }
    ensures strays { IsTrue D.tells → D.strays key.new ≡ D.strays key.old }
{
    let (disk, result) = sign_on(alloc, claims, payload, key).parts();
    let _disk = disk;
    result
}

fn sign_on<D: Disk>(
    alloc: Global,
    claims: &Claims<'_>,
    payload: &[u8],
    disk: D,
) -> Ended<D, Result<Answer, ToolStop>>
    ensures over { IfOk result.result (IsOver (IsTrue D.tells) (SignOf (IsTrue D.tells) (claimed claims.now) (D.held disk).seen payload.now) (D.held disk) (D.held result.disk)) }
    ensures status { IfOk result.result (λ answer. (answer.status ≤ 1) ⊎ (answer.status ≡ 7)) }
    ensures counts { CountsKey (D.fault_count disk) (D.fault_count result.disk) result.result }
    ensures no_read { result.result ≡ Err ToolStop.ReadFault → ⊥ }
    ensures later { D.fault_count disk ≤ D.fault_count result.disk }
    ensures strays { IsTrue D.tells → D.strays result.disk ≡ D.strays disk }
    ensures same { D.same disk result.disk }
{
    match KeyFile::load(alloc, disk) {
        Ok(file) => {
            file.sound();
            sign_by(alloc, claims, payload, file)
        }
        Err(refused) => {
            let Refused { disk, why } = refused;
            Ended {
                disk,
                result: not_loaded(alloc, why),
            }
        }
    }
}

fn not_loaded(alloc: Global, why: KeyStop) -> Result<Answer, ToolStop>
    ensures { NotLoaded why result }
{
    match why {
        KeyStop::NoKey => Ok(Answer::fixed(1, "refused key none\n")),
        KeyStop::Short(at) => {
            let text = format!(in alloc; "refused key short {at}\n")?;
            Ok(Answer::made(1, text))
        }
        KeyStop::BadKeyFile(number) => {
            let text = format!(in alloc; "refused key bad {number}\n")?;
            Ok(Answer::made(1, text))
        }
        KeyStop::DiskFault => Err(ToolStop::DiskFault),
        _ => Err(ToolStop::OutOfMemory),
    }
}

// What is answered of a key file that was loaded.
fn sign_by<D: Disk>(
    alloc: Global,
    claims: &Claims<'_>,
    payload: &[u8],
    mut file: KeyFile<D>,
) -> Ended<D, Result<Answer, ToolStop>>
    requires settled { file.standing.pending ≡ None }
    requires next { file.standing.next ≡ file.reserved }
    ensures over { IfOk result.result (IsOver (IsTrue D.tells) (SignedBy (claimed claims.now) file.head file.standing.next payload.now) (D.held file.disk) (D.held result.disk)) }
    ensures status { IfOk result.result (λ answer. (answer.status ≤ 1) ⊎ (answer.status ≡ 7)) }
    ensures counts { CountsKey (D.fault_count file.disk) (D.fault_count result.disk) result.result }
    ensures no_read { result.result ≡ Err ToolStop.ReadFault → ⊥ }
    ensures later { D.fault_count file.disk ≤ D.fault_count result.disk }
    ensures strays { IsTrue D.tells → D.strays result.disk ≡ D.strays file.disk }
    ensures same { D.same file.disk result.disk }
{
    let result = sign_with(alloc, claims, payload, &mut file);
    Ended {
        disk: file.close(),
        result,
    }
}

fn sign_with<D: Disk>(
    alloc: Global,
    claims: &Claims<'_>,
    payload: &[u8],
    file: &mut KeyFile<D>,
) -> Result<Answer, ToolStop>
    requires settled { file.old.standing.pending ≡ None }
    requires next { file.old.standing.next ≡ file.old.reserved }
    ensures over { IfOk result (IsOver (IsTrue D.tells) (SignedBy (claimed claims.now) file.old.head file.old.standing.next payload.now) (D.held file.old.disk) (D.held file.new.disk)) }
    ensures status { IfOk result (λ answer. (answer.status ≤ 1) ⊎ (answer.status ≡ 7)) }
    ensures counts { CountsKey (D.fault_count file.old.disk) (D.fault_count file.new.disk) result }
    ensures no_read { result ≡ Err ToolStop.ReadFault → ⊥ }
    ensures later { D.fault_count file.old.disk ≤ D.fault_count file.new.disk }
    ensures strays { IsTrue D.tells → D.strays file.new.disk ≡ D.strays file.old.disk }
    ensures same { D.same file.old.disk file.new.disk }
{
    match make_ready(alloc, claims, payload, &*file)? {
        Some(ready) => sign_next(alloc, ready, payload, file),
        None => Ok(Answer::fixed(1, "refused claim\n")),
    }
}

/// A statement before it is signed, and the signer of its key.
#[derive(Drop)]
struct Ready {
    signer: Signer,
    draft: Draft,
}

// What is to be signed, where the claims and the logged form are within their limits.
fn make_ready<D: Disk>(
    alloc: Global,
    claims: &Claims<'_>,
    payload: &[u8],
    file: &KeyFile<D>,
) -> Result<Option<Ready>, AllocError>
    ensures { IfOk result (IsReady (claimed claims.now) file.now.head payload.now) }
{
    if !claims.names_fit() {
        return Ok(None);
    }
    let signer = file.signer(alloc)?;
    match make_draft(alloc, claims, payload, &signer)? {
        Some(draft) => Ok(Some(Ready { signer, draft })),
        None => Ok(None),
    }
}

// Takes the next index and signs with it.
fn sign_next<D: Disk>(
    alloc: Global,
    ready: Ready,
    payload: &[u8],
    file: &mut KeyFile<D>,
) -> Result<Answer, ToolStop>
    requires settled { file.old.standing.pending ≡ None }
    requires next { file.old.standing.next ≡ file.old.reserved }
    requires signer { ready.signer ≡ signer_of file.old.head }
    requires draft { IsDraft payload.now (hss_sig_len file.old.head.levels) ready.draft }
    ensures signs { IfOk result (SignsNext (IsTrue D.tells) ready.draft.protected file.old.head file.old.standing.next payload.now (D.held file.new.disk)) }
    ensures status { IfOk result (λ answer. (answer.status ≤ 1) ⊎ (answer.status ≡ 7)) }
    ensures counts { CountsKey (D.fault_count file.old.disk) (D.fault_count file.new.disk) result }
    ensures no_read { result ≡ Err ToolStop.ReadFault → ⊥ }
    ensures later { D.fault_count file.old.disk ≤ D.fault_count file.new.disk }
    ensures strays { IsTrue D.tells → D.strays file.new.disk ≡ D.strays file.old.disk }
    ensures same { D.same file.old.disk file.new.disk }
{
    let Ready { signer, draft } = ready;
    match take(alloc, file)? {
        Some(index) => Ok(sign_at(alloc, signer, draft, index, payload)?),
        None => Ok(exhausted(alloc, signer.capacity())?),
    }
}

// The statement, signed at this index.
fn sign_at(
    alloc: Global,
    mut signer: Signer,
    draft: Draft,
    index: u64,
    payload: &[u8],
) -> Result<Answer, AllocError>
    requires below { index < capacity signer.levels }
    requires draft { IsDraft payload.now (hss_sig_len signer.levels) draft }
    ensures { IfOk result (SaysStatement draft.protected payload.now
        (hss_sig signer.levels signer.id signer.seed index (tbs_of draft.protected payload.now))) }
{
    signer.prepare(alloc, index)?;
    Ok(draft.signed(&signer, index, payload))
}

// The next index, which is taken, or none where none is left.
fn take<D: Disk>(alloc: Global, file: &mut KeyFile<D>) -> Result<Option<u64>, ToolStop>
    requires settled { file.old.standing.pending ≡ None }
    requires next { file.old.standing.next ≡ file.old.reserved }
    ensures taken { IfOk result (TakesNext (IsTrue D.tells) file.old.head file.old.standing.next (D.held file.new.disk)) }
    ensures counts { CountsKey (D.fault_count file.old.disk) (D.fault_count file.new.disk) result }
    ensures no_read { result ≡ Err ToolStop.ReadFault → ⊥ }
    ensures later { D.fault_count file.old.disk ≤ D.fault_count file.new.disk }
    ensures strays { IsTrue D.tells → D.strays file.new.disk ≡ D.strays file.old.disk }
    ensures same { D.same file.old.disk file.new.disk }
{
    file.sound();
    let taken = file.take_index(alloc);
    file.images();
    file.sound();
    match taken {
        Ok(index) => Ok(Some(index)),
        Err(TakeStop::Exhausted { .. }) => Ok(None),
        Err(TakeStop::DiskFault) => Err(ToolStop::DiskFault),
        Err(TakeStop::OutOfMemory) => Err(ToolStop::OutOfMemory),
    }
}

// The answer where no index is left, of so many.
fn exhausted(alloc: Global, capacity: u64) -> Result<Answer, AllocError>
    ensures { IfOk result (λ answer. answer ≡ exhausted_answer capacity capacity) }
{
    let text = exhausted_line(alloc, capacity)?;
    Ok(Answer::made(7, text))
}

fn numbers(alloc: Global, next: u64, capacity: u64) -> Result<String, AllocError>
    ensures { IfOk result (λ text. string_bytes text ≡ decimal next ++ codes " " ++ decimal capacity) }
{
    let text = format!(in alloc; "{next} {capacity}")?;
    Ok(text)
}

fn exhausted_line(alloc: Global, capacity: u64) -> Result<String, AllocError>
    ensures { IfOk result (λ text. string_bytes text ≡ line (codes "exhausted " ++ decimal capacity ++ codes " " ++ decimal capacity)) }
{
    let numbers = numbers(alloc, capacity, capacity)?;
    let mut text = String::new(alloc);
    push_line(&mut text, "exhausted ", numbers.as_str())?;
    Ok(text)
}
