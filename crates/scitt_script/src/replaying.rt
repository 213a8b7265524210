// A script that is replayed.

ghost use Rattle.std.specs.Prelude.{◌≡◌, true, false, IfOk, IfErr, OnOk};
ghost use Rattle.log_replay.specs.WellMade.{is_within_limits};
ghost use Rattle.registrar.specs.Opening.{begun, header_with};
ghost use Rattle.scitt_disk.specs.Memory.{plan_of};
ghost use Rattle.scitt_answers.specs.declared.serving.SessionEnd.TheVariants as end_of;
ghost use Rattle.scitt_script.specs.declared.script.ScriptStop.TheVariants as stop_of;
ghost use Rattle.scitt_script.specs.Replays.{IsSession, RefusedBy, ReplayOf, header_in};

use crate::clock::ScriptClock;
use crate::script::{Script, ScriptStop};
use cbor_core::Bytes;
use registrar::{Params, Registrar, RegistrarStop};
use scitt_answers::{SessionEnd, serve_local};
use scitt_disk::MemDisk;
use scitt_io::MemLink;
use sqlite_items::Items;
use std::alloc::Global;

/// How a session ended, and all that was written in it.
#[derive(Drop)]
pub struct Replayed {
    /// Neither a fault of the link nor the want of memory.
    pub end: SessionEnd,
    /// The answers' bytes.
    pub text: Vec<u8>,
}

// A log on an empty disk.
fn begin(
    alloc: Global,
    seed: [u8; 32],
    id: [u8; 16],
    params: Params,
) -> Result<Registrar<MemDisk>, ScriptStop>
    ensures limits { OnOk result (is_within_limits (header_with params id seed) ≡ true) }
    ensures begun { IfOk result (λ log. log.standing ≡ begun (header_with params id seed)) }
    ensures counted { IfOk result (λ log. (plan_of log.disk).faults ≡ 0) }
    ensures refused { IfErr result (RefusedBy (header_with params id seed)) }
{
    let disk = MemDisk::new(Vec::new(alloc), Vec::new(alloc));
    match Registrar::create(alloc, disk, seed, id, params) {
        Ok(log) => Ok(log),
        Err(refused) => match refused.why {
            RegistrarStop::BadParams => Err(ScriptStop::BadScript),
            RegistrarStop::DiskFault | RegistrarStop::OutOfMemory => Err(ScriptStop::OutOfMemory),
            _ => unreachable!(),
        },
    }
}

// Whether memory was wanting: no call of the disk or of the link is made to fail.
fn lacks_memory(log: &Registrar<MemDisk>, link: &MemLink, end: SessionEnd) -> bool
    ensures disk { result ≡ false → (plan_of log.now.disk).faults ≡ 0 }
    ensures reads { result ≡ false → link.now.faults ≡ 0 }
    ensures writes { result ≡ false → link.now.refused ≡ 0 }
    ensures memory { result ≡ false → end ≡ end_of.OutOfMemory → ⊥ }
{
    log.faults() > 0 || link.faults() > 0 || end == SessionEnd::OutOfMemory
}

// A session with a log on a disk that hasn't failed.
fn serve_all(
    alloc: Global,
    log: &mut Registrar<MemDisk>,
    moments: &Items<u64>,
    session: &Bytes,
) -> Result<Replayed, ScriptStop>
    requires { (plan_of log.old.disk).faults ≡ 0 }
    ensures session { IfOk result (λ r. IsSession log.old.standing moments.now session.now r.end r.text.items) }
    ensures memory { IfErr result (λ stop. stop ≡ stop_of.OutOfMemory) }
{
    let given = Vec::from_slice(alloc, moments.as_slice())?;
    let sent = Vec::from_slice(alloc, session.as_slice())?;
    let mut clock = ScriptClock::new(alloc, given);
    let mut link = MemLink::new(alloc, sent, Vec::new(alloc));
    let end = serve_local(alloc, log, &mut link, &mut clock);
    clock.is_late();
    let lacks = lacks_memory(log, &link, end);
    if lacks {
        return Err(ScriptStop::OutOfMemory);
    }
    Ok(Replayed {
        end,
        text: link.into_content(),
    })
}

/// Begins the script's log on an empty disk in memory, and serves on it, on one thread, the session of a peer that sends the script's
/// bytes. The clock gives the script's moments in their order, and fails behind the last of them.
///
/// `BadScript` exactly where a limit of the log's header is broken. `OutOfMemory` is the want of memory alone: disk and link are in
/// memory and no call of theirs is to fail, so where one did, memory was wanting.
pub fn replay(alloc: Global, script: Script) -> Result<Replayed, ScriptStop>
    ensures replayed { IfOk result (λ r. ReplayOf script r.end r.text.items) }
    ensures refused { IfErr result (RefusedBy (header_in script)) }
{
    let Script {
        seed,
        id,
        params,
        moments,
        session,
    } = script;
    let mut log = begin(alloc, seed, id, params)?;
    serve_all(alloc, &mut log, &moments, &session)
}
