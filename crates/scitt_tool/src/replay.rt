ghost use Rattle.std.specs.Prelude.{◌≡◌, ◌≤◌, IfOk};
ghost use Rattle.scitt_tool.specs.Replay.{PlayedOf, ReplayTextOf, heard, script_refused, status_of};

use cbor_core::Bytes;
use command_line::{Answer, Status};
use scitt_answers::SessionEnd;
use scitt_script::{Replayed, Script, ScriptStop, decode};
use std::alloc::{AllocError, Global};

/// What `replay` answers of a file's bytes.
pub(crate) fn replay(alloc: Global, bytes: &[u8]) -> Result<Answer, AllocError>
    ensures text { IfOk result (ReplayTextOf bytes.now) }
    ensures status { IfOk result (λ answer. answer.status ≤ 1) }
{
    match decode(alloc, bytes) {
        Ok(script) => play(alloc, script),
        Err(ScriptStop::BadScript) => Ok(script_refused()),
        Err(ScriptStop::OutOfMemory) => Err(AllocError),
    }
}

fn play(alloc: Global, script: Script) -> Result<Answer, AllocError>
    ensures played { IfOk result (PlayedOf script) }
    ensures status { IfOk result (λ answer. answer.status ≤ 1) }
{
    match scitt_script::replay(alloc, script) {
        Ok(replayed) => Ok(heard(replayed)),
        Err(ScriptStop::BadScript) => Ok(script_refused()),
        Err(ScriptStop::OutOfMemory) => Err(AllocError),
    }
}

fn status_of(end: SessionEnd) -> Status
    ensures status { result ≡ status_of end }
    ensures low { result ≤ 1 }
{
    match end {
        SessionEnd::Ended => 0,
        SessionEnd::CutShort => 1,
        SessionEnd::HeadRefused => 1,
        SessionEnd::TurnsSpent => 1,
        SessionEnd::ReadFault => 1,
        SessionEnd::WriteFault => 1,
        SessionEnd::OutOfMemory => 1,
    }
}

fn heard(replayed: Replayed) -> Answer
    ensures answer { result ≡ heard replayed.end replayed.text.items }
    ensures status { result.status ≤ 1 }
{
    let Replayed { end, text } = replayed;
    Answer::bytes(status_of(end), Bytes::from_vec(text))
}

fn script_refused() -> Answer
    ensures { result ≡ script_refused }
{
    Answer::fixed(1, "refused script\n")
}
