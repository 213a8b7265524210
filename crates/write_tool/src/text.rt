// What a command answers to the bytes of its file.

ghost use Rattle.std.specs.Prelude.{◌≡◌, ◌++◌, IfOk, ◌≤◌};
ghost use Rattle.std.specs.String.{string_bytes};
ghost use Rattle.scitt_forms.specs.RefusalText.{refusal_text};
ghost use Rattle.write_tool.specs.Answer.{IsAnswer, IsShownAs, refused as refused_by};
ghost use Rattle.write_tool.specs.Texts.{Written, WrittenOf, Answered};

use crate::command::{Kind, Task};
use cbor_core::Bytes;
use command_line::Answer;
use scitt_forms::{FormStop, Place, Refusal, Why, Word, write_policy};
use shown_forms::{ShowStop, show_document};
use std::alloc::{AllocError, Global};
use write_params::write_params;
use write_trust::write_trust;

/// The text isn't a TOML document.
const NO_TOML: Refusal = Refusal {
    place: Place {
        list: Word::Form,
        index: 0,
    },
    word: Word::Form,
    why: Why::Toml,
};

fn written(alloc: Global, kind: Kind, text: &str) -> Result<Bytes, FormStop>
    ensures { Written kind text.now result }
{
    match kind {
        Kind::Policy => write_policy(alloc, text),
        Kind::Params => write_params(alloc, text),
        Kind::Trust => write_trust(alloc, text),
    }
}

fn written_of(alloc: Global, kind: Kind, bytes: &[u8]) -> Result<Bytes, FormStop>
    ensures { WrittenOf kind bytes.now result }
{
    match std::str::from_utf8(bytes) {
        Ok(text) => written(alloc, kind, text),
        Err(_) => Err(FormStop::Refused(NO_TOML)),
    }
}

fn refused(alloc: Global, refusal: &Refusal) -> Result<Answer, AllocError>
    ensures { IfOk result (λ answer. answer ≡ refused_by (refusal_text refusal.now)) }
{
    let said = refusal.text(alloc)?;
    let mut text = String::from_str(alloc, "refused ")?;
    text.push_str(said.as_str())?;
    text.push_str("\n")?;
    Ok(Answer::made(1, text))
}

fn answer_of(alloc: Global, written: Result<Bytes, FormStop>) -> Result<Answer, AllocError>
    ensures is { IfOk result (IsAnswer written) }
    ensures status { IfOk result (λ answer. answer.status ≤ 1) }
{
    match written {
        Ok(bytes) => Ok(Answer::bytes(0, bytes)),
        Err(FormStop::Refused(r)) => refused(alloc, &r),
        Err(FormStop::TooLong) => Ok(Answer::fixed(1, "refused form long\n")),
        Err(FormStop::OutOfMemory) => Err(AllocError),
    }
}

fn shown(shown: Result<String, ShowStop>) -> Result<Answer, AllocError>
    ensures is { IfOk result (IsShownAs shown) }
    ensures status { IfOk result (λ answer. answer.status ≤ 1) }
{
    match shown {
        Ok(text) => Ok(Answer::made(0, text)),
        Err(ShowStop::NoDocument) => Ok(Answer::fixed(1, "refused no document\n")),
        Err(ShowStop::NoForm) => Ok(Answer::fixed(1, "refused no form\n")),
        Err(ShowStop::OutOfMemory) => Err(AllocError),
    }
}

/// What a command answers to the bytes of its file.
pub(crate) fn answer_to(alloc: Global, task: Task, bytes: &[u8]) -> Result<Answer, AllocError>
    ensures answered { IfOk result (Answered task bytes.now) }
    ensures status { IfOk result (λ answer. answer.status ≤ 1) }
{
    match task {
        Task::Write(kind) => answer_of(alloc, written_of(alloc, kind, bytes)),
        Task::Show => shown(show_document(alloc, bytes)),
    }
}
