// Bytes as a script.

ghost use Rattle.std.specs.Prelude.{◌≡◌, IfOk};
ghost use Rattle.scitt_script.specs.Scripts.{AnswersAs, Decoded, script_in};

use crate::reading::script_of;
use crate::script::{Script, ScriptStop};
use cbor_core::{DecodeStop, Item, array_of, decode_strict_all, whole_bytes_have_one_answer};
use std::alloc::{AllocError, Global};

#[tactic(auto, unfolding(crate::specs::Scripts::script_in))]
fn read_item(alloc: Global, item: &Item) -> Result<Option<Script>, AllocError>
    ensures { IfOk result (λ script. script ≡ script_in item.now) }
{
    match array_of(item) {
        Some(items) => script_of(alloc, items),
        None => Ok(None),
    }
}

fn script_or_stop(alloc: Global, item: &Item) -> Result<Script, ScriptStop>
    ensures { AnswersAs result (script_in item.now) }
{
    match read_item(alloc, item)? {
        Some(script) => Ok(script),
        None => Err(ScriptStop::BadScript),
    }
}

/// The script that bytes strictly spell (RFC 8949, 4.2.1): the array of 1; the seed, a byte string of 32; the identifier, one of 16;
/// the five items of a parameter file; the moments, an array of unsigned numbers; and what the peer sends, a byte string.
///
/// `BadScript` exactly where the bytes are no such script. `OutOfMemory` is the want of memory alone.
pub fn decode(alloc: Global, bytes: &[u8]) -> Result<Script, ScriptStop>
    ensures { Decoded bytes.now result }
{
    whole_bytes_have_one_answer();
    match decode_strict_all(alloc, bytes) {
        Ok(item) => script_or_stop(alloc, &item),
        Err(DecodeStop::Fault(_)) => Err(ScriptStop::BadScript),
        Err(DecodeStop::OutOfMemory) => Err(ScriptStop::OutOfMemory),
    }
}
