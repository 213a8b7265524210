ghost use Rattle.std.specs.Prelude.{◌≡◌, length, IfOk};
ghost use Rattle.statement.specs.Statements.{Logs};

use crate::stops::ParseStop;
use cbor_core::{Bytes, zeros};
use cose_sign1::{bare_into, bare_len};
use std::alloc::Global;

const MOST: usize = 4_194_304;

/// The logged form: the strict encoding of tag 18 on the protected string as it was given, an empty map, the payload and the
/// signature. `TooLarge` where it exceeds 4,194,304 bytes.
pub fn logged_form(
    alloc: Global,
    protected: &[u8],
    payload: &[u8],
    signature: &[u8],
) -> Result<Bytes, ParseStop>
    ensures { Logs protected.now payload.now signature.now result }
{
    if protected.len() > MOST || payload.len() > MOST || signature.len() > MOST {
        return Err(ParseStop::TooLarge);
    }
    let len = bare_len(protected, payload, signature);
    if len > MOST {
        return Err(ParseStop::TooLarge);
    }
    let Ok(mut bytes) = zeros(alloc, len) else {
        return Err(ParseStop::OutOfMemory);
    };
    bare_into(protected, payload, signature, &mut bytes);
    Ok(Bytes::from_vec(bytes))
}
