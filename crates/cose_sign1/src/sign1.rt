ghost use Rattle.std.specs.Prelude.{◌≡◌};
ghost use Rattle.cose_sign1.specs.Sign1Of.{Answered, ReadsParts, message_of};

use crate::entries::protected_entries;
use crate::headers::check_headers;
use crate::parts::{Parts, parts_of};
use crate::stops::Sign1Stop;
use cbor_core::{Bytes, DecodeStop, Item, Pairs, decode_wide_all};
use sqlite_items::Items;
use std::alloc::Global;

/// The header parameters of a message (RFC 9052, 3), each map's entries in their order.
#[derive(Drop)]
pub struct Headers {
    pub protected: Pairs,
    pub unprotected: Pairs,
}

/// A COSE_Sign1 (RFC 9052, 4.2).
#[derive(Drop)]
pub struct Sign1 {
    /// Whether tag 18 stands before it.
    pub tagged: bool,
    /// The protected string as it was given.
    pub protected: Bytes,
    pub headers: Headers,
    /// The payload, or nothing where it is detached.
    pub payload: Option<Bytes>,
    pub signature: Bytes,
}

fn read_parts(alloc: Global, bytes: &[u8]) -> Result<Parts, Sign1Stop>
    ensures { ReadsParts bytes.now result }
{
    match decode_wide_all(alloc, bytes) {
        Ok(item) => match parts_of(item) {
            Some(parts) => Ok(parts),
            None => Err(Sign1Stop::NotSign1),
        },
        Err(DecodeStop::Fault(fault)) => Err(Sign1Stop::Cbor(fault)),
        Err(DecodeStop::OutOfMemory) => Err(Sign1Stop::OutOfMemory),
    }
}

fn message(parts: Parts, entries: Items<(Item, Item)>) -> Sign1
    ensures { result ≡ message_of parts entries }
{
    let Parts {
        tagged,
        protected,
        unprotected,
        payload,
        signature,
    } = parts;
    let headers = Headers {
        protected: Pairs::from_items(entries),
        unprotected: Pairs::from_items(unprotected),
    };
    Sign1 {
        tagged,
        protected,
        headers,
        payload,
        signature,
    }
}

/// Reads bytes as one message in the wide grammar, leaving none over.
///
/// These steps are tried in turn, and the first that fails is the refusal. `Cbor(fault)`: reading the bytes as one item.
/// `NotSign1`: finding an array of four in it, with tag 18 or none, whose parts are a byte string, a map with labels for keys, a
/// byte string or nil, and a byte string (RFC 9052, 4.2 and 1.5). `Protected(fault)`: reading what stands in the first
/// byte string, unless it is empty; places are counted from the string's start. `NotSign1`: finding a map with labels for keys there.
/// Then each protected entry and after them each unprotected one: `DupLabel`, both maps have its label (RFC 9052, 3);
/// `BadHeader`, its value isn't what the label wants (RFC 9052, 3.1), or receipts are protected. Last `BadCrit`: crit is
/// unprotected or empty, or one of its labels isn't understood or isn't among the protected ones (RFC 9052, 3.1).
/// `OutOfMemory` is the want of memory alone.
pub fn decode(alloc: Global, bytes: &[u8]) -> Result<Sign1, Sign1Stop>
    ensures { Answered bytes.now result }
{
    let parts = read_parts(alloc, bytes)?;
    let entries = protected_entries(alloc, parts.protected.as_slice())?;
    check_headers(alloc, entries.as_slice(), parts.unprotected.as_slice())?;
    Ok(message(parts, entries))
}
