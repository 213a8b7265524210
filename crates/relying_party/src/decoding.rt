// Bytes as a trust file.

ghost use Rattle.relying_party.specs.TrustFiles.{AnswersAs, Decoded, ReadsItem, trust_in};

use crate::reading::trust_of;
use crate::trust::{Trust, TrustStop};
use cbor_core::{DecodeStop, Item, decode_strict_all};
use std::alloc::Global;

fn read(alloc: Global, bytes: &[u8]) -> Result<Item, TrustStop>
    ensures { ReadsItem bytes.now result }
{
    match decode_strict_all(alloc, bytes) {
        Ok(item) => Ok(item),
        Err(DecodeStop::Fault(fault)) => Err(TrustStop::Cbor(fault)),
        Err(DecodeStop::OutOfMemory) => Err(TrustStop::OutOfMemory),
    }
}

fn trust_or_stop(alloc: Global, item: &Item) -> Result<Trust, TrustStop>
    ensures { AnswersAs result (trust_in item.now) }
{
    match trust_of(alloc, item) {
        Ok(Some(trust)) => Ok(trust),
        Ok(None) => Err(TrustStop::BadTrust),
        Err(_) => Err(TrustStop::OutOfMemory),
    }
}

impl Trust {
    /// The trust file that bytes strictly spell: `[1, services, issuers]`, with 1 to 64 services `[name, key]` and at most 256 issuers
    /// `[iss, kid, key]`. A name and an iss are any text, a kid is any byte string, and a key one of 60 bytes.
    ///
    /// `Cbor` is the first fault of the bytes as an item, and `BadTrust` comes of every other item. `OutOfMemory` is the want of memory
    /// alone.
    pub fn decode(alloc: Global, bytes: &[u8]) -> Result<Trust, TrustStop>
        ensures { Decoded bytes.now result }
    {
        let item = read(alloc, bytes)?;
        trust_or_stop(alloc, &item)
    }
}
