ghost use Rattle.cose_sign1.specs.Sign1Of.{ReadsEntries};

use crate::parts::entries_of;
use crate::stops::Sign1Stop;
use cbor_core::{DecodeStop, Item, decode_wide_all};
use sqlite_items::Items;
use std::alloc::Global;

/// The entries that a protected string holds: none where it is empty, else those of its map (RFC 9052, 3).
pub fn protected_entries(alloc: Global, string: &[u8]) -> Result<Items<(Item, Item)>, Sign1Stop>
    ensures { ReadsEntries string.now result }
{
    if string.is_empty() {
        return Ok(Items::new(alloc));
    }
    match decode_wide_all(alloc, string) {
        Ok(item) => match entries_of(item) {
            Some(entries) => Ok(entries),
            None => Err(Sign1Stop::NotSign1),
        },
        Err(DecodeStop::Fault(fault)) => Err(Sign1Stop::Protected(fault)),
        Err(DecodeStop::OutOfMemory) => Err(Sign1Stop::OutOfMemory),
    }
}
