ghost use Rattle.std.specs.Prelude.{◌≡◌, length, replicate, Some, IfOk};
ghost use Rattle.cbor_core.specs.declared.words.Grammar.TheVariants.{Strict};
ghost use Rattle.cbor_core.specs.Spells.{Spells};
ghost use Rattle.cbor_core.specs.Encoding.{HasLength, Encoded};

use crate::limits::MOST_CONTAINERS;
use crate::measuring::item_len;
use crate::strings::Bytes;
use crate::tree::Item;
use crate::words::{EncodeStop, Grammar};
use crate::writing::put_item;
use std::alloc::{AllocError, Global};

/// How many bytes spell the item in the strict grammar (RFC 8949, 4.2.1).
///
/// `None` exactly where that number is above 2^63 - 1, or no strict bytes spell the item: a float, a reserved simple
/// value (24 to 31), a map whose keys don't rise in the bytewise order of their encodings, or a part beyond a limit of
/// the profile (strings of 4,198,400 bytes, 4,096 parts of a container, 16 containers inside each other).
pub fn encoded_len(item: &Item) -> Option<usize>
    ensures { HasLength item.now result }
{
    item_len(Grammar::Strict, MOST_CONTAINERS, item)
}

/// Writes the strict bytes of the item. The buffer's length has to be `encoded_len`. It takes no memory.
pub fn encode_into(item: &Item, buf: &mut [u8])
    requires { HasLength item.now (Some (length buf.old)) }
    ensures { Spells Strict item.now buf.new }
{
    let _end = put_item(Grammar::Strict, MOST_CONTAINERS, item, buf, 0);
}

/// The strict bytes of the item. `NotStrict` comes exactly where `encoded_len` is `None`; `OutOfMemory`, only where it is a number,
/// where memory ran out.
pub fn encode(alloc: Global, item: &Item) -> Result<Bytes, EncodeStop>
    ensures { Encoded item.now result }
{
    let Some(len) = encoded_len(item) else {
        return Err(EncodeStop::NotStrict);
    };
    let Ok(mut bytes) = zeros(alloc, len) else {
        return Err(EncodeStop::OutOfMemory);
    };
    encode_into(item, &mut bytes);
    Ok(Bytes::from_vec(bytes))
}

/// So many zeros.
pub fn zeros(alloc: Global, len: usize) -> Result<Vec<u8>, AllocError>
    ensures len { IfOk result (λ v. length v.items ≡ len) }
    ensures zeros { IfOk result (λ v. v.items ≡ replicate len 0) }
{
    vec![in alloc; 0; len]
}
