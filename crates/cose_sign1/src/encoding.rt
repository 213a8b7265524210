ghost use Rattle.std.specs.Prelude.{◌≡◌, ℕ, ◌≤◌, length, IfOk};
ghost use Rattle.std.specs.Option.{option_copied};
ghost use Rattle.cbor_core.specs.declared.words.Grammar.TheVariants.{Strict, Wide};
ghost use Rattle.cbor_core.specs.Spells.{Spells};
ghost use Rattle.cbor_core.specs.Limits.{longest_string};
ghost use Rattle.cose_sign1.specs.Tbs.{byte_item};
ghost use Rattle.cose_sign1.specs.Message.{payload_item, message_parts, tagged_item, message_item, Encodes, bare_item, bare_len as len_of_bare, bare_text};

use crate::copy::copy_item;
use crate::strings::{put_string, string_head_len};
use cbor_core::{Bytes, EncodeStop, Item, Node, put};
use sqlite_items::{Boxed, Items};
use std::alloc::{AllocError, Global};

/// A byte string.
pub fn string_item(alloc: Global, bytes: &[u8]) -> Result<Item, AllocError>
    ensures { IfOk result (λ item. item ≡ byte_item bytes.now) }
{
    Ok(Item {
        node: Node::Bytes(Bytes::from_slice(alloc, bytes)?),
    })
}

fn payload_part(alloc: Global, payload: Option<&[u8]>) -> Result<Item, AllocError>
    ensures { IfOk result (λ item. item ≡ payload_item (option_copied payload.entry)) }
{
    match payload {
        Some(payload) => string_item(alloc, payload),
        None => Ok(Item {
            node: Node::Simple(22),
        }),
    }
}

fn parts(
    alloc: Global,
    protected: &[u8],
    unprotected: &Item,
    payload: Option<&[u8]>,
    signature: &[u8],
) -> Result<Items<Item>, AllocError>
    ensures { IfOk result (λ items. items ≡ message_parts protected.now unprotected.now (option_copied payload.entry) signature.now) }
{
    let mut items = Items::new(alloc);
    items.push(string_item(alloc, protected)?)?;
    items.push(copy_item(alloc, unprotected)?)?;
    items.push(payload_part(alloc, payload)?)?;
    items.push(string_item(alloc, signature)?)?;
    Ok(items)
}

fn tagged(alloc: Global, items: Items<Item>) -> Result<Item, AllocError>
    ensures { IfOk result (λ item. item ≡ tagged_item items) }
{
    let array = Boxed::new(
        alloc,
        Item {
            node: Node::Array(items),
        },
    )?;
    Ok(Item {
        node: Node::Tag(18, array),
    })
}

fn message(
    alloc: Global,
    protected: &[u8],
    unprotected: &Item,
    payload: Option<&[u8]>,
    signature: &[u8],
) -> Result<Item, AllocError>
    ensures { IfOk result (λ item. item ≡ message_item protected.now unprotected.now (option_copied payload.entry) signature.now) }
{
    let items = parts(alloc, protected, unprotected, payload, signature)?;
    tagged(alloc, items)
}

/// The tagged strict form of a message (RFC 9052, 4.2): tag 18 on the protected string, the unprotected map, the payload or
/// nil, and the signature.
///
/// The unprotected item is to be a map with labels for keys: another one is encoded too, and doesn't decode as a message. The parts are
/// copied into one item first. `NotStrict` comes exactly where no strict bytes spell that item, or more than a buffer can hold. `OutOfMemory` is the want
/// of memory alone.
pub fn encode(
    alloc: Global,
    protected: &[u8],
    unprotected: &Item,
    payload: Option<&[u8]>,
    signature: &[u8],
) -> Result<Bytes, EncodeStop>
    ensures { Encodes (message_item protected.now unprotected.now (option_copied payload.entry) signature.now) result }
{
    match message(alloc, protected, unprotected, payload, signature) {
        Ok(item) => cbor_core::encode(alloc, &item),
        Err(_) => Err(EncodeStop::OutOfMemory),
    }
}

/// How many bytes the tagged strict form of a message with an empty unprotected map has. It takes no memory.
pub fn bare_len(protected: &[u8], payload: &[u8], signature: &[u8]) -> usize
    requires protected_fits { length protected.now ≤ longest_string }
    requires payload_fits { length payload.now ≤ longest_string }
    requires signature_fits { length signature.now ≤ longest_string }
    ensures { result ≡ len_of_bare protected.now payload.now signature.now }
{
    let strings = string_head_len(protected.len())
        + protected.len()
        + string_head_len(payload.len())
        + payload.len();
    3 + strings + string_head_len(signature.len()) + signature.len()
}

fn write_bare(protected: &[u8], payload: &[u8], signature: &[u8], buf: &mut [u8])
    requires protected_fits { length protected.now ≤ longest_string }
    requires payload_fits { length payload.now ≤ longest_string }
    requires signature_fits { length signature.now ≤ longest_string }
    requires room { length buf.old ≡ len_of_bare protected.now payload.now signature.now }
    ensures { buf.new ≡ bare_text protected.now payload.now signature.now }
{
    let at = put(buf, 0, &[0xd2, 0x84]);
    let at = put_string(buf, at, protected);
    let at = put(buf, at, &[0xa0]);
    let at = put_string(buf, at, payload);
    let _end = put_string(buf, at, signature);
}

/// Writes the tagged strict form of a message with an empty unprotected map. The buffer has `bare_len` bytes. It takes no
/// memory. The bytes are spelled so in the wide grammar too.
pub fn bare_into(protected: &[u8], payload: &[u8], signature: &[u8], buf: &mut [u8])
    requires protected_fits { length protected.now ≤ longest_string }
    requires payload_fits { length payload.now ≤ longest_string }
    requires signature_fits { length signature.now ≤ longest_string }
    requires room { length buf.old ≡ len_of_bare protected.now payload.now signature.now }
    ensures strict { Spells Strict (bare_item protected.now payload.now signature.now) buf.new }
    ensures wide { Spells Wide (bare_item protected.now payload.now signature.now) buf.new }
{
    write_bare(protected, payload, signature, buf);
}
