ghost use Rattle.std.specs.Prelude.{◌≡◌, ◌≤◌, length, IfOk};
ghost use Rattle.cbor_core.specs.Limits.{longest_string};
ghost use Rattle.cbor_core.specs.Items.{map_item};
ghost use Rattle.cose_sign1.specs.Message.{Encodes};
ghost use Rattle.cose_sign1.specs.Attached.{receipt_items, attached_entries, message_with, HasRoom, IsMessage, Attaches, Attached};

use crate::copy::copy_items;
use crate::encoding::{encode, string_item};
use crate::labels::{Label, find};
use crate::laws::message_strings_are_short;
use crate::sign1::{Sign1, decode};
use crate::stops::Sign1Stop;
use cbor_core::{
    Bytes, EncodeStop, Item, Node, array_of, keys_are_compared_as_items, strict_is_wide,
    strict_item_by_kind, strict_items_are_spelled, strict_len_by_kind,
};
use sqlite_items::Items;
use std::alloc::{AllocError, Global};

/// How many receipts a message may have: as many as an array may have items.
const MOST_RECEIPTS: usize = 4096;

fn receipts_of(alloc: Global, unprotected: &[(Item, Item)]) -> Result<Items<Item>, AllocError>
    ensures { IfOk result (λ items. items ≡ receipt_items unprotected.now) }
{
    let Some(value) = find(394, unprotected) else {
        return Ok(Items::new(alloc));
    };
    let Some(items) = array_of(value) else {
        return Ok(Items::new(alloc));
    };
    copy_items(alloc, items)
}

fn unprotected_with(
    alloc: Global,
    mut receipts: Items<Item>,
    receipt: &[u8],
) -> Result<Item, AllocError>
    ensures { IfOk result (λ item. item ≡ map_item (attached_entries receipts receipt.now)) }
{
    receipts.push(string_item(alloc, receipt)?)?;
    let key = Item {
        node: Node::Uint(394),
    };
    let value = Item {
        node: Node::Array(receipts),
    };
    let mut pairs = Items::new(alloc);
    pairs.push((key, value))?;
    Ok(Item {
        node: Node::Map(pairs),
    })
}

fn encode_with(alloc: Global, v: &Sign1, unprotected: &Item) -> Result<Bytes, EncodeStop>
    ensures { Encodes (message_with v.now unprotected.now) result }
{
    let payload = match &v.payload {
        Some(payload) => Some(payload.as_slice()),
        None => None,
    };
    encode(
        alloc,
        v.protected.as_slice(),
        unprotected,
        payload,
        v.signature.as_slice(),
    )
}

// The message is the one of some bytes, and has room for a receipt.
fn attach_to(
    alloc: Global,
    v: &Sign1,
    receipts: Items<Item>,
    receipt: &[u8],
) -> Result<Bytes, AllocError>
    requires message { IsMessage v.now }
    requires receipts { receipts ≡ receipt_items v.now.headers.unprotected }
    requires room { HasRoom v.now }
    requires short { length receipt.now ≤ longest_string }
    ensures { IfOk result (Attached v.now receipt.now) }
{
    keys_are_compared_as_items();
    strict_is_wide();
    strict_item_by_kind();
    strict_len_by_kind();
    strict_items_are_spelled();
    message_strings_are_short();
    let unprotected = unprotected_with(alloc, receipts, receipt)?;
    match encode_with(alloc, v, &unprotected) {
        Ok(bytes) => Ok(bytes),
        Err(EncodeStop::OutOfMemory) => Err(AllocError),
        Err(EncodeStop::NotStrict) => unreachable!(),
    }
}

/// The tagged message with one receipt more: its unprotected map holds label 394 alone, with the receipts that were there and then this
/// one. The receipt has at most 4,198,400 bytes. The bytes are strict, and the same message otherwise: its protected string, its payload
/// and its signature don't change, so neither does what a log keeps of it, nor its id.
///
/// The refusals are those of `decode`, and `BadHeader` of 394 where 4,096 receipts are there. `OutOfMemory` is the want of memory alone.
pub fn attach(alloc: Global, bytes: &[u8], receipt: &[u8]) -> Result<Bytes, Sign1Stop>
    requires { length receipt.now ≤ longest_string }
    ensures { Attaches bytes.now receipt.now result }
{
    let message = decode(alloc, bytes)?;
    let Ok(receipts) = receipts_of(alloc, message.headers.unprotected.as_slice()) else {
        return Err(Sign1Stop::OutOfMemory);
    };
    if receipts.len() >= MOST_RECEIPTS {
        return Err(Sign1Stop::BadHeader(Label::Int(394)));
    }
    match attach_to(alloc, &message, receipts, receipt) {
        Ok(attached) => Ok(attached),
        Err(_) => Err(Sign1Stop::OutOfMemory),
    }
}
