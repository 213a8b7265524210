ghost use Rattle.std.specs.Prelude.{◌≡◌, ◌≤◌, ◌++◌, ◌∷◌, [], true, map, OnOk, IfOk};
ghost use Rattle.cbor_core.specs.Limits.{most_containers};
ghost use Rattle.cbor_core.specs.Encoding.{most};
ghost use Rattle.cbor_core.specs.Exact.{strict_text};
ghost use Rattle.cbor_core.specs.Fitting.{is_strict_item, strict_len};
ghost use Rattle.cbor_core.specs.Items.{uint_item, nint_item, bytes_item, text_item, array_item, map_item, tag_item, nil_item};
ghost use Rattle.receipts.specs.Written.{held_item, hashes_item};

use cbor_core::{
    Bytes, EncodeStop, Item, Node, Text, strict_items_are_spelled, strict_text_is_exact,
};
use merkle_tree::Hash;
use sqlite_items::{Boxed, Items};
use std::alloc::{AllocError, Global};

/// An unsigned number.
pub fn uint(n: u64) -> Item
    ensures { result ≡ uint_item n }
{
    Item {
        node: Node::Uint(n),
    }
}

/// The number -1 - n.
pub fn nint(n: u64) -> Item
    ensures { result ≡ nint_item n }
{
    Item {
        node: Node::Nint(n),
    }
}

/// Nil.
pub fn nil() -> Item
    ensures { result ≡ nil_item }
{
    Item {
        node: Node::Simple(22),
    }
}

/// A byte string.
pub fn string(alloc: Global, bytes: &[u8]) -> Result<Item, AllocError>
    ensures { IfOk result (λ item. item ≡ bytes_item bytes.now) }
{
    Ok(Item {
        node: Node::Bytes(Bytes::from_slice(alloc, bytes)?),
    })
}

/// A text.
pub fn text(alloc: Global, text: &Text) -> Result<Item, AllocError>
    ensures { IfOk result (λ item. item ≡ text_item text.now) }
{
    Ok(Item {
        node: Node::Text(Text::from_str(alloc, text.as_str())?),
    })
}

/// An array.
pub fn array(items: Items<Item>) -> Item
    ensures { result ≡ array_item items }
{
    Item {
        node: Node::Array(items),
    }
}

/// A map.
pub fn table(pairs: Items<(Item, Item)>) -> Item
    ensures { result ≡ map_item pairs }
{
    Item {
        node: Node::Map(pairs),
    }
}

/// A tagged item.
pub fn tagged(alloc: Global, n: u64, item: Item) -> Result<Item, AllocError>
    ensures { IfOk result (λ tagged. tagged ≡ tag_item n item) }
{
    Ok(Item {
        node: Node::Tag(n, Boxed::new(alloc, item)?),
    })
}

/// An array of byte strings, a hash in each.
pub fn hashes(alloc: Global, path: &[Hash]) -> Result<Item, AllocError>
    ensures { IfOk result (λ item. item ≡ hashes_item path.now) }
{
    let mut items = Items::new(alloc);
    for hash in path {
        items.push(string(alloc, hash.as_slice())?)?;
    }
    Ok(array(items))
}

/// A byte string that holds an item's strict bytes.
pub fn held(alloc: Global, item: &Item) -> Result<Item, AllocError>
    requires strict { is_strict_item most_containers item.now ≡ true }
    requires short { strict_len most_containers item.now ≤ most }
    ensures { IfOk result (λ held. held ≡ held_item item.now) }
{
    strict_items_are_spelled();
    strict_text_is_exact();
    match cbor_core::encode(alloc, item) {
        Ok(bytes) => Ok(Item {
            node: Node::Bytes(bytes),
        }),
        Err(EncodeStop::OutOfMemory) => Err(AllocError),
        Err(EncodeStop::NotStrict) => unreachable!(),
    }
}
