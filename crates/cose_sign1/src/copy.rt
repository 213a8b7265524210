ghost use Rattle.std.specs.Prelude.{◌≡◌, IfOk};

use cbor_core::{Bytes, Item, Node, Text};
use sqlite_items::{Boxed, Items};
use std::alloc::{AllocError, Global};

/// A copy of an item.
#[cycle(copy)]
pub fn copy_item(alloc: Global, item: &Item) -> Result<Item, AllocError>
    ensures { IfOk result (λ copy. copy ≡ item.now) }
{
    let node = match &item.node {
        Node::Uint(n) => Node::Uint(*n),
        Node::Nint(n) => Node::Nint(*n),
        Node::Bytes(bytes) => Node::Bytes(Bytes::from_slice(alloc, bytes.as_slice())?),
        Node::Text(text) => Node::Text(Text::from_str(alloc, text.as_str())?),
        Node::Array(items) => Node::Array(copy_items(alloc, items.as_slice())?),
        Node::Map(pairs) => Node::Map(copy_pairs(alloc, pairs.as_slice())?),
        Node::Tag(n, inner) => Node::Tag(*n, Boxed::new(alloc, copy_item(alloc, inner.get())?)?),
        Node::Simple(n) => Node::Simple(*n),
        Node::Float(width, bits) => Node::Float(*width, *bits),
    };
    Ok(Item { node })
}

/// A copy of items.
#[cycle(copy)]
pub fn copy_items(alloc: Global, items: &[Item]) -> Result<Items<Item>, AllocError>
    ensures { IfOk result (λ copy. copy ≡ items.now) }
{
    let mut copies = Items::new(alloc);
    for item in items {
        copies.push(copy_item(alloc, item)?)?;
    }
    Ok(copies)
}

#[cycle(copy)]
fn copy_pairs(alloc: Global, pairs: &[(Item, Item)]) -> Result<Items<(Item, Item)>, AllocError>
    ensures { IfOk result (λ copy. copy ≡ pairs.now) }
{
    let mut copies = Items::new(alloc);
    for pair in pairs {
        let key = copy_item(alloc, &pair.0)?;
        let value = copy_item(alloc, &pair.1)?;
        copies.push((key, value))?;
    }
    Ok(copies)
}
