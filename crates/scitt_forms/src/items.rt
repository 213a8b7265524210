// Items made of their parts.

ghost use Rattle.std.specs.Prelude.{◌≡◌, ◌∷◌, [], IfOk};
ghost use Rattle.policy_rules.specs.Spelling.{uint_item, text_item, bytes_item, array_item, coded as coded_item};

use cbor_core::{Bytes, Item, Node, Text};
use sqlite_items::Items;
use std::alloc::{AllocError, Global};

pub(crate) fn uint(n: u64) -> Item
    ensures { result ≡ uint_item n }
{
    Item {
        node: Node::Uint(n),
    }
}

pub(crate) fn array(items: Items<Item>) -> Item
    ensures { result ≡ array_item items }
{
    Item {
        node: Node::Array(items),
    }
}

pub(crate) fn text(alloc: Global, text: &str) -> Result<Item, AllocError>
    ensures { IfOk result (λ item. item ≡ text_item text.now) }
{
    let copy = Text::from_str(alloc, text)?;
    Ok(Item {
        node: Node::Text(copy),
    })
}

pub(crate) fn bytes(alloc: Global, bytes: &[u8]) -> Result<Item, AllocError>
    ensures { IfOk result (λ item. item ≡ bytes_item bytes.now) }
{
    let copy = Bytes::from_slice(alloc, bytes)?;
    Ok(Item {
        node: Node::Bytes(copy),
    })
}

pub(crate) fn two(alloc: Global, a: Item, b: Item) -> Result<Item, AllocError>
    ensures { IfOk result (λ item. item ≡ array_item (a ∷ b ∷ [])) }
{
    let mut items = Items::new(alloc);
    items.push(a)?;
    items.push(b)?;
    Ok(array(items))
}

pub(crate) fn three(alloc: Global, a: Item, b: Item, c: Item) -> Result<Item, AllocError>
    ensures { IfOk result (λ item. item ≡ array_item (a ∷ b ∷ c ∷ [])) }
{
    let mut items = Items::new(alloc);
    items.push(a)?;
    items.push(b)?;
    items.push(c)?;
    Ok(array(items))
}

/// A code with one operand, or with none.
pub(crate) fn coded(alloc: Global, code: u64, operand: Item) -> Result<Item, AllocError>
    ensures { IfOk result (λ item. item ≡ coded_item code (operand ∷ [])) }
{
    two(alloc, uint(code), operand)
}

pub(crate) fn bare(alloc: Global, code: u64) -> Result<Item, AllocError>
    ensures { IfOk result (λ item. item ≡ coded_item code []) }
{
    let mut items = Items::new(alloc);
    items.push(uint(code))?;
    Ok(array(items))
}

/// A code with these operands.
pub(crate) fn coded_all(alloc: Global, code: u64, operands: Items<Item>) -> Result<Item, AllocError>
    ensures { IfOk result (λ item. item ≡ coded_item code operands) }
{
    let mut items = Items::new(alloc);
    items.push(uint(code))?;
    items.append(operands)?;
    Ok(array(items))
}
