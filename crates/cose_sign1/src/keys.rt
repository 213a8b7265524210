ghost use Rattle.std.specs.Prelude.{◌≡◌, ◌≤◌, length, IfOk};
ghost use Rattle.sha2.specs.Sha256.{sha256};
ghost use Rattle.cbor_core.specs.declared.words.Grammar.TheVariants.{Strict};
ghost use Rattle.cbor_core.specs.Spells.{Spells};
ghost use Rattle.cbor_core.specs.Items.{uint_item, nint_item, map_item};
ghost use Rattle.cose_sign1.specs.KeySet.{key_entries, key_set_item, IsKeyItem, AreKeyItems};

use crate::encoding::string_item;
use cbor_core::{
    Bytes, EncodeStop, Item, Node, strict_item_by_kind, strict_items_are_spelled,
    strict_len_by_kind,
};
use sha2::{Digest, Sha256};
use sqlite_items::Items;
use std::alloc::{AllocError, Global};

fn number(n: u64) -> Item
    ensures { result ≡ uint_item n }
{
    Item {
        node: Node::Uint(n),
    }
}

fn negative(n: u64) -> Item
    ensures { result ≡ nint_item n }
{
    Item {
        node: Node::Nint(n),
    }
}

// A key's name: its digest.
fn kid_of(key: &[u8; 60]) -> [u8; 32]
    ensures value { result ≡ sha256 key.now }
    ensures len { length result ≡ 32 }
    ensures key { length key.now ≡ 60 }
{
    Sha256::digest(key.as_slice())
}

fn key_map(alloc: Global, kid: &[u8; 32], key: &[u8; 60]) -> Result<Item, AllocError>
    ensures { IfOk result (λ item. item ≡ map_item (key_entries kid.now key.now)) }
{
    let mut pairs = Items::new(alloc);
    pairs.push((number(1), number(5)))?;
    pairs.push((number(2), string_item(alloc, kid.as_slice())?))?;
    pairs.push((number(3), negative(45)))?;
    pairs.push((negative(0), string_item(alloc, key.as_slice())?))?;
    Ok(Item {
        node: Node::Map(pairs),
    })
}

fn key_item(alloc: Global, key: &[u8; 60]) -> Result<Item, AllocError>
    ensures { IfOk result (IsKeyItem key.now) }
{
    strict_item_by_kind();
    strict_len_by_kind();
    let kid = kid_of(key);
    let item = key_map(alloc, &kid, key)?;
    Ok(item)
}

fn key_items(alloc: Global, keys: &[[u8; 60]]) -> Result<Items<Item>, AllocError>
    ensures { IfOk result (AreKeyItems keys.now) }
{
    let mut items = Items::new(alloc);
    for key in keys {
        items.push(key_item(alloc, key)?)?;
    }
    Ok(items)
}

/// The strict bytes of a COSE key set (RFC 9052, 7) of these public keys of HSS, at most 64 of them: for each the map `{1: 5, 2: kid,
/// 3: -46, -1: key}` (RFC 8778, 4), whose kid is the key's SHA-256 digest. `AllocError` is the want of memory alone.
pub fn key_set(alloc: Global, keys: &[[u8; 60]]) -> Result<Bytes, AllocError>
    requires { length keys.now ≤ 64 }
    ensures { IfOk result (Spells Strict (key_set_item keys.now)) }
{
    strict_item_by_kind();
    strict_len_by_kind();
    strict_items_are_spelled();
    let items = key_items(alloc, keys)?;
    let item = Item {
        node: Node::Array(items),
    };
    match cbor_core::encode(alloc, &item) {
        Ok(bytes) => Ok(bytes),
        Err(EncodeStop::OutOfMemory) => Err(AllocError),
        Err(EncodeStop::NotStrict) => unreachable!(),
    }
}
