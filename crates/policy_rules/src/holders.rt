// Holders of keys, as items spell them.

ghost use Rattle.std.specs.Prelude.{◌≡◌, ℕ, [], length, IfOk};
ghost use Rattle.std.specs.Option.{option_copied};
ghost use Rattle.std.specs.List.{list_any};
ghost use Rattle.cbor_core.specs.declared.tree.Node.{out-Node};
ghost use Rattle.policy_rules.specs.Conditions.{items_in, each_onto};
ghost use Rattle.policy_rules.specs.Documents.{bytes_in, iss_in, kid_in, key_in, holder_in, are_distinct, same_holder as one_name, holders_in};

use crate::documents::{Holder, Holders, Key60};
use cbor_core::{Bytes, Item, Node, Text};
use sqlite_items::Items;
use std::alloc::{AllocError, Global};

pub(crate) fn items(node: &Node) -> Option<&[Item]>
    ensures { option_copied result ≡ items_in (out-Node node.now) }
{
    match node {
        Node::Array(items) => Some(items.as_slice()),
        _ => None,
    }
}

fn bytes(node: &Node) -> Option<&[u8]>
    ensures { option_copied result ≡ bytes_in (out-Node node.now) }
{
    match node {
        Node::Bytes(bytes) => Some(bytes.as_slice()),
        _ => None,
    }
}

fn iss_of(alloc: Global, item: &Item) -> Result<Option<Text>, AllocError>
    ensures { IfOk result (λ iss. iss ≡ iss_in item.now) }
{
    match &item.node {
        Node::Text(text) => {
            if text.len() >= 1 && text.len() <= 1024 {
                return Ok(Some(Text::from_str(alloc, text.as_str())?));
            }
            Ok(None)
        }
        _ => Ok(None),
    }
}

fn kid_of(alloc: Global, item: &Item) -> Result<Option<Bytes>, AllocError>
    ensures { IfOk result (λ kid. kid ≡ kid_in item.now) }
{
    match &item.node {
        Node::Bytes(bytes) => {
            if bytes.len() >= 1 && bytes.len() <= 64 {
                return Ok(Some(Bytes::from_slice(alloc, bytes.as_slice())?));
            }
            Ok(None)
        }
        _ => Ok(None),
    }
}

fn key_of(item: &Item) -> Option<Key60>
    ensures { result ≡ key_in item.now }
{
    match bytes(&item.node)?.as_array::<60>() {
        Some(key) => Some(*key),
        None => None,
    }
}

fn holder_of(alloc: Global, item: &Item) -> Result<Option<Holder>, AllocError>
    ensures { IfOk result (λ holder. holder ≡ holder_in item.now) }
{
    let Some([iss, kid, key]) = items(&item.node) else {
        return Ok(None);
    };
    let Some(iss) = iss_of(alloc, iss)? else {
        return Ok(None);
    };
    let Some(kid) = kid_of(alloc, kid)? else {
        return Ok(None);
    };
    match key_of(key) {
        Some(key) => Ok(Some(Holder { iss, kid, key })),
        None => Ok(None),
    }
}

fn same_holder(a: &Holder, b: &Holder) -> bool
    ensures { result ≡ one_name a.now b.now }
{
    a.iss.as_slice() == b.iss.as_slice() && a.kid.as_slice() == b.kid.as_slice()
}

fn stands_among(holder: &Holder, others: &[Holder]) -> bool
    ensures { result ≡ list_any (one_name holder.now) others.now }
{
    others.iter().any(|other| same_holder(holder, other))
}

fn names_are_distinct(holders: &[Holder]) -> bool
    ensures { result ≡ are_distinct one_name holders.now }
{
    let mut rest = holders;
    while let Some((first, more)) = rest.split_first() {
        if stands_among(first, more) {
            return false;
        }
        rest = more;
    }
    true
}

fn each_holder(alloc: Global, items: &[Item]) -> Result<Option<Holders>, AllocError>
    ensures { IfOk result (λ holders. holders ≡ each_onto holder_in [] items.now) }
{
    let mut holders = Items::new(alloc);
    for item in items {
        match holder_of(alloc, item)? {
            Some(holder) => holders.push(holder)?,
            None => return Ok(None),
        }
    }
    Ok(Some(holders))
}

/// The holders that an item spells, so many and with names of their own.
pub(crate) fn holders_of(
    alloc: Global,
    low: usize,
    high: usize,
    item: &Item,
) -> Result<Option<Holders>, AllocError>
    ensures { IfOk result (λ holders. holders ≡ holders_in low high item.now) }
{
    let Some(items) = items(&item.node) else {
        return Ok(None);
    };
    if items.len() < low || items.len() > high {
        return Ok(None);
    }
    let Some(holders) = each_holder(alloc, items)? else {
        return Ok(None);
    };
    if !names_are_distinct(holders.as_slice()) {
        return Ok(None);
    }
    Ok(Some(holders))
}
