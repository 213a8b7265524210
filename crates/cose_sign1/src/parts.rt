ghost use Rattle.std.specs.Prelude.{◌≡◌};
ghost use Rattle.cbor_core.specs.declared.tree.Node.{out-Node};
ghost use Rattle.cose_sign1.specs.Parts.{string_in, headers_in, payload_in, filled, four, array_in, parts_in, entries_in};

use crate::labels::are_labels;
use cbor_core::{Bytes, Item, Node};
use sqlite_items::Items;

/// The parts of a COSE_Sign1 (RFC 9052, 4.2), the protected string not yet read.
#[derive(Drop)]
pub struct Parts {
    pub tagged: bool,
    pub protected: Bytes,
    pub unprotected: Items<(Item, Item)>,
    pub payload: Option<Bytes>,
    pub signature: Bytes,
}

fn string_of(node: Node) -> Option<Bytes>
    ensures { result ≡ string_in (out-Node node) }
{
    match node {
        Node::Bytes(bytes) => Some(bytes),
        _ => None,
    }
}

fn headers_of(node: Node) -> Option<Items<(Item, Item)>>
    ensures { result ≡ headers_in (out-Node node) }
{
    match node {
        Node::Map(pairs) => {
            if are_labels(pairs.as_slice()) {
                return Some(pairs);
            }
            None
        }
        _ => None,
    }
}

fn payload_of(node: Node) -> Option<Option<Bytes>>
    ensures { result ≡ payload_in (out-Node node) }
{
    match node {
        Node::Bytes(bytes) => Some(Some(bytes)),
        Node::Simple(n) => {
            if n == 22 {
                return Some(None);
            }
            None
        }
        _ => None,
    }
}

fn fill(
    tagged: bool,
    protected: Item,
    unprotected: Item,
    payload: Item,
    signature: Item,
) -> Option<Parts>
    ensures { result ≡ filled tagged (string_in (out-Node protected.node)) (headers_in (out-Node unprotected.node)) (payload_in (out-Node payload.node)) (string_in (out-Node signature.node)) }
{
    let Item { node } = protected;
    let protected = string_of(node)?;
    let Item { node } = unprotected;
    let unprotected = headers_of(node)?;
    let Item { node } = payload;
    let payload = payload_of(node)?;
    let Item { node } = signature;
    let signature = string_of(node)?;
    Some(Parts {
        tagged,
        protected,
        unprotected,
        payload,
        signature,
    })
}

fn four_of(tagged: bool, mut items: Items<Item>) -> Option<Parts>
    ensures { result ≡ four tagged items }
{
    if items.len() != 4 {
        return None;
    }
    let signature = items.pop()?;
    let payload = items.pop()?;
    let unprotected = items.pop()?;
    let protected = items.pop()?;
    fill(tagged, protected, unprotected, payload, signature)
}

fn array_of(tagged: bool, node: Node) -> Option<Parts>
    ensures { result ≡ array_in tagged (out-Node node) }
{
    match node {
        Node::Array(items) => four_of(tagged, items),
        _ => None,
    }
}

/// The parts of an item that has the shape of a COSE_Sign1, tagged by 18 or not.
#[tactic(auto, unfolding(crate::specs::Parts::parts_in))]
pub fn parts_of(item: Item) -> Option<Parts>
    ensures { result ≡ parts_in item }
{
    let Item { node } = item;
    match node {
        Node::Tag(n, inner) => {
            if n != 18 {
                return None;
            }
            let Item { node } = inner.into_inner();
            array_of(true, node)
        }
        other => array_of(false, other),
    }
}

/// The entries of a map whose keys are labels.
#[tactic(auto, unfolding(crate::specs::Parts::entries_in))]
pub fn entries_of(item: Item) -> Option<Items<(Item, Item)>>
    ensures { result ≡ entries_in item }
{
    let Item { node } = item;
    headers_of(node)
}
