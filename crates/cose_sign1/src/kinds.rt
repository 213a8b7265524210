ghost use Rattle.std.specs.Prelude.{◌≡◌};
ghost use Rattle.cbor_core.specs.declared.tree.Node.{out-Node};
ghost use Rattle.cose_sign1.specs.Kinds.{is_alg, is_array, is_type, is_kid, is_map, is_string, all_strings, is_receipts, kind_of, kind_at, has_kind};

use cbor_core::{Item, Node};

fn alg(node: &Node) -> bool
    ensures { result ≡ is_alg (out-Node node.now) }
{
    matches!(node, Node::Uint(_) | Node::Nint(_) | Node::Text(_))
}

fn array(node: &Node) -> bool
    ensures { result ≡ is_array (out-Node node.now) }
{
    matches!(node, Node::Array(_))
}

fn content_type(node: &Node) -> bool
    ensures { result ≡ is_type (out-Node node.now) }
{
    match node {
        Node::Uint(_) => true,
        Node::Text(text) => text.len() <= 1024,
        _ => false,
    }
}

fn kid(node: &Node) -> bool
    ensures { result ≡ is_kid (out-Node node.now) }
{
    match node {
        Node::Bytes(bytes) => bytes.len() > 0 && bytes.len() <= 64,
        _ => false,
    }
}

fn map(node: &Node) -> bool
    ensures { result ≡ is_map (out-Node node.now) }
{
    matches!(node, Node::Map(_))
}

fn string(node: &Node) -> bool
    ensures { result ≡ is_string (out-Node node.now) }
{
    matches!(node, Node::Bytes(_))
}

fn strings(items: &[Item]) -> bool
    ensures { result ≡ all_strings items.now }
{
    for item in items {
        if !string(&item.node) {
            return false;
        }
    }
    true
}

fn receipts(node: &Node) -> bool
    ensures { result ≡ is_receipts (out-Node node.now) }
{
    match node {
        Node::Array(items) => strings(items.as_slice()),
        _ => false,
    }
}

fn kind(n: u64, value: &Node) -> bool
    ensures { result ≡ kind_of n (out-Node value.now) }
{
    match n {
        1 => alg(value),
        2 => array(value),
        3 => content_type(value),
        4 => kid(value),
        15 => map(value),
        394 => receipts(value),
        _ => true,
    }
}

fn kind_for(key: &Node, value: &Node) -> bool
    ensures { result ≡ kind_at (out-Node key.now) (out-Node value.now) }
{
    match key {
        Node::Uint(n) => kind(*n, value),
        _ => true,
    }
}

/// Whether an entry's value is of the kind that its label wants.
#[tactic(auto, unfolding(crate::specs::Kinds::has_kind))]
pub fn is_right_kind(entry: &(Item, Item)) -> bool
    ensures { result ≡ has_kind entry.now }
{
    kind_for(&entry.0.node, &entry.1.node)
}
