ghost use Rattle.std.specs.Prelude.{◌≡◌, ◌↔◌, IsTrue};
ghost use Rattle.cbor_core.specs.Tree.{is_key};

use crate::tree::{Item, Node};

/// Whether two items are the same tree: the same kind with the same parts in the same order.
#[cycle(same)]
pub fn same_item(a: &Item, b: &Item) -> bool
    ensures { IsTrue result ↔ (a.now ≡ b.now) }
{
    match (&a.node, &b.node) {
        (Node::Uint(m), Node::Uint(n)) => *m == *n,
        (Node::Nint(m), Node::Nint(n)) => *m == *n,
        (Node::Bytes(s), Node::Bytes(t)) => s.as_slice() == t.as_slice(),
        (Node::Text(s), Node::Text(t)) => s.as_slice() == t.as_slice(),
        (Node::Array(s), Node::Array(t)) => same_items(s.as_slice(), t.as_slice()),
        (Node::Map(s), Node::Map(t)) => same_pairs(s.as_slice(), t.as_slice()),
        (Node::Tag(m, x), Node::Tag(n, y)) => *m == *n && same_item(x.get(), y.get()),
        (Node::Simple(m), Node::Simple(n)) => *m == *n,
        (Node::Float(v, m), Node::Float(w, n)) => *v == *w && *m == *n,
        _ => false,
    }
}

#[cycle(same)]
fn same_items(a: &[Item], b: &[Item]) -> bool
    ensures { IsTrue result ↔ (a.now ≡ b.now) }
{
    if a.len() != b.len() {
        return false;
    }
    for i in 0..a.len() {
        if !same_item(&a[i], &b[i]) {
            return false;
        }
    }
    true
}

#[cycle(same)]
fn same_pairs(a: &[(Item, Item)], b: &[(Item, Item)]) -> bool
    ensures { IsTrue result ↔ (a.now ≡ b.now) }
{
    if a.len() != b.len() {
        return false;
    }
    for i in 0..a.len() {
        if !same_item(&a[i].0, &b[i].0) {
            return false;
        }
        if !same_item(&a[i].1, &b[i].1) {
            return false;
        }
    }
    true
}

/// Whether one of the pairs has this key.
pub fn has_key(pairs: &[(Item, Item)], item: &Item) -> bool
    ensures { result ≡ is_key pairs.now item.now }
{
    for pair in pairs {
        if same_item(&pair.0, item) {
            return true;
        }
    }
    false
}
