ghost use Rattle.std.specs.Prelude.{◌≡◌, IfOk};
ghost use Rattle.std.specs.Option.{option_copied, is_some};
ghost use Rattle.cose_sign1.specs.Labels.{key_label, all_labels, key_is, value_at, has_number};

use cbor_core::{Item, Node, Text};
use std::alloc::{AllocError, Global};
use std::fmt;

/// The label of a header parameter (RFC 9052, 1.5).
#[derive(Debug, PartialEq, Eq, Drop)]
pub enum Label {
    /// An integer: an unsigned item n is n, a negative one is -1 - n.
    Int(i128),
    /// A text.
    Text(Text),
}

impl fmt::Display for Label {
    fn fmt<W: fmt::Write>(&self, f: &mut fmt::Formatter<W>) -> fmt::Result {
        match self {
            Label::Int(n) => write!(f, "{n}"),
            Label::Text(text) => f.write_str(text.as_str()),
        }
    }
}

/// The label that a key spells, where it is one.
pub fn label_of(alloc: Global, key: &Item) -> Result<Option<Label>, AllocError>
    ensures { IfOk result (λ label. label ≡ key_label key.now) }
{
    match &key.node {
        Node::Uint(n) => Ok(Some(Label::Int(i128::from(*n)))),
        Node::Nint(n) => Ok(Some(Label::Int(-1 - i128::from(*n)))),
        Node::Text(text) => Ok(Some(Label::Text(Text::from_str(alloc, text.as_str())?))),
        _ => Ok(None),
    }
}

fn is_label(key: &Item) -> bool
    ensures { result ≡ is_some (key_label key.now) }
{
    matches!(&key.node, Node::Uint(_) | Node::Nint(_) | Node::Text(_))
}

/// Whether each key is a label.
pub fn are_labels(pairs: &[(Item, Item)]) -> bool
    ensures { result ≡ all_labels pairs.now }
{
    for pair in pairs {
        if !is_label(&pair.0) {
            return false;
        }
    }
    true
}

/// Whether a key is the number n.
pub fn is_number(n: u64, key: &Item) -> bool
    ensures { result ≡ key_is n key.now }
{
    match &key.node {
        Node::Uint(m) => *m == n,
        _ => false,
    }
}

/// The value beside the number n, where it stands among the keys.
pub fn find(n: u64, pairs: &[(Item, Item)]) -> Option<&Item>
    ensures { option_copied result ≡ value_at n pairs.now }
{
    for pair in pairs {
        if is_number(n, &pair.0) {
            return Some(&pair.1);
        }
    }
    None
}

/// Whether the number n stands among the keys.
pub fn has_label(n: u64, pairs: &[(Item, Item)]) -> bool
    ensures { result ≡ has_number n pairs.now }
{
    find(n, pairs).is_some()
}
