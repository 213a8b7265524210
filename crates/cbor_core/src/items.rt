ghost use Rattle.std.specs.Prelude.{◌≡◌, Some, option_map};
ghost use Rattle.std.specs.Option.{option_copied};
ghost use Rattle.std.specs.Str.{IsUtf8};
ghost use Rattle.cbor_core.specs.Items.{uint_in, nint_in, bytes_in, text_in, array_in, map_in, tag_in, is_uint as is_number, is_nint as is_negative, is_nil as is_null};

use crate::tree::{Item, Node};

/// The unsigned number that an item is (RFC 8949, 3.1, major type 0), or `None` of an item of another kind.
pub fn uint_of(item: &Item) -> Option<u64>
    ensures { result ≡ uint_in item.now }
{
    match &item.node {
        Node::Uint(n) => Some(*n),
        _ => None,
    }
}

/// The n of an item that is the number -1 - n (RFC 8949, 3.1, major type 1), or `None` of an item of another kind.
pub fn nint_of(item: &Item) -> Option<u64>
    ensures { result ≡ nint_in item.now }
{
    match &item.node {
        Node::Nint(n) => Some(*n),
        _ => None,
    }
}

/// The bytes of a byte string (RFC 8949, 3.1, major type 2), or `None` of an item of another kind.
pub fn bytes_of(item: &Item) -> Option<&[u8]>
    ensures { option_copied result ≡ bytes_in item.now }
{
    match &item.node {
        Node::Bytes(bytes) => Some(bytes.as_slice()),
        _ => None,
    }
}

/// The text that an item is (RFC 8949, 3.1, major type 3), or `None` of an item of another kind.
pub fn text_of(item: &Item) -> Option<&str>
    ensures { option_copied result ≡ text_in item.now }
{
    match &item.node {
        Node::Text(text) => Some(text.as_str()),
        _ => None,
    }
}

/// The items of an array (RFC 8949, 3.1, major type 4), or `None` of an item of another kind.
pub fn array_of(item: &Item) -> Option<&[Item]>
    ensures { option_copied result ≡ array_in item.now }
{
    match &item.node {
        Node::Array(items) => Some(items.as_slice()),
        _ => None,
    }
}

/// The pairs of a map, in the order in which they are spelled (RFC 8949, 3.1, major type 5), or `None` of an item of another kind.
pub fn map_of(item: &Item) -> Option<&[(Item, Item)]>
    ensures { option_copied result ≡ map_in item.now }
{
    match &item.node {
        Node::Map(pairs) => Some(pairs.as_slice()),
        _ => None,
    }
}

/// The number of a tag and the item that it tags (RFC 8949, 3.4), or `None` of an item of another kind.
pub fn tag_of(item: &Item) -> Option<(u64, &Item)>
    ensures { option_map (λ tag. (tag.0, tag.1.now)) result ≡ tag_in item.now }
{
    match &item.node {
        Node::Tag(n, inner) => Some((*n, inner.get())),
        _ => None,
    }
}

/// Whether an item is the number n.
pub fn is_uint(n: u64, item: &Item) -> bool
    ensures { result ≡ is_number n item.now }
{
    match &item.node {
        Node::Uint(m) => *m == n,
        _ => false,
    }
}

/// Whether an item is the number -1 - n.
pub fn is_nint(n: u64, item: &Item) -> bool
    ensures { result ≡ is_negative n item.now }
{
    match &item.node {
        Node::Nint(m) => *m == n,
        _ => false,
    }
}

/// Whether an item is nil, the simple value 22 (RFC 8949, 3.3).
pub fn is_nil(item: &Item) -> bool
    ensures { result ≡ is_null item.now }
{
    match &item.node {
        Node::Simple(n) => *n == 22,
        _ => false,
    }
}
