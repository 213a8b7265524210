ghost use Rattle.std.specs.Prelude.{◌≡◌, ℕ, length, take, ◌<◌, nat_lt};
ghost use Rattle.cbor_core.specs.declared.tree.Node.{out-Node};
ghost use Rattle.cbor_core.specs.Head.{limit};
ghost use Rattle.cbor_core.specs.Encoding.{size_of, float_size as size_of_float, short as shortest, head_layer, head_text, head_size, bytes_of, items_of, pairs_of};

use crate::heads::{Head, Size};
use crate::tree::{Item, Node};
use std::slice;

/// The shortest size of an argument (RFC 8949, 4.2.1).
pub fn size_for(n: u64) -> Size
    ensures { result ≡ size_of n }
{
    if n < 24 {
        return Size::Within;
    }
    if n < 0x100 {
        return Size::One;
    }
    if n < 0x1_0000 {
        return Size::Two;
    }
    if n < 0x1_0000_0000 {
        return Size::Four;
    }
    Size::Eight
}

pub fn short(major: u8, argument: u64) -> Head
    ensures { result ≡ shortest major argument }
{
    Head {
        major,
        size: size_for(argument),
        argument,
    }
}

fn float_size(width: u8) -> Size
    ensures { result ≡ size_of_float width }
{
    if width == 2 {
        return Size::Two;
    }
    if width == 4 {
        return Size::Four;
    }
    Size::Eight
}

/// The shortest head of an item (RFC 8949, 3).
pub fn node_head(node: &Node) -> Head
    ensures value { result ≡ head_layer (out-Node node.now) }
    ensures major { result.major < 8 }
{
    match node {
        Node::Uint(n) => short(0, *n),
        Node::Nint(n) => short(1, *n),
        Node::Bytes(bytes) => short(2, bytes.len() as u64),
        Node::Text(text) => short(3, text.len() as u64),
        Node::Array(items) => short(4, items.len() as u64),
        Node::Map(pairs) => short(5, pairs.len() as u64),
        Node::Tag(n, _) => short(6, *n),
        Node::Simple(n) => short(7, u64::from(*n)),
        Node::Float(width, bits) => Head {
            major: 7,
            size: float_size(*width),
            argument: *bits,
        },
    }
}

/// The bytes of a head, in the first places of nine, and their number.
pub fn head_bytes(head: Head) -> ([u8; 9], usize)
    requires major { head.major < 8 }
    requires argument { head.argument < limit head.size }
    ensures len { result.1 ≡ head_size head.size }
    ensures bytes { take result.1 result.0 ≡ head_text head }
    ensures array { length result.0 ≡ 9 }
{
    let first = head.major * 32;
    let n = head.argument;
    match head.size {
        Size::Within => ([first + n as u8, 0, 0, 0, 0, 0, 0, 0, 0], 1),
        Size::One => ([first + 24, n as u8, 0, 0, 0, 0, 0, 0, 0], 2),
        Size::Two => {
            let b = (n as u16).to_be_bytes();
            ([first + 25, b[0], b[1], 0, 0, 0, 0, 0, 0], 3)
        }
        Size::Four => {
            let b = (n as u32).to_be_bytes();
            ([first + 26, b[0], b[1], b[2], b[3], 0, 0, 0, 0], 5)
        }
        Size::Eight => {
            let b = n.to_be_bytes();
            (
                [first + 27, b[0], b[1], b[2], b[3], b[4], b[5], b[6], b[7]],
                9,
            )
        }
    }
}

/// The bytes of a string; none of another item.
pub fn bytes_in(node: &Node) -> &[u8]
    ensures { result.now ≡ bytes_of (out-Node node.now) }
{
    match node {
        Node::Bytes(bytes) => bytes.as_slice(),
        Node::Text(text) => text.as_slice(),
        _ => &[],
    }
}

/// The parts of an array or a tag; none of another item.
pub fn items_in(node: &Node) -> &[Item]
    ensures { result.now ≡ items_of (out-Node node.now) }
{
    match node {
        Node::Array(items) => items.as_slice(),
        Node::Tag(_, item) => slice::from_ref(item.get()),
        _ => &[],
    }
}

/// The pairs of a map; none of another item.
pub fn pairs_in(node: &Node) -> &[(Item, Item)]
    ensures { result.now ≡ pairs_of (out-Node node.now) }
{
    match node {
        Node::Map(pairs) => pairs.as_slice(),
        _ => &[],
    }
}

/// Whether the argument fits its size.
pub fn head_fits(head: Head) -> bool
    ensures { result ≡ nat_lt head.argument (limit head.size) }
{
    match head.size {
        Size::Within => head.argument < 24,
        Size::One => head.argument < 0x100,
        Size::Two => head.argument < 0x1_0000,
        Size::Four => head.argument < 0x1_0000_0000,
        Size::Eight => {
            let _argument = head.argument;
            true
        }
    }
}
