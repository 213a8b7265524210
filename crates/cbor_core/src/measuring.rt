ghost use Rattle.std.specs.Prelude.{◌≡◌, ℕ, List, length, Option, Some, None, ◌≤◌, ◌<◌, [], IsSome, IsTrue, true};
ghost use Rattle.cbor_core.specs.declared.tree.Node.{out-Node};
ghost use Rattle.cbor_core.specs.Encoding.{size_of, head_size, len_of, sum_len, is_width, is_allowed as allowed, head_layer, content_layer, spell_each, spell_pairs, spell_layer, spell_in, writer_in, last_text, IsLast, text_or, may_follow};

use crate::comparing::compare_item;
use crate::heads::Size;
use crate::limits::{LONGEST_STRING, MOST_PARTS};
use crate::node_heads::{bytes_in, items_in, node_head, pairs_in};
use crate::reading::is_strict;
use crate::tree::{Item, Node};
use crate::words::Grammar;

const MOST: usize = 9_223_372_036_854_775_807;

/// How many bytes a head with an argument of this size has.
pub fn size_len(size: Size) -> usize
    ensures value { result ≡ head_size size }
    ensures small { result < 10 }
{
    match size {
        Size::Within => 1,
        Size::One => 2,
        Size::Two => 3,
        Size::Four => 5,
        Size::Eight => 9,
    }
}

fn sum(a: Option<usize>, b: Option<usize>) -> Option<usize>
    ensures { result ≡ sum_len a b }
{
    let Some(a) = a else {
        return None;
    };
    let Some(b) = b else {
        return None;
    };
    if a > MOST {
        return None;
    }
    if b > MOST - a {
        return None;
    }
    Some(a + b)
}

fn fits_width(width: u8, bits: u64) -> bool
    ensures { result ≡ is_width width bits }
{
    if width == 2 && bits < 0x1_0000 {
        return true;
    }
    if width == 4 && bits < 0x1_0000_0000 {
        return true;
    }
    width == 8
}

fn is_allowed(g: Grammar, room: u8, node: &Node) -> bool
    ensures { result ≡ allowed g room (out-Node node.now) }
{
    match node {
        Node::Uint(n) => {
            let _argument = *n;
            true
        }
        Node::Nint(n) => {
            let _argument = *n;
            true
        }
        Node::Bytes(bytes) => bytes.len() as u64 <= LONGEST_STRING,
        Node::Text(text) => {
            let text = text.as_slice();
            text.len() as u64 <= LONGEST_STRING
        }
        Node::Array(items) => room > 0 && items.len() as u64 <= MOST_PARTS,
        Node::Map(pairs) => room > 0 && pairs.len() as u64 <= MOST_PARTS,
        Node::Tag(n, _) => {
            let _argument = *n;
            room > 0
        }
        Node::Simple(n) => *n < 24 || *n >= 32,
        Node::Float(width, bits) => !is_strict(g) && fits_width(*width, *bits),
    }
}

/// How many bytes the shortest spelling of an item has, if it has one and not too many.
#[cycle(measuring)]
pub fn item_len(g: Grammar, room: u8, item: &Item) -> Option<usize>
    ensures { result ≡ len_of (spell_in g room item.now) }
{
    node_len(g, room, &item.node)
}

#[cycle(measuring)]
fn node_len(g: Grammar, room: u8, node: &Node) -> Option<usize>
    ensures { result ≡ len_of (spell_layer g room (writer_in g room) (out-Node node.now)) }
{
    if !is_allowed(g, room, node) {
        return None;
    }
    let head = node_head(node);
    sum(Some(size_len(head.size)), content_len(g, room, node))
}

#[cycle(measuring)]
fn content_len(g: Grammar, room: u8, node: &Node) -> Option<usize>
    requires { allowed g room (out-Node node.now) ≡ true }
    ensures { result ≡ len_of (content_layer g (writer_in g room) (out-Node node.now)) }
{
    let bytes = Some(bytes_in(node).len());
    if room == 0 {
        return sum(bytes, Some(0));
    }
    let items = items_len(g, room - 1, items_in(node));
    let pairs = pairs_len(g, room - 1, pairs_in(node));
    sum(bytes, sum(items, pairs))
}

#[cycle(measuring)]
fn items_len(g: Grammar, room: u8, items: &[Item]) -> Option<usize>
    ensures { result ≡ len_of (spell_each (spell_in g room) items.now) }
{
    let mut total = Some(0);
    for item in items {
        total = sum(total, item_len(g, room, item));
    }
    total
}

#[cycle(measuring)]
fn pairs_len(g: Grammar, room: u8, pairs: &[(Item, Item)]) -> Option<usize>
    ensures { result ≡ len_of (spell_pairs g (spell_in g room) [] pairs.now) }
{
    let mut total = Some(0);
    let mut last = None;
    for pair in pairs {
        let key = item_len(g, room, &pair.0);
        let Some(_) = key else {
            return None;
        };
        if !may_come(g, room, last, &pair.0) {
            return None;
        }
        total = sum(total, sum(key, item_len(g, room, &pair.1)));
        last = Some(&pair.0);
    }
    total
}

fn may_come(g: Grammar, room: u8, last: Option<&Item>, key: &Item) -> bool
    ensures { IsLast g room last.entry → IsSome (spell_in g room key.now) → result ≡ may_follow g (last_text g room last.entry) (text_or (spell_in g room key.now)) }
{
    if !is_strict(g) {
        return true;
    }
    let Some(last) = last else {
        return true;
    };
    compare_item(room, last, key).is_lt()
}
