ghost use Rattle.std.specs.Prelude.{◌≡◌, ◌+◌, ◌<◌, ◌≤◌, length, Some, [], true};
ghost use Rattle.cbor_core.specs.declared.tree.Node.{out-Node};
ghost use Rattle.cbor_core.specs.Head.{limit};
ghost use Rattle.cbor_core.specs.Encoding.{HasRoomFor, Puts, head_text, content_layer, spell_each, spell_in, spell_layer, writer_in, flat};

use crate::heads::Head;
use crate::node_heads::{bytes_in, head_bytes, items_in, node_head, pairs_in};
use crate::tree::{Item, Node};
use crate::words::Grammar;

fn put_bytes(bytes: &[u8], out: &mut [u8], at: usize) -> usize
    requires { HasRoomFor (Some bytes.now) at (length out.old) }
    ensures { Puts (Some bytes.now) at out.old out.new result }
{
    let end = at + bytes.len();
    let place = &mut out[at..end];
    place.copy_from_slice(bytes);
    end
}

fn put_head(head: Head, out: &mut [u8], at: usize) -> usize
    requires major { head.major < 8 }
    requires argument { head.argument < limit head.size }
    requires room { HasRoomFor (Some (head_text head)) at (length out.old) }
    ensures { Puts (Some (head_text head)) at out.old out.new result }
{
    let (bytes, len) = head_bytes(head);
    put_bytes(&bytes[..len], out, at)
}

/// Writes the shortest spelling of an item from a place on, and says where it ends.
#[cycle(writing)]
pub fn put_item(g: Grammar, room: u8, item: &Item, out: &mut [u8], at: usize) -> usize
    requires { HasRoomFor (spell_in g room item.now) at (length out.old) }
    ensures { Puts (spell_in g room item.now) at out.old out.new result }
{
    let node = &item.node;
    let at = put_head(node_head(node), out, at);
    let at = put_bytes(bytes_in(node), out, at);
    if room == 0 {
        return at;
    }
    let at = put_items(g, room - 1, items_in(node), out, at);
    put_pairs(g, room - 1, pairs_in(node), out, at)
}

#[cycle(writing)]
fn put_items(g: Grammar, room: u8, items: &[Item], out: &mut [u8], at: usize) -> usize
    requires { HasRoomFor (spell_each (spell_in g room) items.now) at (length out.old) }
    ensures { Puts (spell_each (spell_in g room) items.now) at out.old out.new result }
{
    let mut at = at;
    for item in items {
        at = put_item(g, room, item, out, at);
    }
    at
}

#[cycle(writing)]
fn put_pairs(g: Grammar, room: u8, pairs: &[(Item, Item)], out: &mut [u8], at: usize) -> usize
    requires { HasRoomFor (spell_each (spell_in g room) (flat pairs.now)) at (length out.old) }
    ensures { Puts (spell_each (spell_in g room) (flat pairs.now)) at out.old out.new result }
{
    let mut at = at;
    for pair in pairs {
        at = put_item(g, room, &pair.0, out, at);
        at = put_item(g, room, &pair.1, out, at);
    }
    at
}
