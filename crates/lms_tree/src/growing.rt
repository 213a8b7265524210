// The nodes of a tree, and the path of a leaf (RFC 8554, 5.3 and 5.4.1).

ghost use Rattle.std.specs.Prelude.{◌≡◌, ℕ, ◌+◌, ◌*◌, ◌<◌, ◌≤◌, ◌++◌, List, length, take};
ghost use Rattle.lms_ots.specs.Words.{joined};
ghost use Rattle.lms_tree.specs.Types.{height, leaf_count};
ghost use Rattle.lms_tree.specs.Nodes.{path_node, sibling};
ghost use Rattle.lms_tree.specs.Trees.{HoldsNodes};

use crate::nodes::{leaf, parent};
use crate::table::{height, leaf_count};
use crate::types::Level;
use lms_ots::{Hash, OtsAt, ots_key_into, put, word_law};

// Writes all nodes of the tree, each at the place of its number.
pub(crate) fn fill(nodes: &mut [Hash], level: Level, id: [u8; 16], seed: &Hash)
    requires { length nodes.old ≡ 2 * leaf_count level }
    ensures { HoldsNodes level id seed.now nodes.new 1 }
{
    fill_leaves(nodes, level, id, seed);
    fill_inner(nodes, level, id);
}

// Writes the leaves, each at the place of its number.
fn fill_leaves(nodes: &mut [Hash], level: Level, id: [u8; 16], seed: &Hash)
    requires { length nodes.old ≡ 2 * leaf_count level }
    ensures { HoldsNodes level id seed.now nodes.new (leaf_count level) }
{
    let first = leaf_count(level);
    for q in 0..first {
        let key = ots_key_into(level.ots, &OtsAt { id, q }, seed);
        nodes[(first + q) as usize] = leaf(id, first + q, &key);
    }
}

// Writes the nodes above the leaves, from the last one down to the root.
fn fill_inner(nodes: &mut [Hash], level: Level, id: [u8; 16])
    requires { length nodes.old ≡ 2 * leaf_count level }
    ensures { (seed : List ℕ) → HoldsNodes level id seed nodes.old (leaf_count level)
        → HoldsNodes level id seed nodes.new 1 }
{
    for r in (1..leaf_count(level)).rev() {
        let left = 2 * r as usize;
        nodes[r as usize] = parent(id, r, &nodes[left], &nodes[left + 1]);
    }
}

// The node beside `r`: r xor 1.
fn sibling(r: u32) -> u32
    requires { r < 2147483648 }
    ensures { result ≡ sibling r }
{
    if r % 2 == 0 { r + 1 } else { r - 1 }
}

// Writes the path of leaf `q` into `buf` from byte `start` on, from the leaf up.
pub(crate) fn write_path(nodes: &[Hash], level: Level, q: u32, buf: &mut [u8], start: usize)
    requires whole { length nodes.now ≡ 2 * leaf_count level }
    requires leaf { q < leaf_count level }
    requires room { start + 32 * height level ≤ length buf.old }
    ensures { (id seed : List ℕ) → HoldsNodes level id seed nodes.now 1
        → take (start + 32 * height level) buf.new
        ≡ take start buf.old ++ joined (path_node level id seed q) (height level) }
{
    word_law();
    let mut number = leaf_count(level) + q;
    let mut place = start;
    for _ in 0..height(level) {
        place = put(buf, place, &nodes[sibling(number) as usize]);
        number /= 2;
    }
}
