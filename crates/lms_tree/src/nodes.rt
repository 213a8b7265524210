// Nodes of a tree (RFC 8554, 5.3).

ghost use Rattle.std.specs.Prelude.{◌≡◌};
ghost use Rattle.lms_tree.specs.Nodes.{leaf, parent};

use lms_ots::{Hash, OtsAt, prefix, put};
use sha2::{Digest, Sha256};

const D_LEAF: [u8; 2] = [0x82, 0x82];

const D_INTR: [u8; 2] = [0x83, 0x83];

// The leaf with the number `r` over a one-time key.
#[tactic(auto, unfolding(crate::specs::Nodes::leaf))]
pub(crate) fn leaf(id: [u8; 16], r: u32, key: &Hash) -> Hash
    ensures { result ≡ leaf id r key.now }
{
    let mut block = [0; 54];
    let end = put(&mut block, 0, &prefix(&OtsAt { id, q: r }, D_LEAF));
    put(&mut block, end, key);
    Sha256::digest(&block)
}

// The node with the number `r` over its children.
#[tactic(auto, unfolding(crate::specs::Nodes::parent))]
pub(crate) fn parent(id: [u8; 16], r: u32, left: &Hash, right: &Hash) -> Hash
    ensures { result ≡ parent id r left.now right.now }
{
    let mut block = [0; 86];
    let prefix_end = put(&mut block, 0, &prefix(&OtsAt { id, q: r }, D_INTR));
    let left_end = put(&mut block, prefix_end, left);
    put(&mut block, left_end, right);
    Sha256::digest(&block)
}
