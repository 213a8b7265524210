//! The roots of the whole subtrees that a leaf ends.
ghost use Rattle.std.specs.Prelude.{◌≡◌, ◌+◌, ◌<◌, ◌^◌, length};
ghost use Rattle.merkle_tree.specs.Subtrees.{HasInner, HasInnerUpTo};

use crate::hashes::{Hash, node_hash};

/// Notes the root of each whole subtree that the last leaf ends, where those that end before are noted. Each root has the
/// place of its subtree's middle.
pub(crate) fn note_subtrees(leaves: &[Hash], inner: &mut [Hash])
    requires some { 0 < length leaves.now }
    requires few { length leaves.now < 2 ^ 32 }
    requires places { length inner.old ≡ length leaves.now }
    requires before { HasInnerUpTo 0 leaves.now inner.old }
    ensures { HasInner leaves.now inner.new }
{
    let size = leaves.len();
    let mut node = leaves[size - 1];
    let mut half = 1;
    while size % (2 * half) == 0 {
        let middle = size - half;
        let left = if half == 1 {
            leaves[middle - 1]
        } else {
            inner[middle - half / 2]
        };
        node = node_hash(&left, &node);
        inner[middle] = node;
        half *= 2;
    }
}
