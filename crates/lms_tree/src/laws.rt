// Laws over all trees.

ghost use Rattle.lms_tree.specs.Laws.{LmsLaws};

use lms_ots::{ots_law, word_law};

/// The signature of any leaf of any tree, on any message, has its level's length and types, begins
/// with the leaf's number and verifies under the tree's public key, which has 56 bytes and names the
/// level; the identifier of a tree below a leaf has 16 bytes.
pub fn lms_law()
    ensures { LmsLaws }
{
    word_law();
    ots_law();
}
