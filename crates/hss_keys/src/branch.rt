// The trees on the way to an index.

ghost use Rattle.std.specs.Prelude.{◌≡◌, ◌⊎◌, ℕ, ◌+◌, ◌/◌, ◌%◌, ◌<◌, ◌≤◌, ◌∷◌, ◌++◌, IfOk, OnOk, OnErr, List, All, length, take};
ghost use Rattle.std.specs.List.{sum_by};
ghost use Rattle.lms_tree.specs.Types.{height, leaf_count, sig_len};
ghost use Rattle.lms_tree.specs.Nodes.{lms_public};
ghost use Rattle.hss_keys.specs.Levels.{CanSign, below_len, capacity};
ghost use Rattle.hss_keys.specs.Branches.{IsBranch};
ghost use Rattle.hss_keys.specs.Signing.{below_sig, child_key, public_of, sig_of, signed_child};

use crate::levels::capacity;
use lms_ots::put;
use lms_tree::{Level, OutOfMemory, Tree, lms_law, lms_sig_len};
use std::alloc::Global;

/// A tree below another one, with the other's signature on its key, and that key.
#[derive(Drop)]
pub struct Child {
    pub(crate) tree: Tree,
    pub(crate) signed: Vec<u8>,
}

// The tree of this level below leaf `q` of `parent`.
#[tactic(auto, unfolding(crate::specs::Signing::child_key))]
fn child_tree(alloc: Global, level: Level, parent: &Tree, q: u32) -> Result<Tree, OutOfMemory>
    requires sized { CanSign level }
    requires leaf { q < leaf_count parent.now.level }
    ensures { IfOk result (λ tree. tree ≡ child_key level parent.now q) }
{
    let below = parent.child(q);
    Tree::build(alloc, level, below.id, below.seed)
}

// The signature of leaf `q` of `parent` on the key, and the key.
fn sign_key(parent: &Tree, q: u32, public: &[u8; 56], out: &mut [u8])
    requires leaf { q < leaf_count parent.now.level }
    requires len { length out.old ≡ sig_len parent.now.level + 56 }
    ensures { out.new ≡ sig_of parent.now q public.now ++ public.now }
{
    let len = lms_sig_len(parent.level());
    parent.sign_into(q, public, &mut out[..len]);
    out[len..].copy_from_slice(public);
}

// The tree of this level below leaf `q` of `parent`, with the signature of its key.
fn child_of(alloc: Global, level: Level, parent: &Tree, q: u32) -> Result<Child, OutOfMemory>
    requires sized { CanSign level }
    requires leaf { q < leaf_count parent.now.level }
    ensures tree { IfOk result (λ child. child.tree ≡ child_key level parent.now q) }
    ensures signed { IfOk result (λ child. child.signed.items ≡ signed_child level parent.now q) }
{
    let tree = child_tree(alloc, level, parent, q)?;
    let public = tree.public();
    let mut signed = vec![in alloc; 0; lms_sig_len(parent.level()) + 56]?;
    sign_key(parent, q, &public, &mut signed);
    Ok(Child { tree, signed })
}

// The leaf of a level's tree on the way to the index.
fn leaf_of(level: Level, below: &[Level], index: u64) -> u32
    requires small { sum_by height (level ∷ below.now) ≤ 30 }
    requires index { index < capacity (level ∷ below.now) }
    ensures value { result ≡ index / capacity below.now }
    ensures leaf { result < leaf_count level }
{
    (index / capacity(below)) as u32
}

// The index in the levels below that leaf.
fn rest_of(below: &[Level], index: u64) -> u64
    requires { sum_by height below.now ≤ 30 }
    ensures value { result ≡ index % capacity below.now }
    ensures index { result < capacity below.now }
{
    index % capacity(below)
}

// The trees below `tree` on the way to the index, each with the signature of its key.
pub(crate) fn grow(
    alloc: Global,
    tree: &Tree,
    below: &[Level],
    index: u64,
) -> Result<Vec<Child>, OutOfMemory>
    requires small { sum_by height (tree.now.level ∷ below.now) ≤ 30 }
    requires each { All CanSign below.now }
    requires index { index < capacity (tree.now.level ∷ below.now) }
    ensures { IfOk result (λ lower. IsBranch tree.now below.now index lower.items) }
{
    if below.is_empty() {
        return Ok(Vec::new(alloc));
    }
    let q = leaf_of(tree.level(), below, index);
    let child = child_of(alloc, below[0], tree, q)?;
    let rest = rest_of(below, index);
    let mut lower = grow(alloc, &child.tree, &below[1..], rest)?;
    lower.insert(0, child)?;
    Ok(lower)
}

// Makes the trees of the index `new` out of those of the index `old`: it keeps those that both share.
pub(crate) fn regrow(
    alloc: Global,
    tree: &Tree,
    below: &[Level],
    lower: &mut [Child],
    old: u64,
    new: u64,
) -> Result<(), OutOfMemory>
    requires small { sum_by height (tree.now.level ∷ below.now) ≤ 30 }
    requires each { All CanSign below.now }
    requires old { old < capacity (tree.now.level ∷ below.now) }
    requires index { new < capacity (tree.now.level ∷ below.now) }
    requires held { IsBranch tree.now below.now old lower.old }
    ensures ok { OnOk result (IsBranch tree.now below.now new lower.new) }
    ensures err { OnErr result (lower.new ≡ lower.old) }
{
    if below.is_empty() {
        return Ok(());
    }
    if leaf_of(tree.level(), below, old) == leaf_of(tree.level(), below, new) {
        let old_rest = rest_of(below, old);
        let new_rest = rest_of(below, new);
        let (first, rest) = lower.split_at_mut(1);
        return regrow(alloc, &first[0].tree, &below[1..], rest, old_rest, new_rest);
    }
    let mut fresh = grow(alloc, tree, below, new)?;
    lower.swap_with_slice(&mut fresh);
    Ok(())
}

// Writes the signatures and next keys of `lower`, and behind them the signature of the last tree on
// `msg`, into `buf`.
pub(crate) fn write_below(
    tree: &Tree,
    below: &[Level],
    lower: &[Child],
    index: u64,
    msg: &[u8],
    buf: &mut [u8],
)
    requires named { length tree.now.id ≡ 16 }
    requires small { sum_by height (tree.now.level ∷ below.now) ≤ 30 }
    requires index { index < capacity (tree.now.level ∷ below.now) }
    requires held { IsBranch tree.now below.now index lower.now }
    requires len { length buf.old ≡ below_len tree.now.level below.now }
    ensures { buf.new ≡ below_sig tree.now below.now index msg.now }
{
    if below.is_empty() {
        tree.sign_into(leaf_of(tree.level(), below, index), msg, buf);
        return;
    }
    lms_law();
    let child = &lower[0];
    let end = put(buf, 0, &child.signed);
    let rest = rest_of(below, index);
    write_below(
        &child.tree,
        &below[1..],
        &lower[1..],
        rest,
        msg,
        &mut buf[end..],
    );
}
