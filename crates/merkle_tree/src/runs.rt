//! Roots of runs of leaves, read from the roots of whole subtrees, and proofs by the standard's own recursion.
ghost use Rattle.std.specs.Prelude.{◌≡◌, ℕ, ◌+◌, ◌^◌, ◌<◌, ◌≤◌, ◌++◌, length, take, drop, slice_get, Some, OnOk};
ghost use Rattle.merkle_tree.specs.Paths.{tree_path};
ghost use Rattle.merkle_tree.specs.Consistency.{tree_sub};
ghost use Rattle.merkle_tree.specs.Subtrees.{IsAligned, root_of_run};

use crate::hashes::{Hash, node_hash};
use crate::path::Path;
use crate::plain::split_point;
use std::alloc::AllocError;
use std::marker::Model;

/// The leaves of a table with the roots of their whole subtrees, and more leaves behind them. A clause sees it as the
/// list of all these leaves.
#[derive(Drop)]
pub(crate) struct Runs<'a> {
    pub(crate) leaves: &'a [Hash],
    pub(crate) inner: &'a [Hash],
    pub(crate) more: &'a [Hash],
}

impl<'a> Model for Runs<'a> {
    ghost use Rattle.std.specs.Prelude.{◌≡◌, ℕ, ◌+◌, ◌<◌, ◌^◌, ◌++◌, List, length};
    ghost use Rattle.merkle_tree.specs.Subtrees.{HasInner};

    ghost Value = { List (List ℕ) };

    ghost view = { λ r. r.leaves.now ++ r.more.now };

    ghost invariant = { λ r. HasInner r.leaves.now r.inner.now × (length r.inner.now ≡ length r.leaves.now) × (length r.leaves.now + length r.more.now < 2 ^ 32) };
}

impl<'a> Runs<'a> {
    fn leaf(&self, place: usize) -> Hash
        requires { place < length self.now }
        ensures { slice_get self.now place ≡ Some result }
    {
        if place < self.leaves.len() {
            self.leaves[place]
        } else {
            self.more[place - self.leaves.len()]
        }
    }

    /// The root of `len` leaves from a place on. A whole subtree of the table's leaves is read.
    pub(crate) fn root(&self, from: usize, len: usize) -> Hash
        requires some { 0 < len }
        requires within { from + len ≤ length self.now }
        requires aligned { IsAligned from len }
        ensures { result ≡ root_of_run self.now from len }
    {
        if len == 1 {
            return self.leaf(from);
        }
        let point = split_point(len);
        if len == 2 * point && from + len <= self.leaves.len() {
            return self.inner[from + point];
        }
        node_hash(
            &self.root(from, point),
            &self.root(from + point, len - point),
        )
    }

    /// Adds the path of a leaf in a run.
    pub(crate) fn put_path(
        &self,
        path: &mut Path,
        from: usize,
        len: usize,
        index: usize,
    ) -> Result<(), AllocError>
        requires inside { index < len }
        requires few { length self.now < 2 ^ 32 }
        requires within { from + len ≤ length self.now }
        requires aligned { IsAligned from len }
        ensures { OnOk result (path.new ≡ path.old ++ tree_path index (take len (drop from self.now))) }
    {
        if len < 2 {
            return Ok(());
        }
        let point = split_point(len);
        if index < point {
            self.put_path(path, from, point, index)?;
            path.push(self.root(from + point, len - point))
        } else {
            self.put_path(path, from + point, len - point, index - point)?;
            path.push(self.root(from, point))
        }
    }

    /// Adds the proof that the tree of a run begins with that of its first leaves.
    pub(crate) fn put_proof(
        &self,
        path: &mut Path,
        from: usize,
        len: usize,
        old: usize,
        whole: bool,
    ) -> Result<(), AllocError>
        requires some { 0 < old }
        requires inside { old ≤ len }
        requires few { length self.now < 2 ^ 32 }
        requires within { from + len ≤ length self.now }
        requires aligned { IsAligned from len }
        ensures { OnOk result (path.new ≡ path.old ++ tree_sub old whole (take len (drop from self.now))) }
    {
        if old == len {
            if whole {
                return Ok(());
            }
            return path.push(self.root(from, len));
        }
        let point = split_point(len);
        if old <= point {
            self.put_proof(path, from, point, old, whole)?;
            path.push(self.root(from + point, len - point))
        } else {
            self.put_proof(path, from + point, len - point, old - point, false)?;
            path.push(self.root(from, point))
        }
    }
}
