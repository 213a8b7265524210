// The table of leaves.

ghost use Rattle.std.specs.Prelude.{◌≡◌, ℕ, ◌+◌, ◌^◌, ◌<◌, ◌≤◌, List, [], ◌∷◌, ◌++◌, length, take, map, slice_get, Some, OnOk, OnErr, IfOk};
ghost use Rattle.merkle_tree.specs.Mth.{leaf_hash, mth, tree_root};
ghost use Rattle.merkle_tree.specs.Paths.{path_of, tree_path};
ghost use Rattle.merkle_tree.specs.Consistency.{proof_of, tree_proof};

use crate::hashes::{Hash, empty_root};
use crate::noting::note_subtrees;
use crate::path::Path;
use crate::runs::Runs;
use std::alloc::{AllocError, Global};
use std::marker::Model;

/// The leaves of a tree by their hashes, with room for more, and the roots of their whole subtrees.
#[derive(Drop)]
pub struct NodeTable {
    alloc: Global,
    leaves: Vec<Hash>,
    // The root of each whole subtree of two leaves and more stands at the place of its middle; what stands elsewhere means
    // nothing.
    inner: Vec<Hash>,
    spare: u32,
}

impl Model for NodeTable {
    ghost use Rattle.std.specs.Prelude.{◌≡◌, ℕ, ◌+◌, ◌≤◌, ◌<◌, ◌^◌, length, vec_len, vec_capacity};
    ghost use Rattle.merkle_tree.specs.Table.{Table};
    ghost use Rattle.merkle_tree.specs.Subtrees.{HasInner};

    ghost Value = { Table };

    ghost view = { λ t. record { leaves = t.leaves.items; spare = t.spare } };

    ghost invariant = { λ t. (vec_len t.leaves + t.spare ≤ vec_capacity t.leaves) × (vec_len t.inner + t.spare ≤ vec_capacity t.inner) × (vec_len t.leaves < 2 ^ 32) × (vec_len t.inner ≡ vec_len t.leaves) × HasInner t.leaves.items t.inner.items };
}

impl NodeTable {
    /// No leaves, and no room.
    pub fn new(alloc: Global) -> NodeTable
        ensures leaves { result.leaves ≡ [] }
        ensures spare { result.spare ≡ 0 }
    {
        NodeTable {
            alloc,
            leaves: Vec::new(alloc),
            inner: Vec::new(alloc),
            spare: 0,
        }
    }

    /// Makes room for one leaf more, where there is none. Without memory the table stays as it was.
    pub fn reserve(&mut self) -> Result<(), AllocError>
        requires few { length self.old.leaves < 4294967295 }
        ensures leaves { self.new.leaves ≡ self.old.leaves }
        ensures ok { OnOk result (1 ≤ self.new.spare) }
        ensures err { OnErr result (self.new ≡ self.old) }
    {
        if self.spare == 0 {
            self.leaves.reserve(1)?;
            self.inner.reserve(1)?;
            self.spare = 1;
        }
        Ok(())
    }

    /// Adds a leaf by its hash. It takes no memory, and one node hash on average.
    pub fn push(&mut self, leaf: Hash)
        requires few { length self.old.leaves < 4294967295 }
        requires room { 0 < self.old.spare }
        ensures leaves { self.new.leaves ≡ self.old.leaves ++ leaf ∷ [] }
        ensures spare { self.new.spare + 1 ≡ self.old.spare }
    {
        self.leaves.push(leaf).unwrap();
        self.inner.push([0; 32]).unwrap();
        self.spare -= 1;
        note_subtrees(self.leaves.as_slice(), self.inner.as_mut_slice());
    }

    /// How many leaves there are.
    pub fn size(&self) -> u32
        ensures { result ≡ length self.now.leaves }
    {
        self.leaves.len() as u32
    }

    /// How many more leaves may be pushed without memory.
    pub fn spare(&self) -> u32
        ensures { result ≡ self.now.spare }
    {
        self.spare
    }

    /// The hash of a leaf.
    pub fn leaf(&self, index: u32) -> Hash
        requires { index < length self.now.leaves }
        ensures { slice_get self.now.leaves index ≡ Some result }
    {
        self.leaves[index as usize]
    }

    /// The root of the first leaves.
    pub fn root_at(&self, size: u32) -> Hash
        requires { size ≤ length self.now.leaves }
        ensures root { result ≡ tree_root (take size self.now.leaves) }
        ensures of_entries { (entries : List (List ℕ)) → map leaf_hash entries ≡ take size self.now.leaves → result ≡ mth entries }
    {
        if size == 0 {
            return empty_root();
        }
        self.runs().root(0, size as usize)
    }

    /// The path from a leaf to the root of the first leaves (RFC 9162, 2.1.3.1).
    pub fn path(&self, index: u32, size: u32) -> Result<Path, AllocError>
        requires inside { index < size }
        requires within { size ≤ length self.now.leaves }
        ensures path { IfOk result (λ path. path ≡ tree_path index (take size self.now.leaves)) }
        ensures of_entries { (entries : List (List ℕ)) → map leaf_hash entries ≡ take size self.now.leaves → IfOk result (λ path. path ≡ path_of index entries) }
    {
        let mut path = Path::new(self.alloc);
        let runs = self.runs();
        runs.put_path(&mut path, 0, size as usize, index as usize)?;
        Ok(path)
    }

    /// The proof that the tree of the first `size` leaves begins with that of the first `old` ones (RFC 9162, 2.1.4.1).
    pub fn consistency(&self, old: u32, size: u32) -> Result<Path, AllocError>
        requires some { 0 < old }
        requires inside { old ≤ size }
        requires within { size ≤ length self.now.leaves }
        ensures proof { IfOk result (λ path. path ≡ tree_proof old (take size self.now.leaves)) }
        ensures of_entries { (entries : List (List ℕ)) → map leaf_hash entries ≡ take size self.now.leaves → IfOk result (λ path. path ≡ proof_of old entries) }
    {
        let mut path = Path::new(self.alloc);
        let runs = self.runs();
        runs.put_proof(&mut path, 0, size as usize, old as usize, true)?;
        Ok(path)
    }

    /// The root of the leaves followed by more of them. It takes no memory, and leaves the table as it is.
    pub fn root_with(&self, more: &[Hash]) -> Hash
        requires { length self.now.leaves + length more.now ≤ 4294967295 }
        ensures root { result ≡ tree_root (self.now.leaves ++ more.now) }
        ensures of_entries { (entries : List (List ℕ)) → map leaf_hash entries ≡ self.now.leaves ++ more.now → result ≡ mth entries }
    {
        let size = self.leaves.len() + more.len();
        if size == 0 {
            return empty_root();
        }
        self.runs_with(more).root(0, size)
    }

    /// The path of a leaf in the tree of the leaves followed by more of them.
    pub fn path_with(&self, more: &[Hash], index: u32) -> Result<Path, AllocError>
        requires fits { length self.now.leaves + length more.now ≤ 4294967295 }
        requires inside { index < length self.now.leaves + length more.now }
        ensures path { IfOk result (λ path. path ≡ tree_path index (self.now.leaves ++ more.now)) }
        ensures of_entries { (entries : List (List ℕ)) → map leaf_hash entries ≡ self.now.leaves ++ more.now → IfOk result (λ path. path ≡ path_of index entries) }
    {
        let mut path = Path::new(self.alloc);
        let size = self.leaves.len() + more.len();
        let runs = self.runs_with(more);
        runs.put_path(&mut path, 0, size, index as usize)?;
        Ok(path)
    }

    fn runs(&self) -> Runs<'_>
        ensures leaves { result ≡ self.now.leaves }
        ensures few { length self.now.leaves < 2 ^ 32 }
    {
        Runs {
            leaves: self.leaves.as_slice(),
            inner: self.inner.as_slice(),
            more: &[],
        }
    }

    // The leaves followed by more of them.
    fn runs_with<'a>(&'a self, more: &'a [Hash]) -> Runs<'a>
        requires { length self.now.leaves + length more.now ≤ 4294967295 }
        ensures { result ≡ self.now.leaves ++ more.now }
    {
        Runs {
            leaves: self.leaves.as_slice(),
            inner: self.inner.as_slice(),
            more,
        }
    }
}
