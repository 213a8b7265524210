// Laws over all lists of entries, paths and proofs.

ghost use Rattle.std.specs.Prelude.{◌≡◌, ℕ, ◌-◌, ◌<◌, ◌≤◌, List, [], ◌∷◌, ◌++◌, length, take, drop, map, slice_get, Some, Bool, false};
ghost use Rattle.sha2.specs.Sha256.{sha256};
ghost use Rattle.merkle_tree.specs.Mth.{leaf_hash, node_hash, split_point, mth, tree_root, IsLargestPowerBelow, IsWholeFront};
ghost use Rattle.merkle_tree.specs.Paths.{path_of, root_from, tree_path};
ghost use Rattle.merkle_tree.specs.Consistency.{proof_of, roots_from, sub_of, tree_proof, unless_whole};
ghost use Rattle.merkle_tree.specs.Inputs.{Collides, path_inputs, proof_inputs, tree_inputs};

/// The equations by which RFC 9162, 2.1.1 defines the root of a list of entries hold of `mth`, for
/// every list. A longer list is split at the largest power of two smaller than its length.
pub fn mth_laws()
    ensures empty { mth [] ≡ sha256 [] }
    ensures one { (entry : List ℕ) → mth (entry ∷ []) ≡ sha256 (0 ∷ entry) }
    ensures more { (entries : List (List ℕ)) → 2 ≤ length entries → let k = split_point (length entries) in
        mth entries ≡ sha256 (1 ∷ mth (take k entries) ++ mth (drop k entries)) }
    ensures split { (n : ℕ) → 2 ≤ n → IsLargestPowerBelow n (split_point n) }
    ensures joined { (front back : List (List ℕ)) → IsWholeFront front back
        → mth (front ++ back) ≡ node_hash (mth front) (mth back) }
{}

/// The root over leaf hashes follows the same equations, where one leaf is its own root, and is the
/// root of the entries that have these hashes.
pub fn tree_root_laws()
    ensures empty { tree_root [] ≡ sha256 [] }
    ensures one { (leaf : List ℕ) → tree_root (leaf ∷ []) ≡ leaf }
    ensures more { (leaves : List (List ℕ)) → 2 ≤ length leaves → let k = split_point (length leaves) in
        tree_root leaves ≡ node_hash (tree_root (take k leaves)) (tree_root (drop k leaves)) }
    ensures joined { (front back : List (List ℕ)) → IsWholeFront front back
        → tree_root (front ++ back) ≡ node_hash (tree_root front) (tree_root back) }
    ensures of_entries { (entries : List (List ℕ)) → mth entries ≡ tree_root (map leaf_hash entries) }
{}

/// Where no two strings that are hashed collide, an entry that leads to the root of a list stands there, and so
/// it does in every list that begins with that one.
pub fn inclusion_laws()
    ensures included { (m n : ℕ) (entry root : List ℕ) (path entries : List (List ℕ)) → root_from m n (leaf_hash entry) path ≡ Some root
        → length entries ≡ n → mth entries ≡ root → (Collides (path_inputs m n entry path) (tree_inputs entries) → ⊥) → slice_get entries m ≡ Some entry }
    ensures longer { (m n : ℕ) (entry root : List ℕ) (path entries : List (List ℕ)) → root_from m n (leaf_hash entry) path ≡ Some root
        → n ≤ length entries → mth (take n entries) ≡ root → (Collides (path_inputs m n entry path) (tree_inputs (take n entries)) → ⊥)
        → slice_get entries m ≡ Some entry }
{}

/// Where no two strings that are hashed collide, a consistency proof leads from the root of a list to the
/// root of a list that it begins.
pub fn consistency_laws()
    ensures begins { (m n : ℕ) (old : List ℕ) (roots : List ℕ × List ℕ) (path entries more : List (List ℕ)) → roots_from m n old path ≡ Some roots
        → length entries ≡ m → length more ≡ n → mth entries ≡ roots.0 → mth more ≡ roots.1
        → (Collides (proof_inputs m n old path) (tree_inputs entries) → ⊥)
        → (Collides (proof_inputs m n old path) (tree_inputs more) → ⊥)
        → (Collides (tree_inputs entries) (tree_inputs more) → ⊥)
        → take m more ≡ entries }
{}

/// The equations by which RFC 9162, 2.1.3.1 defines a path hold of `path_of`, and a path leads from its leaf to the root.
pub fn path_laws()
    ensures one { (m : ℕ) (entry : List ℕ) → path_of m (entry ∷ []) ≡ [] }
    ensures left { (m : ℕ) (entries : List (List ℕ)) → 2 ≤ length entries → m < split_point (length entries) → let k = split_point (length entries) in
        path_of m entries ≡ path_of m (take k entries) ++ mth (drop k entries) ∷ [] }
    ensures right { (m : ℕ) (entries : List (List ℕ)) → 2 ≤ length entries → split_point (length entries) ≤ m → let k = split_point (length entries) in
        path_of m entries ≡ path_of (m - k) (drop k entries) ++ mth (take k entries) ∷ [] }
    ensures leads { (m : ℕ) (entry : List ℕ) (entries : List (List ℕ)) → slice_get entries m ≡ Some entry
        → root_from m (length entries) (leaf_hash entry) (path_of m entries) ≡ Some (mth entries) }
    ensures leaves { (m : ℕ) (leaf : List ℕ) (leaves : List (List ℕ)) → slice_get leaves m ≡ Some leaf
        → root_from m (length leaves) leaf (tree_path m leaves) ≡ Some (tree_root leaves) }
    ensures of_entries { (m : ℕ) (entries : List (List ℕ)) → path_of m entries ≡ tree_path m (map leaf_hash entries) }
{}

/// The equations by which RFC 9162, 2.1.4.1 defines a consistency proof hold of `sub_of`, of which `proof_of` is the case
/// where the old root is known, and a proof leads to the roots of both trees.
pub fn proof_laws()
    ensures whole { (m : ℕ) (known : Bool) (entries : List (List ℕ)) → 0 < m → m ≡ length entries → sub_of m known entries ≡ unless_whole known (mth entries) }
    ensures left { (m : ℕ) (known : Bool) (entries : List (List ℕ)) → 2 ≤ length entries → m < length entries → m ≤ split_point (length entries) → let k = split_point (length entries) in
        sub_of m known entries ≡ sub_of m known (take k entries) ++ mth (drop k entries) ∷ [] }
    ensures right { (m : ℕ) (known : Bool) (entries : List (List ℕ)) → 2 ≤ length entries → m < length entries → split_point (length entries) < m → let k = split_point (length entries) in
        sub_of m known entries ≡ sub_of (m - k) false (drop k entries) ++ mth (take k entries) ∷ [] }
    ensures joins { (m : ℕ) (entries : List (List ℕ)) → 0 < m → m ≤ length entries
        → roots_from m (length entries) (mth (take m entries)) (proof_of m entries) ≡ Some (mth (take m entries), mth entries) }
    ensures leaves { (m : ℕ) (leaves : List (List ℕ)) → 0 < m → m ≤ length leaves
        → roots_from m (length leaves) (tree_root (take m leaves)) (tree_proof m leaves) ≡ Some (tree_root (take m leaves), tree_root leaves) }
    ensures of_entries { (m : ℕ) (entries : List (List ℕ)) → proof_of m entries ≡ tree_proof m (map leaf_hash entries) }
{}
