use merkle_tree::{
    Hash, NodeTable, consistency_laws, inclusion_laws, leaf_hash, node_hash, path_laws, proof_laws,
    root_from_path, roots_from_consistency, tree_hash,
};
use std::alloc::{AllocError, Global};
use std::process::Abort;
use std::test::Fail;

// The leaf hashes of the entries a, b and c, and the node over the first two: computed in Python with hashlib.
const A: &str = "022a6979e6dab7aa5ae4c3e5e45f7e977112a7e63593820dbec1ec738a24f93c";

const B: &str = "57eb35615d47f34ec714cacdf5fd74608a5e8e102724e80b24b287c0c27b6a31";

const C: &str = "597fcb31282d34654c200d3418fca5705c648ebf326ec73d8ddef11841f876d8";

const AB: &str = "b137985ff484fb600db93107c77b0365c80d78f5b429ded0fd97361d077999eb";

const ABC: &str = "36642e73c2540ab121e3a6bf9545b0a24982cd830eb13d3cd19de3ce6c021ec1";

const SIZES: u32 = 70;

fn table_of(rt: &impl Abort, alloc: Global, leaves: &[Hash]) -> Result<NodeTable, AllocError> {
    let mut table = NodeTable::new(alloc);
    for leaf in leaves {
        assert!(rt; table.size() < u32::MAX);
        table.reserve()?;
        table.push(*leaf);
    }
    Ok(table)
}

fn numbered(alloc: Global, count: u32) -> Result<Vec<Hash>, AllocError> {
    let mut leaves = Vec::new(alloc);
    for i in 0..count {
        leaves.push(leaf_hash(i.to_be_bytes().as_slice()))?;
    }
    Ok(leaves)
}

fn text(alloc: Global, hashes: &[Hash]) -> Result<String, AllocError> {
    let mut all = String::new(alloc);
    for hash in hashes {
        all.push_str(hex::encode(alloc, hash.as_slice())?.as_str())?;
    }
    Ok(all)
}

fn paired(alloc: Global, nodes: &[Hash]) -> Result<Vec<Hash>, AllocError> {
    let mut above = Vec::new(alloc);
    for pair in nodes.chunks(2) {
        match pair {
            [left, right] => above.push(node_hash(left, right))?,
            [alone] => above.push(*alone)?,
            _ => (),
        }
    }
    Ok(above)
}

// A plain program of this test's own, from the leaves up: the nodes of each level, where one without a
// partner goes up as it is. The last level is the root.
fn levels_of(alloc: Global, leaves: &[Hash]) -> Result<Vec<Vec<Hash>>, AllocError> {
    let mut levels = Vec::new(alloc);
    let mut nodes = Vec::from_slice(alloc, leaves)?;
    for _ in 0..8 {
        let above = paired(alloc, nodes.as_slice())?;
        levels.push(nodes)?;
        nodes = above;
    }
    levels.push(nodes)?;
    Ok(levels)
}

fn push_sibling(path: &mut Vec<Hash>, nodes: &[Hash], place: usize) -> Result<(), AllocError> {
    if let Some(sibling) = nodes.get(place ^ 1) {
        path.push(*sibling)?;
    }
    Ok(())
}

fn plain_path(alloc: Global, levels: &[Vec<Hash>], index: usize) -> Result<Vec<Hash>, AllocError> {
    let mut path = Vec::new(alloc);
    let mut place = index;
    for nodes in levels {
        push_sibling(&mut path, nodes.as_slice(), place)?;
        place /= 2;
    }
    Ok(path)
}

// From the last old leaf up: above the whole old subtrees that end with it, first the node that stands
// there, unless it is the old tree itself, and then each sibling.
fn plain_proof(
    alloc: Global,
    levels: &[Vec<Hash>],
    last_old: usize,
) -> Result<Vec<Hash>, AllocError> {
    let mut path = Vec::new(alloc);
    let mut place = last_old;
    let mut whole = true;
    for nodes in levels {
        if whole && place % 2 == 0 {
            whole = false;
            if let (Some(node), true) = (nodes.get(place), place > 0) {
                path.push(*node)?;
            }
        }
        if !whole {
            push_sibling(&mut path, nodes.as_slice(), place)?;
        }
        place /= 2;
    }
    Ok(path)
}

fn three(rt: &impl Abort, alloc: Global) -> Result<NodeTable, AllocError> {
    table_of(
        rt,
        alloc,
        &[leaf_hash(b"a"), leaf_hash(b"b"), leaf_hash(b"c")],
    )
}

#[test]
fn three_leaves(rt: HostRuntime) -> Result<(), Fail> {
    let table = three(&rt, rt.alloc())?;
    assert_eq!(rt; table.size(), 3);
    let first = table.path(0, 3)?;
    assert_eq!(rt;
        text(rt.alloc(), first.as_slice())?,
        format!(in rt.alloc(); "{B}{C}")?
    );
    let last = table.path(2, 3)?;
    assert_eq!(rt; text(rt.alloc(), last.as_slice())?.as_str(), AB);
    let grown = table.consistency(2, 3)?;
    assert_eq!(rt; text(rt.alloc(), grown.as_slice())?.as_str(), C);
    assert_eq!(rt; table.consistency(3, 3)?.len(), 0);
    assert_eq!(rt;
        text(
            rt.alloc(),
            &[table.leaf(0), table.root_at(2), table.root_at(3)]
        )?,
        format!(in rt.alloc(); "{A}{AB}{ABC}")?
    );
    Ok(())
}

#[test]
fn paths_that_do_not_fit(rt: HostRuntime) {
    let (a, b) = (leaf_hash(b"a"), leaf_hash(b"b"));
    assert!(rt; root_from_path(0, 3, &a, &[b]).is_none());
    assert!(rt; root_from_path(0, 3, &a, &[b, b]).is_some());
    assert!(rt; root_from_path(0, 3, &a, &[b, b, b]).is_none());
    assert!(rt; root_from_path(3, 3, &a, &[b, b]).is_none());
    assert!(rt; root_from_path(0, 0, &a, &[]).is_none());
    assert!(rt; root_from_path(0, 1, &a, &[]) == Some(a));
    assert!(rt; root_from_path(0, 1, &a, &[b]).is_none());
    assert!(rt; roots_from_consistency(0, 3, &a, &[b]).is_none());
    assert!(rt; roots_from_consistency(4, 3, &a, &[b]).is_none());
    assert!(rt; roots_from_consistency(3, 3, &a, &[]) == Some((a, a)));
    assert!(rt; roots_from_consistency(3, 3, &a, &[b]).is_none());
    assert!(rt; roots_from_consistency(2, 3, &a, &[]).is_none());
    assert!(rt; roots_from_consistency(2, 3, &a, &[b]) == Some((a, node_hash(&a, &b))));
    assert!(rt; roots_from_consistency(2, 3, &a, &[b, b]).is_none());
    inclusion_laws();
    consistency_laws();
    path_laws();
    proof_laws();
}

fn check_paths(
    rt: &impl Abort,
    alloc: Global,
    table: &NodeTable,
    leaves: &[Hash],
    size: u32,
) -> Result<(), AllocError> {
    let levels = levels_of(alloc, leaves)?;
    let root = tree_hash(leaves);
    for index in 0..size {
        assert!(rt; size <= table.size());
        let path = table.path(index, size)?;
        let plain = plain_path(alloc, levels.as_slice(), index as usize)?;
        assert_eq!(rt; path.as_slice(), plain.as_slice());
        let leaf = table.leaf(index);
        assert!(rt; root_from_path(index, size, &leaf, path.as_slice()) == Some(root));
        assert!(rt; root_from_path(size, size, &leaf, path.as_slice()).is_none());
    }
    Ok(())
}

fn check_proofs(
    rt: &impl Abort,
    alloc: Global,
    table: &NodeTable,
    leaves: &[Hash],
    size: u32,
) -> Result<(), AllocError> {
    let levels = levels_of(alloc, leaves)?;
    let root = tree_hash(leaves);
    for last_old in 0..size {
        assert!(rt; size <= table.size());
        let old = last_old + 1;
        let proof = table.consistency(old, size)?;
        if old < size {
            let plain = plain_proof(alloc, levels.as_slice(), last_old as usize)?;
            assert_eq!(rt; proof.as_slice(), plain.as_slice());
        }
        let old_root = table.root_at(old);
        assert!(rt;
            roots_from_consistency(old, size, &old_root, proof.as_slice()) == Some((old_root, root))
        );
    }
    Ok(())
}

fn check_more(
    rt: &impl Abort,
    alloc: Global,
    table: &NodeTable,
    more: &[Hash],
    levels: &[Vec<Hash>],
    root: &Hash,
) -> Result<(), AllocError> {
    assert!(rt; table.size() <= SIZES && more.len() <= 70);
    let size = table.size() + more.len() as u32;
    assert_eq!(rt; table.root_with(more), *root);
    for index in 0..size {
        let path = table.path_with(more, index)?;
        let plain = plain_path(alloc, levels, index as usize)?;
        assert_eq!(rt; path.as_slice(), plain.as_slice());
    }
    Ok(())
}

#[test]
fn every_pair_of_sizes(rt: HostRuntime) -> Result<(), Fail> {
    let leaves = numbered(rt.alloc(), SIZES)?;
    let table = table_of(&rt, rt.alloc(), leaves.as_slice())?;
    for size in 0..SIZES + 1 {
        assert!(rt; size as usize <= leaves.len() && size <= table.size());
        let front = &leaves.as_slice()[..size as usize];
        assert_eq!(rt; table.root_at(size), tree_hash(front));
        check_paths(&rt, rt.alloc(), &table, front, size)?;
        check_proofs(&rt, rt.alloc(), &table, front, size)?;
    }
    Ok(())
}

#[test]
fn leaves_followed_by_more(rt: HostRuntime) -> Result<(), Fail> {
    let leaves = numbered(rt.alloc(), SIZES)?;
    let levels = levels_of(rt.alloc(), leaves.as_slice())?;
    let root = tree_hash(leaves.as_slice());
    let mut table = NodeTable::new(rt.alloc());
    assert_eq!(rt; table.spare(), 0);
    for (i, leaf) in leaves.iter().enumerate() {
        let more = &leaves.as_slice()[i..];
        check_more(&rt, rt.alloc(), &table, more, levels.as_slice(), &root)?;
        assert!(rt; table.size() < u32::MAX);
        table.reserve()?;
        assert!(rt; table.spare() > 0);
        let spare = table.spare();
        table.push(*leaf);
        assert_eq!(rt; table.spare() + 1, spare);
    }
    check_more(&rt, rt.alloc(), &table, &[], levels.as_slice(), &root)?;
    Ok(())
}
