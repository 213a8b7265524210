use merkle_tree::{NodeTable, leaf_hash, root_from_path};
use std::process::Abort;
use std::test::Fail;

const MANY: u32 = 65_536;

// The root of the first 65,536 entries, the entry i being the four bytes of i, high byte first: computed in
// Python with hashlib.
const ROOT: &str = "208bed836edee10551d1a0208e22c9eead1a59c4c33abeb697eb60132f61a798";

fn grown(rt: &impl Abort, mut table: NodeTable) -> Result<NodeTable, Fail> {
    for i in 0..MANY {
        let leaf = leaf_hash(i.to_be_bytes().as_slice());
        assert!(rt; table.size() == i);
        let root = table.root_with(&[leaf]);
        table.reserve()?;
        table.push(leaf);
        assert!(rt; table.root_at(i + 1) == root);
    }
    Ok(table)
}

// A table that hashed all its leaves for each of these roots and paths wouldn't end within a test's time.
#[test]
fn many_leaves(rt: HostRuntime) -> Result<(), Fail> {
    let table = grown(&rt, NodeTable::new(rt.alloc()))?;
    assert!(rt; table.size() == MANY);
    let root = table.root_at(MANY);
    assert_eq!(rt; hex::encode(rt.alloc(), root.as_slice())?.as_str(), ROOT);
    for index in 0..MANY {
        let path = table.path(index, MANY)?;
        let leaf = table.leaf(index);
        assert!(rt; root_from_path(index, MANY, &leaf, path.as_slice()) == Some(root));
    }
    Ok(())
}
