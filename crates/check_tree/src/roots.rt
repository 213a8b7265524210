use merkle_tree::{
    Frontier, Hash, empty_root, leaf_hash, mth_laws, node_hash, split_point, tree_hash,
    tree_root_laws,
};
use std::alloc::{AllocError, Global};
use std::process::Abort;
use std::test::Fail;

// The root of the first n of these entries stands at place n of the roots.
const ENTRIES: [&[u8]; 8] = [
    b"",
    b"\x00",
    b"\x10",
    b"\x20\x21",
    b"\x30\x31",
    b"\x40\x41\x42\x43",
    b"\x50\x51\x52\x53\x54\x55\x56\x57",
    b"\x60\x61\x62\x63\x64\x65\x66\x67\x68\x69\x6a\x6b\x6c\x6d\x6e\x6f",
];

const ROOTS: [&str; 9] = [
    "e3b0c44298fc1c149afbf4c8996fb92427ae41e4649b934ca495991b7852b855",
    "6e340b9cffb37a989ca544e6bb780a2c78901d3fb33738768511a30617afa01d",
    "fac54203e7cc696cf0dfcb42c92a1d9dbaf70ad9e621f4bd8d98662f00e3c125",
    "aeb6bcfe274b70a14fb067a5e5578264db0fa9b51af5e0ba159158f329e06e77",
    "d37ee418976dd95753c1c73862b9398fa2a2cf9b4ff0fdfe8b30cd95209614b7",
    "4e3bbb1f7b478dcfe71fb631631519a3bca12c9aefca1612bfce4c13a86264d4",
    "76e67dadbcdf1e10e1b74ddc608abd2f98dfb16fbce75277b5232a127f2087ef",
    "ddb89be403809e325750d3d263cd78929c2942b7942a34b77e122c9594a74c8c",
    "5dc9da79a70659a9ad559cb701ded9a2ab9d823aad2f4960cfe370eff4604328",
];

// The roots of so many entries, the entry i being the four bytes of i, high byte first.
const NUMBERED: [(u32, &str); 13] = [
    (
        2,
        "50746ee02c3fda32e421ddc1bbf3f20b50ce18738d48709cb6d0ad13f2bdabb7",
    ),
    (
        3,
        "e4b0b8adadc95bb54949a5993c44797855d5acc2f863aab6435b74799e4c3484",
    ),
    (
        5,
        "efb01591aed96c37c3d8ea64ffbf685f000db88652fdfbaece8d54f3bdc1ee36",
    ),
    (
        6,
        "c0560846a7a3ed4cae15bcdab6befb65e4c9aece323d42d006ecda8d9a4116cb",
    ),
    (
        7,
        "d62b43d7342d2e73a4a8910565cffb0dd6c07f65f9b8647417ad8d5c86bed8d8",
    ),
    (
        8,
        "de1179c92dc98db5358961ded727f4b71474a71aa3e4053cf9e266d24cfb754a",
    ),
    (
        9,
        "47c3f22a08fcf88c58c627b1f49fdb311cc1ca7c6fa52aaac4d7ef23db6fdd2a",
    ),
    (
        31,
        "8ad3a1ed67ddd52b0fd9bc61c4624bcf0df1d3987ae0c6fdb0fab30935a0b42e",
    ),
    (
        32,
        "bdfdcbbb20d6327627639273378a289c6bdb22b22d1a45cae37f6e9f0761bf3c",
    ),
    (
        33,
        "aaad7b2db7d2adb118c71a990110cf5f6b049b674ff0767dfd7bf671c7c69747",
    ),
    (
        64,
        "54dd1c2aaf0a20c174fc9df80919a65ef5b240dc55890e91daec1cdd063c6f1e",
    ),
    (
        70,
        "11f946924f15a5393e1ae038f53cf09a2d45373fc434a1f8b3e13f51b6bb5077",
    ),
    (
        1000,
        "ed58fe22105717ceedf760a43eedfb173a60c44ef40fd61b6cd86bd4ebb59b61",
    ),
];

// The leaves of the entries 0, 1, .., each the four bytes of its number.
fn numbered(alloc: Global, count: u32) -> Result<Vec<Hash>, AllocError> {
    let mut leaves = Vec::new(alloc);
    for i in 0..count {
        leaves.push(leaf_hash(i.to_be_bytes().as_slice()))?;
    }
    Ok(leaves)
}

fn frontier_of(rt: &impl Abort, leaves: &[Hash]) -> Frontier {
    let mut frontier = Frontier::new();
    for leaf in leaves {
        assert!(rt; frontier.size() < u32::MAX);
        frontier.push(*leaf);
    }
    frontier
}

fn text(alloc: Global, hash: &Hash) -> Result<String, AllocError> {
    hex::encode(alloc, hash.as_slice())
}

#[test]
fn roots_of_the_first_entries(rt: HostRuntime) -> Result<(), Fail> {
    let mut frontier = Frontier::new();
    for n in 0..8 {
        assert_eq!(rt; text(rt.alloc(), &frontier.root())?.as_str(), ROOTS[n]);
        assert!(rt; frontier.size() < u32::MAX);
        frontier.push(leaf_hash(ENTRIES[n]));
    }
    assert_eq!(rt; text(rt.alloc(), &frontier.root())?.as_str(), ROOTS[8]);
    assert_eq!(rt; frontier.size(), 8);
    Ok(())
}

#[test]
fn roots_of_numbered_entries(rt: HostRuntime) -> Result<(), Fail> {
    for (count, root) in &NUMBERED {
        let leaves = numbered(rt.alloc(), *count)?;
        let frontier = frontier_of(&rt, &leaves);
        assert_eq!(rt; frontier.size(), *count);
        assert_eq!(rt; text(rt.alloc(), &frontier.root())?.as_str(), *root);
    }
    Ok(())
}

#[test]
fn the_frontier_and_the_recursion_agree(rt: HostRuntime) -> Result<(), Fail> {
    let leaves = numbered(rt.alloc(), 1000)?;
    let mut frontier = Frontier::new();
    assert_eq!(rt; frontier.root(), tree_hash(&[]));
    for (i, leaf) in leaves.iter().enumerate() {
        assert!(rt; frontier.size() < u32::MAX);
        frontier.push(*leaf);
        if i < 70 || i % 128 < 2 || i % 128 > 125 || i == 999 {
            assert_eq!(rt; frontier.root(), tree_hash(&leaves[..i + 1]));
        }
    }
    assert_eq!(rt; frontier.size(), 1000);
    Ok(())
}

#[test]
fn hashes_of_leaves_and_nodes(rt: HostRuntime) -> Result<(), Fail> {
    let long = leaf_hash(&[0xab; 100_000]);
    assert_eq!(rt;
        text(rt.alloc(), &long)?.as_str(),
        "e62395ac43e0c88f43f6983cc3c5cc47f0f76a6cf6c83df49a737f37f24974a7"
    );
    let node = node_hash(&empty_root(), &leaf_hash(b""));
    assert_eq!(rt;
        text(rt.alloc(), &node)?.as_str(),
        "332c01c4186eab0ad095d79555ce5670a89d22f33b431d87728fb9e32d149a5f"
    );
    Ok(())
}

#[test]
fn split_points(rt: HostRuntime) {
    for (n, k) in &[
        (2, 1),
        (3, 2),
        (4, 2),
        (5, 4),
        (8, 4),
        (9, 8),
        (1000, 512),
        (usize::MAX, 1 << 63),
    ] {
        assert!(rt; 2 <= *n);
        assert_eq!(rt; split_point(*n), *k);
    }
    mth_laws();
    tree_root_laws();
}
