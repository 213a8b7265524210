// The hash chains of a one-time key (RFC 8554, 4.2 to 4.6).

ghost use Rattle.std.specs.Prelude.{◌≡◌, ◌≤◌, ◌++◌, length, take};
ghost use Rattle.sha2.specs.Sha256.{sha256};
ghost use Rattle.lms_ots.specs.Words.{u8str};
ghost use Rattle.lms_ots.specs.Chains.{chain, prefix, secret, step};

use crate::words::{Hash, put, u16str, u32str};
use sha2::{Digest, Sha256};

/// The name of a one-time key: its tree's identifier I and its leaf number q (RFC 8554, 4.2).
#[derive(Clone, Copy, PartialEq, Eq, Debug)]
pub struct OtsAt {
    pub id: [u8; 16],
    pub q: u32,
}

#[tactic(auto, unfolding(crate::specs::Chains::prefix))]
/// The 22 bytes that a hashed string begins with: I, q in four bytes, and a tag of two.
pub fn prefix(at: &OtsAt, tag: [u8; 2]) -> [u8; 22]
    ensures { result ≡ prefix at.now tag }
{
    let mut out = [0; 22];
    let id_end = put(&mut out, 0, &at.id);
    let q_end = put(&mut out, id_end, &u32str(at.q));
    put(&mut out, q_end, &tag);
    out
}

// The hash of the prefix, the byte `j` and 32 bytes: 55 bytes, which is one block.
fn link(at: &OtsAt, tag: [u8; 2], j: u8, x: &Hash) -> Hash
    ensures { result ≡ sha256 (prefix at.now tag ++ u8str j ++ x.now) }
{
    let mut block = [0; 55];
    let prefix_end = put(&mut block, 0, &prefix(at, tag));
    let j_end = put(&mut block, prefix_end, &[j]);
    put(&mut block, j_end, x);
    Sha256::digest(&block)
}

#[tactic(auto, unfolding(crate::specs::Chains::secret))]
// Secret `i` of the one-time key `at` under the seed (RFC 8554, appendix A).
pub(crate) fn ots_secret(at: &OtsAt, i: u16, seed: &Hash) -> Hash
    ensures { result ≡ secret at.now i seed.now }
{
    link(at, u16str(i), 0xff, seed)
}

/// The secret of the one-time key `at` under the seed with a number that no chain has, which is 265
/// or more (RFC 8554, appendix A).
pub fn spare_secret(at: &OtsAt, i: u16, seed: &Hash) -> Hash
    requires { 265 ≤ i }
    ensures { result ≡ secret at.now i seed.now }
{
    ots_secret(at, i, seed)
}

// The hash of the 22 bytes that the block begins with, the byte `j` and 32 bytes; the block keeps
// its first 22 bytes.
fn relink(block: &mut [u8; 55], j: u8, x: &Hash) -> Hash
    ensures value { result ≡ sha256 (take 22 block.old ++ u8str j ++ x.now) }
    ensures front { take 22 block.new ≡ take 22 block.old }
    ensures len { length block.new ≡ 55 }
{
    block[22] = j;
    block[23..].copy_from_slice(x);
    Sha256::digest(&*block)
}

// Chain `i` from step `first` up to, and not with, step `end`.
pub(crate) fn chain(at: &OtsAt, i: u16, first: u8, end: u8, x: Hash) -> Hash
    requires { first ≤ end }
    ensures { result ≡ chain at.now i first end x }
{
    let mut block = [0; 55];
    put(&mut block, 0, &prefix(at, u16str(i)));
    let mut value = x;
    for j in first..end {
        value = relink(&mut block, j, &value);
    }
    value
}
