// Verifying an LMS signature (RFC 8554, 5.4.2).

ghost use Rattle.std.specs.Prelude.{◌≡◌, ◌↔◌, ◌+◌, ◌*◌, ◌<◌, ◌≤◌, IsTrue, length};
ghost use Rattle.lms_tree.specs.Types.{level_at};
ghost use Rattle.lms_tree.specs.Verifies.{HasTypes, LmsVerifies, above, hashes, root_from, root_of_sig};

use crate::nodes::{leaf, parent};
use crate::table::{height, id_at, leaf_count, level_at, lms_sig_len};
use crate::types::Level;
use lms_ots::{Hash, OtsAt, hash_at, ots_law, ots_public_from, ots_sig_len, u32_at, word_law};

// The node above `r`, from the value of `r` and that of the node beside it.
fn above(id: [u8; 16], r: u32, value: &Hash, beside: &Hash) -> Hash
    ensures { result ≡ above id r value.now beside.now }
{
    if r % 2 == 1 {
        parent(id, r / 2, beside, value)
    } else {
        parent(id, r / 2, value, beside)
    }
}

// The root over node `r` with the value `value`, along the `count` hashes of `sig` from `start` on.
fn root_from(id: [u8; 16], r: u32, value: Hash, sig: &[u8], start: usize, count: usize) -> Hash
    requires { start + 32 * count ≤ length sig.now }
    ensures { result ≡ root_from id r value (hashes sig.now start count) }
{
    let mut number = r;
    let mut reached = value;
    for i in 0..count {
        reached = above(id, number, &reached, &hash_at(sig, start + 32 * i));
        number /= 2;
    }
    reached
}

/// Tells whether `sig` is a signature on `msg` under the public key `public`: its two type
/// codes are those of the key, both known; it is as long as these types ask; q numbers a leaf; and
/// hashing from the candidate key along the path ends at the key's root (RFC 8554, 5.4.2). It takes no memory.
pub fn verify(public: &[u8; 56], sig: &[u8], msg: &[u8]) -> bool
    ensures { IsTrue result ↔ LmsVerifies public.now sig.now msg.now }
{
    match level_at(public, 0) {
        None => false,
        Some(level) => verify_at(level, public, sig, msg),
    }
}

// Verifies under a public key of this level.
fn verify_at(level: Level, public: &[u8; 56], sig: &[u8], msg: &[u8]) -> bool
    requires { level_at public.now 0 ≡ Some level }
    ensures { IsTrue result ↔ LmsVerifies public.now sig.now msg.now }
{
    if !has_types(level, sig) {
        return false;
    }
    root_of(level, id_at(public, 8), sig, msg) == hash_at(public, 24)
}

/// Tells whether the length and the type codes of `sig` are those of the level, and q is the number of
/// a leaf (RFC 8554, 5.4.2, algorithm 6a, steps 1 and 2).
pub fn has_types(level: Level, sig: &[u8]) -> bool
    ensures { IsTrue result ↔ HasTypes level sig.now }
{
    if sig.len() != lms_sig_len(level) {
        return false;
    }
    u32_at(sig, 4) == level.ots.parameters().code
        && u32_at(sig, 4 + ots_sig_len(level.ots)) == level.lms.parameters().code
        && u32_at(sig, 0) < leaf_count(level)
}

// The root from the candidate key of the signature and its path.
#[tactic(auto, unfolding(crate::specs::Verifies::root_of_sig))]
fn root_of(level: Level, id: [u8; 16], sig: &[u8], msg: &[u8]) -> Hash
    requires { HasTypes level sig.now }
    ensures { result ≡ root_of_sig level id sig.now msg.now }
{
    word_law();
    ots_law();
    let q = u32_at(sig, 0);
    let ots_end = 4 + ots_sig_len(level.ots);
    let key = ots_public_from(&OtsAt { id, q }, &sig[4..ots_end], msg).unwrap();
    let r = leaf_count(level) + q;
    root_from(id, r, leaf(id, r, &key), sig, ots_end + 4, height(level))
}
