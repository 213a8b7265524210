ghost use Rattle.std.specs.Prelude.{◌≡◌, ◌≤◌, ◌<◌, ◌^◌, length, true};
ghost use Rattle.std.specs.Str.{is_utf8};
ghost use Rattle.receipts.specs.Fits.{AreHashes, NameFits, ProofFits, Fits, path_of};

use crate::receipt::{Proof, Receipt};
use cbor_core::Text;
use merkle_tree::Hash;

fn is_size(n: u32)
    ensures { n ≤ 4294967295 }
{
    let _n = n;
}

fn is_rule(n: u16)
    ensures { n ≤ 65535 }
{
    let _n = n;
}

fn is_moment(n: u64)
    ensures { n < 2 ^ 64 }
{
    let _n = n;
}

fn is_hash(hash: &Hash)
    ensures { length hash.now ≡ 32 }
{
    let _hash = hash;
}

fn is_text(text: &Text)
    ensures { is_utf8 text.now ≡ true }
{
    let _text = text.as_slice();
}

fn are_hashes(path: &[Hash])
    ensures { AreHashes path.now }
{
    let _path = path;
}

/// What the types of a name, a key's digest and a size say of them.
pub fn name_is_within(name: &Text, kid: &Hash, size: u32)
    requires some { 1 ≤ length name.now }
    requires most { length name.now ≤ 128 }
    ensures { NameFits name.now kid.now size }
{
    is_text(name);
    is_hash(kid);
    is_size(size);
}

fn proof_is_within(proof: &Proof)
    requires { length (path_of proof.now) ≤ 32 }
    ensures { ProofFits proof.now }
{
    match proof {
        Proof::Inclusion {
            size,
            index,
            path,
            at,
            rule,
        } => {
            is_size(*size);
            is_size(*index);
            are_hashes(path.as_slice());
            is_rule(*rule);
            is_moment(*at);
        }
        Proof::Consistency { old, size, path } => {
            is_size(*old);
            is_size(*size);
            are_hashes(path.as_slice());
        }
    }
}

/// What the types of a receipt's parts say of them.
pub fn receipt_is_within(receipt: &Receipt)
    requires some { 1 ≤ length receipt.now.name }
    requires most { length receipt.now.name ≤ 128 }
    requires path { length (path_of receipt.now.proof) ≤ 32 }
    ensures { Fits receipt.now }
{
    name_is_within(&receipt.name, &receipt.kid, receipt.size);
    proof_is_within(&receipt.proof);
}
