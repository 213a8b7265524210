// Signatures, by the functions that the definitions name.

ghost use Rattle.std.specs.Prelude.{◌≡◌, ◌≤◌, length, IfOk};
ghost use Rattle.cbor_core.specs.Limits.{longest_string};
ghost use Rattle.cose_sign1.specs.OneTbs.{tbs_of};
ghost use Rattle.cose_sign1.specs.Tbs.{tbs_len as len_of_structure};
ghost use Rattle.hss_keys.specs.Functions.{hss_verifies};
ghost use Rattle.relying_party.specs.Accepts.{signs_root};

use cbor_core::zeros;
use cose_sign1::{sig_structure_is_one, to_be_signed_into, to_be_signed_len};
use hss_keys::{Key60, hss_verify, key_laws};
use merkle_tree::Hash;
use receipts::{Receipt, tbs_into, tbs_len};
use std::alloc::{AllocError, Global};

/// Whether a signature verifies under a key.
pub(crate) fn verifies(key: &Key60, sig: &[u8], msg: &[u8]) -> bool
    ensures { result ≡ hss_verifies key.now sig.now msg.now }
{
    key_laws();
    hss_verify(key, msg, sig)
}

fn put_structure(protected: &[u8], payload: &[u8], buf: &mut [u8])
    requires protected_fits { length protected.now ≤ longest_string }
    requires payload_fits { length payload.now ≤ longest_string }
    requires room { length buf.old ≡ len_of_structure protected.now payload.now }
    ensures { buf.new ≡ tbs_of protected.now payload.now }
{
    sig_structure_is_one();
    to_be_signed_into(protected, payload, buf);
}

/// Whether a key verifies a signature over the Sig_structure of a protected string and a payload.
pub(crate) fn signs_message(
    alloc: Global,
    key: &Key60,
    protected: &[u8],
    payload: &[u8],
    signature: &[u8],
) -> Result<bool, AllocError>
    requires protected_fits { length protected.now ≤ longest_string }
    requires payload_fits { length payload.now ≤ longest_string }
    ensures { IfOk result (λ signs. signs ≡ hss_verifies key.now signature.now (tbs_of protected.now payload.now)) }
{
    let mut text = zeros(alloc, to_be_signed_len(protected, payload))?;
    put_structure(protected, payload, &mut text);
    Ok(verifies(key, signature, &text))
}

/// Whether a key verifies a receipt's signature over a root.
pub(crate) fn signs(
    alloc: Global,
    key: &Key60,
    receipt: &Receipt,
    root: &Hash,
) -> Result<bool, AllocError>
    requires some { 1 ≤ length receipt.now.name }
    requires most { length receipt.now.name ≤ 128 }
    ensures { IfOk result (λ signs. signs ≡ signs_root key.now receipt.now root.now) }
{
    let mut text = zeros(alloc, tbs_len(&receipt.name, receipt.size))?;
    tbs_into(&receipt.name, &receipt.kid, receipt.size, root, &mut text);
    Ok(verifies(key, receipt.signature.as_slice(), &text))
}
