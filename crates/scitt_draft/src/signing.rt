// Statements that are signed.

ghost use Rattle.std.specs.Prelude.{◌≡◌, ◌≤◌, ◌<◌, ◌+◌, length, IfOk, true};
ghost use Rattle.sha2.specs.Sha256.{sha256};
ghost use Rattle.hss_keys.specs.Levels.{capacity};
ghost use Rattle.hss_keys.specs.Signing.{hss_public, hss_sig};
ghost use Rattle.cose_sign1.specs.OneTbs.{tbs_of};
ghost use Rattle.cose_sign1.specs.Tbs.{tbs_len};
ghost use Rattle.cose_sign1.specs.Message.{bare_text, bare_len as len_of_bare};
ghost use Rattle.scitt_draft.specs.Drafts.{claimed, names_fit as are_names_fit, statement_by};

use crate::claims::Claims;
use crate::protecting::protected_string;
use cbor_core::{Bytes, strict_spelling_is_unique, zeros};
use cose_sign1::{
    bare_into, bare_len, bare_message_is_one, sig_structure_is_one, to_be_signed_into,
    to_be_signed_len,
};
use hss_keys::{Key60, Signer};
use sha2::{Digest, Sha256};
use std::alloc::{AllocError, Global};

/// The digest of a public key, by which it is named.
pub fn kid_of(key: &Key60) -> [u8; 32]
    ensures { result ≡ sha256 key.now }
{
    Sha256::digest(key.as_slice())
}

fn put_structure(protected: &[u8], payload: &[u8], buf: &mut [u8])
    requires short { length protected.now ≤ 4000 }
    requires small { length payload.now ≤ 1000000 }
    requires room { length buf.old ≡ tbs_len protected.now payload.now }
    ensures text { buf.new ≡ tbs_of protected.now payload.now }
{
    sig_structure_is_one();
    to_be_signed_into(protected, payload, buf);
}

// The Sig_structure.
fn structure(alloc: Global, protected: &[u8], payload: &[u8]) -> Result<Vec<u8>, AllocError>
    requires short { length protected.now ≤ 4000 }
    requires small { length payload.now ≤ 1000000 }
    ensures { IfOk result (λ text. text.items ≡ tbs_of protected.now payload.now) }
{
    let mut text = zeros(alloc, to_be_signed_len(protected, payload))?;
    put_structure(protected, payload, &mut text);
    Ok(text)
}

// The signature of this index.
fn signature(
    alloc: Global,
    signer: &mut Signer,
    index: u64,
    text: &[u8],
) -> Result<Vec<u8>, AllocError>
    requires below { index < capacity signer.old.levels }
    ensures signed { IfOk result (λ v. v.items ≡ hss_sig signer.old.levels signer.old.id signer.old.seed index text.now) }
    ensures short { IfOk result (λ v. length v.items ≤ 26648) }
    ensures levels { signer.new.levels ≡ signer.old.levels }
    ensures id { signer.new.id ≡ signer.old.id }
    ensures seed { signer.new.seed ≡ signer.old.seed }
{
    signer.prepare(alloc, index)?;
    let mut out = zeros(alloc, signer.sig_len())?;
    signer.sign_into(index, text, &mut out);
    Ok(out)
}

fn put_message(protected: &[u8], payload: &[u8], signature: &[u8], buf: &mut [u8])
    requires short { length protected.now ≤ 4000 }
    requires small { length payload.now ≤ 1000000 }
    requires signed { length signature.now ≤ 26648 }
    requires room { length buf.old ≡ len_of_bare protected.now payload.now signature.now }
    ensures text { buf.new ≡ bare_text protected.now payload.now signature.now }
    ensures few { length buf.new ≤ length payload.now + 40000 }
{
    bare_message_is_one();
    strict_spelling_is_unique();
    bare_into(protected, payload, signature, buf);
}

fn message(
    alloc: Global,
    protected: &[u8],
    payload: &[u8],
    signature: &[u8],
) -> Result<Bytes, AllocError>
    requires short { length protected.now ≤ 4000 }
    requires small { length payload.now ≤ 1000000 }
    requires signed { length signature.now ≤ 26648 }
    ensures text { IfOk result (λ bytes. bytes ≡ bare_text protected.now payload.now signature.now) }
    ensures few { IfOk result (λ bytes. length bytes ≤ length payload.now + 40000) }
{
    let mut out = zeros(alloc, bare_len(protected, payload, signature))?;
    put_message(protected, payload, signature, &mut out);
    Ok(Bytes::from_vec(out))
}

/// The statement of these claims on this payload, signed at an index of the key: tag 18 on the protected string, an empty map, the
/// payload and the signature, in strict CBOR (RFC 9052, 4.2). The kid is SHA-256 of the public key. The only error is the want of
/// memory.
pub fn make_statement(
    alloc: Global,
    claims: &Claims<'_>,
    payload: &[u8],
    signer: &mut Signer,
    index: u64,
) -> Result<Bytes, AllocError>
    requires names { are_names_fit (claimed claims.now) ≡ true }
    requires small { length payload.now ≤ 1000000 }
    requires below { index < capacity signer.old.levels }
    ensures statement { IfOk result (λ bytes. bytes ≡ statement_by signer.old.levels signer.old.id signer.old.seed index (claimed claims.now) payload.now) }
    ensures few { IfOk result (λ bytes. length bytes ≤ length payload.now + 40000) }
    ensures levels { signer.new.levels ≡ signer.old.levels }
    ensures id { signer.new.id ≡ signer.old.id }
    ensures seed { signer.new.seed ≡ signer.old.seed }
{
    let kid = kid_of(&signer.public());
    let protected = protected_string(alloc, claims, &kid)?;
    let text = structure(alloc, protected.as_slice(), payload)?;
    let signature = signature(alloc, signer, index, &text)?;
    message(alloc, protected.as_slice(), payload, &signature)
}
