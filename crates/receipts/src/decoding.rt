ghost use Rattle.std.specs.Prelude.{◌≡◌, ℕ, IfOk, option_and_then};
ghost use Rattle.std.specs.Option.{option_copied};
ghost use Rattle.cbor_core.specs.Items.{array_in, map_in, is_nint as is_negative};
ghost use Rattle.receipts.specs.Form.{proof_item, proof_text, consistency as consistency_of, has_keys as has_all_keys, protected_pairs, protected_in, led_by, led_in, registered as registered_by, inclusion as inclusion_of, proof_in, tagged_items, stopped, receipt_with, receipt_in, AnswersAs, ReadsItem, Answered};

use crate::reading::{claim, hash, name, number_to, path_of};
use crate::receipt::{Led, Named, Proof, Receipt, ReceiptStop};
use cbor_core::{
    Bytes, DecodeStop, Item, array_of, bytes_of, decode_strict_all, is_nil, is_nint, is_uint,
    map_of, strict_of, tag_of, uint_of,
};
use std::alloc::{AllocError, Global};

type Pair = (Item, Item);

fn has_keys(alg: &Pair, kid: &Pair, claims: &Pair, structure: &Pair, size: &Pair) -> bool
    ensures { result ≡ has_all_keys alg.now kid.now claims.now structure.now size.now }
{
    is_uint(1, &alg.0)
        && is_nint(45, &alg.1)
        && is_uint(4, &kid.0)
        && is_uint(15, &claims.0)
        && is_uint(395, &structure.0)
        && is_uint(1, &structure.1)
        && is_nint(70000, &size.0)
}

fn named(alloc: Global, pairs: &[Pair]) -> Result<Option<Named>, AllocError>
    ensures { IfOk result (λ said. said ≡ protected_pairs pairs.now) }
{
    let [alg, kid, claims, structure, size] = pairs else {
        return Ok(None);
    };
    if !has_keys(alg, kid, claims, structure, size) {
        return Ok(None);
    }
    let Some(found) = claim(&claims.1) else {
        return Ok(None);
    };
    let Some(name) = name(alloc, found)? else {
        return Ok(None);
    };
    let Some(kid) = hash(&kid.1) else {
        return Ok(None);
    };
    let Some(size) = number_to(4_294_967_295, &size.1) else {
        return Ok(None);
    };
    let size = size as u32;
    Ok(Some(Named { name, kid, size }))
}

/// What the protected string says.
pub fn protected_of(alloc: Global, string: &[u8]) -> Result<Option<Named>, AllocError>
    ensures { IfOk result (λ said. said ≡ protected_in string.now) }
{
    let Some(item) = strict_of(alloc, string)? else {
        return Ok(None);
    };
    let Some(pairs) = map_of(&item) else {
        return Ok(None);
    };
    named(alloc, pairs)
}

fn led_of(alloc: Global, item: &Item) -> Result<Option<Led>, AllocError>
    ensures { IfOk result (λ led. led ≡ led_in item.now) }
{
    let Some([first, second, path]) = array_of(item) else {
        return Ok(None);
    };
    let Some(first) = number_to(4_294_967_295, first) else {
        return Ok(None);
    };
    let Some(second) = number_to(4_294_967_295, second) else {
        return Ok(None);
    };
    let Some(path) = path_of(alloc, path)? else {
        return Ok(None);
    };
    let first = first as u32;
    let second = second as u32;
    Ok(Some(Led {
        first,
        second,
        path,
    }))
}

fn registered(item: &Item) -> Option<(u64, u16)>
    ensures { result ≡ option_and_then registered_by (array_in item.now) }
{
    let [at, rule] = array_of(item)? else {
        return None;
    };
    let at = uint_of(at)?;
    let rule = number_to(65535, rule)?;
    Some((at, rule as u16))
}

// The string of the only proof of a kind, -1 or -2.
fn proof_string(kind: u64, proofs: &Item) -> Option<&[u8]>
    ensures { option_copied result ≡ proof_text (is_negative kind) proofs.now }
{
    let [(key, value)] = map_of(proofs)? else {
        return None;
    };
    if !is_nint(kind, key) {
        return None;
    }
    let [item] = array_of(value)? else {
        return None;
    };
    bytes_of(item)
}

fn led_by_kind(alloc: Global, kind: u64, proofs: &Item) -> Result<Option<Led>, AllocError>
    ensures { IfOk result (λ led. led ≡ option_and_then led_in (proof_item (is_negative kind) proofs.now)) }
{
    let Some(string) = proof_string(kind, proofs) else {
        return Ok(None);
    };
    let Some(item) = strict_of(alloc, string)? else {
        return Ok(None);
    };
    led_of(alloc, &item)
}

fn inclusion(alloc: Global, proofs: &Item, registration: &Item) -> Result<Option<Proof>, AllocError>
    ensures { IfOk result (λ proof. proof ≡ inclusion_of proofs.now registration.now) }
{
    let Some(led) = led_by_kind(alloc, 0, proofs)? else {
        return Ok(None);
    };
    let Some((at, rule)) = registered(registration) else {
        return Ok(None);
    };
    let Led {
        first,
        second,
        path,
    } = led;
    Ok(Some(Proof::Inclusion {
        size: first,
        index: second,
        path,
        at,
        rule,
    }))
}

fn consistency(alloc: Global, proofs: &Item) -> Result<Option<Proof>, AllocError>
    ensures { IfOk result (λ proof. proof ≡ consistency_of proofs.now) }
{
    let Some(led) = led_by_kind(alloc, 1, proofs)? else {
        return Ok(None);
    };
    let Led {
        first,
        second,
        path,
    } = led;
    Ok(Some(Proof::Consistency {
        old: first,
        size: second,
        path,
    }))
}

/// The proof that the unprotected map holds.
pub fn proof_of(alloc: Global, map: &[Pair]) -> Result<Option<Proof>, AllocError>
    ensures { IfOk result (λ proof. proof ≡ proof_in map.now) }
{
    match map {
        [proofs] => {
            if !is_uint(396, &proofs.0) {
                return Ok(None);
            }
            consistency(alloc, &proofs.1)
        }
        [proofs, registration] => {
            if !is_uint(396, &proofs.0) || !is_nint(70001, &registration.0) {
                return Ok(None);
            }
            inclusion(alloc, &proofs.1, &registration.1)
        }
        _ => Ok(None),
    }
}

fn inner(item: &Item) -> Option<&[Item]>
    ensures { option_copied result ≡ tagged_items item.now }
{
    let (n, inner) = tag_of(item)?;
    if n != 18 {
        return None;
    }
    array_of(inner)
}

fn placed<T: Drop>(stop: ReceiptStop, read: Result<Option<T>, AllocError>) -> Result<T, ReceiptStop>
    ensures { result ≡ stopped stop read }
{
    match read {
        Ok(Some(found)) => Ok(found),
        Ok(None) => Err(stop),
        Err(_) => Err(ReceiptStop::OutOfMemory),
    }
}

fn made(
    alloc: Global,
    protected: &[u8],
    unprotected: &[Pair],
    signature: &[u8],
) -> Result<Receipt, ReceiptStop>
    ensures { AnswersAs result (receipt_with protected.now unprotected.now signature.now) }
{
    let said = placed(ReceiptStop::BadProtected, protected_of(alloc, protected))?;
    let proof = placed(ReceiptStop::BadProof, proof_of(alloc, unprotected))?;
    let Ok(signature) = Bytes::from_slice(alloc, signature) else {
        return Err(ReceiptStop::OutOfMemory);
    };
    let Named { name, kid, size } = said;
    Ok(Receipt {
        name,
        kid,
        size,
        proof,
        signature,
    })
}

#[tactic(auto, unfolding(crate::specs::Form::receipt_in))]
fn receipt_of(alloc: Global, item: &Item) -> Result<Receipt, ReceiptStop>
    ensures { AnswersAs result (receipt_in item.now) }
{
    let Some([protected, unprotected, payload, signature]) = inner(item) else {
        return Err(ReceiptStop::NotReceipt);
    };
    let Some(protected) = bytes_of(protected) else {
        return Err(ReceiptStop::NotReceipt);
    };
    let Some(unprotected) = map_of(unprotected) else {
        return Err(ReceiptStop::NotReceipt);
    };
    if !is_nil(payload) {
        return Err(ReceiptStop::NotReceipt);
    }
    let Some(signature) = bytes_of(signature) else {
        return Err(ReceiptStop::NotReceipt);
    };
    made(alloc, protected, unprotected, signature)
}

fn read(alloc: Global, bytes: &[u8]) -> Result<Item, ReceiptStop>
    ensures { ReadsItem bytes.now result }
{
    match decode_strict_all(alloc, bytes) {
        Ok(item) => Ok(item),
        Err(DecodeStop::Fault(fault)) => Err(ReceiptStop::Cbor(fault)),
        Err(DecodeStop::OutOfMemory) => Err(ReceiptStop::OutOfMemory),
    }
}

/// The receipt that bytes strictly spell, in the one form of the profile.
///
/// The first refusal: `Cbor`, the bytes are no item; `NotReceipt`, the outer shape; `BadProtected`, the protected string; `BadProof`,
/// the unprotected map or the proof. `OutOfMemory` is the want of memory alone.
pub fn decode(alloc: Global, bytes: &[u8]) -> Result<Receipt, ReceiptStop>
    ensures { Answered bytes.now result }
{
    let item = read(alloc, bytes)?;
    receipt_of(alloc, &item)
}
