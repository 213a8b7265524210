ghost use Rattle.std.specs.Prelude.{◌≡◌, ◌≤◌, ℕ, List, length, true, Some, Err, IfOk};
ghost use Rattle.cbor_core.specs.Limits.{longest_string, most_containers};
ghost use Rattle.cbor_core.specs.Encoding.{most};
ghost use Rattle.cbor_core.specs.Fitting.{is_strict_item, strict_len};
ghost use Rattle.receipts.specs.Form.{receipt_of};
ghost use Rattle.receipts.specs.Written.{claims_item, protected_item as whole_protected, led_item, proofs_item, proof_inner, registration_item as whole_registration, unprotected_item as whole_unprotected, receipt_item as whole_receipt};
ghost use Rattle.receipts.specs.Fits.{NameFits, ProofFits, Fits, path_of, Encodes};

use crate::items::{array, hashes, held, nil, nint, string, table, tagged, text, uint};
use crate::laws::receipts_are_read_again;
use crate::receipt::{Proof, Receipt};
use crate::within::receipt_is_within;
use cbor_core::{Bytes, EncodeStop, Item, Text, strict_items_are_spelled};
use merkle_tree::{Hash, Path};
use sqlite_items::Items;
use std::alloc::{AllocError, Global};

fn claims(alloc: Global, name: &Text) -> Result<Item, AllocError>
    ensures { IfOk result (λ item. item ≡ claims_item name.now) }
{
    let mut pairs = Items::new(alloc);
    pairs.push((uint(1), text(alloc, name)?))?;
    Ok(table(pairs))
}

fn protected_item(alloc: Global, name: &Text, kid: &Hash, size: u32) -> Result<Item, AllocError>
    ensures { IfOk result (λ item. item ≡ whole_protected name.now kid.now size) }
{
    let mut pairs = Items::new(alloc);
    pairs.push((uint(1), nint(45)))?;
    pairs.push((uint(4), string(alloc, kid.as_slice())?))?;
    pairs.push((uint(15), claims(alloc, name)?))?;
    pairs.push((uint(395), uint(1)))?;
    pairs.push((nint(70000), uint(u64::from(size))))?;
    Ok(table(pairs))
}

fn led(alloc: Global, first: u32, second: u32, path: &Path) -> Result<Item, AllocError>
    ensures { IfOk result (λ item. item ≡ led_item first second path.now) }
{
    let mut items = Items::new(alloc);
    items.push(uint(u64::from(first)))?;
    items.push(uint(u64::from(second)))?;
    items.push(hashes(alloc, path.as_slice())?)?;
    Ok(array(items))
}

fn inner(alloc: Global, proof: &Proof) -> Result<Item, AllocError>
    ensures { IfOk result (λ item. item ≡ proof_inner proof.now) }
{
    match proof {
        Proof::Inclusion {
            size,
            index,
            path,
            ..
        } => led(alloc, *size, *index, path),
        Proof::Consistency { old, size, path } => led(alloc, *old, *size, path),
    }
}

fn proofs(alloc: Global, kind: u64, inner: &Item) -> Result<Item, AllocError>
    requires strict { is_strict_item most_containers inner.now ≡ true }
    requires short { strict_len most_containers inner.now ≤ most }
    ensures { IfOk result (λ item. item ≡ proofs_item kind inner.now) }
{
    let mut items = Items::new(alloc);
    items.push(held(alloc, inner)?)?;
    let mut pairs = Items::new(alloc);
    pairs.push((nint(kind), array(items)))?;
    Ok(table(pairs))
}

fn registration(alloc: Global, at: u64, rule: u16) -> Result<Item, AllocError>
    ensures { IfOk result (λ item. item ≡ whole_registration at rule) }
{
    let mut items = Items::new(alloc);
    items.push(uint(at))?;
    items.push(uint(u64::from(rule)))?;
    Ok(array(items))
}

fn unprotected_item(alloc: Global, proof: &Proof) -> Result<Item, AllocError>
    requires { ProofFits proof.now }
    ensures { IfOk result (λ item. item ≡ whole_unprotected proof.now) }
{
    receipts_are_read_again();
    let inner = inner(alloc, proof)?;
    let mut pairs = Items::new(alloc);
    match proof {
        Proof::Inclusion { at, rule, .. } => {
            pairs.push((uint(396), proofs(alloc, 0, &inner)?))?;
            pairs.push((nint(70001), registration(alloc, *at, *rule)?))?;
        }
        Proof::Consistency { .. } => {
            pairs.push((uint(396), proofs(alloc, 1, &inner)?))?;
        }
    }
    Ok(table(pairs))
}

fn receipt_item(alloc: Global, receipt: &Receipt) -> Result<Item, AllocError>
    requires { Fits receipt.now }
    ensures { IfOk result (λ item. item ≡ whole_receipt receipt.now) }
{
    receipts_are_read_again();
    let protected = protected_item(alloc, &receipt.name, &receipt.kid, receipt.size)?;
    let mut items = Items::new(alloc);
    items.push(held(alloc, &protected)?)?;
    items.push(unprotected_item(alloc, &receipt.proof)?)?;
    items.push(nil())?;
    items.push(string(alloc, receipt.signature.as_slice())?)?;
    tagged(alloc, 18, array(items))
}

/// The strict bytes of a receipt, whose name has 1 to 128 bytes and whose path has at most 32 hashes.
///
/// `NotStrict` comes exactly where its item has no strict bytes, which is only where the signature has more than 4,198,400 bytes.
/// `OutOfMemory` is the want of memory alone. The bytes read as the receipt.
pub fn encode(alloc: Global, receipt: &Receipt) -> Result<Bytes, EncodeStop>
    requires some { 1 ≤ length receipt.now.name }
    requires most { length receipt.now.name ≤ 128 }
    requires path { length (path_of receipt.now.proof) ≤ 32 }
    ensures bytes { Encodes (whole_receipt receipt.now) result }
    ensures strict { length receipt.now.signature ≤ longest_string → result ≡ Err EncodeStop.NotStrict → ⊥ }
    ensures again { IfOk result (λ bytes. receipt_of bytes ≡ Some receipt.now) }
{
    receipt_is_within(receipt);
    receipts_are_read_again();
    strict_items_are_spelled();
    match receipt_item(alloc, receipt) {
        Ok(item) => encode_item(alloc, &item),
        Err(_) => Err(EncodeStop::OutOfMemory),
    }
}

fn encode_item(alloc: Global, item: &Item) -> Result<Bytes, EncodeStop>
    ensures { Encodes item.now result }
{
    cbor_core::encode(alloc, item)
}
