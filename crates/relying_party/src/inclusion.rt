// The rules on a receipt of a statement.

ghost use Rattle.std.specs.Prelude.{◌≡◌, ◌≤◌, length, Some, IfOk};
ghost use Rattle.receipts.specs.Form.{receipt_of as receipt_read};
ghost use Rattle.relying_party.specs.Accepts.{included_by, result_by, receipt_result};
ghost use Rattle.relying_party.specs.Names.{HasName};

use crate::answers::ReceiptResult;
use crate::entry::entry_hash;
use crate::named::service_key;
use crate::signing::signs;
use crate::trust::Trust;
use cbor_core::{strict_item_is_exact, whole_bytes_have_one_answer};
use merkle_tree::root_from_path;
use receipts::{Proof, Receipt, ReceiptStop, decode};
use std::alloc::{AllocError, Global};

/// The receipt that bytes are.
pub(crate) fn receipt_of(alloc: Global, bytes: &[u8]) -> Result<Option<Receipt>, AllocError>
    ensures read { IfOk result (λ receipt. receipt ≡ receipt_read bytes.now) }
    ensures name { IfOk result HasName }
{
    whole_bytes_have_one_answer();
    strict_item_is_exact();
    match decode(alloc, bytes) {
        Ok(receipt) => Ok(Some(receipt)),
        Err(ReceiptStop::Cbor(_)) => Ok(None),
        Err(ReceiptStop::NotReceipt) => Ok(None),
        Err(ReceiptStop::BadProtected) => Ok(None),
        Err(ReceiptStop::BadProof) => Ok(None),
        Err(ReceiptStop::OutOfMemory) => Err(AllocError),
    }
}

fn judge(
    alloc: Global,
    trust: &Trust,
    logged: &[u8],
    receipt: &Receipt,
) -> Result<ReceiptResult, AllocError>
    requires short { length logged.now ≤ 4194304 }
    requires some { 1 ≤ length receipt.now.name }
    requires most { length receipt.now.name ≤ 128 }
    ensures { IfOk result (λ r. r ≡ result_by trust.now logged.now (Some receipt.now) (included_by receipt.now.proof)) }
{
    let Proof::Inclusion {
        size,
        index,
        path,
        at,
        rule,
    } = &receipt.proof
    else {
        return Ok(ReceiptResult::Refused(2));
    };
    let Some(key) = service_key(trust, receipt) else {
        return Ok(ReceiptResult::Refused(3));
    };
    if *size != receipt.size {
        return Ok(ReceiptResult::Refused(4));
    }
    if *index >= *size {
        return Ok(ReceiptResult::Refused(5));
    }
    let leaf = entry_hash(alloc, *at, *rule, logged)?;
    let Some(root) = root_from_path(*index, *size, &leaf, path.as_slice()) else {
        return Ok(ReceiptResult::Refused(6));
    };
    if !signs(alloc, &key, receipt, &root)? {
        return Ok(ReceiptResult::Refused(7));
    }
    Ok(ReceiptResult::Accepted {
        size: *size,
        root,
        index: *index,
        registered_at: *at,
        rule: *rule,
    })
}

/// What becomes of a receipt of the statement with this logged form, of at most 4,194,304 bytes.
pub(crate) fn judge_receipt(
    alloc: Global,
    trust: &Trust,
    logged: &[u8],
    bytes: &[u8],
) -> Result<ReceiptResult, AllocError>
    requires short { length logged.now ≤ 4194304 }
    ensures { IfOk result (λ r. r ≡ receipt_result trust.now logged.now bytes.now) }
{
    match receipt_of(alloc, bytes)? {
        Some(receipt) => judge(alloc, trust, logged, &receipt),
        None => Ok(ReceiptResult::Refused(1)),
    }
}
