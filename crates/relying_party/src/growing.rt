// Consistency receipts.

ghost use Rattle.std.specs.Prelude.{◌≡◌, ◌≤◌, length, Some, IfOk};
ghost use Rattle.relying_party.specs.Growth.{grown_by, growth_by, AcceptsConsistency};
ghost use Rattle.relying_party.specs.Meaning.{MeansGrowth};

use crate::answers::ConsistencyResult;
use crate::inclusion::receipt_of;
use crate::laws::consistent_receipts_mean_growth;
use crate::named::service_key;
use crate::signing::signs;
use crate::trust::Trust;
use merkle_tree::{Hash, roots_from_consistency};
use receipts::{Proof, Receipt};
use std::alloc::{AllocError, Global};

fn judge(
    alloc: Global,
    trust: &Trust,
    receipt: &Receipt,
    given: u32,
    given_root: &Hash,
) -> Result<ConsistencyResult, AllocError>
    requires some { 1 ≤ length receipt.now.name }
    requires most { length receipt.now.name ≤ 128 }
    ensures { IfOk result (λ r. r ≡ growth_by trust.now given given_root.now (Some receipt.now) (grown_by receipt.now.proof)) }
{
    let Proof::Consistency { old, size, path } = &receipt.proof else {
        return Ok(ConsistencyResult::Refused(2));
    };
    let Some(key) = service_key(trust, receipt) else {
        return Ok(ConsistencyResult::Refused(3));
    };
    if *size != receipt.size {
        return Ok(ConsistencyResult::Refused(4));
    }
    if *old != given || *old == 0 || *old > *size {
        return Ok(ConsistencyResult::Refused(5));
    }
    let Some(roots) = roots_from_consistency(*old, *size, given_root, path.as_slice()) else {
        return Ok(ConsistencyResult::Refused(6));
    };
    let (old_root, root) = roots;
    if old_root.as_slice() != given_root.as_slice() {
        return Ok(ConsistencyResult::Refused(6));
    }
    if !signs(alloc, &key, receipt, &root)? {
        return Ok(ConsistencyResult::Refused(7));
    }
    Ok(ConsistencyResult::Consistent { size: *size, root })
}

fn judge_bytes(
    alloc: Global,
    trust: &Trust,
    receipt: &[u8],
    old: u32,
    old_root: &Hash,
) -> Result<ConsistencyResult, AllocError>
    ensures { IfOk result (AcceptsConsistency trust.now receipt.now old old_root.now) }
{
    match receipt_of(alloc, receipt)? {
        Some(receipt) => judge(alloc, trust, &receipt, old, old_root),
        None => Ok(ConsistencyResult::Refused(1)),
    }
}

/// What a relying party that has the root of `old` entries answers of a consistency receipt: the newer size and root, or the first rule that
/// fails (`ConsistencyResult`). The only error is the want of memory.
///
/// A consistent answer means that whatever two lists have these sizes and roots, the longer one begins with the other, where nothing that is
/// hashed collides.
pub fn verify_consistency(
    alloc: Global,
    trust: &Trust,
    receipt: &[u8],
    old: u32,
    old_root: &Hash,
) -> Result<ConsistencyResult, AllocError>
    ensures accepts { IfOk result (AcceptsConsistency trust.now receipt.now old old_root.now) }
    ensures means { IfOk result (MeansGrowth receipt.now old old_root.now) }
{
    consistent_receipts_mean_growth();
    judge_bytes(alloc, trust, receipt, old, old_root)
}
