// Bytes as a policy document.

ghost use Rattle.std.specs.Prelude.{◌≡◌};
ghost use Rattle.cbor_core.specs.declared.tree.Node.{out-Node};
ghost use Rattle.policy_rules.specs.Documents.{is_one, version_in, placed, policy_of_parts, policy_by, policy_in, AnswersAs, ReadsItem, Decoded};

use crate::documents::{Policy, PolicyStop};
use crate::holders::{holders_of, items};
use crate::reading::number;
use crate::rules::rules_of;
use cbor_core::{DecodeStop, Item, Node, decode_strict_all};
use std::alloc::{AllocError, Global};

fn version_of(item: &Item) -> Option<u32>
    ensures { result ≡ version_in item.now }
{
    let n = number(&item.node)?;
    if n < 1 || n > 4_294_967_295 {
        return None;
    }
    Some(n as u32)
}

fn is_first_form(node: &Node) -> bool
    ensures { result ≡ is_one (out-Node node.now) }
{
    match node {
        Node::Uint(n) => *n == 1,
        _ => false,
    }
}

fn at_place<T: Drop>(place: u8, read: Result<Option<T>, AllocError>) -> Result<T, PolicyStop>
    ensures { result ≡ placed place read }
{
    match read {
        Ok(Some(found)) => Ok(found),
        Ok(None) => Err(PolicyStop::BadPolicy(place)),
        Err(_) => Err(PolicyStop::OutOfMemory),
    }
}

fn policy_with(
    alloc: Global,
    version: &Item,
    governors: &Item,
    issuers: &Item,
    rules: &Item,
) -> Result<Policy, PolicyStop>
    ensures { AnswersAs result (policy_of_parts version.now governors.now issuers.now rules.now) }
{
    let Some(version) = version_of(version) else {
        return Err(PolicyStop::BadPolicy(2));
    };
    let governors = at_place(3, holders_of(alloc, 1, 16, governors))?;
    let issuers = at_place(4, holders_of(alloc, 0, 256, issuers))?;
    let rules = at_place(5, rules_of(alloc, rules))?;
    Ok(Policy {
        version,
        governors,
        issuers,
        rules,
    })
}

#[tactic(auto, unfolding(crate::specs::Documents::policy_in))]
fn policy_of(alloc: Global, item: &Item) -> Result<Policy, PolicyStop>
    ensures { AnswersAs result (policy_in item.now) }
{
    let Some([form, version, governors, issuers, rules]) = items(&item.node) else {
        return Err(PolicyStop::BadPolicy(1));
    };
    if !is_first_form(&form.node) {
        return Err(PolicyStop::BadPolicy(1));
    }
    policy_with(alloc, version, governors, issuers, rules)
}

fn read(alloc: Global, bytes: &[u8]) -> Result<Item, PolicyStop>
    ensures { ReadsItem bytes.now result }
{
    match decode_strict_all(alloc, bytes) {
        Ok(item) => Ok(item),
        Err(DecodeStop::Fault(fault)) => Err(PolicyStop::Cbor(fault)),
        Err(DecodeStop::OutOfMemory) => Err(PolicyStop::OutOfMemory),
    }
}

/// The policy document that bytes strictly spell.
///
/// `Cbor` is the fault of the bytes as an item; then `BadPolicy` the first place that fails: 1 the shape, 2 the version, 3 the
/// governors, 4 the issuers, 5 the rules. `OutOfMemory` is the want of memory alone.
pub fn decode(alloc: Global, bytes: &[u8]) -> Result<Policy, PolicyStop>
    ensures { Decoded bytes.now result }
{
    let item = read(alloc, bytes)?;
    policy_of(alloc, &item)
}
