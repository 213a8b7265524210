// The bytes of a policy.

ghost use Rattle.std.specs.Prelude.{◌≡◌, ◌++◌, ◌∷◌, [], IfOk, OnOk, map};
ghost use Rattle.policy_rules.specs.Spelling.{uint_item, text_item, bytes_item, array_item, coded as coded_item, cond_item, holder_item, effect_number, rule_item, policy_item, IsDocument, MadeOf};
ghost use Rattle.policy_rules.specs.Documents.{PolicyOf};

use crate::conditions::{Cond, CondNode};
use crate::documents::{Holder, Policy, Rule};
use cbor_core::{Bytes, EncodeStop, Item, Node, Text, encode as encode_item};
use sqlite_items::Items;
use std::alloc::{AllocError, Global};

fn uint(n: u64) -> Item
    ensures { result ≡ uint_item n }
{
    Item {
        node: Node::Uint(n),
    }
}

fn array(items: Items<Item>) -> Item
    ensures { result ≡ array_item items }
{
    Item {
        node: Node::Array(items),
    }
}

fn text(alloc: Global, text: &Text) -> Result<Item, AllocError>
    ensures { IfOk result (λ item. item ≡ text_item text.now) }
{
    let copy = Text::from_str(alloc, text.as_str())?;
    Ok(Item {
        node: Node::Text(copy),
    })
}

fn bytes(alloc: Global, bytes: &[u8]) -> Result<Item, AllocError>
    ensures { IfOk result (λ item. item ≡ bytes_item bytes.now) }
{
    let copy = Bytes::from_slice(alloc, bytes)?;
    Ok(Item {
        node: Node::Bytes(copy),
    })
}

// A code with one operand, or with none.
fn coded(alloc: Global, code: u64, operand: Item) -> Result<Item, AllocError>
    ensures { IfOk result (λ item. item ≡ coded_item code (operand ∷ [])) }
{
    let mut items = Items::new(alloc);
    items.push(uint(code))?;
    items.push(operand)?;
    Ok(array(items))
}

fn bare(alloc: Global, code: u64) -> Result<Item, AllocError>
    ensures { IfOk result (λ item. item ≡ coded_item code []) }
{
    let mut items = Items::new(alloc);
    items.push(uint(code))?;
    Ok(array(items))
}

#[cycle(spelling)]
fn items_of(alloc: Global, code: u64, parts: &[Cond]) -> Result<Item, AllocError>
    ensures { IfOk result (λ item. item ≡ coded_item code (map cond_item parts.now)) }
{
    let mut items = Items::new(alloc);
    items.push(uint(code))?;
    for part in parts {
        items.push(item_of(alloc, part)?)?;
    }
    Ok(array(items))
}

#[cycle(spelling)]
fn item_of(alloc: Global, cond: &Cond) -> Result<Item, AllocError>
    ensures { IfOk result (λ item. item ≡ cond_item cond.now) }
{
    match &cond.node {
        CondNode::All(parts) => items_of(alloc, 0, parts.as_slice()),
        CondNode::Any(parts) => items_of(alloc, 1, parts.as_slice()),
        CondNode::Not(part) => coded(alloc, 2, item_of(alloc, part.get())?),
        CondNode::Issuer(name) => coded(alloc, 3, text(alloc, name)?),
        CondNode::SubjectPrefix(name) => coded(alloc, 4, text(alloc, name)?),
        CondNode::ContentType(name) => coded(alloc, 5, text(alloc, name)?),
        CondNode::PayloadAtMost(n) => coded(alloc, 6, uint(*n)),
        CondNode::FirstOfSubject => bare(alloc, 7),
        CondNode::CountBelow(n) => coded(alloc, 8, uint(*n)),
        CondNode::Prior(name) => coded(alloc, 9, text(alloc, name)?),
    }
}

fn three(alloc: Global, a: Item, b: Item, c: Item) -> Result<Item, AllocError>
    ensures { IfOk result (λ item. item ≡ array_item (a ∷ b ∷ c ∷ [])) }
{
    let mut items = Items::new(alloc);
    items.push(a)?;
    items.push(b)?;
    items.push(c)?;
    Ok(array(items))
}

fn holder(alloc: Global, holder: &Holder) -> Result<Item, AllocError>
    ensures { IfOk result (λ item. item ≡ holder_item holder.now) }
{
    let iss = text(alloc, &holder.iss)?;
    let kid = bytes(alloc, holder.kid.as_slice())?;
    let key = bytes(alloc, holder.key.as_slice())?;
    three(alloc, iss, kid, key)
}

fn holders(alloc: Global, all: &[Holder]) -> Result<Item, AllocError>
    ensures { IfOk result (λ item. item ≡ array_item (map holder_item all.now)) }
{
    let mut items = Items::new(alloc);
    for one in all {
        items.push(holder(alloc, one)?)?;
    }
    Ok(array(items))
}

fn effect(admit: bool) -> u64
    ensures { result ≡ effect_number admit }
{
    if admit { 1 } else { 0 }
}

fn rule(alloc: Global, rule: &Rule) -> Result<Item, AllocError>
    ensures { IfOk result (λ item. item ≡ rule_item rule.now) }
{
    let cond = item_of(alloc, &rule.cond)?;
    three(
        alloc,
        uint(u64::from(rule.id)),
        uint(effect(rule.admit)),
        cond,
    )
}

fn rules(alloc: Global, all: &[Rule]) -> Result<Item, AllocError>
    ensures { IfOk result (λ item. item ≡ array_item (map rule_item all.now)) }
{
    let mut items = Items::new(alloc);
    for one in all {
        items.push(rule(alloc, one)?)?;
    }
    Ok(array(items))
}

fn document(alloc: Global, policy: &Policy) -> Result<Item, AllocError>
    ensures { IfOk result (λ item. item ≡ policy_item policy.now) }
{
    let governors = holders(alloc, policy.governors.as_slice())?;
    let issuers = holders(alloc, policy.issuers.as_slice())?;
    let rules = rules(alloc, policy.rules.as_slice())?;
    let mut items = Items::new(alloc);
    items.push(uint(1))?;
    items.push(uint(u64::from(policy.version)))?;
    items.push(governors)?;
    items.push(issuers)?;
    items.push(rules)?;
    Ok(array(items))
}

/// The strict bytes of a policy.
///
/// For a policy that meets the rules of documents they are a document that decodes to it. Those of `Policy::bootstrap` spell it in the
/// same form. `NotStrict` comes only where the policy's item has no strict bytes, and `OutOfMemory` is the want of memory alone.
pub fn encode(alloc: Global, policy: &Policy) -> Result<Bytes, EncodeStop>
    ensures made { MadeOf (policy_item policy.now) result }
    ensures document { IsDocument policy.now → IfOk result (λ bytes. PolicyOf bytes policy.now) }
{
    let Ok(item) = document(alloc, policy) else {
        return Err(EncodeStop::OutOfMemory);
    };
    encode_item(alloc, &item)
}
