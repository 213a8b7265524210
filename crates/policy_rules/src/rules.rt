// Rules, as items spell them.

ghost use Rattle.std.specs.Prelude.{◌≡◌, ℕ, ◌^◌, ◌<◌, ◌+◌, min, [], length, IfOk, sum_by};
ghost use Rattle.std.specs.List.{list_any};
ghost use Rattle.cbor_core.specs.declared.tree.Node.{out-Node};
ghost use Rattle.policy_rules.specs.Conditions.{each_onto, number_in};
ghost use Rattle.policy_rules.specs.Meaning.{cond_count};
ghost use Rattle.policy_rules.specs.Documents.{are_distinct, same_id, effect_in, rule_id_in, rule_in, rules_in, conds_of};

use crate::conditions::{Cond, CondNode};
use crate::documents::{Rule, Rules};
use crate::holders::items;
use crate::reading::{cond_of, number};
use cbor_core::Item;
use sqlite_items::Items;
use std::alloc::{AllocError, Global};

/// The deepest conditions.
pub(crate) const MOST_DEEP: u8 = 8;

/// The most conditions of a document.
const MOST_CONDS: u64 = 4096;

fn id_of(item: &Item) -> Option<u16>
    ensures { result ≡ rule_id_in item.now }
{
    let n = number(&item.node)?;
    if n < 100 || n > 65535 {
        return None;
    }
    Some(n as u16)
}

fn effect_of(item: &Item) -> Option<bool>
    ensures { result ≡ effect_in item.now }
{
    match number(&item.node)? {
        0 => Some(false),
        1 => Some(true),
        _ => None,
    }
}

fn rule_of(alloc: Global, item: &Item) -> Result<Option<Rule>, AllocError>
    ensures { IfOk result (λ rule. rule ≡ rule_in item.now) }
{
    let Some([id, effect, cond]) = items(&item.node) else {
        return Ok(None);
    };
    let Some(id) = id_of(id) else {
        return Ok(None);
    };
    let Some(admit) = effect_of(effect) else {
        return Ok(None);
    };
    match cond_of(alloc, MOST_DEEP, cond)? {
        Some(cond) => Ok(Some(Rule { id, admit, cond })),
        None => Ok(None),
    }
}

fn stands_among(rule: &Rule, others: &[Rule]) -> bool
    ensures { result ≡ list_any (same_id rule.now) others.now }
{
    others.iter().any(|other| rule.id == other.id)
}

fn ids_are_distinct(rules: &[Rule]) -> bool
    ensures { result ≡ are_distinct same_id rules.now }
{
    let mut rest = rules;
    while let Some((first, more)) = rest.split_first() {
        if stands_among(first, more) {
            return false;
        }
        rest = more;
    }
    true
}

// How many conditions there are, up to one more than the most that a document may have.
#[cycle(counting)]
fn count(cond: &Cond) -> u64
    ensures { result ≡ min (cond_count cond.now) 4097 }
{
    match &cond.node {
        CondNode::All(parts) | CondNode::Any(parts) => count_parts(parts.as_slice()),
        CondNode::Not(part) => (count(part.get()) + 1).min(4097),
        _ => 1,
    }
}

#[cycle(counting)]
fn count_parts(parts: &[Cond]) -> u64
    ensures { result ≡ min (1 + sum_by cond_count parts.now) 4097 }
{
    let mut all = 1;
    for part in parts {
        all = (all + count(part)).min(4097);
    }
    all
}

fn count_rules(rules: &[Rule]) -> u64
    ensures { result ≡ min (conds_of rules.now) 4097 }
{
    let mut all = 0;
    for rule in rules {
        all = (all + count(&rule.cond)).min(4097);
    }
    all
}

fn each_rule(alloc: Global, items: &[Item]) -> Result<Option<Rules>, AllocError>
    ensures { IfOk result (λ rules. rules ≡ each_onto rule_in [] items.now) }
{
    let mut rules = Items::new(alloc);
    for item in items {
        match rule_of(alloc, item)? {
            Some(rule) => rules.push(rule)?,
            None => return Ok(None),
        }
    }
    Ok(Some(rules))
}

/// The rules that an item spells.
pub(crate) fn rules_of(alloc: Global, item: &Item) -> Result<Option<Rules>, AllocError>
    ensures { IfOk result (λ rules. rules ≡ rules_in item.now) }
{
    let Some(items) = items(&item.node) else {
        return Ok(None);
    };
    if items.len() > 256 {
        return Ok(None);
    }
    let Some(rules) = each_rule(alloc, items)? else {
        return Ok(None);
    };
    if !ids_are_distinct(rules.as_slice()) || count_rules(rules.as_slice()) > MOST_CONDS {
        return Ok(None);
    }
    Ok(Some(rules))
}
