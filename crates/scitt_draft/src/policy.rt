// The governor's policy.

ghost use Rattle.std.specs.Prelude.{◌≡◌, ◌≤◌, ◌∷◌, [], IfOk, length, true};
ghost use Rattle.cbor_core.specs.Fitting.{is_strict_item, strict_len};
ghost use Rattle.cbor_core.specs.Exact.{strict_text};
ghost use Rattle.policy_rules.specs.Spelling.{policy_item};
ghost use Rattle.scitt_draft.specs.Named.{IsShort};
ghost use Rattle.scitt_draft.specs.Stated as stated;

use cbor_core::{
    Bytes, EncodeStop, Text, strict_item_by_kind, strict_items_are_spelled, strict_len_by_kind,
    strict_text_is_exact,
};
use policy_rules::{Cond, CondNode, Holder, Policy, Rule, Rules};
use sqlite_items::{Boxed, Items};
use std::alloc::{AllocError, Global};

fn issuer(alloc: Global, name: &str) -> Result<Cond, AllocError>
    ensures { IfOk result (λ cond. cond ≡ stated.is_issuer name.now) }
{
    let name = Text::from_str(alloc, name)?;
    Ok(Cond {
        node: CondNode::Issuer(name),
    })
}

fn known_subject(alloc: Global) -> Result<Cond, AllocError>
    ensures { IfOk result (λ cond. cond ≡ stated.is_known_subject) }
{
    let first = Cond {
        node: CondNode::FirstOfSubject,
    };
    Ok(Cond {
        node: CondNode::Not(Boxed::new(alloc, first)?),
    })
}

// All of: the issuer is `issuer-2`, and the subject isn't new.
fn again(alloc: Global) -> Result<Cond, AllocError>
    ensures { IfOk result (λ cond. cond ≡ stated.again) }
{
    let mut parts = Items::new(alloc);
    parts.push(issuer(alloc, "issuer-2")?)?;
    parts.push(known_subject(alloc)?)?;
    Ok(Cond {
        node: CondNode::All(parts),
    })
}

fn rules(alloc: Global) -> Result<Rules, AllocError>
    ensures { IfOk result (λ rules. rules ≡ stated.rules) }
{
    let mut rules = Items::new(alloc);
    rules.push(Rule {
        id: 100,
        admit: false,
        cond: again(alloc)?,
    })?;
    rules.push(Rule {
        id: 101,
        admit: true,
        cond: Cond {
            node: CondNode::All(Items::new(alloc)),
        },
    })?;
    Ok(rules)
}

#[tactic(auto, unfolding(crate::specs::Stated::policy))]
fn policy(alloc: Global, governor: Holder, issuers: Items<Holder>) -> Result<Policy, AllocError>
    requires governor { governor ≡ stated.governor_holder }
    requires issuers { issuers ≡ stated.issuers }
    ensures { IfOk result (λ policy. policy ≡ stated.policy) }
{
    let mut governors = Items::new(alloc);
    governors.push(governor)?;
    Ok(Policy {
        version: 1,
        governors,
        issuers,
        rules: rules(alloc)?,
    })
}

// The strict bytes of a policy that has them.
fn text_of(alloc: Global, policy: &Policy) -> Result<Bytes, AllocError>
    requires strict { is_strict_item 16 (policy_item policy.now) ≡ true }
    requires short { strict_len 16 (policy_item policy.now) ≤ 6000 }
    ensures text { IfOk result (λ bytes. bytes ≡ strict_text (policy_item policy.now)) }
    ensures few { IfOk result (λ bytes. length bytes ≤ 6000) }
{
    strict_items_are_spelled();
    strict_text_is_exact();
    match policy_rules::encode(alloc, policy) {
        Ok(bytes) => Ok(bytes),
        Err(EncodeStop::NotStrict) => unreachable!(),
        Err(EncodeStop::OutOfMemory) => Err(AllocError),
    }
}

/// The document of version 1 of this governor and these issuers: what `issuer-2` says of a subject that an earlier entry has is denied,
/// and all else of them is admitted.
pub(crate) fn document(
    alloc: Global,
    governor: Holder,
    issuers: Items<Holder>,
) -> Result<Bytes, AllocError>
    requires governor { governor ≡ stated.governor_holder }
    requires issuers { issuers ≡ stated.issuers }
    requires short { IsShort stated.governor_holder }
    requires zero { IsShort (stated.issuer_holder 0) }
    requires one { IsShort (stated.issuer_holder 1) }
    requires two { IsShort (stated.issuer_holder 2) }
    ensures text { IfOk result (λ bytes. bytes ≡ strict_text (policy_item stated.policy)) }
    ensures few { IfOk result (λ bytes. length bytes ≤ 6000) }
{
    strict_item_by_kind();
    strict_len_by_kind();
    let policy = policy(alloc, governor, issuers)?;
    text_of(alloc, &policy)
}
