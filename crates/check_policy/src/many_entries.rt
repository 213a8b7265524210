// Verdicts over a history of 65,536 entries, and over small histories beside a body that looks through a list of all facts.

use cbor_core::Text;
use policy_eval::{History, verdict};
use policy_rules::{Cond, CondNode, ContentKind, Facts, Policy, Rule};
use sqlite_items::Items;
use std::alloc::{AllocError, Global};
use std::process::Abort;
use std::test::Fail;

fn facts_of(alloc: Global, issuer: &str, subject: &str) -> Result<Facts, AllocError> {
    Ok(Facts {
        issuer: Text::from_str(alloc, issuer)?,
        subject: Text::from_str(alloc, subject)?,
        content_type: ContentKind::Absent,
        payload_len: 1,
    })
}

fn numbered_facts(alloc: Global, number: u32) -> Result<Facts, AllocError> {
    let subject = format!(in alloc; "s{number}")?;
    let issuer = if number % 2 == 0 { "a" } else { "b" };
    facts_of(alloc, issuer, subject.as_str())
}

fn policy_of(alloc: Global, rules: Vec<Rule>) -> Policy {
    Policy {
        version: 1,
        governors: Items::new(alloc),
        issuers: Items::new(alloc),
        rules: Items::from_vec(rules),
    }
}

// Makes room for the facts, where the history isn't full.
fn make_room(history: &mut History, facts: &Facts) -> Result<(), Fail> {
    if history.len() == 4_294_967_295 {
        return Err("full".into());
    }
    history.reserve(facts)?;
    Ok(())
}

// Adds the facts, where the history isn't full.
fn add(history: &mut History, facts: &Facts) -> Result<(), Fail> {
    if history.len() == 4_294_967_295 {
        return Err("full".into());
    }
    history.reserve(facts)?;
    history.push(facts);
    Ok(())
}

// One rule, which admits where any of so many conditions holds: that the issuer `b` has an entry of the subject.
fn any_prior(alloc: Global, count: u32) -> Result<Policy, AllocError> {
    let mut parts = Vec::new(alloc);
    for _ in 0..count {
        let issuer = Text::from_str(alloc, "b")?;
        parts.push(Cond {
            node: CondNode::Prior(issuer),
        })?;
    }
    let cond = Cond {
        node: CondNode::Any(Items::from_vec(parts)),
    };
    let mut rules = Vec::new(alloc);
    rules.push(Rule {
        id: 100,
        admit: true,
        cond,
    })?;
    Ok(policy_of(alloc, rules))
}

// A history of so many numbered entries.
fn numbered_history(alloc: Global, count: u32) -> Result<History, Fail> {
    let mut history = History::new(alloc);
    for number in 0..count {
        let facts = numbered_facts(alloc, number)?;
        add(&mut history, &facts)?;
    }
    Ok(history)
}

// The verdict on the facts with this number.
fn verdict_on(
    alloc: Global,
    policy: &Policy,
    history: &History,
    number: u32,
) -> Result<(bool, u16), AllocError> {
    let facts = numbered_facts(alloc, number)?;
    Ok(verdict(policy, history, &facts))
}

// Verdicts that look through all facts for each part don't end in the time that a test has.
#[test]
fn many_entries_are_looked_up(rt: HostRuntime) -> Result<(), Fail> {
    let alloc = rt.alloc();
    let history = numbered_history(alloc, 65_536)?;
    let policy = any_prior(alloc, 4000)?;
    for half in 0..1000 {
        let (effect, id) = verdict_on(alloc, &policy, &history, 2 * half)?;
        assert!(rt; !effect, "{half}");
        assert_eq!(rt; id, 0, "{half}");
    }
    Ok(())
}

#[test]
fn the_last_of_many_entries_counts(rt: HostRuntime) -> Result<(), Fail> {
    let alloc = rt.alloc();
    let history = numbered_history(alloc, 65_536)?;
    assert_eq!(rt; history.len(), 65_536);
    let policy = any_prior(alloc, 4000)?;
    let (effect, id) = verdict_on(alloc, &policy, &history, 65_535)?;
    assert!(rt; effect);
    assert_eq!(rt; id, 100);
    Ok(())
}

// Texts that begin alike, and one with no bytes.
const TEXTS: &[&str] = &["", "a", "b", "ab", "ba", "aa"];

fn text_at(number: usize) -> &'static str {
    match TEXTS.get(number % 6) {
        Some(text) => text,
        None => "",
    }
}

// The next of a row of numbers, each from the one before.
fn next(seed: &mut u64) -> usize {
    *seed = seed
        .wrapping_mul(6_364_136_223_846_793_005)
        .wrapping_add(1_442_695_040_888_963_407);
    (*seed >> 40) as usize
}

fn cond_at(alloc: Global, seed: &mut u64) -> Result<Cond, AllocError> {
    let node = match next(seed) % 4 {
        0 => CondNode::FirstOfSubject,
        1 => CondNode::CountBelow((next(seed) % 5) as u64),
        _ => CondNode::Prior(Text::from_str(alloc, text_at(next(seed)))?),
    };
    Ok(Cond { node })
}

fn rules_at(alloc: Global, seed: &mut u64) -> Result<Vec<Rule>, AllocError> {
    let mut rules = Vec::new(alloc);
    for number in 0..3 {
        let cond = cond_at(alloc, seed)?;
        rules.push(Rule {
            id: 100 + number,
            admit: number != 1,
            cond,
        })?;
    }
    Ok(rules)
}

// Whether a condition on earlier entries holds, by a look through all of them.
fn holds_by_scan(cond: &Cond, earlier: &[Facts], facts: &Facts) -> bool {
    let subject = facts.subject.as_slice();
    let issuer = facts.issuer.as_slice();
    match &cond.node {
        CondNode::FirstOfSubject => !earlier.iter().any(|f| f.subject.as_slice() == subject),
        CondNode::CountBelow(n) => {
            let count = earlier
                .iter()
                .filter(|f| f.issuer.as_slice() == issuer)
                .count();
            (count as u64) < *n
        }
        CondNode::Prior(text) => earlier.iter().any(|f| f.subject.as_slice() == subject
            && f.issuer.as_slice() == text.as_slice()),
        _ => false,
    }
}

fn verdict_by_scan(policy: &Policy, earlier: &[Facts], facts: &Facts) -> (bool, u16) {
    for rule in policy.rules.as_slice() {
        if holds_by_scan(&rule.cond, earlier, facts) {
            return (rule.admit, rule.id);
        }
    }
    (false, 0)
}

fn facts_at(alloc: Global, seed: &mut u64) -> Result<Facts, AllocError> {
    let issuer = text_at(next(seed));
    let subject = text_at(next(seed));
    facts_of(alloc, issuer, subject)
}

// The counts and the list give one verdict.
fn agrees(rt: &impl Abort, policy: &Policy, history: &History, earlier: &[Facts], facts: &Facts) {
    let (effect, id) = verdict(policy, history, facts);
    let (scan_effect, scan_id) = verdict_by_scan(policy, earlier, facts);
    assert_eq!(rt; effect, scan_effect);
    assert_eq!(rt; id, scan_id);
}

// A history and the list of its facts agree before each of 30 entries.
fn history_agrees(
    rt: &impl Abort,
    alloc: Global,
    policy: &Policy,
    seed: &mut u64,
) -> Result<(), Fail> {
    let mut history = History::new(alloc);
    let mut earlier = Vec::new(alloc);
    for _ in 0..30 {
        let facts = facts_at(alloc, seed)?;
        agrees(rt, policy, &history, earlier.as_slice(), &facts);
        // Room for facts that never come stands for no entry.
        let other = facts_at(alloc, seed)?;
        make_room(&mut history, &other)?;
        add(&mut history, &facts)?;
        earlier.push(facts)?;
    }
    Ok(())
}

#[test]
fn verdicts_are_those_of_a_scan(rt: HostRuntime) -> Result<(), Fail> {
    let alloc = rt.alloc();
    let mut seed = 1;
    for _ in 0..100 {
        let policy = policy_of(alloc, rules_at(alloc, &mut seed)?);
        history_agrees(&rt, alloc, &policy, &mut seed)?;
    }
    Ok(())
}
