// When conditions hold, and the verdict.

ghost use Rattle.std.specs.Prelude.{◌≡◌, ◌&&◌, false, nat_eq, nat_lt, find, count_by};
ghost use Rattle.std.specs.List.{list_any, list_all, starts_with};
ghost use Rattle.std.specs.Option.{option_map_or};
ghost use Rattle.policy_eval.specs.Cases.{case_of};
ghost use Rattle.policy_eval.specs.Holds.{has_issuer, has_subject, is_named, holds as cond_holds, verdict as verdict_of};

use crate::counts::Counts;
use crate::history::History;
use cbor_core::Text;
use policy_rules::{Cond, CondNode, ContentKind, Facts, Policy, Rule};

fn same(a: &Text, b: &Text) -> bool
    ensures { result ≡ Rattle.std.specs.Str.bytes_eq a.now b.now }
{
    a.as_slice() == b.as_slice()
}

fn kind_is(kind: &ContentKind, text: &Text) -> bool
    ensures { result ≡ is_named text.now kind.now }
{
    match kind {
        ContentKind::Named(name) => same(name, text),
        _ => false,
    }
}

fn begins(subject: &Text, text: &Text) -> bool
    ensures { result ≡ starts_with nat_eq subject.now text.now }
{
    subject.as_slice().starts_with(text.as_slice())
}

fn subject_stands(earlier: &Counts, subject: &Text) -> bool
    ensures { result ≡ list_any (has_subject subject.now) earlier.now.entries }
{
    earlier.of_subject(subject) > 0
}

fn count_is_below(earlier: &Counts, issuer: &Text, n: u64) -> bool
    ensures { result ≡ nat_lt (count_by (has_issuer issuer.now) earlier.now.entries) n }
{
    (earlier.of_issuer(issuer) as u64) < n
}

fn stands_with(earlier: &Counts, subject: &Text, issuer: &Text) -> bool
    ensures { result ≡ list_any (λ f. has_subject subject.now f && has_issuer issuer.now f) earlier.now.entries }
{
    earlier.of_both(subject, issuer) > 0
}

#[cycle(holding)]
fn all_hold(conds: &[Cond], earlier: &Counts, facts: &Facts) -> bool
    ensures { result ≡ list_all (λ cond. cond_holds cond (case_of earlier.now.entries facts.now)) conds.now }
{
    for cond in conds {
        if !holds(cond, earlier, facts) {
            return false;
        }
    }
    true
}

#[cycle(holding)]
fn any_holds(conds: &[Cond], earlier: &Counts, facts: &Facts) -> bool
    ensures { result ≡ list_any (λ cond. cond_holds cond (case_of earlier.now.entries facts.now)) conds.now }
{
    for cond in conds {
        if holds(cond, earlier, facts) {
            return true;
        }
    }
    false
}

#[cycle(holding)]
fn holds(cond: &Cond, earlier: &Counts, facts: &Facts) -> bool
    ensures { result ≡ cond_holds cond.now (case_of earlier.now.entries facts.now) }
{
    match &cond.node {
        CondNode::All(parts) => all_hold(parts.as_slice(), earlier, facts),
        CondNode::Any(parts) => any_holds(parts.as_slice(), earlier, facts),
        CondNode::Not(part) => !holds(part.get(), earlier, facts),
        CondNode::Issuer(text) => same(&facts.issuer, text),
        CondNode::SubjectPrefix(text) => begins(&facts.subject, text),
        CondNode::ContentType(text) => kind_is(&facts.content_type, text),
        CondNode::PayloadAtMost(n) => facts.payload_len <= *n,
        CondNode::FirstOfSubject => !subject_stands(earlier, &facts.subject),
        CondNode::CountBelow(n) => count_is_below(earlier, &facts.issuer, *n),
        CondNode::Prior(text) => stands_with(earlier, &facts.subject, text),
    }
}

fn first_rule(rules: &[Rule], earlier: &Counts, facts: &Facts) -> (bool, u16)
    ensures { result ≡ option_map_or (λ r. (r.admit, r.id)) (find (λ r. cond_holds r.cond (case_of earlier.now.entries facts.now)) rules.now) (false, 0) }
{
    for rule in rules {
        if holds(&rule.cond, earlier, facts) {
            return (rule.admit, rule.id);
        }
    }
    (false, 0)
}

/// The effect and the id of the first rule whose condition holds, else a denial by rule 0. It takes no memory.
pub fn verdict(policy: &Policy, history: &History, facts: &Facts) -> (bool, u16)
    ensures { result ≡ verdict_of policy.now (case_of history.now.entries facts.now) }
{
    first_rule(policy.rules.as_slice(), history.counts(), facts)
}
