// The judgement of a statement that isn't in the log.

ghost use Rattle.std.specs.Prelude.{◌≡◌};
ghost use Rattle.statement.specs.Said.{said_of};
ghost use Rattle.log_replay.specs.Judging.{is_hss as is_hss_alg, is_below as is_below_moment, is_reached as is_reached_moment, is_signed_by, key_among as key_of_holders, holders_for, judged_by as judged, judge_new as judgement_new};

use crate::checked::{Checked, is_policy};
use crate::keys::verifies;
use crate::words::Judgement;
use cose_sign1::Label;
use hss_keys::Key60;
use policy_eval::{History, verdict};
use policy_rules::{Holder, Policy};
use statement::Statement;

fn is_hss(alg: &Option<Label>) -> bool
    ensures { result ≡ is_hss_alg alg.now }
{
    match alg {
        Some(Label::Int(n)) => *n == -46,
        _ => false,
    }
}

fn is_below(moment: u64, nbf: Option<u64>) -> bool
    ensures { result ≡ is_below_moment moment nbf }
{
    match nbf {
        Some(n) => moment < n,
        None => false,
    }
}

fn is_reached(moment: u64, exp: Option<u64>) -> bool
    ensures { result ≡ is_reached_moment moment exp }
{
    match exp {
        Some(n) => n <= moment,
        None => false,
    }
}

// The key of the first of these holders with the statement's issuer and kid.
fn key_among(holders: &[Holder], statement: &Statement) -> Option<Key60>
    ensures { result ≡ key_of_holders holders.now (said_of statement.now) }
{
    for holder in holders {
        if holder.iss.as_slice() == statement.issuer.as_slice()
            && holder.kid.as_slice() == statement.kid.as_slice()
        {
            return Some(holder.key);
        }
    }
    None
}

/// The key that a policy names for a statement, looked for among its governors, or among its issuers.
pub(crate) fn key_for(policy: &Policy, statement: &Statement, governs: bool) -> Option<Key60>
    ensures { result ≡ key_of_holders (holders_for policy.now governs) (said_of statement.now) }
{
    if governs {
        key_among(policy.governors.as_slice(), statement)
    } else {
        key_among(policy.issuers.as_slice(), statement)
    }
}

// Whether the statement's signature verifies under the key: what was checked before counts for its own key alone.
fn is_signed(key: &Key60, checked: &Checked) -> bool
    ensures { result ≡ is_signed_by (Some key.now) (said_of checked.now.statement) }
{
    match &checked.pair {
        Some(pair) if pair.0.as_slice() == key.as_slice() => pair.1,
        _ => verifies(
            key,
            checked.statement.signature.as_slice(),
            checked.signed.as_slice(),
        ),
    }
}

fn judged_by(verdict: (bool, u16)) -> Judgement
    ensures { result ≡ judged verdict }
{
    match verdict {
        (true, rule) => Judgement::Admit(rule),
        (false, rule) => Judgement::Deny(rule),
    }
}

/// The judgement of a statement that isn't in the log, under a policy, after these entries, at the judged moment.
#[tactic(auto, unfolding(crate::specs::Judging::judge_new))]
pub(crate) fn judge_new(
    policy: &Policy,
    history: &History,
    checked: &Checked,
    moment: u64,
) -> Judgement
    ensures { result ≡ judgement_new policy.now history.now.entries (said_of checked.now.statement) moment }
{
    let statement = &checked.statement;
    if !is_hss(&statement.alg) {
        return Judgement::Deny(2);
    }
    let governs = is_policy(statement);
    let Some(key) = key_for(policy, statement, governs) else {
        return Judgement::Deny(if governs { 3 } else { 4 });
    };
    if !is_signed(&key, checked) {
        return Judgement::Deny(5);
    }
    if is_below(moment, statement.nbf) {
        return Judgement::Deny(6);
    }
    if is_reached(moment, statement.exp) {
        return Judgement::Deny(7);
    }
    if governs {
        let Some(document) = &checked.document else {
            return Judgement::Deny(8);
        };
        if document.version <= policy.version {
            return Judgement::Deny(9);
        }
        return Judgement::Admit(1);
    }
    judged_by(verdict(policy, history, &checked.facts))
}
