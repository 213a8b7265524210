// The check of the statement itself, and the receipts behind it.

ghost use Rattle.std.specs.Prelude.{◌≡◌, ◌≤◌, Some, length, map, find, option_map, IfOk};
ghost use Rattle.std.specs.List.{list_any};
ghost use Rattle.relying_party.specs.Accepts.{is_issuer, issuer_key as key_of_issuer, is_hss as is_hss_alg, signs_statement as is_signed_by, statement_check as check_of_statement, is_fine as is_fine_check, receipt_result, is_accepted as is_accepted_result, verdict_on as verdict_of_statement};
ghost use Rattle.relying_party.specs.Short.{IsShort};

use crate::answers::{ReceiptResult, Results, StatementCheck, Verdict};
use crate::inclusion::judge_receipt;
use crate::signing::signs_message;
use crate::trust::{Issuer, Trust};
use cbor_core::Bytes;
use cose_sign1::Label;
use hss_keys::Key60;
use sqlite_items::Items;
use statement::Statement;
use std::alloc::{AllocError, Global};

fn among_issuers(issuers: &[Issuer], statement: &Statement) -> Option<Key60>
    ensures { result ≡ option_map (λ i. i.key) (find (is_issuer statement.now.issuer statement.now.kid) issuers.now) }
{
    for issuer in issuers {
        if issuer.iss.as_slice() == statement.issuer.as_slice()
            && issuer.kid.as_slice() == statement.kid.as_slice()
        {
            return Some(issuer.key);
        }
    }
    None
}

// The key of the first issuer with the statement's issuer and kid.
fn issuer_key(trust: &Trust, statement: &Statement) -> Option<Key60>
    ensures { result ≡ key_of_issuer trust.now statement.now }
{
    among_issuers(trust.issuers.as_slice(), statement)
}

fn is_hss(alg: &Option<Label>) -> bool
    ensures { result ≡ is_hss_alg alg.now }
{
    match alg {
        Some(Label::Int(n)) => *n == -46,
        _ => false,
    }
}

fn is_signed(alloc: Global, key: &Key60, statement: &Statement) -> Result<bool, AllocError>
    requires short { IsShort statement.now }
    ensures { IfOk result (λ signed. signed ≡ is_signed_by (Some key.now) statement.now) }
{
    if !is_hss(&statement.alg) {
        return Ok(false);
    }
    signs_message(
        alloc,
        key,
        statement.protected.as_slice(),
        statement.payload.as_slice(),
        statement.signature.as_slice(),
    )
}

#[tactic(auto, unfolding(crate::specs::Accepts::statement_check))]
fn statement_check(
    alloc: Global,
    trust: &Trust,
    statement: &Statement,
) -> Result<StatementCheck, AllocError>
    requires short { IsShort statement.now }
    ensures { IfOk result (λ check. check ≡ check_of_statement trust.now statement.now) }
{
    if statement.receipts.is_empty() {
        return Ok(StatementCheck::NoReceipts);
    }
    if trust.issuers.is_empty() {
        return Ok(StatementCheck::Fine);
    }
    let Some(key) = issuer_key(trust, statement) else {
        return Ok(StatementCheck::IssuerUnknown);
    };
    if !is_signed(alloc, &key, statement)? {
        return Ok(StatementCheck::IssuerSignature);
    }
    Ok(StatementCheck::Fine)
}

fn is_fine(check: &StatementCheck) -> bool
    ensures { result ≡ is_fine_check check.now }
{
    matches!(check, StatementCheck::Fine)
}

fn is_accepted(one: &ReceiptResult) -> bool
    ensures { result ≡ is_accepted_result one.now }
{
    matches!(one, ReceiptResult::Accepted { .. })
}

fn any_accepted(results: &[ReceiptResult]) -> bool
    ensures { result ≡ list_any is_accepted_result results.now }
{
    results.iter().any(|one| is_accepted(one))
}

fn judge_receipts(
    alloc: Global,
    trust: &Trust,
    logged: &[u8],
    receipts: &[Bytes],
) -> Result<Results, AllocError>
    requires short { length logged.now ≤ 4194304 }
    ensures { IfOk result (λ results. results ≡ map (receipt_result trust.now logged.now) receipts.now) }
{
    let mut results = Items::new(alloc);
    for receipt in receipts {
        results.push(judge_receipt(alloc, trust, logged, receipt.as_slice())?)?;
    }
    Ok(results)
}

/// The verdict on a statement whose strings are short.
#[tactic(auto, unfolding(crate::specs::Accepts::verdict_on))]
pub(crate) fn verdict_on(
    alloc: Global,
    trust: &Trust,
    statement: &Statement,
) -> Result<Verdict, AllocError>
    requires short { IsShort statement.now }
    ensures { IfOk result (λ verdict. verdict ≡ verdict_of_statement trust.now statement.now) }
{
    let check = statement_check(alloc, trust, statement)?;
    if !is_fine(&check) {
        return Ok(Verdict {
            statement: check,
            receipts: Items::new(alloc),
            accepted: false,
        });
    }
    let receipts = judge_receipts(
        alloc,
        trust,
        statement.logged.as_slice(),
        statement.receipts.as_slice(),
    )?;
    let accepted = any_accepted(receipts.as_slice());
    Ok(Verdict {
        statement: check,
        receipts,
        accepted,
    })
}
