ghost use Rattle.std.specs.Prelude.{◌≡◌, ◌++◌, IfOk, OnOk};
ghost use Rattle.std.specs.String.{string_bytes};
ghost use Rattle.scitt_tool.specs.Answer.{line, refused};
ghost use Rattle.scitt_tool.specs.Verify.{VerifyOf, verdict_answer, check_text as text_of_check, place_text, entry_text, result_text, number_text, receipt_line, receipt_lines};

use crate::lines::push_line;
use command_line::Answer;
use relying_party::{ReceiptResult, StatementCheck, Trust, TrustStop, Verdict, verify_transparent};
use std::alloc::{AllocError, Global};

/// What `verify` answers of a trust file's bytes and a statement's.
pub(crate) fn verify(alloc: Global, trust: &[u8], statement: &[u8]) -> Result<Answer, AllocError>
    ensures { IfOk result (VerifyOf trust.now statement.now) }
{
    match Trust::decode(alloc, trust) {
        Ok(trust) => {
            let verdict = verify_transparent(alloc, &trust, statement)?;
            verdict_answer(alloc, &verdict)
        }
        Err(TrustStop::Cbor(_)) => Ok(Answer::fixed(1, "refused trust\n")),
        Err(TrustStop::BadTrust) => Ok(Answer::fixed(1, "refused trust\n")),
        Err(TrustStop::OutOfMemory) => Err(AllocError),
    }
}

fn verdict_answer(alloc: Global, verdict: &Verdict) -> Result<Answer, AllocError>
    ensures { IfOk result (λ answer. answer ≡ verdict_answer verdict.now) }
{
    let mut text = String::new(alloc);
    push_line(&mut text, check_text(&verdict.statement), "")?;
    push_receipts(alloc, &mut text, verdict.receipts.as_slice())?;
    if verdict.accepted {
        text.push_str("accepted\n")?;
        return Ok(Answer::made(0, text));
    }
    text.push_str("refused\n")?;
    Ok(Answer::made(1, text))
}

fn check_text(check: &StatementCheck) -> &'static str
    ensures { result.now ≡ text_of_check check.now }
{
    match check {
        StatementCheck::Parse(_) => "statement refused Parse",
        StatementCheck::NoReceipts => "statement refused NoReceipts",
        StatementCheck::IssuerUnknown => "statement refused IssuerUnknown",
        StatementCheck::IssuerSignature => "statement refused IssuerSignature",
        StatementCheck::Fine => "statement fine",
    }
}

fn push_receipts(
    alloc: Global,
    out: &mut String,
    receipts: &[ReceiptResult],
) -> Result<(), AllocError>
    ensures { OnOk result (string_bytes out.new ≡ string_bytes out.old ++ receipt_lines 0 receipts.now) }
{
    let mut number: usize = 0;
    for receipt in receipts {
        push_receipt(alloc, out, number, receipt)?;
        number += 1;
    }
    Ok(())
}

fn push_receipt(
    alloc: Global,
    out: &mut String,
    number: usize,
    receipt: &ReceiptResult,
) -> Result<(), AllocError>
    ensures { OnOk result (string_bytes out.new ≡ string_bytes out.old ++ receipt_line number receipt.now) }
{
    let number = number_text(alloc, number)?;
    let text = result_text(alloc, receipt)?;
    push_line(out, number.as_str(), text.as_str())
}

fn number_text(alloc: Global, number: usize) -> Result<String, AllocError>
    ensures { IfOk result (λ text. string_bytes text ≡ number_text number) }
{
    let text = format!(in alloc; "receipt {number} ")?;
    Ok(text)
}

fn result_text(alloc: Global, receipt: &ReceiptResult) -> Result<String, AllocError>
    ensures { IfOk result (λ text. string_bytes text ≡ result_text receipt.now) }
{
    match receipt {
        ReceiptResult::Accepted {
            size,
            index,
            registered_at,
            rule,
            ..
        } => {
            let mut text = place_text(alloc, *size, *index)?;
            let entry = entry_text(alloc, *registered_at, *rule)?;
            text.push_str(entry.as_str())?;
            Ok(text)
        }
        ReceiptResult::Refused(rule) => {
            let text = format!(in alloc; "refused rule {rule}")?;
            Ok(text)
        }
    }
}

fn place_text(alloc: Global, size: u32, index: u32) -> Result<String, AllocError>
    ensures { IfOk result (λ text. string_bytes text ≡ place_text size index) }
{
    let mut text = format!(in alloc; "accepted size {size}")?;
    let index = format!(in alloc; " index {index}")?;
    text.push_str(index.as_str())?;
    Ok(text)
}

fn entry_text(alloc: Global, at: u64, rule: u16) -> Result<String, AllocError>
    ensures { IfOk result (λ text. string_bytes text ≡ entry_text at rule) }
{
    let mut text = format!(in alloc; " registered {at}")?;
    let rule = format!(in alloc; " rule {rule}")?;
    text.push_str(rule.as_str())?;
    Ok(text)
}
